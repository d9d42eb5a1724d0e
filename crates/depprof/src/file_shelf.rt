// The files of the system. They tell no content.
ghost use Rattle.std.specs.Prelude.{◌≡◌};
ghost use Rattle.depprof.specs.Faults.{StandsAt};

use crate::causes::{Call, Cause};
use crate::progress::Counts;
use crate::streams::{read_some, write_some};
use end_notes::{Hint, Sample};
use ports::{Closing, Creating, Opening, Reading, Shelf, Writing};
use rel_base::Name;
use std::alloc::Global;
use std::rt::Files;
use std::{fs, mem};

/// What is open, under its name, and whether a call on it failed.
#[derive(Drop)]
enum Held<F> {
    Nothing,
    ForReading { name: Name, file: F, failed: bool },
    ForWriting { name: Name, file: F, failed: bool },
}

/// The files of the system, by their paths. Each write is flushed in the same call. A file is closed when it is let go, which the system does not
/// report on.
#[derive(Drop)]
pub struct FileShelf<'r, R: Files> {
    rt: &'r R,
    held: Held<R::File>,
    opens: u64,
    read_faults: u64,
    read_last: Option<Name>,
    write_faults: u64,
    write_last: Option<Name>,
    // For people alone: why a call failed, and what the files look like.
    cause: Option<Cause>,
    sample: Sample,
    hints: Vec<(Name, Hint)>,
    counts: Option<&'r Counts>,
}

impl<'r, R: Files + Alloc<A = Global>> FileShelf<'r, R> {
    ghost use Rattle.ports.specs.Files.{Nothing};
    ghost use Rattle.depprof.specs.Held.{access_of};

    /// The files of the system, with nothing open and no fault counted. What is read and written is counted where counts are kept.
    pub fn new(rt: &'r R, counts: Option<&'r Counts>) -> FileShelf<'r, R>
        ensures { access_of result.held ≡ Nothing }
    {
        FileShelf {
            rt,
            held: Held::Nothing,
            opens: 0,
            read_faults: 0,
            read_last: None,
            write_faults: 0,
            write_last: None,
            cause: None,
            sample: Sample::new(),
            hints: Vec::new(rt.alloc()),
            counts,
        }
    }

    /// Why the last call that failed did.
    pub fn cause(&self) -> Option<&Cause> {
        self.cause.as_ref()
    }

    /// The last file on which a call that writes failed.
    pub fn written(&self) -> &str {
        match &self.write_last {
            Some(name) => name.as_str(),
            None => "a file",
        }
    }

    /// What the files that were read to their ends look like, where they may be meant otherwise.
    pub fn hints(&self) -> &[(Name, Hint)] {
        self.hints.as_slice()
    }

    // Counts a file that was opened, with its size where it is a plain one.
    fn count_open(&self, name: &str) {
        if let Some(counts) = self.counts {
            counts.opened(match fs::metadata(self.rt, name) {
                Ok(found) if found.is_file() => found.len(),
                _ => 0,
            });
        }
    }

    // Keeps what the file looks like that was read to its end. Where memory is lacking, that is left out.
    fn note_hint(&mut self)
        ensures held { self.new.held ≡ self.old.held }
        ensures opens { self.new.opens ≡ self.old.opens }
        ensures read_faults { self.new.read_faults ≡ self.old.read_faults }
        ensures read_last { self.new.read_last ≡ self.old.read_last }
        ensures write_faults { self.new.write_faults ≡ self.old.write_faults }
        ensures write_last { self.new.write_last ≡ self.old.write_last }
    {
        let Held::ForReading { name, .. } = &self.held else {
            return;
        };
        let Some(hint) = self.sample.hint() else {
            return;
        };
        if let Ok(name) = String::from_str(self.rt.alloc(), name.as_str()) {
            let _kept = self.hints.push((Name::of(name), hint));
        }
    }
}

impl<R: Files + Alloc<A = Global>> Shelf for FileShelf<'_, R> {
    ghost use Rattle.std.specs.Prelude.{None};
    ghost use Rattle.depprof.specs.Held.{access_of, read_last_of, write_last_of};

    ghost content = { λ _. None };

    ghost opened = { λ s. access_of s.held };

    ghost opens = { λ s. s.opens };

    ghost taken = { λ _. 0 };

    ghost read_faults = { λ s. s.read_faults };

    ghost read_last = { λ s. read_last_of s.held s.read_last };

    ghost write_faults = { λ s. s.write_faults };

    ghost write_last = { λ s. write_last_of s.held s.write_last };

    fn open(&mut self, name: Name) -> Opening {
        self.opens = self.opens.saturating_add(1);
        self.sample = Sample::new();
        match fs::open(self.rt, name.as_str()) {
            Ok(file) => {
                self.count_open(name.as_str());
                self.held = Held::ForReading {
                    name,
                    file,
                    failed: false,
                };
                Opening::Opened
            }
            Err(error) => {
                self.cause = Some(Cause {
                    call: Call::Open,
                    error,
                });
                self.read_faults = self.read_faults.saturating_add(1);
                self.read_last = Some(name);
                Opening::Failed
            }
        }
    }

    fn read(&mut self, buffer: &mut [u8]) -> Reading {
        let Held::ForReading { file, failed, .. } = &mut self.held else {
            unreachable!()
        };
        let answer = read_some(file, buffer, &mut self.cause);
        match answer {
            Reading::Got(count) => {
                self.sample.note(buffer.get(..count).unwrap_or(&[]));
                if let Some(counts) = self.counts {
                    counts.got(count);
                }
            }
            Reading::End => self.note_hint(),
            Reading::Failed => {
                *failed = true;
                self.read_faults = self.read_faults.saturating_add(1);
            }
        }
        answer
    }

    fn create(&mut self, name: Name) -> Creating {
        match fs::create(self.rt, name.as_str()) {
            Ok(file) => {
                self.held = Held::ForWriting {
                    name,
                    file,
                    failed: false,
                };
                Creating::Created
            }
            Err(error) => {
                self.cause = Some(Cause {
                    call: Call::Create,
                    error,
                });
                self.write_faults = self.write_faults.saturating_add(1);
                self.write_last = Some(name);
                Creating::Failed
            }
        }
    }

    fn write(&mut self, piece: &[u8]) -> Writing {
        let Held::ForWriting { file, failed, .. } = &mut self.held else {
            unreachable!()
        };
        match write_some(file, piece) {
            Ok(count) => {
                if let Some(counts) = self.counts {
                    counts.wrote(count);
                }
                Writing::Took(count)
            }
            Err(error) => {
                self.cause = Some(Cause {
                    call: Call::Write,
                    error,
                });
                *failed = true;
                self.write_faults = self.write_faults.saturating_add(1);
                Writing::Failed
            }
        }
    }

    fn close(&mut self) -> Closing {
        if let Some(counts) = self.counts {
            counts.closed();
        }
        let held = mem::replace(&mut self.held, Held::Nothing);
        match fault_of(held) {
            Fault::Nowhere => {}
            Fault::Read(name) => self.read_last = Some(name),
            Fault::Write(name) => self.write_last = Some(name),
        }
        Closing::Closed
    }
}

// On what a call failed while it was open.
#[derive(Drop)]
enum Fault {
    Nowhere,
    Read(Name),
    Write(Name),
}

// Lets go of what is open.
fn fault_of<F: Drop>(held: Held<F>) -> Fault
    ensures { StandsAt result held }
{
    match held {
        Held::Nothing => Fault::Nowhere,
        Held::ForReading { name, file, failed } => {
            drop(file);
            if failed {
                Fault::Read(name)
            } else {
                Fault::Nowhere
            }
        }
        Held::ForWriting { name, file, failed } => {
            drop(file);
            if failed {
                Fault::Write(name)
            } else {
                Fault::Nowhere
            }
        }
    }
}
