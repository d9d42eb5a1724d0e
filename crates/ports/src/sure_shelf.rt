// A shelf that never fails at a read.
ghost use Rattle.std.specs.Prelude.{◌≡◌, ◌≤◌, ◌+◌, None};
ghost use Rattle.ports.specs.Faults.{SameFaults};
ghost use Rattle.ports.specs.Files.{Nothing};
ghost use Rattle.ports.specs.Answers.{create_failed, after_create, CreateEmpties};
ghost use Rattle.ports.specs.Shelves.{SureFiles, sure_content, SureWritesCount};

use crate::files::text_of;
use crate::pieces::{copy_from, reading_of};
use crate::{Closing, Creating, Opening, Reading, Shelf, Text, Writing};
use rel_base::Name;
use std::marker::Model;

/// A shelf in memory that never fails at a read: its count of these faults is the constant 0. A
/// name that it lacks opens as an empty file. Every create fails, and is counted.
///
/// Contracts see the files as a list, of which the first of a name counts, what is open, and the
/// faults of creates.
#[derive(Drop)]
pub struct SureShelf {
    files: Vec<(Name, Text)>,
    // The name of the file that is open, and how many of its bytes were read.
    open: Option<Name>,
    at: usize,
    opens: u64,
    taken: u64,
    write_faults: u64,
    write_last: Option<Name>,
}

impl Model for SureShelf {
    ghost use Rattle.ports.specs.Shelves.{SureFiles};

    ghost Value = { SureFiles };

    ghost use Rattle.ports.specs.SureShelf.{seen, IsInside};

    ghost view = { seen };

    ghost invariant = { IsInside };
}

impl SureShelf {
    /// A shelf with these files, which takes no memory.
    pub fn of(files: Vec<(Name, Text)>) -> SureShelf
        ensures { result ≡ record {
          files = files.items;
          opened = Nothing;
          opens = 0;
          taken = 0;
          write_faults = 0;
          write_last = None;
        } }
    {
        SureShelf {
            files,
            open: None,
            opens: 0,
            taken: 0,
            at: 0,
            write_faults: 0,
            write_last: None,
        }
    }
}

impl Shelf for SureShelf {
    ghost content = { sure_content };

    ghost opened = { λ s. s.opened };

    ghost opens = { λ s. s.opens };

    ghost taken = { λ s. s.taken };

    ghost read_faults = { λ _. 0 };

    ghost read_last = { λ _. None };

    ghost write_faults = { λ s. s.write_faults };

    ghost write_last = { λ s. s.write_last };

    fn open(&mut self, name: Name) -> Opening {
        self.open = Some(name);
        self.at = 0;
        self.opens = self.opens.saturating_add(1);
        Opening::Opened
    }

    fn read(&mut self, buffer: &mut [u8]) -> Reading {
        let Some(name) = &self.open else {
            unreachable!()
        };
        let count = copy_from(text_of(&self.files, name), self.at, buffer);
        self.at += count;
        self.taken = self.taken.saturating_add(count as u64);
        reading_of(count)
    }

    fn create(&mut self, name: Name) -> Creating
        requires { self.old.opened ≡ Nothing }
        ensures opened { self.new.opened ≡ after_create result name }
        ensures opens { self.new.opens ≡ self.old.opens }
        ensures taken { self.new.taken ≡ self.old.taken }
        ensures content { CreateEmpties result name
            (sure_content self.old) (sure_content self.new) }
        ensures writes { SureWritesCount (create_failed result) name self.old self.new }
        ensures once { self.new.write_faults ≤ self.old.write_faults + 1 }
        ensures reads { SameFaults (λ (shelf : SureFiles). 0) (λ (shelf : SureFiles). None)
            self.old self.new }
        ensures fails { result ≡ Creating.Failed }
    {
        self.write_faults = self.write_faults.saturating_add(1);
        self.write_last = Some(name);
        Creating::Failed
    }

    fn write(&mut self, _piece: &[u8]) -> Writing {
        // No file is created here, so what is open was opened.
        let _open = &self.open;
        unreachable!()
    }

    fn close(&mut self) -> Closing {
        self.open = None;
        Closing::Closed
    }
}
