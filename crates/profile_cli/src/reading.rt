// Files read, one after another, before anything is computed.
ghost use Rattle.std.specs.Prelude.{◌≡◌, ◌≤◌, ◌+◌, ◌++◌, ℕ, List, [], false, length, IfSome, OnOk};
ghost use Rattle.ports.specs.Faults.{CountsAt, SameFaults};
ghost use Rattle.ports.specs.Files.{Nothing, bytes_of};
ghost use Rattle.ports.specs.Whole.{Loads, load_failed};
ghost use Rattle.profile_cli.specs.FilesRead.{faulted, Understands, any_faulted, fault_name, most_opened, relation_in, text_in, IsOfFiles, IsReadAs, UnderstandsAll};
ghost use Rattle.task_base.specs.declared.reads.ReadAs.TheVariants as ways;

use csv_load::{Loaded, read_relation_by};
use ports::{Loading, Shelf, Text, load_file};
use rel_base::{Name, Relation, Why};
use std::alloc::{AllocError, Global};
use std::thread::Threads;
use task_base::{Means, ReadAs, Reads};

/// What a file holds, by how it is read.
#[derive(Drop)]
pub(crate) enum Held {
    Relation(Relation),
    Text(Text),
}

/// What reading one file comes to.
#[derive(Drop)]
pub(crate) enum FileRead {
    Read(Held),
    /// A rule refuses it.
    Refused { rec: u64, why: Why },
    /// A call on it failed.
    Fault,
    NoMemory,
}

/// What files hold: the relations in their order, and the texts in theirs.
#[derive(Drop)]
pub(crate) struct Found {
    pub(crate) relations: Vec<Relation>,
    pub(crate) texts: Vec<Text>,
}

/// What reading files comes to. A file is named by its place.
#[derive(Drop)]
pub(crate) enum FilesRead {
    /// What all of them hold.
    Read(Found),
    /// This one is the first that a rule refuses, and none after it was read.
    Refused { place: usize, rec: u64, why: Why },
    /// A call on this one failed, and none before it is refused.
    Fault { place: usize },
    NoMemory,
}

impl Found {
    // Nothing so far.
    fn nothing(alloc: Global) -> Found
        ensures relations { result.relations.items ≡ [] }
        ensures texts { result.texts.items ≡ [] }
    {
        Found {
            relations: Vec::new(alloc),
            texts: Vec::new(alloc),
        }
    }

    // What one file more holds.
    fn push(&mut self, held: Held) -> Result<(), AllocError>
        ensures relations { OnOk result (self.new.relations.items ≡ self.old.relations.items ++ relation_in held) }
        ensures texts { OnOk result (self.new.texts.items ≡ self.old.texts.items ++ text_in held) }
    {
        match held {
            Held::Relation(relation) => self.relations.push(relation)?,
            Held::Text(text) => self.texts.push(text)?,
        }
        Ok(())
    }
}

// The relation that these bytes are, if they are one.
fn relation_of<R: Threads + Sync, G>(rt: &R, means: &Means<'_, G>, bytes: &[u8]) -> FileRead
    ensures relation { IsReadAs result ways.Relation }
    ensures failed { faulted result ≡ false }
    ensures bytes { length bytes.now ≤ means.now.limits.bytes → Understands result ways.Relation means.now.limits bytes.now }
{
    match read_relation_by(rt, means.alloc, bytes, &means.limits, means.workers) {
        Loaded::Read(relation) => FileRead::Read(Held::Relation(relation)),
        Loaded::Refused { rec, why } => FileRead::Refused { rec, why },
        Loaded::NoMemory => FileRead::NoMemory,
    }
}

// What the bytes that were loaded hold, or why that is nothing.
fn understood<R: Threads + Sync, G>(
    rt: &R,
    means: &Means<'_, G>,
    loading: Loading,
    read_as: ReadAs,
) -> FileRead
    ensures read_as { IsReadAs result read_as }
    ensures failed { faulted result ≡ load_failed loading }
    ensures bytes { (bytes : List ℕ) → Loads loading means.now.limits.bytes bytes → Understands result read_as means.now.limits bytes }
{
    match loading {
        Loading::Loaded(bytes) => match read_as {
            ReadAs::Relation => relation_of(rt, means, bytes.as_slice()),
            ReadAs::Text => FileRead::Read(Held::Text(Text::of(bytes))),
        },
        Loading::TooLong => FileRead::Refused {
            rec: 0,
            why: Why::Bytes,
        },
        Loading::Failed => FileRead::Fault,
        Loading::NoMemory => FileRead::NoMemory,
    }
}

/// Reads one file.
pub(crate) fn read_file<R: Threads + Sync, H: Shelf, G>(
    rt: &R,
    means: &Means<'_, G>,
    shelf: &mut H,
    name: &Name,
    read_as: ReadAs,
) -> FileRead
    requires { H.opened shelf.old ≡ Nothing }
    ensures bytes { IfSome (H.content shelf.old) (λ files. Understands result read_as means.now.limits (bytes_of files name.now)) }
    ensures read_as { IsReadAs result read_as }
    ensures content { H.content shelf.new ≡ H.content shelf.old }
    ensures closed { H.opened shelf.new ≡ Nothing }
    ensures reads { CountsAt (faulted result) name.now H.read_faults H.read_last shelf.old shelf.new }
    ensures opens { H.opens shelf.new ≤ H.opens shelf.old + 1 }
    ensures writes { SameFaults H.write_faults H.write_last shelf.old shelf.new }
{
    match name.clone() {
        Ok(own) => {
            let loading = load_file(means.alloc, shelf, own, means.limits.bytes);
            understood(rt, means, loading, read_as)
        }
        Err(_) => FileRead::NoMemory,
    }
}

/// Reads these files in order, up to the first that is refused or fails. None behind it is opened.
pub(crate) fn read_files<R: Threads + Sync, H: Shelf, G>(
    rt: &R,
    means: &Means<'_, G>,
    shelf: &mut H,
    reads: &Reads<'_>,
) -> FilesRead
    requires { H.opened shelf.old ≡ Nothing }
    ensures files { IfSome (H.content shelf.old) (UnderstandsAll result means.now.limits reads.now) }
    ensures places { IsOfFiles result reads.now }
    ensures content { H.content shelf.new ≡ H.content shelf.old }
    ensures closed { H.opened shelf.new ≡ Nothing }
    ensures reads { CountsAt (any_faulted result) (fault_name result reads.now) H.read_faults H.read_last shelf.old shelf.new }
    ensures opens { H.opens shelf.new ≤ H.opens shelf.old + most_opened result (length reads.now) }
    ensures writes { SameFaults H.write_faults H.write_last shelf.old shelf.new }
{
    let mut found = Found::nothing(means.alloc);
    for place in 0..reads.len() {
        let (name, read_as) = reads.at(place);
        match read_file(rt, means, shelf, name, read_as) {
            FileRead::Read(held) => {
                if found.push(held).is_err() {
                    return FilesRead::NoMemory;
                }
            }
            FileRead::Refused { rec, why } => return FilesRead::Refused { place, rec, why },
            FileRead::Fault => return FilesRead::Fault { place },
            FileRead::NoMemory => return FilesRead::NoMemory,
        }
    }
    FilesRead::Read(found)
}
