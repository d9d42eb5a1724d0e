// A shelf of which listed calls fail.
ghost use Rattle.std.specs.Prelude.{◌≡◌, ◌<◌, ◌≤◌, ◌&&◌, ◌||◌, ◌==◌, ◌+◌, ◌-◌, ℕ, List, Option, length, IsTrue, IfOk, is_none, if◌then◌else◌, vec_len, option_copied};
ghost use Rattle.std.specs.List.{All};
ghost use Rattle.ports.specs.Faults.{Rose, Counts};
ghost use Rattle.ports.specs.Files.{Nothing, ForReading, is_reading, is_writing, is_some_open, name_of, left_of};
ghost use Rattle.ports.specs.Answers.{open_failed, create_failed, close_failed, read_failed, write_failed, moved_by, close_failed_reading, close_failed_writing};
ghost use Rattle.ports.specs.Answers.{after_open, after_create, LeavesRest, ReadMoves, CreateEmpties, WriteAppendsTo};
ghost use Rattle.ports.specs.Memory.{empty_room, one_more, more_of, read_answer, write_answer};
ghost use Rattle.ports.specs.Kinds.{is_due};
ghost use Rattle.ports.specs.Lists.{look_up};
ghost use Rattle.ports.specs.Shelves.{mem_content, ReadsCount, WritesCount, SameReads, SameWrites, Goes, readable_file, writable_file, IsNewShelf};

use crate::files::{place_for, place_of};
use crate::kinds::ShelfCalls;
use crate::pieces::{Buffer, copy_from, reading_of};
use crate::{Closing, Creating, Kind, Opening, Reading, Shelf, Text, Writing};
use rel_base::Name;
use std::alloc::{AllocError, Global};
use std::marker::Model;
use std::mem;

// What is open: nothing, or the file at a place.
#[derive(Clone, Copy)]
enum Open {
    Nothing,
    Reading(usize),
    Writing(usize),
}

impl Open {
    ghost use Rattle.ports.specs.MemShelf.{is_written};

    // Whether the file at this place is being written.
    fn is_written(self, place: usize) -> bool
        ensures { result ≡ is_written self place }
    {
        match self {
            Open::Nothing | Open::Reading(_) => false,
            Open::Writing(written) => written == place,
        }
    }
}

// The name that a counted call worked on: one that was handed over, or that of the file at a place.
#[derive(Drop)]
enum Last {
    NoName,
    Named(Name),
    At(usize),
}

// How many calls failed, and the name that the last of them worked on.
#[derive(Drop)]
struct Faults {
    count: u64,
    last: Last,
}

impl Faults {
    ghost use Rattle.ports.specs.MemShelf.{IsNamed, name_of_last};

    fn none() -> Faults
        ensures count { result.count ≡ 0 }
        ensures last { result.last ≡ Last.NoName }
    {
        Faults {
            count: 0,
            last: Last::NoName,
        }
    }

    fn rise(&mut self, last: Last)
        ensures count { Rose self.old.count self.new.count }
        ensures once { self.new.count ≤ self.old.count + 1 }
        ensures last { self.new.last ≡ last }
    {
        self.count = self.count.saturating_add(1);
        self.last = last;
    }

    fn last_name<'a>(&'a self, files: &'a [(Name, Text)]) -> Option<&'a [u8]>
        requires { IsNamed files.now self.now.last }
        ensures { option_copied result ≡ name_of_last files.now self.now.last }
    {
        match &self.last {
            Last::NoName => None,
            Last::Named(name) => Some(name.bytes()),
            Last::At(place) => Some(files[*place].0.bytes()),
        }
    }

    // What the close of the file at a place answers, which is to fail or not.
    fn close(&mut self, fails: bool, place: usize) -> Closing
        ensures answer { close_failed result ≡ fails }
        ensures count { Counts fails self.old.count self.new.count }
        ensures once { self.new.count ≤ self.old.count + 1 }
        ensures last { self.new.last ≡ (if fails then Last.At place else self.old.last) }
    {
        if !fails {
            return Closing::Closed;
        }
        self.rise(Last::At(place));
        Closing::Failed
    }
}

/// A shelf in memory of which listed calls fail, and an open of a name that is not there.
///
/// It is made with buffers for the files to come: each create uses up one, and fails without one.
/// Nothing else fails but a write for which no room is left, and no later call takes memory.
///
/// Contracts see the files as a list, of which the first of a name counts, what is open, the
/// buffers that are left, the course of its calls, and the faults with the names of the last ones.
#[derive(Drop)]
pub struct MemShelf {
    alloc: Global,
    files: Vec<(Name, Text)>,
    open: Open,
    // How many bytes were read of the file that is open for reading.
    at: usize,
    // What was written to the file that is open for writing.
    buffer: Buffer,
    blanks: Vec<Buffer>,
    room: usize,
    largest: usize,
    calls: ShelfCalls,
    reads: Faults,
    writes: Faults,
    opens: u64,
    taken: u64,
}

impl Model for MemShelf {
    ghost use Rattle.ports.specs.Shelves.{MemFiles};

    ghost Value = { MemFiles };

    ghost use Rattle.ports.specs.MemShelf.{seen, IsInside};

    ghost view = { seen };

    ghost invariant = { IsInside };
}

impl MemShelf {
    /// A shelf with these files, `blanks` buffers of `room` bytes each for files to come, and the
    /// calls that fail: a kind, and a number among the calls of that kind, counted from 1. A read
    /// or write moves at most `largest` bytes.
    pub fn with(
        alloc: Global,
        files: Vec<(Name, Text)>,
        blanks: usize,
        room: usize,
        fails: Vec<(Kind, u64)>,
        largest: usize,
    ) -> Result<MemShelf, AllocError>
        requires { 0 < largest }
        ensures { IfOk result (IsNewShelf files.items blanks room fails.items largest) }
    {
        let mut files = files;
        files.reserve(blanks)?;
        Ok(MemShelf {
            alloc,
            files,
            open: Open::Nothing,
            at: 0,
            buffer: Buffer::empty(alloc),
            blanks: blank_buffers(alloc, blanks, room)?,
            room,
            largest,
            calls: ShelfCalls::of(fails),
            reads: Faults::none(),
            writes: Faults::none(),
            opens: 0,
            taken: 0,
        })
    }

    /// The bytes of the first file of this name.
    pub fn file(&self, name: &Name) -> Option<&[u8]>
        ensures { option_copied result ≡ look_up self.now.files name.now }
    {
        let place = place_of(&self.files, name)?;
        if self.open.is_written(place) {
            Some(self.buffer.bytes())
        } else {
            Some(self.files[place].1.bytes())
        }
    }

    /// How many files there are.
    pub fn len(&self) -> usize
        ensures { result ≡ length self.now.files }
    {
        self.files.len()
    }

    /// How many opens there were.
    pub fn opens(&self) -> u64
        ensures { result ≡ self.now.opens }
    {
        self.opens
    }

    /// How often an open, a read, or a close of what was opened failed.
    pub fn read_faults(&self) -> u64
        ensures { result ≡ self.now.read_faults }
    {
        self.reads.count
    }

    /// The name that the last of these faults was at.
    pub fn read_last(&self) -> Option<&[u8]>
        ensures { option_copied result ≡ self.now.read_last }
    {
        self.reads.last_name(&self.files)
    }

    /// How often a create, a write, or a close of what was created failed.
    pub fn write_faults(&self) -> u64
        ensures { result ≡ self.now.write_faults }
    {
        self.writes.count
    }

    /// The name that the last of these faults was at.
    pub fn write_last(&self) -> Option<&[u8]>
        ensures { option_copied result ≡ self.now.write_last }
    {
        self.writes.last_name(&self.files)
    }
}

// So many buffers of this room.
fn blank_buffers(alloc: Global, count: usize, room: usize) -> Result<Vec<Buffer>, AllocError>
    ensures count { IfOk result (λ buffers. vec_len buffers ≡ count) }
    ensures blank { IfOk result (λ buffers.
        All (λ buffer. buffer ≡ empty_room room) buffers.items) }
{
    let mut buffers = Vec::with_capacity(alloc, count)?;
    for _ in 0..count {
        buffers.push(Buffer::with_room(alloc, room)?)?;
    }
    Ok(buffers)
}

impl Shelf for MemShelf {
    ghost content = { mem_content };

    ghost opened = { λ s. s.opened };

    ghost opens = { λ s. s.opens };

    ghost taken = { λ s. s.taken };

    ghost read_faults = { λ s. s.read_faults };

    ghost read_last = { λ s. s.read_last };

    ghost write_faults = { λ s. s.write_faults };

    ghost write_last = { λ s. s.write_last };

    fn open(&mut self, name: Name) -> Opening
        requires { self.old.opened ≡ Nothing }
        ensures opened { self.new.opened ≡ after_open result name (mem_content self.old) }
        ensures opens { self.new.opens ≤ self.old.opens + 1 }
        ensures counted { self.new.opens ≡ one_more self.old.opens }
        ensures taken { self.new.taken ≡ self.old.taken }
        ensures content { mem_content self.new ≡ mem_content self.old }
        ensures reads { ReadsCount (open_failed result) name self.old self.new }
        ensures once { self.new.read_faults ≤ self.old.read_faults + 1 }
        ensures writes { SameWrites self.old self.new }
        ensures fails { open_failed result
            ≡ (is_due Kind.Open self.old.course || is_none (look_up self.old.files name)) }
        ensures goes { Goes Kind.Open self.old self.new }
        ensures blanks { self.new.blanks ≡ self.old.blanks }
    {
        let listed = self.calls.begin(Kind::Open);
        self.opens = self.opens.saturating_add(1);
        match place_of(&self.files, &name) {
            Some(place) if !listed => {
                self.open = Open::Reading(place);
                self.at = 0;
                Opening::Opened
            }
            _ => {
                self.reads.rise(Last::Named(name));
                Opening::Failed
            }
        }
    }

    fn read(&mut self, buffer: &mut [u8]) -> Reading
        requires some_room { 0 < length buffer.old }
        requires open { IsTrue (is_reading self.old.opened) }
        ensures moved { ReadMoves result buffer.new
            (left_of self.old.opened) (left_of self.new.opened) }
        ensures rest { LeavesRest result buffer.old buffer.new }
        ensures opened { self.new.opened
            ≡ ForReading (name_of self.old.opened) (left_of self.new.opened) }
        ensures opens { self.new.opens ≡ self.old.opens }
        ensures taken { self.new.taken ≤ self.old.taken + moved_by result }
        ensures counted { self.new.taken ≡ more_of self.old.taken (moved_by result) }
        ensures content { mem_content self.new ≡ mem_content self.old }
        ensures reads { ReadsCount (read_failed result) (name_of self.old.opened)
            self.old self.new }
        ensures once { self.new.read_faults ≤ self.old.read_faults + 1 }
        ensures writes { SameWrites self.old self.new }
        ensures answer { result ≡ read_answer (is_due Kind.Read self.old.course)
            (readable_file self.old (length buffer.old)) }
        ensures goes { Goes Kind.Read self.old self.new }
        ensures blanks { self.new.blanks ≡ self.old.blanks }
    {
        let Open::Reading(place) = self.open else {
            unreachable!()
        };
        if self.calls.begin(Kind::Read) {
            self.reads.rise(Last::At(place));
            return Reading::Failed;
        }
        let most = buffer.len().min(self.largest);
        let count = copy_from(self.files[place].1.bytes(), self.at, &mut buffer[..most]);
        self.at += count;
        self.taken = self.taken.saturating_add(count as u64);
        reading_of(count)
    }

    fn create(&mut self, name: Name) -> Creating
        requires { self.old.opened ≡ Nothing }
        ensures opened { self.new.opened ≡ after_create result name }
        ensures opens { self.new.opens ≡ self.old.opens }
        ensures taken { self.new.taken ≡ self.old.taken }
        ensures content { CreateEmpties result name (mem_content self.old) (mem_content self.new) }
        ensures writes { WritesCount (create_failed result) name self.old self.new }
        ensures once { self.new.write_faults ≤ self.old.write_faults + 1 }
        ensures reads { SameReads self.old self.new }
        ensures fails { create_failed result
            ≡ (is_due Kind.Create self.old.course || (self.old.blanks == 0)) }
        ensures goes { Goes Kind.Create self.old self.new }
        ensures blanks { self.new.blanks
            ≡ (if create_failed result then self.old.blanks else self.old.blanks - 1) }
    {
        if self.calls.begin(Kind::Create) || self.blanks.is_empty() {
            self.writes.rise(Last::Named(name));
            return Creating::Failed;
        }
        self.buffer = self.blanks.pop().unwrap();
        self.open = Open::Writing(place_for(self.alloc, &mut self.files, name));
        Creating::Created
    }

    fn write(&mut self, piece: &[u8]) -> Writing
        requires some_bytes { 0 < length piece.now }
        requires created { IsTrue (is_writing self.old.opened) }
        ensures appended { WriteAppendsTo result (name_of self.old.opened) piece.now
            (mem_content self.old) (mem_content self.new) }
        ensures opened { self.new.opened ≡ self.old.opened }
        ensures opens { self.new.opens ≡ self.old.opens }
        ensures taken { self.new.taken ≡ self.old.taken }
        ensures writes { WritesCount (write_failed result) (name_of self.old.opened)
            self.old self.new }
        ensures once { self.new.write_faults ≤ self.old.write_faults + 1 }
        ensures reads { SameReads self.old self.new }
        ensures answer { result ≡ write_answer (is_due Kind.Write self.old.course)
            (writable_file self.old (length piece.now)) }
        ensures goes { Goes Kind.Write self.old self.new }
        ensures blanks { self.new.blanks ≡ self.old.blanks }
    {
        let Open::Writing(place) = self.open else {
            unreachable!()
        };
        if self.calls.begin(Kind::Write) {
            self.writes.rise(Last::At(place));
            return Writing::Failed;
        }
        let most = piece.len().min(self.largest);
        match self.buffer.append_first(&piece[..most]) {
            0 => {
                self.writes.rise(Last::At(place));
                Writing::Failed
            }
            count => Writing::Took(count),
        }
    }

    fn close(&mut self) -> Closing
        ensures opened { self.new.opened ≡ Nothing }
        ensures opens { self.new.opens ≡ self.old.opens }
        ensures taken { self.new.taken ≡ self.old.taken }
        ensures content { mem_content self.new ≡ mem_content self.old }
        ensures idle { self.old.opened ≡ Nothing → result ≡ Closing.Closed }
        ensures reads { ReadsCount (close_failed_reading result self.old.opened)
            (name_of self.old.opened) self.old self.new }
        ensures writes { WritesCount (close_failed_writing result self.old.opened)
            (name_of self.old.opened) self.old self.new }
        ensures read_once { self.new.read_faults ≤ self.old.read_faults + 1 }
        ensures write_once { self.new.write_faults ≤ self.old.write_faults + 1 }
        ensures fails { close_failed result
            ≡ (is_due Kind.Close self.old.course && is_some_open self.old.opened) }
        ensures goes { Goes Kind.Close self.old self.new }
        ensures blanks { self.new.blanks ≡ self.old.blanks }
    {
        let listed = self.calls.begin(Kind::Close);
        match self.open {
            Open::Nothing => Closing::Closed,
            Open::Reading(place) => {
                self.open = Open::Nothing;
                self.reads.close(listed, place)
            }
            Open::Writing(place) => {
                let written = mem::replace(&mut self.buffer, Buffer::empty(self.alloc));
                self.files[place].1 = Text::of(written.into_bytes());
                self.open = Open::Nothing;
                self.writes.close(listed, place)
            }
        }
    }
}
