// Files by name.
ghost use Rattle.std.specs.Prelude.{◌≡◌, ◌<◌, ◌≤◌, ◌+◌, ℕ, List, Option, length, IsTrue, IfSome};
ghost use Rattle.ports.specs.Faults.{CountsAt, SameFaults};
ghost use Rattle.ports.specs.Files.{Files, Access, Nothing, ForReading, is_reading, is_writing, name_of, left_of};
ghost use Rattle.ports.specs.Answers.{open_failed, create_failed, read_failed, write_failed, moved_by, close_failed_reading, close_failed_writing};
ghost use Rattle.ports.specs.Answers.{after_open, after_create, LeavesRest, ReadMoves, CreateEmpties, WriteAppendsTo};

use crate::{Reading, Writing};
use rel_base::Name;

/// What an open answers.
#[derive(Clone, Copy, Debug, PartialEq, Eq)]
pub enum Opening {
    /// The file is open for reading, from its start.
    Opened,
    /// The open failed. Nothing is open.
    Failed,
}

/// What a create answers.
#[derive(Clone, Copy, Debug, PartialEq, Eq)]
pub enum Creating {
    /// The file has no bytes, and is open for writing.
    Created,
    /// The create failed. Nothing changed.
    Failed,
}

/// What a close answers. Nothing is open after it.
#[derive(Clone, Copy, Debug, PartialEq, Eq)]
pub enum Closing {
    Closed,
    Failed,
}

/// Files by name, one of them open at a time.
pub trait Shelf {
    /// What each name holds, or `None` where the type does not tell it.
    ghost content: { Self → Option Files };

    /// What is open.
    ghost opened: { Self → Access };

    /// How many opens there were. A count that has come to the last value of its type stands still.
    ghost opens: { Self → ℕ };

    /// How many bytes reads moved in all, as far as the type counts them. This count too stands still at its last value.
    ghost taken: { Self → ℕ };

    /// How often an open, a read, or a close of what was opened failed.
    ghost read_faults: { Self → ℕ };

    /// The name that the last of these faults was at, or `None` before the first.
    ghost read_last: { Self → Option (List ℕ) };

    /// How often a create, a write, or a close of what was created failed.
    ghost write_faults: { Self → ℕ };

    /// The name that the last of these faults was at, or `None` before the first.
    ghost write_last: { Self → Option (List ℕ) };

    /// Opens a file for reading. Of one that is not there some shelves read no bytes, and others
    /// fail.
    fn open(&mut self, name: Name) -> Opening
        requires { opened self.old ≡ Nothing }
        ensures opened { opened self.new ≡ after_open result name (content self.old) }
        ensures opens { opens self.new ≤ opens self.old + 1 }
        ensures taken { taken self.new ≡ taken self.old }
        ensures content { content self.new ≡ content self.old }
        ensures reads { CountsAt (open_failed result) name read_faults read_last self.old self.new }
        ensures once { read_faults self.new ≤ read_faults self.old + 1 }
        ensures writes { SameFaults write_faults write_last self.old self.new };

    /// Reads the file that is open, as a source is read. A type that tells its bytes leaves the rest
    /// of the buffer as it was.
    fn read(&mut self, buffer: &mut [u8]) -> Reading
        requires some_room { 0 < length buffer.old }
        requires open { IsTrue (is_reading (opened self.old)) }
        ensures moved { ReadMoves result buffer.new
            (left_of (opened self.old)) (left_of (opened self.new)) }
        ensures rest { IfSome (left_of (opened self.old))
            (λ _. LeavesRest result buffer.old buffer.new) }
        ensures opened { opened self.new
            ≡ ForReading (name_of (opened self.old)) (left_of (opened self.new)) }
        ensures opens { opens self.new ≡ opens self.old }
        ensures taken { taken self.new ≤ taken self.old + moved_by result }
        ensures content { content self.new ≡ content self.old }
        ensures reads { CountsAt (read_failed result) (name_of (opened self.old))
            read_faults read_last self.old self.new }
        ensures once { read_faults self.new ≤ read_faults self.old + 1 }
        ensures writes { SameFaults write_faults write_last self.old self.new };

    /// Makes a file without bytes, in place of one of this name, and opens it for writing.
    fn create(&mut self, name: Name) -> Creating
        requires { opened self.old ≡ Nothing }
        ensures opened { opened self.new ≡ after_create result name }
        ensures opens { opens self.new ≡ opens self.old }
        ensures taken { taken self.new ≡ taken self.old }
        ensures content { CreateEmpties result name (content self.old) (content self.new) }
        ensures writes { CountsAt (create_failed result) name
            write_faults write_last self.old self.new }
        ensures once { write_faults self.new ≤ write_faults self.old + 1 }
        ensures reads { SameFaults read_faults read_last self.old self.new };

    /// Writes behind what the created file has, as a sink is written to.
    fn write(&mut self, piece: &[u8]) -> Writing
        requires some_bytes { 0 < length piece.now }
        requires created { IsTrue (is_writing (opened self.old)) }
        ensures appended { WriteAppendsTo result (name_of (opened self.old)) piece.now
            (content self.old) (content self.new) }
        ensures opened { opened self.new ≡ opened self.old }
        ensures opens { opens self.new ≡ opens self.old }
        ensures taken { taken self.new ≡ taken self.old }
        ensures writes { CountsAt (write_failed result) (name_of (opened self.old))
            write_faults write_last self.old self.new }
        ensures once { write_faults self.new ≤ write_faults self.old + 1 }
        ensures reads { SameFaults read_faults read_last self.old self.new };

    /// Closes what is open. With nothing open there is nothing that could fail.
    fn close(&mut self) -> Closing
        ensures opened { opened self.new ≡ Nothing }
        ensures opens { opens self.new ≡ opens self.old }
        ensures taken { taken self.new ≡ taken self.old }
        ensures content { content self.new ≡ content self.old }
        ensures idle { opened self.old ≡ Nothing → result ≡ Closing.Closed }
        ensures reads { CountsAt (close_failed_reading result (opened self.old))
            (name_of (opened self.old)) read_faults read_last self.old self.new }
        ensures writes { CountsAt (close_failed_writing result (opened self.old))
            (name_of (opened self.old)) write_faults write_last self.old self.new }
        ensures read_once { read_faults self.new ≤ read_faults self.old + 1 }
        ensures write_once { write_faults self.new ≤ write_faults self.old + 1 };
}
