// Files of a shelf that are read and written whole.
ghost use Rattle.std.specs.Prelude.{◌≡◌, ◌<◌, ◌≤◌, ◌+◌, IfSome, IsTrue, length, take, drop};
ghost use Rattle.ports.specs.Faults.{CountsAt, SameFaults};
ghost use Rattle.ports.specs.Files.{Nothing, ForReading, is_reading, is_writing, name_of, left_of, bytes_of, OthersKept};
ghost use Rattle.ports.specs.Answers.{read_failed, moved_by, ReadMoves};
ghost use Rattle.ports.specs.Whole.{load_failed, store_failed, Loads, IsWithin, most_taken, Stores, AppendsTo};

use crate::loading::make_room;
use crate::{Closing, Creating, Loading, Opening, Reading, Shelf, Writing};
use rel_base::Name;
use std::alloc::Global;

/// What storing a file answers.
#[derive(Clone, Copy, Debug, PartialEq, Eq)]
pub enum Storing {
    /// The file holds all the bytes.
    Stored,
    /// A call failed. The file is as it was, or holds some first bytes.
    Failed,
}

/// Reads a whole file, if it is no more than the limit, which opens it once and takes at most one byte more than the limit. The
/// files stay as they were, whatever the answer.
pub fn load_file<H: Shelf>(alloc: Global, shelf: &mut H, name: Name, limit: u64) -> Loading
    requires { H.opened shelf.old ≡ Nothing }
    ensures loads { IfSome (H.content shelf.old) (λ files.
        Loads result limit (bytes_of files name)) }
    ensures within { IsWithin result limit }
    ensures content { H.content shelf.new ≡ H.content shelf.old }
    ensures closed { H.opened shelf.new ≡ Nothing }
    ensures reads { CountsAt (load_failed result) name
        H.read_faults H.read_last shelf.old shelf.new }
    ensures opens { H.opens shelf.new ≤ H.opens shelf.old + 1 }
    ensures taken { H.taken shelf.new ≤ H.taken shelf.old + most_taken result limit }
    ensures writes { SameFaults H.write_faults H.write_last shelf.old shelf.new }
{
    match shelf.open(name) {
        Opening::Failed => Loading::Failed,
        Opening::Opened => {
            let answer = load_opened(alloc, shelf, limit);
            match shelf.close() {
                Closing::Closed => answer,
                Closing::Failed => Loading::Failed,
            }
        }
    }
}

// Reads all that is left of the file that is open, if it is no more than the limit.
fn load_opened<H: Shelf>(alloc: Global, shelf: &mut H, limit: u64) -> Loading
    requires { IsTrue (is_reading (H.opened shelf.old)) }
    ensures loads { IfSome (left_of (H.opened shelf.old)) (Loads result limit) }
    ensures within { IsWithin result limit }
    ensures opened { H.opened shelf.new
        ≡ ForReading (name_of (H.opened shelf.old)) (left_of (H.opened shelf.new)) }
    ensures opens { H.opens shelf.new ≡ H.opens shelf.old }
    ensures taken { H.taken shelf.new ≤ H.taken shelf.old + most_taken result limit }
    ensures content { H.content shelf.new ≡ H.content shelf.old }
    ensures reads { CountsAt (load_failed result) (name_of (H.opened shelf.old))
        H.read_faults H.read_last shelf.old shelf.new }
    ensures writes { SameFaults H.write_faults H.write_last shelf.old shelf.new }
{
    let mut bytes = Vec::new(alloc);
    let mut filled = 0;
    while filled as u64 <= limit {
        if make_room(&mut bytes, filled, limit).is_err() {
            return Loading::NoMemory;
        }
        match read_file_behind(shelf, bytes.as_mut_slice(), filled) {
            Reading::Got(count) => filled += count,
            Reading::End => {
                bytes.truncate(filled);
                return Loading::Loaded(bytes);
            }
            Reading::Failed => return Loading::Failed,
        }
    }
    Loading::TooLong
}

// Reads into the buffer behind the bytes that are filled.
fn read_file_behind<H: Shelf>(shelf: &mut H, buffer: &mut [u8], filled: usize) -> Reading
    requires room { filled < length buffer.old }
    requires open { IsTrue (is_reading (H.opened shelf.old)) }
    ensures front { take filled buffer.new ≡ take filled buffer.old }
    ensures moved { ReadMoves result (drop filled buffer.new)
        (left_of (H.opened shelf.old)) (left_of (H.opened shelf.new)) }
    ensures opened { H.opened shelf.new
        ≡ ForReading (name_of (H.opened shelf.old)) (left_of (H.opened shelf.new)) }
    ensures opens { H.opens shelf.new ≡ H.opens shelf.old }
    ensures taken { H.taken shelf.new ≤ H.taken shelf.old + moved_by result }
    ensures content { H.content shelf.new ≡ H.content shelf.old }
    ensures reads { CountsAt (read_failed result) (name_of (H.opened shelf.old))
        H.read_faults H.read_last shelf.old shelf.new }
    ensures writes { SameFaults H.write_faults H.write_last shelf.old shelf.new }
{
    shelf.read(&mut buffer[filled..])
}

/// Makes a file of this name that holds these bytes. Each write is handed all that is left. The
/// other files stay as they were, whatever the answer. It takes no memory.
pub fn store_file<H: Shelf>(shelf: &mut H, name: Name, bytes: &[u8]) -> Storing
    requires { H.opened shelf.old ≡ Nothing }
    ensures stores { Stores result name bytes.now (H.content shelf.old) (H.content shelf.new) }
    ensures others { OthersKept name (H.content shelf.old) (H.content shelf.new) }
    ensures opens { H.opens shelf.new ≡ H.opens shelf.old }
    ensures taken { H.taken shelf.new ≡ H.taken shelf.old }
    ensures closed { H.opened shelf.new ≡ Nothing }
    ensures writes { CountsAt (store_failed result) name
        H.write_faults H.write_last shelf.old shelf.new }
    ensures reads { SameFaults H.read_faults H.read_last shelf.old shelf.new }
{
    match shelf.create(name) {
        Creating::Failed => Storing::Failed,
        Creating::Created => {
            let answer = write_whole(shelf, bytes);
            match shelf.close() {
                Closing::Closed => answer,
                Closing::Failed => Storing::Failed,
            }
        }
    }
}

// Writes all bytes behind what the created file has.
fn write_whole<H: Shelf>(shelf: &mut H, bytes: &[u8]) -> Storing
    requires { IsTrue (is_writing (H.opened shelf.old)) }
    ensures appended { AppendsTo result (name_of (H.opened shelf.old)) bytes.now
        (H.content shelf.old) (H.content shelf.new) }
    ensures opened { H.opened shelf.new ≡ H.opened shelf.old }
    ensures opens { H.opens shelf.new ≡ H.opens shelf.old }
    ensures taken { H.taken shelf.new ≡ H.taken shelf.old }
    ensures writes { CountsAt (store_failed result) (name_of (H.opened shelf.old))
        H.write_faults H.write_last shelf.old shelf.new }
    ensures reads { SameFaults H.read_faults H.read_last shelf.old shelf.new }
{
    let mut done = 0;
    while done < bytes.len() {
        match shelf.write(&bytes[done..]) {
            Writing::Took(count) => done += count,
            Writing::Failed => return Storing::Failed,
        }
    }
    Storing::Stored
}
