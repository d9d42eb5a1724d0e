// A source that is read to its end.
ghost use Rattle.std.specs.Prelude.{◌≡◌, ◌+◌, ◌<◌, ◌≤◌, IfSome, length, take, drop, vec_len, OnOk};
ghost use Rattle.ports.specs.Faults.{Counts};
ghost use Rattle.ports.specs.Answers.{read_failed, ReadMoves};
ghost use Rattle.ports.specs.Whole.{load_failed, Loads, Takes};

use crate::{Reading, Source};
use std::alloc::{AllocError, Global};

// The most bytes that a read is asked for.
const PIECE: usize = 65_536;

/// What a load answers.
#[derive(Debug, PartialEq, Eq, Drop)]
pub enum Loading {
    /// All the bytes that were left.
    Loaded(Vec<u8>),
    /// More bytes came than the limit.
    TooLong,
    /// A call on the outside failed.
    Failed,
    /// Memory ran out.
    NoMemory,
}

/// Reads all that is left of a source, if it is no more than the limit. It takes at most one byte
/// more than that, and after want of memory what was read is lost.
pub fn load<S: Source>(alloc: Global, source: &mut S, limit: u64) -> Loading
    ensures loads { IfSome (S.left source.old) (Loads result limit) }
    ensures takes { Takes result limit (S.left source.old) (S.left source.new) }
    ensures counted { Counts (load_failed result) (S.faults source.old) (S.faults source.new) }
    ensures once { S.faults source.new ≤ S.faults source.old + 1 }
{
    let mut bytes = Vec::new(alloc);
    let mut filled = 0;
    while filled as u64 <= limit {
        if make_room(&mut bytes, filled, limit).is_err() {
            return Loading::NoMemory;
        }
        match read_behind(source, bytes.as_mut_slice(), filled) {
            Reading::Got(count) => filled += count,
            Reading::End => {
                bytes.truncate(filled);
                return Loading::Loaded(bytes);
            }
            Reading::Failed => return Loading::Failed,
        }
    }
    Loading::TooLong
}

// Reads into the buffer behind the bytes that are filled.
fn read_behind<S: Source>(source: &mut S, buffer: &mut [u8], filled: usize) -> Reading
    requires { filled < length buffer.old }
    ensures front { take filled buffer.new ≡ take filled buffer.old }
    ensures moved { ReadMoves result (drop filled buffer.new)
        (S.left source.old) (S.left source.new) }
    ensures counted { Counts (read_failed result) (S.faults source.old) (S.faults source.new) }
    ensures once { S.faults source.new ≤ S.faults source.old + 1 }
{
    source.read(&mut buffer[filled..])
}

// Makes the buffer longer than what is filled, by zeros, for the next read, and never longer than
// one byte more than the limit. Its capacity doubles, but goes hardly past that either.
pub(crate) fn make_room(buffer: &mut Vec<u8>, filled: usize, limit: u64) -> Result<(), AllocError>
    requires within { filled ≤ vec_len buffer.old }
    requires below { filled ≤ limit }
    requires short { vec_len buffer.old ≤ limit + 1 }
    ensures front { take filled buffer.new.items ≡ take filled buffer.old.items }
    ensures within { filled ≤ vec_len buffer.new }
    ensures room { OnOk result (filled < vec_len buffer.new) }
    ensures short { vec_len buffer.new ≤ limit + 1 }
{
    let wanted = filled + at_most(limit - filled as u64, PIECE - 1) + 1;
    if wanted <= buffer.len() {
        return Ok(());
    }
    if wanted > buffer.capacity() {
        let more = at_most(limit - filled as u64, buffer.capacity());
        buffer.reserve_exact(more.max(wanted - buffer.len()))?;
    }
    buffer.resize(wanted, 0)
}

// The lesser of the two.
fn at_most(count: u64, most: usize) -> usize
    ensures bound { result ≤ most }
    ensures within { result ≤ count }
{
    if count < most as u64 {
        count as usize
    } else {
        most
    }
}
