// What the versions in memory are made of: bytes that are handed out, a buffer that never grows,
// and the calls that fail.
ghost use Rattle.std.specs.Prelude.{◌≡◌, ◌≤◌, ◌+◌, ◌-◌, ◌++◌, [], length, min, take, drop, false, IfOk};
ghost use Rattle.ports.specs.Faults.{Rose};
ghost use Rattle.ports.specs.Memory.{empty_room, new_course, one_more, is_listed, after_call, room_left, read_answer};

use crate::Reading;
use std::alloc::{AllocError, Global};
use std::marker::Model;

// Copies bytes of a text from this place on to the front of the buffer, as many as there are and
// fit, and says how many.
pub(crate) fn copy_from(text: &[u8], at: usize, buffer: &mut [u8]) -> usize
    requires { at ≤ length text.now }
    ensures count { result ≡ min (length (drop at text.now)) (length buffer.new) }
    ensures copied { take result buffer.new ≡ take result (drop at text.now) }
    ensures rest { drop result buffer.new ≡ drop result buffer.old }
{
    let left = &text[at..];
    let count = left.len().min(buffer.len());
    buffer[..count].copy_from_slice(&left[..count]);
    count
}

// What a read answers that moved so many bytes.
pub(crate) fn reading_of(count: usize) -> Reading
    ensures { result ≡ read_answer false count }
{
    match count {
        0 => Reading::End,
        count => Reading::Got(count),
    }
}

// Bytes that are handed out once, first to last. Contracts see those that are left.
#[derive(Drop)]
pub(crate) struct Rest {
    bytes: Vec<u8>,
    at: usize,
}

impl Model for Rest {
    ghost use Rattle.std.specs.Prelude.{List, ℕ, drop, ◌≤◌, vec_len};

    ghost Value = { List ℕ };

    ghost view = { λ r. drop r.at r.bytes.items };

    ghost invariant = { λ r. r.at ≤ vec_len r.bytes };
}

impl Rest {
    pub(crate) fn of(bytes: Vec<u8>) -> Rest
        ensures { result ≡ bytes.items }
    {
        Rest { bytes, at: 0 }
    }

    pub(crate) fn left(&self) -> &[u8]
        ensures { result.now ≡ self.now }
    {
        &self.bytes[self.at..]
    }

    // Moves first bytes to the front of the buffer, as many as there are and fit, and says how
    // many.
    pub(crate) fn move_first(&mut self, buffer: &mut [u8]) -> usize
        ensures count { result ≡ min (length self.old) (length buffer.old) }
        ensures moved { self.old ≡ take result buffer.new ++ self.new }
        ensures rest { drop result buffer.new ≡ drop result buffer.old }
    {
        let count = copy_from(&self.bytes, self.at, buffer);
        self.at += count;
        count
    }
}

// A buffer that is made with its room and never grows.
#[derive(Drop)]
pub(crate) struct Buffer {
    bytes: Vec<u8>,
    room: usize,
}

impl Model for Buffer {
    ghost use Rattle.std.specs.Prelude.{◌≤◌, vec_len, vec_capacity};
    ghost use Rattle.ports.specs.Memory.{Room};

    ghost Value = { Room };

    ghost view = { λ b. record { held = b.bytes.items; room = b.room } };

    ghost invariant = { λ b. (vec_len b.bytes ≤ b.room) × (b.room ≤ vec_capacity b.bytes) };
}

impl Buffer {
    pub(crate) fn with_room(alloc: Global, room: usize) -> Result<Buffer, AllocError>
        ensures { IfOk result (λ b. b ≡ empty_room room) }
    {
        Ok(Buffer {
            bytes: Vec::with_capacity(alloc, room)?,
            room,
        })
    }

    // A buffer without room, which takes no memory.
    pub(crate) fn empty(alloc: Global) -> Buffer
        ensures { result ≡ empty_room 0 }
    {
        Buffer {
            bytes: Vec::new(alloc),
            room: 0,
        }
    }

    pub(crate) fn bytes(&self) -> &[u8]
        ensures value { result.now ≡ self.now.held }
        ensures fits { length self.now.held ≤ self.now.room }
    {
        self.bytes.as_slice()
    }

    pub(crate) fn into_bytes(self) -> Vec<u8>
        ensures { result.items ≡ self.held }
    {
        self.bytes
    }

    // Appends first bytes of the piece, as many as there is room for, and says how many. It takes
    // no memory.
    pub(crate) fn append_first(&mut self, piece: &[u8]) -> usize
        ensures count { result ≡ min (length piece.now) (room_left self.old) }
        ensures held { self.new.held ≡ self.old.held ++ take result piece.now }
        ensures room { self.new.room ≡ self.old.room }
        ensures fits { length self.old.held ≤ self.old.room }
    {
        let count = piece.len().min(self.room - self.bytes.len());
        self.bytes.extend_from_slice(&piece[..count]).unwrap();
        count
    }
}

// Which calls are to fail, by their numbers from 1, and how many there were and failed.
#[derive(Drop)]
pub(crate) struct Calls {
    fails: Vec<u64>,
    calls: u64,
    faults: u64,
}

impl Model for Calls {
    ghost use Rattle.ports.specs.Memory.{Course};

    ghost Value = { Course };

    ghost view = { λ c. record { fails = c.fails.items; calls = c.calls; faults = c.faults } };
}

impl Calls {
    pub(crate) fn of(fails: Vec<u64>) -> Calls
        ensures { result ≡ new_course fails.items }
    {
        Calls {
            fails,
            calls: 0,
            faults: 0,
        }
    }

    // Counts a call, and says whether it is to fail.
    pub(crate) fn begin(&mut self) -> bool
        ensures listed { result ≡ is_listed self.old }
        ensures counted { self.new ≡ after_call self.old false }
    {
        self.calls = self.calls.saturating_add(1);
        self.fails.contains(&self.calls)
    }

    // Counts a fault.
    pub(crate) fn fail(&mut self)
        ensures counted { self.new ≡ record self.old { faults = one_more self.old.faults } }
        ensures rose { Rose self.old.faults self.new.faults }
        ensures once { self.new.faults ≤ self.old.faults + 1 }
    {
        self.faults = self.faults.saturating_add(1);
    }

    pub(crate) fn faults(&self) -> u64
        ensures { result ≡ self.now.faults }
    {
        self.faults
    }
}
