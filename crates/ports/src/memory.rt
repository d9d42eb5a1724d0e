// A source and a sink of which listed calls fail.
ghost use Rattle.std.specs.Prelude.{◌≡◌, ◌<◌, ◌≤◌, ◌+◌, length, Some, IfOk};
ghost use Rattle.ports.specs.Faults.{Counts};
ghost use Rattle.ports.specs.Answers.{read_failed, write_failed, LeavesRest, ReadMoves, WriteAppends};
ghost use Rattle.ports.specs.Memory.{empty_room, new_course, is_listed, after_call, read_answer, write_answer, readable, writable};

use crate::pieces::{Buffer, Calls, Rest, reading_of};
use crate::{Reading, Sink, Source, Writing};
use std::alloc::{AllocError, Global};
use std::marker::Model;

/// A source in memory of which listed calls fail, and whose reads move at most so many bytes.
///
/// Contracts see the bytes that are left, the course of its calls and the largest piece.
#[derive(Drop)]
pub struct MemSource {
    rest: Rest,
    calls: Calls,
    largest: usize,
}

impl Model for MemSource {
    ghost use Rattle.std.specs.Prelude.{◌<◌};
    ghost use Rattle.ports.specs.Memory.{MemLeft};

    ghost Value = { MemLeft };

    ghost view = { λ s. record { left = s.rest; course = s.calls; largest = s.largest } };

    ghost invariant = { λ s. 0 < s.largest };
}

impl MemSource {
    /// A source of these bytes, which takes no memory. `fails` has the numbers of the reads that
    /// fail, counted from 1.
    pub fn of(bytes: Vec<u8>, fails: Vec<u64>, largest: usize) -> MemSource
        requires { 0 < largest }
        ensures { result
            ≡ record { left = bytes.items; course = new_course fails.items; largest = largest } }
    {
        MemSource {
            rest: Rest::of(bytes),
            calls: Calls::of(fails),
            largest,
        }
    }

    /// The bytes that are left.
    pub fn left(&self) -> &[u8]
        ensures { result.now ≡ self.now.left }
    {
        self.rest.left()
    }

    /// How often a read failed.
    pub fn faults(&self) -> u64
        ensures { result ≡ self.now.course.faults }
    {
        self.calls.faults()
    }
}

impl Source for MemSource {
    ghost left = { λ s. Some s.left };

    ghost faults = { λ s. s.course.faults };

    fn read(&mut self, buffer: &mut [u8]) -> Reading
        requires { 0 < length buffer.old }
        ensures moved { ReadMoves result buffer.new
            (Some self.old.left) (Some self.new.left) }
        ensures rest { LeavesRest result buffer.old buffer.new }
        ensures counted { Counts (read_failed result)
            self.old.course.faults self.new.course.faults }
        ensures once { self.new.course.faults ≤ self.old.course.faults + 1 }
        ensures answer { result ≡ read_answer (is_listed self.old.course)
            (readable self.old (length buffer.old)) }
        ensures course { self.new.course ≡ after_call self.old.course (read_failed result) }
        ensures largest { self.new.largest ≡ self.old.largest }
    {
        if self.calls.begin() {
            self.calls.fail();
            return Reading::Failed;
        }
        let most = buffer.len().min(self.largest);
        reading_of(self.rest.move_first(&mut buffer[..most]))
    }
}

/// A sink in memory of which listed calls fail, and whose writes take at most so many bytes. It is
/// made with its room, and no later call takes memory.
///
/// Contracts see the bytes that it holds beside its room, the course of its calls and the largest
/// piece.
#[derive(Drop)]
pub struct MemSink {
    store: Buffer,
    calls: Calls,
    largest: usize,
}

impl Model for MemSink {
    ghost use Rattle.std.specs.Prelude.{◌<◌};
    ghost use Rattle.ports.specs.Memory.{MemHeld};

    ghost Value = { MemHeld };

    ghost view = { λ s. record { store = s.store; course = s.calls; largest = s.largest } };

    ghost invariant = { λ s. 0 < s.largest };
}

impl MemSink {
    /// An empty sink with room for so many bytes. `fails` has the numbers of the writes that fail,
    /// counted from 1.
    pub fn with_room(
        alloc: Global,
        bytes: usize,
        fails: Vec<u64>,
        largest: usize,
    ) -> Result<MemSink, AllocError>
        requires { 0 < largest }
        ensures { IfOk result (λ sink. sink ≡ record {
          store = empty_room bytes;
          course = new_course fails.items;
          largest = largest;
        }) }
    {
        Ok(MemSink {
            store: Buffer::with_room(alloc, bytes)?,
            calls: Calls::of(fails),
            largest,
        })
    }

    /// The bytes that it holds.
    pub fn bytes(&self) -> &[u8]
        ensures value { result.now ≡ self.now.store.held }
        ensures fits { length self.now.store.held ≤ self.now.store.room }
    {
        self.store.bytes()
    }

    /// How often a write failed.
    pub fn faults(&self) -> u64
        ensures { result ≡ self.now.course.faults }
    {
        self.calls.faults()
    }
}

impl Sink for MemSink {
    ghost held = { λ s. Some s.store.held };

    ghost room = { λ s. Some s.store.room };

    ghost faults = { λ s. s.course.faults };

    fn write(&mut self, piece: &[u8]) -> Writing
        requires { 0 < length piece.now }
        ensures appended { WriteAppends result piece.now
            (Some self.old.store.held) (Some self.new.store.held) }
        ensures room { Some self.new.store.room ≡ Some self.old.store.room }
        ensures counted { Counts (write_failed result)
            self.old.course.faults self.new.course.faults }
        ensures once { self.new.course.faults ≤ self.old.course.faults + 1 }
        ensures answer { result ≡ write_answer (is_listed self.old.course)
            (writable self.old (length piece.now)) }
        ensures course { self.new.course ≡ after_call self.old.course (write_failed result) }
        ensures largest { self.new.largest ≡ self.old.largest }
    {
        if self.calls.begin() {
            self.calls.fail();
            return Writing::Failed;
        }
        let most = piece.len().min(self.largest);
        match self.store.append_first(&piece[..most]) {
            0 => {
                self.calls.fail();
                Writing::Failed
            }
            count => Writing::Took(count),
        }
    }
}
