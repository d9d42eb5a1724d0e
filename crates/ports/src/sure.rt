// A source that never fails, and a sink that fails only where it is full.
ghost use Rattle.std.specs.Prelude.{◌≡◌, ◌<◌, ◌≤◌, ◌+◌, length, min, false, Some, IfOk};
ghost use Rattle.ports.specs.Faults.{Counts};
ghost use Rattle.ports.specs.Answers.{read_failed, write_failed, LeavesRest, ReadMoves, WriteAppends};
ghost use Rattle.ports.specs.Memory.{empty_room, room_left, read_answer, write_answer};

use crate::pieces::{Buffer, Rest, reading_of};
use crate::{Reading, Sink, Source, Writing};
use std::alloc::{AllocError, Global};
use std::marker::Model;

/// A source in memory that never fails: its count of faults is the constant 0. Contracts see the
/// bytes that are left.
#[derive(Drop)]
pub struct SureSource {
    rest: Rest,
}

impl Model for SureSource {
    ghost use Rattle.std.specs.Prelude.{List, ℕ};

    ghost Value = { List ℕ };

    ghost view = { λ s. s.rest };
}

impl SureSource {
    /// A source of these bytes, which takes no memory.
    pub fn of(bytes: Vec<u8>) -> SureSource
        ensures { result ≡ bytes.items }
    {
        SureSource {
            rest: Rest::of(bytes),
        }
    }

    /// The bytes that are left.
    pub fn left(&self) -> &[u8]
        ensures { result.now ≡ self.now }
    {
        self.rest.left()
    }
}

impl Source for SureSource {
    ghost left = { λ s. Some s };

    ghost faults = { λ _. 0 };

    fn read(&mut self, buffer: &mut [u8]) -> Reading
        requires { 0 < length buffer.old }
        ensures moved { ReadMoves result buffer.new (Some self.old) (Some self.new) }
        ensures rest { LeavesRest result buffer.old buffer.new }
        ensures counted { Counts (read_failed result) 0 0 }
        ensures once { 0 ≤ 0 + 1 }
        ensures answer { result
            ≡ read_answer false (min (length self.old) (length buffer.old)) }
    {
        reading_of(self.rest.move_first(buffer))
    }
}

/// A sink in memory that fails only where it is full. It is made with its room, and no later call
/// takes memory.
///
/// Contracts see the bytes that it holds beside its room, and its count of faults. A count above 0
/// says that it is full.
#[derive(Drop)]
pub struct SureSink {
    store: Buffer,
    faults: u64,
}

impl Model for SureSink {
    ghost use Rattle.std.specs.Prelude.{◌≡◌, ◌<◌, length};
    ghost use Rattle.ports.specs.Memory.{SureHeld};

    ghost Value = { SureHeld };

    ghost view = { λ s. record { store = s.store; faults = s.faults } };

    ghost invariant = { λ s. 0 < s.faults → length s.store.held ≡ s.store.room };
}

impl SureSink {
    /// An empty sink with room for so many bytes.
    pub fn with_room(alloc: Global, bytes: usize) -> Result<SureSink, AllocError>
        ensures { IfOk result (λ sink. sink ≡ record { store = empty_room bytes; faults = 0 }) }
    {
        Ok(SureSink {
            store: Buffer::with_room(alloc, bytes)?,
            faults: 0,
        })
    }

    /// The bytes that it holds.
    pub fn bytes(&self) -> &[u8]
        ensures value { result.now ≡ self.now.store.held }
        ensures fits { length self.now.store.held ≤ self.now.store.room }
        ensures full { 0 < self.now.faults → length self.now.store.held ≡ self.now.store.room }
    {
        self.store.bytes()
    }

    /// How often a write failed, since the sink was full.
    pub fn faults(&self) -> u64
        ensures { result ≡ self.now.faults }
    {
        self.faults
    }
}

impl Sink for SureSink {
    ghost held = { λ s. Some s.store.held };

    ghost room = { λ s. Some s.store.room };

    ghost faults = { λ s. s.faults };

    fn write(&mut self, piece: &[u8]) -> Writing
        requires { 0 < length piece.now }
        ensures appended { WriteAppends result piece.now
            (Some self.old.store.held) (Some self.new.store.held) }
        ensures room { Some self.new.store.room ≡ Some self.old.store.room }
        ensures counted { Counts (write_failed result) self.old.faults self.new.faults }
        ensures once { self.new.faults ≤ self.old.faults + 1 }
        ensures answer { result
            ≡ write_answer false (min (length piece.now) (room_left self.old.store)) }
    {
        match self.store.append_first(piece) {
            0 => {
                self.faults = self.faults.saturating_add(1);
                Writing::Failed
            }
            count => Writing::Took(count),
        }
    }
}
