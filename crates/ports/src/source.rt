// Where bytes come from.
ghost use Rattle.std.specs.Prelude.{ℕ, List, Option, length, ◌<◌, ◌≤◌, ◌+◌, IfSome};
ghost use Rattle.ports.specs.Faults.{Counts};
ghost use Rattle.ports.specs.Answers.{read_failed, LeavesRest, ReadMoves};

/// What a read answers.
#[derive(Clone, Copy, Debug, PartialEq, Eq)]
pub enum Reading {
    /// So many bytes, at least one, were moved into the front of the buffer.
    Got(usize),
    /// Nothing is left.
    End,
    /// The read failed. Nothing was moved.
    Failed,
}

/// Where bytes are read from once, first to last.
pub trait Source {
    /// The bytes that are left, or `None` where the type does not tell them.
    ghost left: { Self → Option (List ℕ) };

    /// How often a read failed.
    ghost faults: { Self → ℕ };

    /// Moves first bytes of those that are left into the front of the buffer, as many as it likes.
    /// A type that tells its bytes leaves the rest of the buffer as it was.
    fn read(&mut self, buffer: &mut [u8]) -> Reading
        requires { 0 < length buffer.old }
        ensures moved { ReadMoves result buffer.new (left self.old) (left self.new) }
        ensures rest { IfSome (left self.old) (λ _. LeavesRest result buffer.old buffer.new) }
        ensures counted { Counts (read_failed result) (faults self.old) (faults self.new) }
        ensures once { faults self.new ≤ faults self.old + 1 };
}
