// Where bytes go.
ghost use Rattle.std.specs.Prelude.{◌≡◌, ℕ, List, Option, length, ◌<◌, ◌≤◌, ◌+◌};
ghost use Rattle.ports.specs.Faults.{Counts};
ghost use Rattle.ports.specs.Answers.{write_failed, WriteAppends};

/// What a write answers.
#[derive(Clone, Copy, Debug, PartialEq, Eq)]
pub enum Writing {
    /// So many first bytes of the piece, at least one, were appended.
    Took(usize),
    /// The write failed. Nothing was appended.
    Failed,
}

/// Where bytes are written to, one behind the other.
pub trait Sink {
    /// The bytes that it holds, or `None` where the type does not tell them.
    ghost held: { Self → Option (List ℕ) };

    /// How many bytes it has room for in all, or `None` where no number is known.
    ghost room: { Self → Option ℕ };

    /// How often a write failed.
    ghost faults: { Self → ℕ };

    /// Appends first bytes of the piece, as many as it likes. A device that takes none fails.
    fn write(&mut self, piece: &[u8]) -> Writing
        requires { 0 < length piece.now }
        ensures appended { WriteAppends result piece.now (held self.old) (held self.new) }
        ensures room { room self.new ≡ room self.old }
        ensures counted { Counts (write_failed result) (faults self.old) (faults self.new) }
        ensures once { faults self.new ≤ faults self.old + 1 };
}
