// What one record of a change text says.
ghost use Rattle.std.specs.Prelude.{◌≡◌};

use rel_base::{Op, Why};

/// What one record says.
#[derive(Drop)]
pub(crate) enum Entry {
    /// A change of the rows.
    Operation(Op),
    /// The batch ends.
    End,
    /// A report is asked for.
    Report,
    /// Nothing that a change text may say.
    Malformed(Why),
}

impl Entry {
    ghost use Rattle.batch_update.specs.Entry as spec;

    /// Whether it ends a batch.
    pub(crate) fn is_end(&self) -> bool
        ensures { result ≡ spec.is_end self.now }
    {
        matches!(self, Entry::End)
    }
}
