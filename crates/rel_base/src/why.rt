// Causes of a refusal.
ghost use Rattle.std.specs.Prelude.{◌≡◌};

/// Why a file, a batch of a change text or an operation on rows was refused.
#[derive(Clone, Copy, Debug, PartialEq, Eq)]
pub enum Why {
    /// No record in the file.
    NoHeader = 1,
    /// A header wider than the limit.
    Columns = 2,
    /// A wrong number of fields.
    Fields = 3,
    /// A cell longer than the limit.
    Cell = 4,
    /// The row number to be given is above the limit.
    Rows = 5,
    /// More bytes than the limit.
    Bytes = 6,
    /// An unknown first field, or a report asked for inside a batch.
    Kind = 7,
    /// Not a row number in plain decimal, 1 to 4294967295.
    Number = 8,
    /// The named row is not live.
    Missing = 9,
    /// The text ends inside a batch.
    Cut = 10,
}

impl Why {
    ghost use Rattle.rel_base.specs.Why.{code_of};

    /// The number that a report writes for it, 1 to 10.
    pub fn code(self) -> u8
        ensures { result ≡ code_of self }
    {
        self as u8
    }
}
