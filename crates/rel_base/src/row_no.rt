// Numbers of rows.
ghost use Rattle.std.specs.Prelude.{◌≡◌, ◌<◌};

use std::marker::Model;

/// The number of a row, from 1. Numbers are given in order and never used twice.
///
/// Contracts see the number. A job's bounds and a relation's next number are row numbers too.
#[derive(Clone, Copy, Debug, PartialEq, Eq, PartialOrd, Ord)]
pub struct RowNo {
    number: u32,
}

impl Model for RowNo {
    ghost use Rattle.std.specs.Prelude.{ℕ, ◌<◌};

    ghost Value = { ℕ };

    ghost view = { λ r. r.number };

    ghost invariant = { λ r. 0 < r.number };

    ghost inverse = { λ n. record { number = n } };
}

impl RowNo {
    /// The row number that this number is.
    pub fn of(number: u32) -> RowNo
        requires { 0 < number }
        ensures { result ≡ number }
    {
        RowNo { number }
    }

    /// The number of the first row.
    pub fn first() -> RowNo
        ensures { result ≡ 1 }
    {
        RowNo { number: 1 }
    }

    /// The number, from 1.
    pub fn number(self) -> u32
        ensures value { result ≡ self }
        ensures positive { 0 < result }
    {
        self.number
    }
}
