// What a certificate is found to be.
ghost use Rattle.std.specs.Prelude.{◌≡◌};

/// Why a text is no certificate. They are asked in this order, each over the whole text.
#[derive(Clone, Copy, Debug, PartialEq, Eq)]
pub enum Flaw {
    /// A record is out of form, or `end` is missing.
    Form = 21,
    /// The number of columns or rows is not the relation's.
    Shape = 22,
    /// A pair does not name two rows of the relation, the lesser number first.
    Pair = 23,
    /// The keys and dependencies are not those that the pairs leave, in order.
    Least = 24,
    /// A key or dependency does not hold.
    Fails = 25,
}

impl Flaw {
    ghost use Rattle.cover_cert.specs.Answers.{code_of};

    /// The number that an answer writes for it, 21 to 25.
    pub fn code(self) -> u8
        ensures { result ≡ code_of self }
    {
        self as u8
    }
}

/// Whether a text is a certificate.
#[derive(Clone, Copy, Debug, PartialEq, Eq)]
pub enum Answer {
    /// It is: what it lists are all minimal keys and dependencies.
    Yes,
    /// It is not, by this record, counted from 1.
    No { record: u64, flaw: Flaw },
}
