// A cell as the dictionary keeps it.
ghost use Rattle.std.specs.Prelude.{◌≡◌, ◌≤◌, ◌∷◌, [], ◌↔◌, IfOk, IsTrue, nat_eq, length, take};
ghost use Rattle.std.specs.Cmp.Lexicographic.{pointwise, nat_list_eq_equiv};
ghost use Rattle.std.specs.Cmp.{partial_equiv_from_equiv};
ghost use Rattle.std.specs.Cmp.Rules.{hashing};
ghost use Rattle.std.proofs.Common.{rules};

use std::alloc::{AllocError, Global};
use std::hash::{Hash, Hasher};
use std::marker::Model;

// How many bytes a cell has at most that is kept in place: so many fill two words, with their number and a tag.
const MOST_SHORT: usize = 14;

// How many bytes a cell has at most that is kept in one small block. So many are a block's bytes beside those of an allocator.
const MOST_MIDDLE: usize = 24;

// How many bytes a cell has at most that is kept in one block of the next size of an allocator.
const MOST_WIDE: usize = 40;

/// The bytes of a cell that a dictionary keeps. It is two words: a short cell is kept in them, and takes no memory beside them.
///
/// Contracts see the list of the bytes.
#[derive(Drop)]
pub struct Text {
    kept: Kept,
}

// A cell of at most 40 bytes takes one allocation at most, and a longer one two.
#[derive(Drop)]
enum Kept {
    Short {
        length: u8,
        bytes: [u8; MOST_SHORT],
    },
    Middle {
        length: u8,
        bytes: Box<[u8; MOST_MIDDLE]>,
    },
    Wide {
        length: u8,
        bytes: Box<[u8; MOST_WIDE]>,
    },
    Long(Box<Vec<u8>>),
}

impl Model for Text {
    ghost use Rattle.std.specs.Prelude.{List, ℕ};
    ghost use Rattle.column_dict.specs.Text.{bytes_of, IsKept};

    ghost Value = { List ℕ };

    ghost view = { λ t. bytes_of t.kept };

    ghost invariant = { λ t. IsKept t.kept };
}

impl Text {
    // NULL.
    pub(crate) fn null() -> Text
        ensures { result ≡ [] }
    {
        Text {
            kept: Kept::Short {
                length: 0,
                bytes: [0; MOST_SHORT],
            },
        }
    }

    // A copy of these bytes. It takes memory only where they are long.
    pub(crate) fn copied(alloc: Global, bytes: &[u8]) -> Result<Text, AllocError>
        ensures { IfOk result (λ text. text ≡ bytes.now) }
    {
        let length = bytes.len();
        let kept = if length <= MOST_SHORT {
            Kept::Short {
                length: length as u8,
                bytes: padded(bytes),
            }
        } else if length <= MOST_MIDDLE {
            Kept::Middle {
                length: length as u8,
                bytes: Box::new(alloc, padded(bytes))?,
            }
        } else if length <= MOST_WIDE {
            Kept::Wide {
                length: length as u8,
                bytes: Box::new(alloc, padded(bytes))?,
            }
        } else {
            Kept::Long(Box::new(alloc, Vec::from_slice(alloc, bytes)?)?)
        };
        Ok(Text { kept })
    }

    // A long cell of these bytes, in the block of this text where that has room for them, and else in a larger one.
    pub(crate) fn refilled(self, alloc: Global, bytes: &[u8]) -> Result<Text, AllocError>
        ensures { IfOk result (λ text. text ≡ bytes.now) }
    {
        let mut block = match self.kept {
            Kept::Long(block) => block,
            _other => Box::new(alloc, Vec::new(alloc))?,
        };
        block.clear();
        block.extend_from_slice(bytes)?;
        Ok(Text {
            kept: Kept::Long(block),
        })
    }

    /// The bytes.
    pub fn bytes(&self) -> &[u8]
        ensures { result.now ≡ self.now }
    {
        match &self.kept {
            Kept::Short { length, bytes } => &bytes[..*length as usize],
            Kept::Middle { length, bytes } => &bytes[..*length as usize],
            Kept::Wide { length, bytes } => &bytes[..*length as usize],
            Kept::Long(bytes) => bytes.as_slice(),
        }
    }

    /// Whether it is NULL.
    pub fn is_null(&self) -> bool
        ensures { IsTrue result ↔ (self.now ≡ []) }
    {
        self.bytes().is_empty()
    }
}

// Whether a cell of these bytes takes no memory beside its own two words.
pub(crate) fn is_short(bytes: &[u8]) -> bool {
    bytes.len() <= MOST_SHORT
}

// These bytes, and zeros behind them.
fn padded<const N: usize>(bytes: &[u8]) -> [u8; N]
    requires { length bytes.now ≤ N }
    ensures { take (length bytes.now) result ≡ bytes.now }
{
    let mut block = [0; N];
    block[..bytes.len()].copy_from_slice(bytes);
    block
}

impl PartialEq for Text {
    ghost eq = { pointwise nat_eq };

    ghost laws = { partial_equiv_from_equiv nat_list_eq_equiv };

    fn eq(&self, other: &Text) -> bool {
        self.bytes() == other.bytes()
    }
}

impl Eq for Text {
    ghost laws = { nat_list_eq_equiv };
}

// One write of all bytes, which hashers take faster than a write of the bytes and one of an end mark.
impl Hash for Text {
    ghost hash_input = { λ t. t ∷ [] };

    ghost respects_eq = { Prim.search (hashing, rules) };

    fn hash<H: Hasher>(&self, state: &mut H) {
        state.write(self.bytes());
    }
}
