// A cell that is compared by its first bytes.
ghost use Rattle.std.specs.Prelude.{◌≡◌, ℕ, List, Some, refl, nat_eq};
ghost use Rattle.std.specs.Cmp.{partial_equiv_from_equiv};
ghost use Rattle.std.specs.Cmp.Lexicographic.{pointwise, nat_list_eq_equiv};
ghost use Rattle.inclusion_merge.specs.Values.{IsPrefixed, prefix_of, value_cmp};
ghost use Rattle.inclusion_merge.specs.Order.{value_total, value_ties, value_po};

use std::cmp::Ordering;
use std::marker::Model;

// How many bytes the prefix has.
const PREFIX: usize = 16;

/// A cell that is not NULL, beside its first bytes as one number, by which most cells are told apart.
///
/// Contracts see the bytes. The order is any order: it serves to find equal values.
#[derive(Drop)]
pub(crate) struct Value<'a> {
    prefix: u128,
    bytes: &'a [u8],
}

impl<'a> Model for Value<'a> {
    ghost Value = { List ℕ };

    ghost view = { λ v. v.bytes.now };

    ghost invariant = { λ v. IsPrefixed v.prefix v.bytes.now };
}

fn prefix_of(bytes: &[u8]) -> u128
    ensures { result ≡ prefix_of bytes.now }
{
    bytes.iter().take(PREFIX).fold(0u128, |prefix, byte| {
        prefix.wrapping_mul(256).wrapping_add(u128::from(*byte))
    })
}

impl<'a> Value<'a> {
    pub(crate) fn of(bytes: &'a [u8]) -> Value<'a>
        ensures { result ≡ bytes.now }
    {
        Value {
            prefix: prefix_of(bytes),
            bytes,
        }
    }
}

impl<'a> PartialEq for Value<'a> {
    ghost eq = { pointwise nat_eq };

    ghost laws = { partial_equiv_from_equiv nat_list_eq_equiv };

    fn eq(&self, other: &Value<'a>) -> bool {
        self.cmp(other).is_eq()
    }
}

impl<'a> Eq for Value<'a> {
    ghost laws = { nat_list_eq_equiv };
}

impl<'a> PartialOrd for Value<'a> {
    ghost partial_cmp = { λ x y. Some (value_cmp x y) };

    ghost laws = { value_po };

    fn partial_cmp(&self, other: &Value<'a>) -> Option<Ordering> {
        Some(self.cmp(other))
    }
}

impl<'a> Ord for Value<'a> {
    ghost cmp = { value_cmp };

    ghost total = { value_total };

    ghost matches_partial_cmp = { λ x y. refl };

    ghost matches_eq = { value_ties };

    fn cmp(&self, other: &Value<'a>) -> Ordering {
        match self.prefix.cmp(&other.prefix) {
            Ordering::Equal => match self.bytes.len().cmp(&other.bytes.len()) {
                Ordering::Equal => {
                    if self.bytes.len() <= PREFIX {
                        Ordering::Equal
                    } else {
                        self.bytes.cmp(other.bytes)
                    }
                }
                unequal => unequal,
            },
            unequal => unequal,
        }
    }
}
