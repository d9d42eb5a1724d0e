// Witnesses, in the order in which they were added.
ghost use Rattle.std.specs.Prelude.{◌≡◌, ◌∷◌, [], ◌++◌, IsTrue, IsNone, IfSome, OnOk, OnErr, IfOk, ◌↔◌, ◌&&◌, not, false, length, slice_get};
ghost use Rattle.std.specs.List.Sorted.{IsNonDecreasing};
ghost use Rattle.col_set.specs.ColSet.{subset};
ghost use Rattle.col_set.specs.Target.{IsColumnTarget, has_target};
ghost use Rattle.col_set.specs.Evidence.{refuted};
ghost use Rattle.negative_cover.specs.Witnesses as words;
ghost use Rattle.negative_cover.specs.Witnesses.{sets_of, live_of, dead_of, IsRefutation};

use crate::rows::{is_among, is_ascending};
use rel_base::{ColSet, MOST_COLUMNS, RowNo, Target};
use std::alloc::{AllocError, Global};
use std::marker::Model;

/// Two rows, and the columns on which they agree. It refutes each dependency whose left side lies among these columns and
/// whose target does not. Witnesses are ordered by these columns in report order, and then by the rows.
#[derive(Clone, Copy, Debug, PartialEq, Eq, PartialOrd, Ord)]
pub struct Witness {
    pub agree: ColSet,
    pub i: RowNo,
    pub j: RowNo,
}

/// Witnesses in the order in which they were added, 32 bytes each. Contracts see the list.
#[derive(Drop)]
pub struct NegativeCover {
    witnesses: Vec<Witness>,
}

impl Model for NegativeCover {
    ghost use Rattle.std.specs.Prelude.{List};
    ghost use Rattle.negative_cover.specs.declared.negative_cover.Witness.{Witness};

    ghost Value = { List Witness };

    ghost view = { λ c. c.witnesses.items };
}

/// The agree sets of the witnesses without a dead row, and of those with one, each in the list's order.
#[derive(Drop)]
pub struct Withdrawal {
    pub rest: Vec<ColSet>,
    pub gone: Vec<ColSet>,
}

impl NegativeCover {
    /// No witnesses.
    pub fn new(alloc: Global) -> NegativeCover
        ensures { result ≡ [] }
    {
        NegativeCover {
            witnesses: Vec::new(alloc),
        }
    }

    /// Appends a witness. After want of memory the list is as before.
    pub fn add(&mut self, witness: Witness) -> Result<(), AllocError>
        ensures ok { OnOk result (self.new ≡ self.old ++ witness ∷ []) }
        ensures refused { OnErr result (self.new ≡ self.old) }
    {
        self.witnesses.push(witness)?;
        Ok(())
    }

    /// Appends witnesses in their order. After want of memory the list is as before.
    pub fn add_all(&mut self, more: &[Witness]) -> Result<(), AllocError>
        ensures ok { OnOk result (self.new ≡ self.old ++ more.now) }
        ensures refused { OnErr result (self.new ≡ self.old) }
    {
        self.witnesses.extend_from_slice(more)?;
        Ok(())
    }

    /// The agree sets that would be left, and those that would go, if these rows died.
    ///
    /// Two rows of each witness are looked up among the dead ones: by halves where `dead` ascends, so that the time grows
    /// with the number of witnesses and the logarithm of the number of dead rows, else one after another.
    pub fn withdrawal(&self, alloc: Global, dead: &[RowNo]) -> Result<Withdrawal, AllocError>
        ensures rest { IfOk result (λ p. p.rest.items ≡ sets_of (live_of dead.now self.now)) }
        ensures gone { IfOk result (λ p. p.gone.items ≡ sets_of (dead_of dead.now self.now)) }
    {
        let ascending = is_ascending(dead);
        let mut rest = Vec::new(alloc);
        let mut gone = Vec::new(alloc);
        for witness in self.witnesses.as_slice() {
            if has_dead(dead, ascending, *witness) {
                gone.push(witness.agree)?;
            } else {
                rest.push(witness.agree)?;
            }
        }
        Ok(Withdrawal { rest, gone })
    }

    /// Drops the witnesses with a dead row. It takes the time of `withdrawal`, and no memory.
    pub fn withdraw(&mut self, dead: &[RowNo])
        ensures { self.new ≡ live_of dead.now self.old }
    {
        let ascending = is_ascending(dead);
        self.witnesses
            .retain(|witness| !has_dead(dead, ascending, *witness));
    }

    /// The rows of a witness that agree on x and not on the target, if there is one. It takes a step a witness.
    pub fn refutes(&self, target: Target, x: ColSet) -> Option<(RowNo, RowNo)>
        requires { IsColumnTarget MOST_COLUMNS target }
        ensures none { IsNone result ↔ (refuted (sets_of self.now) target x ≡ false) }
        ensures rows { IfSome result (λ p. IsRefutation self.now target x p.0 p.1) }
    {
        for witness in self.witnesses.as_slice() {
            if witness.agree.refutes(x, target) {
                return Some((witness.i, witness.j));
            }
        }
        None
    }

    /// How many witnesses there are.
    pub fn len(&self) -> usize
        ensures { result ≡ length self.now }
    {
        self.witnesses.len()
    }

    /// Whether there are none.
    pub fn is_empty(&self) -> bool
        ensures { IsTrue result ↔ (self.now ≡ []) }
    {
        self.witnesses.is_empty()
    }

    /// The witness at a place, counted from 0 by the order in which they were added.
    pub fn get(&self, k: usize) -> Option<Witness>
        ensures { result ≡ slice_get self.now k }
    {
        self.witnesses.get(k).copied()
    }

    /// The agree sets of the witnesses, in the order in which these were added, 16 bytes each.
    pub fn agree_sets(&self, alloc: Global) -> Result<Vec<ColSet>, AllocError>
        ensures { IfOk result (λ sets. sets.items ≡ sets_of self.now) }
    {
        let mut sets = Vec::with_capacity(alloc, self.witnesses.len())?;
        for witness in self.witnesses.as_slice() {
            sets.push(witness.agree)?;
        }
        Ok(sets)
    }

    /// The witnesses in the order in which they were added.
    pub fn witnesses(&self) -> &[Witness]
        ensures { result.now ≡ self.now }
    {
        self.witnesses.as_slice()
    }
}

// Whether one of its two rows is dead.
fn has_dead(dead: &[RowNo], ascending: bool, witness: Witness) -> bool
    requires { IsTrue ascending → IsNonDecreasing dead.now }
    ensures { result ≡ words.has_dead dead.now witness }
{
    is_among(dead, ascending, witness.i) || is_among(dead, ascending, witness.j)
}
