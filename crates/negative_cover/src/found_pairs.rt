// Pairs of rows, one for each agree set that was found.
ghost use Rattle.std.specs.Prelude.{◌≡◌, ◌<◌, [], IsTrue, OnOk, IfOk};
ghost use Rattle.col_set.specs.Lists.{Listed};
ghost use Rattle.negative_cover.specs.Witnesses.{sets_of};
ghost use Rattle.negative_cover.specs.FoundPairs.{AreSeen, AreSetsSeen, HasAdded};

use crate::Witness;
use rel_base::ColSet;
use std::alloc::{AllocError, Global};
use std::collections::HashSet;
use std::hash::{BuildHasher, BuildHasherDefault, DefaultHasher, FoldHasher};

// How many agree sets are remembered as seen lately, a power of two.
const SLOTS: usize = 1024;

// The agree sets that were found. The hash is SipHash with a fixed key.
type AgreeSets = HashSet<ColSet, BuildHasherDefault<DefaultHasher>>;

// Pairs of rows, no two with the same agree set.
//
// Most pairs of rows have an agree set that others had shortly before. So each agree set is first looked up in one slot of a small table,
// by a hash that is one multiplication. That it is not there only costs a look-up in the set of all that were found, whose hash resists
// rows that were chosen to collide. The table has no slots until a set is found, and from then on each slot has one that was found: so a
// slot needs no mark that it is in use.
#[derive(Drop)]
pub(crate) struct FoundPairs {
    pub(crate) pairs: Vec<Witness>,
    seen: AgreeSets,
    recent: Vec<ColSet>,
}

impl FoundPairs {
    // No pairs.
    pub(crate) fn none(alloc: Global) -> Result<FoundPairs, AllocError>
        ensures pairs { IfOk result (λ found. found.pairs.items ≡ []) }
        ensures seen { IfOk result AreSeen }
    {
        Ok(FoundPairs {
            pairs: Vec::new(alloc),
            seen: AgreeSets::with_hasher(alloc, BuildHasherDefault::new()),
            recent: Vec::new(alloc),
        })
    }

    // Whether a pair with this agree set is known to be there. Where it is not known, there may be one all the same.
    #[inline(always)]
    pub(crate) fn is_recent(&self, agree: ColSet) -> bool
        requires { AreSeen self.now }
        ensures { IsTrue result → Listed agree (sets_of self.now.pairs.items) }
    {
        let slot = slot_of(agree);
        slot < self.recent.len() && self.recent[slot] == agree
    }

    // Adds a pair where there is none with its agree set, which is recent from then on. Few pairs come here: it stays out of the loops over
    // all of them.
    #[inline(never)]
    pub(crate) fn add(&mut self, pair: Witness) -> Result<(), AllocError>
        requires { AreSeen self.old }
        ensures seen { OnOk result (AreSeen self.new) }
        ensures added { OnOk result (HasAdded pair self.old.pairs.items self.new.pairs.items) }
    {
        let agree = pair.agree;
        add_unseen(&mut self.pairs, &mut self.seen, pair)?;
        self.recent.resize(SLOTS, agree)?;
        self.recent[slot_of(agree)] = agree;
        Ok(())
    }
}

// Adds a pair whose agree set is none of these.
fn add_unseen(
    pairs: &mut Vec<Witness>,
    seen: &mut AgreeSets,
    pair: Witness,
) -> Result<(), AllocError>
    requires { AreSetsSeen seen.old.keys pairs.old.items }
    ensures seen { OnOk result (AreSetsSeen seen.new.keys pairs.new.items) }
    ensures added { OnOk result (HasAdded pair pairs.old.items pairs.new.items) }
{
    let added = seen.insert(pair.agree)?;
    if !added {
        return Ok(());
    }
    pairs.push(pair)?;
    Ok(())
}

// The slot of an agree set.
#[inline(always)]
fn slot_of(agree: ColSet) -> usize
    ensures { result < SLOTS }
{
    let hash = BuildHasherDefault::<FoldHasher>::new().hash_one(agree);
    hash as usize & (SLOTS - 1)
}
