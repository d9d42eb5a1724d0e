// What the first round leaves open.
ghost use Rattle.std.specs.Prelude.{◌≡◌, ◌||◌, ◌<◌, false, not, length, slice_index_or, IfOk};
ghost use Rattle.std.specs.List.{filter};
ghost use Rattle.inclusion_merge.specs.Asked.{AreWithin};
ghost use Rattle.inclusion_merge.specs.Candidates.{may};

use crate::candidates::Candidates;
use std::alloc::{AllocError, Global};

/// Pairs of columns among which all inclusions are, and whether a column is included wherever it is the first of a pair.
#[derive(Drop)]
pub(crate) struct Open {
    pub(crate) pairs: Vec<(usize, usize)>,
    pub(crate) settled: Vec<bool>,
}

impl Open {
    ghost use Rattle.inclusion_merge.specs.Open.{is_settled};

    /// The pairs that have to be asked about.
    pub(crate) fn left(&self, alloc: Global) -> Result<Vec<(usize, usize)>, AllocError>
        requires { AreWithin (length self.now.settled.items) self.now.pairs.items }
        ensures { IfOk result (λ left. left.items ≡ filter (λ p. not (is_settled self.now p.0)) self.now.pairs.items) }
    {
        unsettled(alloc, &self.pairs, &self.settled)
    }

    /// The pairs that are settled, and those of the others that are kept.
    pub(crate) fn kept(
        &self,
        alloc: Global,
        kept: &Candidates,
    ) -> Result<Vec<(usize, usize)>, AllocError>
        requires settled { AreWithin (length self.now.settled.items) self.now.pairs.items }
        requires kept { AreWithin kept.now.columns self.now.pairs.items }
        ensures { IfOk result (λ pairs. pairs.items ≡ filter (λ p. is_settled self.now p.0 || may kept.now p.0 p.1) self.now.pairs.items) }
    {
        settled_or_kept(alloc, &self.pairs, &self.settled, kept)
    }

    /// All pairs.
    pub(crate) fn into_pairs(self) -> Vec<(usize, usize)>
        ensures { result.items ≡ self.pairs.items }
    {
        self.pairs
    }
}

fn unsettled(
    alloc: Global,
    pairs: &[(usize, usize)],
    settled: &[bool],
) -> Result<Vec<(usize, usize)>, AllocError>
    requires { AreWithin (length settled.now) pairs.now }
    ensures { IfOk result (λ left. left.items ≡ filter (λ p. not (slice_index_or settled.now p.0 false)) pairs.now) }
{
    let mut left = Vec::new(alloc);
    for pair in pairs {
        if !settled[pair.0] {
            left.push(*pair)?;
        }
    }
    Ok(left)
}

fn settled_or_kept(
    alloc: Global,
    pairs: &[(usize, usize)],
    settled: &[bool],
    kept: &Candidates,
) -> Result<Vec<(usize, usize)>, AllocError>
    requires settled { AreWithin (length settled.now) pairs.now }
    requires kept { AreWithin kept.now.columns pairs.now }
    ensures { IfOk result (λ both. both.items ≡ filter (λ p. slice_index_or settled.now p.0 false || may kept.now p.0 p.1) pairs.now) }
{
    let mut both = Vec::new(alloc);
    for pair in pairs {
        if is_kept(settled, kept, pair.0, pair.1) {
            both.push(*pair)?;
        }
    }
    Ok(both)
}

fn is_kept(settled: &[bool], kept: &Candidates, dependent: usize, referenced: usize) -> bool
    requires settled { dependent < length settled.now }
    requires dependent { dependent < kept.now.columns }
    requires referenced { referenced < kept.now.columns }
    ensures { result ≡ (slice_index_or settled.now dependent false || may kept.now dependent referenced) }
{
    settled[dependent] || kept.has(dependent, referenced)
}
