// Rounds of candidates for one target: the left sides that evidence leaves, and evidence from those that fail.
ghost use Rattle.std.specs.Prelude.{◌≡◌, ◌<◌, ◌≤◌, ◌^◌, [], true, IfOk, IfSome, None, length};
ghost use Rattle.std.specs.List.{All, Contains};
ghost use Rattle.col_set.specs.Target.{IsColumnTarget};
ghost use Rattle.approx_fd.specs.Removal.{removed_in};
ghost use Rattle.approx_fd.specs.Approximate.{nearly_least};
ghost use Rattle.approx_fd.specs.Search.{IsFailing, IsCounted, IsNews, IsCandidate, counted};

use crate::found::NearKey;
use crate::search::Search;
use least_sets::least_sets;
use rel_base::{ColSet, Target};
use std::alloc::{AllocError, Global};
use std::cmp::Ordering;

// The candidates of a round for which few enough rows are to be removed, and sets that fail around the others.
#[derive(Drop)]
struct Round {
    held: Vec<NearKey>,
    news: Vec<ColSet>,
}

// How many rows are to be removed for a set, where it is one of those that are held. They and the sets that are asked for stand in report
// order, so a place moves over them.
fn known(held: &[NearKey], place: &mut usize, set: ColSet) -> Option<u32>
    ensures { IfSome result (λ count. Contains held.now (record { columns = set; removed = count })) }
{
    while *place < held.len() && held[*place].columns.cmp_report(set) == Ordering::Less {
        *place += 1;
    }
    if *place < held.len() && held[*place].columns == set {
        return Some(held[*place].removed);
    }
    None
}

impl<'a> Search<'a> {
    // How many rows are to be removed for a candidate, where these are not too many: it is known, or found out.
    fn judged(
        &mut self,
        left: ColSet,
        target: Target,
        held: &[NearKey],
        place: &mut usize,
    ) -> Result<Option<u32>, AllocError>
        requires left { left < 2 ^ length self.old.table.codes }
        requires target { IsColumnTarget (length self.old.table.codes) target }
        requires held { All (IsCounted self.old.table self.old.most target) held.now }
        ensures table { self.new.table ≡ self.old.table }
        ensures most { self.new.most ≡ self.old.most }
        ensures counted { IfOk result (λ found. IfSome found (λ count. IsCounted self.old.table self.old.most target (record { columns = left; removed = count }))) }
        ensures failing { IfOk result (λ found. found ≡ None → self.old.most < removed_in self.old.table left target) }
    {
        match known(held, place, left) {
            Some(count) => Ok(Some(count)),
            None => self.removed(left, target),
        }
    }

    // Judges the candidates, which stand in report order. Those that lie inside a set which this round found to fail are not looked at.
    fn round(
        &mut self,
        target: Target,
        candidates: &[ColSet],
        held: &[NearKey],
    ) -> Result<Round, AllocError>
        requires target { IsColumnTarget (length self.old.table.codes) target }
        requires candidates { All (IsCandidate self.old.table target) candidates.now }
        requires held { All (IsCounted self.old.table self.old.most target) held.now }
        ensures table { self.new.table ≡ self.old.table }
        ensures most { self.new.most ≡ self.old.most }
        ensures held { IfOk result (λ round. All (IsCounted self.old.table self.old.most target) round.held.items) }
        ensures news { IfOk result (λ round. All (IsNews self.old.table self.old.most target candidates.now) round.news.items) }
        ensures whole { IfOk result (λ round. round.news.items ≡ [] → round.held.items ≡ counted self.old.table target candidates.now) }
    {
        let mut kept = Vec::new(self.alloc);
        let mut news = Vec::new(self.alloc);
        let mut place = 0;
        for left in candidates {
            if is_inside(*left, news.as_slice()) {
                continue;
            }
            match self.judged(*left, target, held, &mut place)? {
                Some(removed) => kept.push(NearKey {
                    columns: *left,
                    removed,
                })?,
                None => news.push(self.grown(*left, target)?)?,
            }
        }
        Ok(Round { held: kept, news })
    }

    /// The minimal left sides of a target for which few enough rows are to be removed, in report order, each with how many these are. It
    /// begins with sets that are known to fail, and with left sides of which it is known how many rows are to be removed.
    ///
    /// It goes by rounds. The candidates of a round are the left sides that the evidence leaves, which is sets that fail; each that fails is
    /// grown to a greatest set that fails, which is evidence (dualize and advance, Gunopulos, Khardon, Mannila and Toivonen, 1997). The
    /// last round is the one in which all pass.
    pub(crate) fn settled(
        &mut self,
        target: Target,
        mut evidence: Vec<ColSet>,
        mut held: Vec<NearKey>,
    ) -> Result<Vec<NearKey>, AllocError>
        requires target { IsColumnTarget (length self.old.table.codes) target }
        requires evidence { All (IsFailing self.old.table self.old.most target) evidence.items }
        requires held { All (IsCounted self.old.table self.old.most target) held.items }
        ensures table { self.new.table ≡ self.old.table }
        ensures most { self.new.most ≡ self.old.most }
        ensures found { IfOk result (λ found. found.items ≡ counted self.old.table target (nearly_least (length self.old.table.codes) (λ x. removed_in self.old.table x target) self.old.most target)) }
    {
        let alloc = self.alloc;
        'rounds: loop {
            let candidates = least_sets(alloc, self.columns(), target, evidence.as_slice())?;
            let round = self.round(target, candidates.as_slice(), held.as_slice())?;
            if round.news.is_empty() {
                return Ok(round.held);
            }
            evidence.extend_from_slice(round.news.as_slice())?;
            held = round.held;
        }
    }
}

// Whether the set lies inside one of these.
fn is_inside(set: ColSet, sets: &[ColSet]) -> bool
    ensures { result ≡ true → (sets.now ≡ [] → ⊥) }
{
    sets.iter().any(|other| set.subset_of(*other))
}
