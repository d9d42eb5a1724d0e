// Windows and neighbours beside all pairs of drawn rows, and what pairs agree on.
ghost use Rattle.std.specs.Prelude.{◌<◌};

use cover_steps::seen::Seen;
use negative_cover::Witness;
use plain_base::{Samples, relation_of};
use rel_base::{Codes, ColSet, Limits, MOST_COLUMNS, Row, RowNo, Snapshot};
use row_log::RowLog;
use sampler::{neighbours, push_unseen, push_witnesses, sampled, sampled_by, window};
use std::alloc::{AllocError, Global};
use std::process::Abort;
use std::test::Fail;

// The codes of eight rows in one column, and which of the rows are live.
#[derive(Drop)]
struct Rows {
    codes: [u32; 8],
    live: [bool; 8],
}

impl Rows {
    fn drawn(seed: u64) -> Rows {
        let mut samples = Samples::from_seed(seed);
        let mut rows = Rows {
            codes: [0; 8],
            live: [false; 8],
        };
        for place in 0..8 {
            rows.codes[place] = samples.below(3);
            rows.live[place] = samples.below(5) != 0;
        }
        rows
    }

    fn snapshot(&self, alloc: Global) -> Result<Snapshot, AllocError> {
        let mut columns = Vec::new(alloc);
        columns.push(Codes::of(Vec::from_slice(alloc, &self.codes)?))?;
        Ok(Snapshot::of(columns, Vec::from_slice(alloc, &self.live)?, RowNo::of(9)))
    }

    // How many live rows from one place up to another one have the code.
    fn count(&self, code: u32, from: usize, to: usize) -> u32 {
        let rows = self.codes.iter().zip(&self.live);
        let found = rows.skip(from).take(to.saturating_sub(from));
        found.filter(|row| *row.0 == code && *row.1).count() as u32
    }

    // Every pair, tried for itself.
    fn pairs(&self, alloc: Global, distance: u32) -> Result<Vec<(RowNo, RowNo)>, AllocError> {
        let mut pairs = Vec::new(alloc);
        for i in 0..8usize {
            for j in i + 1..8 {
                let live = self.live[i] && self.live[j];
                let alike = self.codes[i] == self.codes[j];
                if live
                    && alike
                    && self.count(self.codes[i], i + 1, j) == distance.saturating_sub(1)
                {
                    pairs.push((RowNo::of(i as u32 + 1), RowNo::of(j as u32 + 1)))?;
                }
            }
        }
        Ok(pairs)
    }
}

// Whether the pairs are of rows with these numbers.
fn are_of(pairs: &[(RowNo, RowNo)], wanted: &[(u32, u32)]) -> bool {
    if pairs.len() != wanted.len() {
        return false;
    }
    for (pair, numbers) in pairs.iter().zip(wanted) {
        if pair.0.number() != numbers.0 || pair.1.number() != numbers.1 {
            return false;
        }
    }
    true
}

// Rows of two groups, a row alone and a dead one.
static FEW: Rows = Rows {
    codes: [5, 5, 9, 5, 9, 5, 1, 5],
    live: [true, true, true, false, true, true, true, true],
};

#[test]
fn windows_of_a_few_rows(rt: HostRuntime) -> Result<(), Fail> {
    let snapshot = FEW.snapshot(rt.alloc())?;
    let near = window(rt.alloc(), &snapshot, 0, 1)?;
    assert!(rt; are_of(near.as_slice(), &[(1, 2), (2, 6), (3, 5), (6, 8)]));
    assert!(rt; window(rt.alloc(), &snapshot, 0, 3)?.len() == 1);
    assert!(rt; window(rt.alloc(), &snapshot, 0, u32::MAX)?.is_empty());
    Ok(())
}

#[test]
fn neighbours_are_spread_over_the_groups(rt: HostRuntime) -> Result<(), Fail> {
    let snapshot = FEW.snapshot(rt.alloc())?;
    let all = neighbours(rt.alloc(), &snapshot, 0, 8)?;
    assert!(rt; are_of(all.as_slice(), &[(1, 2), (3, 5), (2, 6), (6, 8)]));
    let few = neighbours(rt.alloc(), &snapshot, 0, 2)?;
    assert!(rt; are_of(few.as_slice(), &[(1, 2), (2, 6)]));
    Ok(())
}

// Whether these pairs are some of those.
fn are_among(pairs: &[(RowNo, RowNo)], those: &[(RowNo, RowNo)]) -> bool {
    pairs.iter().all(|pair| those.contains(pair))
}

#[test]
fn neighbours_are_all_pairs_where_they_are_few(rt: HostRuntime) -> Result<(), Fail> {
    for seed in 0..40 {
        let rows = Rows::drawn(seed);
        let snapshot = rows.snapshot(rt.alloc())?;
        let all = rows.pairs(rt.alloc(), 1)?;
        let found = neighbours(rt.alloc(), &snapshot, 0, 8)?;
        assert!(rt; are_among(found.as_slice(), all.as_slice()));
        assert!(rt; are_among(all.as_slice(), found.as_slice()));
        assert!(rt; found.len() == all.len());
    }
    Ok(())
}

#[test]
fn neighbours_are_half_the_count_at_least_where_they_are_many(rt: HostRuntime) -> Result<(), Fail> {
    for seed in 0..40 {
        let rows = Rows::drawn(seed);
        let snapshot = rows.snapshot(rt.alloc())?;
        let all = rows.pairs(rt.alloc(), 1)?;
        for count in 1..8u32 {
            let found = neighbours(rt.alloc(), &snapshot, 0, count)?;
            let most = (count as usize).min(all.len());
            let least = if all.len() > most {
                most.div_ceil(2)
            } else {
                most
            };
            assert!(rt; are_among(found.as_slice(), all.as_slice()));
            assert!(rt; found.len() >= least && found.len() <= most);
        }
    }
    Ok(())
}

#[test]
fn neighbours_are_spread_over_many_rows(rt: HostRuntime) -> Result<(), Fail> {
    let alloc = rt.alloc();
    let mut columns = Vec::new(alloc);
    columns.push(Codes::of(vec![in alloc; 5; 100]?))?;
    let snapshot = Snapshot::of(columns, vec![in alloc; true; 100]?, RowNo::of(101));
    let found = neighbours(alloc, &snapshot, 0, 8)?;
    let wanted = [
        (1, 2),
        (17, 18),
        (33, 34),
        (49, 50),
        (65, 66),
        (81, 82),
        (97, 98),
    ];
    assert!(rt; are_of(found.as_slice(), &wanted));
    Ok(())
}

#[test]
fn windows_are_all_pairs_of_their_distance(rt: HostRuntime) -> Result<(), Fail> {
    for seed in 0..40 {
        let rows = Rows::drawn(seed);
        let snapshot = rows.snapshot(rt.alloc())?;
        for distance in 1..9 {
            let pairs = window(rt.alloc(), &snapshot, 0, distance)?;
            assert!(rt; pairs.as_slice() == rows.pairs(rt.alloc(), distance)?.as_slice());
        }
    }
    Ok(())
}

// Rows of two columns, of which the first two agree on the first column, and the last two on the second.
fn letters(rt: &impl Abort, alloc: Global) -> Result<RowLog, AllocError> {
    let names = Row::copied(alloc, &[b"a", b"b"])?;
    let mut rows = Vec::new(alloc);
    rows.push(Row::copied(alloc, &[b"1", b"x"])?)?;
    rows.push(Row::copied(alloc, &[b"1", b"y"])?)?;
    rows.push(Row::copied(alloc, &[b"2", b"y"])?)?;
    let Some(relation) = relation_of(alloc, names, &rows)? else {
        panic!(rt);
    };
    RowLog::open(alloc, relation, Limits::standard())
}

fn is_witness(witness: Witness, i: u32, j: u32, column: u8) -> bool
    requires { column < MOST_COLUMNS }
{
    witness.i.number() == i
        && witness.j.number() == j
        && witness.agree == ColSet::empty().with(column)
}

#[test]
fn pairs_with_what_they_agree_on(rt: HostRuntime) -> Result<(), Fail> {
    let alloc = rt.alloc();
    let rows = letters(&rt, alloc)?;
    let (first, second, third) = (RowNo::of(1), RowNo::of(2), RowNo::of(3));
    let pairs = [
        (second, first),
        (second, second),
        (third, RowNo::of(4)),
        (second, third),
    ];
    let mut found = Vec::new(alloc);
    push_witnesses(&rows, &pairs, &mut found)?;
    assert!(rt; found.len() == 2);
    assert!(rt; is_witness(found[0], 2, 1, 0));
    assert!(rt; is_witness(found[1], 2, 3, 1));
    Ok(())
}

// Each pair is told once, though it comes twice.
#[test]
fn pairs_that_agree_on_what_was_seen_are_passed_over(rt: HostRuntime) -> Result<(), Fail> {
    let alloc = rt.alloc();
    let rows = letters(&rt, alloc)?;
    let (first, second, third) = (RowNo::of(1), RowNo::of(2), RowNo::of(3));
    let pairs = [
        (second, first),
        (second, first),
        (first, first),
        (second, third),
        (third, second),
    ];
    let mut found = Vec::new(alloc);
    push_unseen(&rows, &pairs, &mut Seen::none(alloc), &mut found)?;
    assert!(rt; found.len() == 2);
    assert!(rt; is_witness(found[0], 2, 1, 0));
    assert!(rt; is_witness(found[1], 2, 3, 1));
    Ok(())
}

#[test]
fn samples_are_neighbours_of_each_column(rt: HostRuntime) -> Result<(), Fail> {
    let alloc = rt.alloc();
    let rows = letters(&rt, alloc)?;
    let snapshot = rows.snapshot(alloc)?;
    let found = sampled(alloc, &rows, &snapshot)?;
    assert!(rt; found.len() == 2);
    assert!(rt; is_witness(found[0], 1, 2, 0) && is_witness(found[1], 2, 3, 1));
    for workers in [1, 2, 16] {
        let same = sampled_by(&rt, alloc, &rows, &snapshot, workers)?;
        assert!(rt; same.as_slice() == found.as_slice());
    }
    Ok(())
}
