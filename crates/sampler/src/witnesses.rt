// What pairs of rows agree on.
ghost use Rattle.std.specs.Prelude.{if◌then◌else◌, ◌≡◌, ◌≤◌, ◌++◌, length, Some, None, OnOk};
ghost use Rattle.std.specs.List.{All, Contains};
ghost use Rattle.cover_steps.specs.Sound.{IsWitness};
ghost use Rattle.sampler.specs.Agreeing.{are_two, agreeing, all_agreeing};

use cover_steps::seen::Seen;
use negative_cover::Witness;
use rel_base::RowNo;
use row_log::RowLog;
use std::alloc::AllocError;

// Two rows with what they agree on, where they are different and live.
fn witness_of(rows: &RowLog, i: RowNo, j: RowNo) -> Option<Witness>
    ensures { result ≡ (if are_two rows.now (i, j) then Some (agreeing rows.now (i, j)) else None) }
{
    if i == j || !rows.is_live(i) || !rows.is_live(j) {
        return None;
    }
    let agree = rows.agree(i, j);
    Some(Witness { agree, i, j })
}

/// Adds what each of these pairs of rows agrees on, where they are different and live: each is a witness against what their agree set
/// refutes. It takes a step a pair and column.
pub fn push_witnesses(
    rows: &RowLog,
    pairs: &[(RowNo, RowNo)],
    found: &mut Vec<Witness>,
) -> Result<(), AllocError>
    ensures exactly { OnOk result (found.new.items ≡ found.old.items ++ all_agreeing rows.now pairs.now) }
    ensures witnesses { OnOk result (All (IsWitness rows.now) found.old.items → All (IsWitness rows.now) found.new.items) }
{
    for pair in pairs {
        if let Some(witness) = witness_of(rows, pair.0, pair.1) {
            found.push(witness)?;
        }
    }
    Ok(())
}

/// Adds what each of these pairs of rows agrees on, as `push_witnesses` does, where it was not seen lately. So most of what others told
/// shortly before is let go at once.
pub fn push_unseen(
    rows: &RowLog,
    pairs: &[(RowNo, RowNo)],
    seen: &mut Seen,
    found: &mut Vec<Witness>,
) -> Result<(), AllocError>
    ensures more { OnOk result (length found.old.items ≤ length found.new.items) }
    ensures among { OnOk result (All (Contains (found.old.items ++ all_agreeing rows.now pairs.now)) found.new.items) }
    ensures witnesses { OnOk result (All (IsWitness rows.now) found.old.items → All (IsWitness rows.now) found.new.items) }
{
    for pair in pairs {
        if let Some(evidence) = witness_of(rows, pair.0, pair.1) {
            if seen.is_new(evidence.agree) {
                found.push(evidence)?;
            }
        }
    }
    Ok(())
}
