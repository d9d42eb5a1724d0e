// Columns that have the cells of others behind their own.
ghost use Rattle.std.specs.Prelude.{◌≡◌, IfOk, length};
ghost use Rattle.rel_base.specs.Joined.{AreJoined};
ghost use denote.Param.Send.{IsSync};

use crate::Cells;
use std::alloc::AllocError;
use std::thread::{Threads, join};

/// Columns with the cells of others behind their own, each joined to the one that stands at its place, by so many workers at most: one is
/// the thread of the caller and no other.
pub(crate) fn joined_by<R: Threads + Sync>(
    rt: &R,
    columns: Vec<Cells>,
    others: Vec<Cells>,
    workers: u8,
) -> Result<Vec<Cells>, AllocError>
    requires { length others.items ≡ length columns.items }
    ensures { IfOk result (λ joined. AreJoined columns.items others.items joined.items) }
{
    if workers < 2 {
        return joined(columns, others);
    }
    let few = workers / 2;
    let rest = workers - few;
    let middle = columns.len() / 2;
    let mut front = columns;
    let mut front_others = others;
    let back = front.split_off(middle)?;
    let back_others = front_others.split_off(middle)?;
    let (first, second) = join(
        rt,
        move || -> Result<Vec<Cells>, AllocError>
            requires { IsSync R.row × (length front_others.items ≡ length front.items) }
            ensures { IfOk result (λ joined. AreJoined front.items front_others.items joined.items) }
        { joined_by(rt, front, front_others, few) },
        move || -> Result<Vec<Cells>, AllocError>
            requires { IsSync R.row × (length back_others.items ≡ length back.items) }
            ensures { IfOk result (λ joined. AreJoined back.items back_others.items joined.items) }
        { joined_by(rt, back, back_others, rest) },
    );
    let mut joined = first?;
    let mut later = second?;
    joined.append(&mut later)?;
    Ok(joined)
}

// The same, by one thread.
fn joined(columns: Vec<Cells>, others: Vec<Cells>) -> Result<Vec<Cells>, AllocError>
    requires { length others.items ≡ length columns.items }
    ensures { IfOk result (λ joined. AreJoined columns.items others.items joined.items) }
{
    let mut columns = columns;
    let mut place = 0;
    for cells in others {
        columns[place].append(cells)?;
        place += 1;
    }
    Ok(columns)
}
