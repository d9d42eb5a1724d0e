// All inclusions of lists, width by width.
ghost use Rattle.std.specs.Prelude.{◌≡◌, ◌≤◌, ◌++◌, map, IfOk, OnOk};
ghost use Rattle.std.specs.List.{flat_map};
ghost use Rattle.nary_ind.specs.ListInclusions.{list_inclusions};
ghost use Rattle.nary_ind.specs.Levels.{grouped, listed_of};

use crate::column_list::MOST_WIDTH;
use crate::found::{Group, ListInd};
use crate::known::Known;
use crate::level::{first_level, next_level};
use row_log::RowLog;
use std::alloc::{AllocError, Global};
use std::thread::Threads;

/// All inclusions of lists of 1 up to so many columns among the live rows of these relations: by width, dependent relation, dependent list, referenced
/// relation and referenced list.
///
/// It goes width by width (MIND, De Marchi, Lopes and Petit 2002): a list is sought among those that come of one that was found by one column more on
/// both sides, which are included by themselves. The inclusions of single columns are found by `inclusion_merge`, by so many workers at most. Then the
/// cells of columns that are in some inclusion get numbers, and four of them make a key of a row, one number of 128 bits, so that equal keys are equal
/// cells, and no two tuples are taken as equal for their hashes. The keys of a list are sorted once and kept for the candidates to come as long as there
/// is room. A list is included in another where each of its keys is found there by halves, up to the first that is lacking.
///
/// It takes 4 bytes for each row and column that is in some inclusion, 16 for each key that is kept, half a gigabyte of them and a few lists at most, and
/// 50 or so for each inclusion. An `AllocError` comes where memory is refused.
pub fn included_lists<R: Threads + Sync>(
    rt: &R,
    alloc: Global,
    relations: &[RowLog],
    width: u8,
    workers: u8,
) -> Result<Vec<ListInd>, AllocError>
    requires { width ≤ MOST_WIDTH }
    ensures { IfOk result (λ found. found.items ≡ list_inclusions width relations.now) }
{
    let known = Known::of(rt, alloc, relations, workers)?;
    let mut lists = known.lists(alloc)?;
    let mut found = Vec::new(alloc);
    let mut level = first_level(alloc, &known)?;
    for columns in 0..width {
        let next = next_level(alloc, &known, &mut lists, columns as usize, &level)?;
        push_level(&mut found, &next)?;
        level = next;
    }
    Ok(found)
}

// Adds the inclusions of a level.
fn push_level(found: &mut Vec<ListInd>, level: &[Group]) -> Result<(), AllocError>
    ensures { OnOk result (found.new.items ≡ found.old.items ++ flat_map listed_of (map grouped level.now)) }
{
    for group in level {
        push_group(found, group)?;
    }
    Ok(())
}

fn push_group(found: &mut Vec<ListInd>, group: &Group) -> Result<(), AllocError>
    ensures { OnOk result (found.new.items ≡ found.old.items ++ listed_of (grouped group.now)) }
{
    for list in &group.into {
        found.push(ListInd {
            dep_rel: group.side.rel,
            into_rel: list.rel,
            dep_cols: group.side.columns.copied(),
            into_cols: list.columns.copied(),
        })?;
    }
    Ok(())
}
