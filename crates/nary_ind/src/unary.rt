// Which columns are included in which.
ghost use Rattle.std.specs.Prelude.{false, ◌≡◌, ◌<◌, ℕ, Some, length, IfOk, OnOk, slice_get, slice_index_or};
ghost use Rattle.std.specs.List.{All};
ghost use Rattle.rel_base.specs.RowState.{width};
ghost use Rattle.nary_ind.specs.ListInclusions.{width_at};
ghost use Rattle.nary_ind.specs.Laws.{is_unary};
ghost use Rattle.nary_ind.specs.Unary.{AddsColumns, AreAllColumns, has_pair, is_in, is_used};

use inclusion_merge::included;
use rel_base::Row;
use row_log::RowLog;
use std::alloc::{AllocError, Global};
use std::collections::HashSet;
use std::marker::Model;
use std::thread::Threads;

/// The inclusions among the columns of relations.
///
/// Contracts see the relations. It takes 16 bytes or so for each inclusion, and some for each column.
#[derive(Drop)]
pub(crate) struct Unary<'a> {
    relations: &'a [RowLog],
    // Where the columns of each relation begin among the columns of all.
    starts: Vec<usize>,
    pairs: HashSet<(usize, usize)>,
    // Which columns are in some pair.
    used: Vec<bool>,
}

impl<'a> Model for Unary<'a> {
    ghost use Rattle.std.specs.Prelude.{List};
    ghost use Rattle.rel_base.specs.RowState.{RowState};
    ghost use Rattle.std.specs.HashSet.{keys};
    ghost use Rattle.nary_ind.specs.Unary.{IsUnary};

    ghost Value = { List RowState };

    ghost view = { λ u. u.relations.now };

    ghost invariant = { λ u. IsUnary u.relations.now u.starts.items (keys u.pairs) u.used.items };
}

impl<'a> Unary<'a> {
    /// The inclusions among the columns of these relations, found by so many workers at most.
    pub(crate) fn among<R: Threads + Sync>(
        rt: &R,
        alloc: Global,
        relations: &'a [RowLog],
        workers: u8,
    ) -> Result<Unary<'a>, AllocError>
        ensures { IfOk result (λ unary. unary ≡ relations.now) }
    {
        let all = columns_of(alloc, relations)?;
        let found = included(rt, alloc, &all.cells, workers)?;
        let used = used_in(alloc, all.cells.len(), &found)?;
        let pairs = pairs_in(alloc, &found)?;
        Ok(Unary {
            relations,
            starts: all.starts,
            pairs,
            used,
        })
    }

    /// The relations.
    pub(crate) fn relations(&self) -> &'a [RowLog]
        ensures { result.now ≡ self.now }
    {
        self.relations
    }

    /// Whether a column of one relation is included in a column of another.
    pub(crate) fn has(&self, dependent: (usize, u8), referenced: (usize, u8)) -> bool
        requires dependent { dependent.0 < length self.now }
        requires column { dependent.1 < width_at self.now dependent.0 }
        requires referenced { referenced.0 < length self.now }
        requires other { referenced.1 < width_at self.now referenced.0 }
        ensures { result ≡ is_unary self.now dependent.0 dependent.1 referenced.0 referenced.1 }
    {
        let first = self.starts[dependent.0] + dependent.1 as usize;
        let second = self.starts[referenced.0] + referenced.1 as usize;
        has_pair(&self.pairs, first, second)
    }

    /// Whether a column is in some inclusion.
    pub(crate) fn is_used(&self, relation: usize, column: u8) -> bool
        requires relation { relation < length self.now }
        requires column { column < width_at self.now relation }
        ensures { result ≡ is_used self.now relation column }
    {
        self.used[self.starts[relation] + column as usize]
    }
}

fn has_pair(pairs: &HashSet<(usize, usize)>, dependent: usize, referenced: usize) -> bool
    ensures { result ≡ has_pair pairs.now.keys dependent referenced }
{
    pairs.contains(&(dependent, referenced))
}

// The columns of all relations: of each the cells that are not NULL, each once; and where those of each relation begin.
#[derive(Drop)]
struct AllColumns {
    starts: Vec<usize>,
    cells: Vec<Row>,
}

fn columns_of(alloc: Global, relations: &[RowLog]) -> Result<AllColumns, AllocError>
    ensures { IfOk result (λ all. AreAllColumns relations.now all.starts.items all.cells.items) }
{
    let mut starts = Vec::with_capacity(alloc, relations.len())?;
    let mut cells = Vec::new(alloc);
    for relation in relations {
        starts.push(cells.len())?;
        push_columns(alloc, relation, &mut cells)?;
    }
    Ok(AllColumns { starts, cells })
}

fn push_columns(alloc: Global, relation: &RowLog, cells: &mut Vec<Row>) -> Result<(), AllocError>
    ensures { OnOk result (AddsColumns relation.now (width relation.now) cells.old.items cells.new.items) }
{
    let columns = relation.names().len() as u8;
    for column in 0..columns {
        cells.push(relation.distinct_cells(alloc, column)?)?;
    }
    Ok(())
}

// The pairs as a set.
fn pairs_in(alloc: Global, found: &[(usize, usize)]) -> Result<HashSet<(usize, usize)>, AllocError>
    ensures { IfOk result (λ pairs. (c d : ℕ) → has_pair pairs.keys c d ≡ has_pair found.now c d) }
{
    let mut pairs = HashSet::new(alloc);
    for place in 0..found.len() {
        let pair = pair_at(found, place);
        pairs.insert(pair)?;
    }
    Ok(pairs)
}

fn pair_at(pairs: &[(usize, usize)], place: usize) -> (usize, usize)
    requires { place < length pairs.now }
    ensures { slice_get pairs.now place ≡ Some result }
{
    pairs[place]
}

// Which of so many columns are in some pair.
fn used_in(alloc: Global, columns: usize, found: &[(usize, usize)]) -> Result<Vec<bool>, AllocError>
    requires { All (λ p. (p.0 < columns) × (p.1 < columns)) found.now }
    ensures long { IfOk result (λ used. length used.items ≡ columns) }
    ensures used { IfOk result (λ used. (c : ℕ) → slice_index_or used.items c false ≡ is_in found.now c) }
{
    let mut used = vec![in alloc; false; columns]?;
    for pair in found {
        used[pair.0] = true;
        used[pair.1] = true;
    }
    Ok(used)
}
