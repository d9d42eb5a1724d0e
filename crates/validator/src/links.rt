// The chains of the columns that look-ups went by.
ghost use Rattle.std.specs.Prelude.{◌≡◌, ◌<◌, ◌≤◌, ◌+◌, true, length, slice_index_or, vec_len, IfOk, IfSome};
ghost use Rattle.col_set.specs.ColSet.{has};
ghost use Rattle.rel_base.specs.CodeTable.{CodeTable};
ghost use Rattle.validator.specs.Asking.{IsAsked, IsAnswer};
ghost use Rattle.validator.specs.Links.{IsLink, AreLinks, linked_of};
ghost use Rattle.validator.specs.Verdicts.{AreFound, new_rows};
ghost use Rattle.validator.specs.declared.links.Link.{Link};

use crate::cache::Asked;
use crate::chain::{Chain, begin_alike};
use crate::newer;
use rel_base::{RowNo, Snapshot, Steps};
use std::alloc::{AllocError, Global};
use std::sync::Arc;
use std::sync::ledger::Ledger;

// A column's chain of all rows.
#[derive(Drop)]
pub(crate) struct Link {
    pub(crate) chain: Chain,
    pub(crate) column: u8,
}

impl Link {
    // The link of a column. It takes a step a row, and memory for each row and each code.
    pub(crate) fn of(alloc: Global, snapshot: &Snapshot, column: u8) -> Result<Link, AllocError>
        requires { column < length snapshot.now.codes }
        ensures link { IfOk result (IsLink snapshot.now) }
        ensures column { IfOk result (λ link. link.column ≡ column) }
    {
        let chain = Chain::new(alloc).extended(snapshot.column(column))?;
        Ok(Link { chain, column })
    }

    // The link of the column for a later snapshot in which the rows have the codes that they had, or nothing where they have others or memory is
    // wanting. It compares the codes of all rows and links those that came since.
    fn carried(self, earlier: &Snapshot, snapshot: &Snapshot) -> Option<Link>
        requires { IsLink earlier.now self }
        ensures { IfSome result (IsLink snapshot.now) }
    {
        let Link { chain, column } = self;
        if column >= snapshot.columns() {
            return None;
        }
        let codes = snapshot.column(column);
        let others = earlier.column(column);
        let count = chain.before.len();
        if count > codes.len() || !begin_alike(others, codes, count) {
            return None;
        }
        let chain = chain.extended(codes).ok()?;
        Some(Link { chain, column })
    }
}

// The links of a snapshot, where these are of an earlier one if one is given.
pub(crate) fn up_to_date(
    alloc: Global,
    earlier: Option<Arc<Snapshot>>,
    snapshot: &Snapshot,
    links: Vec<Link>,
) -> Vec<Link>
    requires { AreLinks (linked_of (λ e. e.value) snapshot.now earlier) links.items }
    ensures { AreLinks snapshot.now result.items }
{
    match earlier {
        Some(earlier) => carried(alloc, &earlier, snapshot, links),
        None => links,
    }
}

// The links of a later snapshot that go on from those of an earlier one.
fn carried(alloc: Global, earlier: &Snapshot, snapshot: &Snapshot, links: Vec<Link>) -> Vec<Link>
    requires { AreLinks earlier.now links.items }
    ensures { AreLinks snapshot.now result.items }
{
    let mut old = links;
    let mut new = Vec::new(alloc);
    while let Some(link) = old.pop() {
        let carried = link.carried(earlier, snapshot);
        add_link(&mut new, carried);
    }
    new
}

// Adds a link, if there is one and memory for it.
fn add_link(links: &mut Vec<Link>, link: Option<Link>)
    ensures { (s : CodeTable) → AreLinks s links.old.items → IfSome link (IsLink s) → AreLinks s links.new.items }
{
    if let Some(link) = link {
        let _ = links.push(link);
    }
}

// The snapshot of which chains are from now on, where a store that had this one goes over to a later one, and the other one, which
// is needed no more.
pub(crate) fn kept_earlier(
    earlier: Option<Arc<Snapshot>>,
    last: Arc<Snapshot>,
) -> (Arc<Snapshot>, Option<Arc<Snapshot>>)
    ensures { result.0.value ≡ linked_of (λ e. e.value) last.value earlier }
{
    match earlier {
        Some(earlier) => (earlier, Some(last)),
        None => (last, None),
    }
}

// The place of a column's link, which is made where there is none.
fn place_of(
    alloc: Global,
    snapshot: &Snapshot,
    links: &mut Vec<Link>,
    column: u8,
) -> Result<usize, AllocError>
    requires links { AreLinks snapshot.now links.old.items }
    requires column { column < length snapshot.now.codes }
    ensures links { AreLinks snapshot.now links.new.items }
    ensures place { IfOk result (λ k. k < vec_len links.new) }
    ensures column { IfOk result (λ k. (d : Link) → (slice_index_or links.new.items k d).column ≡ column) }
{
    for k in 0..links.len() {
        if links[k].column == column {
            return Ok(k);
        }
    }
    let k = links.len();
    links.push(Link::of(alloc, snapshot, column)?)?;
    Ok(k)
}

// Looks up each new row among the rows with its code in a column of the left side.
pub(crate) fn look_up<L: Ledger>(
    alloc: Global,
    snapshot: &Snapshot,
    links: &mut Vec<Link>,
    column: u8,
    asked: &Asked,
    steps: &mut Steps<L>,
) -> Result<Vec<(RowNo, RowNo)>, AllocError>
    requires links { AreLinks snapshot.now links.old.items }
    requires asked { IsAsked snapshot.now asked.now }
    requires column { has asked.now.left column ≡ true }
    ensures links { AreLinks snapshot.now links.new.items }
    ensures answer { IfOk result (IsAnswer snapshot.now asked.now) }
    ensures steps { steps.new ≤ steps.old + new_rows snapshot.now asked.now.from }
{
    let k = place_of(alloc, snapshot, links, column)?;
    newer::pairs_of_new(alloc, snapshot, &links[k].chain, column, asked, steps)
}
