// The rows of a relation at one moment, as codes.
ghost use Rattle.std.specs.Prelude.{◌≡◌, ◌==◌, ◌<◌, ◌≤◌, ◌+◌, ◌-◌, ◌^◌, ◌++◌, [], length, slice_index, slice_index_or, count_by};
ghost use Rattle.std.specs.List.{All};
ghost use Rattle.rel_base.specs.Shows.{live_numbers};

use crate::{CodeSlice, MOST_ROWS, PackedCodes, RowNo};
use std::marker::Model;
use std::sync::Arc;

/// The codes of one column: that of row number k stands at place k - 1. Contracts see the list.
///
/// Rows never change their codes, so the codes of rows that were there when a list was made to be shared are read from that list,
/// which any number of snapshots share; those of rows that came since stand beside it. So a snapshot after a small batch copies
/// the few codes beside, and not those of all rows. The shared codes take as few bytes as the greatest of them needs.
#[derive(Drop)]
pub struct Codes {
    shared: Option<Arc<PackedCodes>>,
    own: Vec<u32>,
}

impl Model for Codes {
    ghost use Rattle.std.specs.Prelude.{List, ℕ, ◌++◌};
    ghost use Rattle.rel_base.specs.CodeTable.{list_in};
    ghost use Rattle.rel_base.specs.PackedCodes.{packed};

    ghost Value = { List ℕ };

    ghost view = { λ c. list_in (λ shared. packed shared.value) c.shared ++ c.own.items };
}

impl Codes {
    ghost use Rattle.rel_base.specs.LentCodes.{lent};
    ghost use Rattle.rel_base.specs.PackedCodes.{packed};

    /// The list of these codes, which takes no memory.
    pub fn of(codes: Vec<u32>) -> Codes
        ensures { result ≡ codes.items }
    {
        Codes {
            shared: None,
            own: codes,
        }
    }

    /// The list of the shared codes and, behind them, these. It takes no memory.
    pub fn behind(shared: Arc<PackedCodes>, own: Vec<u32>) -> Codes
        ensures { result ≡ packed shared.value ++ own.items }
    {
        Codes {
            shared: Some(shared),
            own,
        }
    }

    /// The shared codes, and those behind them, for a loop over many rows: each look-up is two tests and one load.
    pub fn parts(&self) -> (CodeSlice<'_>, &[u32])
        ensures { lent result.0 ++ result.1.now ≡ self.now }
    {
        match &self.shared {
            Some(shared) => (shared.lend(), self.own.as_slice()),
            None => (CodeSlice::none(), self.own.as_slice()),
        }
    }

    /// How many codes there are.
    pub fn len(&self) -> usize
        ensures { result ≡ length self.now }
    {
        let (shared, own) = self.parts();
        shared.len() + own.len()
    }

    /// Whether there are none.
    pub fn is_empty(&self) -> bool
        ensures { result ≡ (length self.now == 0) }
    {
        self.len() == 0
    }

    /// The code at a place, from 0.
    pub fn get(&self, place: usize) -> u32
        requires { place < length self.now }
        ensures { result ≡ slice_index self.now place }
    {
        let (shared, own) = self.parts();
        if place < shared.len() {
            shared.get(place)
        } else {
            own[place - shared.len()]
        }
    }
}

/// The rows of a relation at one moment, each cell as a code, never changed after it is made.
///
/// Workers share a snapshot and read it side by side. It is kept by column, four bytes a code that it does not share.
#[derive(Drop)]
pub struct Snapshot {
    codes: Vec<Codes>,
    live: Vec<bool>,
    to: RowNo,
    live_count: u32,
}

impl Model for Snapshot {
    ghost use Rattle.std.specs.Prelude.{◌≡◌, length};
    ghost use Rattle.rel_base.specs.CodeTable.{CodeTable, IsCodeTable};
    ghost use Rattle.rel_base.specs.Shows.{live_numbers};

    ghost Value = { CodeTable };

    ghost view = { λ s. record { codes = s.codes.items; live = s.live.items; to = s.to } };

    ghost invariant = { λ s. IsCodeTable (record { codes = s.codes.items; live = s.live.items; to = s.to }) × (s.live_count ≡ length (live_numbers (record { codes = s.codes.items; live = s.live.items; to = s.to }))) };
}

impl Snapshot {
    ghost use Rattle.rel_base.specs.CodeTable.{IsCodeTable, code_at, live_at};

    /// The snapshot of these codes, one list a column, and of which rows are live. Each of these lists has a place
    /// for each number below `to`, the next row number at this moment. It takes no memory, and a step a row, to count the live ones.
    pub fn of(codes: Vec<Codes>, live: Vec<bool>, to: RowNo) -> Snapshot
        requires { IsCodeTable (record { codes = codes.items; live = live.items; to = to }) }
        ensures codes { result.codes ≡ codes.items }
        ensures live { result.live ≡ live.items }
        ensures to { result.to ≡ to }
    {
        let live_count = count_live(&live);
        Snapshot::counted(codes, live, to, live_count)
    }

    /// What `of` makes, for one who knows how many rows are live. It takes no memory, and no step a row.
    pub fn counted(codes: Vec<Codes>, live: Vec<bool>, to: RowNo, live_count: u32) -> Snapshot
        requires table { IsCodeTable (record { codes = codes.items; live = live.items; to = to }) }
        requires count { live_count ≡ length (live_numbers (record { codes = codes.items; live = live.items; to = to })) }
        ensures codes { result.codes ≡ codes.items }
        ensures live { result.live ≡ live.items }
        ensures to { result.to ≡ to }
    {
        Snapshot {
            codes,
            live,
            to,
            live_count,
        }
    }

    /// How many columns there are, 1 to 128.
    pub fn columns(&self) -> u8
        ensures value { result ≡ length self.now.codes }
        ensures bounds { IsCodeTable self.now }
    {
        self.codes.len() as u8
    }

    /// The next row number at the snapshot's making: each of its rows has a number below it.
    pub fn to(&self) -> RowNo
        ensures value { result ≡ self.now.to }
        ensures bounds { IsCodeTable self.now }
    {
        self.to
    }

    /// How many rows are live.
    pub fn live_count(&self) -> u32
        ensures { result ≡ length (live_numbers self.now) }
    {
        self.live_count
    }

    /// Whether the row is live. A number that is not below `to` is of no live row.
    pub fn is_live(&self, row: RowNo) -> bool
        ensures { result ≡ live_at self.now row }
    {
        let place = (row.number() - 1) as usize;
        place < self.live.len() && self.live[place]
    }

    /// The code of a row's cell in a column, counted from 0. Live rows have equal codes where they agree.
    pub fn code(&self, row: RowNo, column: u8) -> u32
        requires given { row < self.now.to }
        requires column { column < length self.now.codes }
        ensures { result ≡ code_at self.now row column }
    {
        self.codes[column as usize].get((row.number() - 1) as usize)
    }

    /// The codes of a column, counted from 0, for a loop over many rows.
    pub fn column(&self, column: u8) -> &Codes
        requires { column < length self.now.codes }
        ensures value { result.now ≡ slice_index_or self.now.codes column [] }
        ensures bounds { IsCodeTable self.now }
    {
        &self.codes[column as usize]
    }
}

// How many of the flags are set.
fn count_live(live: &[bool]) -> u32
    requires { length live.now ≤ MOST_ROWS }
    ensures { result ≡ count_by (λ flag. flag) live.now }
{
    live.iter().filter(|flag| **flag).count() as u32
}
