// The codes that the rows of groups are compared by.
ghost use Rattle.std.specs.Prelude.{◌≡◌, ◌<◌, ◌-◌, [], length, slice_index};
ghost use Rattle.std.specs.Option.{ForSome};
ghost use Rattle.col_set.specs.Target.{IsColumnTarget};
ghost use Rattle.validator.specs.Lists.{keys_of, AreLists, AreTargets};

use col_set::Target;
use rel_base::{CodeSlice, Codes, RowNo, Snapshot};
use std::marker::Model;

// The codes of a column, in two lists of which the second goes on behind the first, or no codes. Contracts see them as one list.
//
// A loop over many rows looks codes up here, and not in the snapshot, where it would go through the column for each row.
#[derive(Drop)]
pub(crate) struct CodeList<'a> {
    shared: CodeSlice<'a>,
    own: &'a [u32],
}

impl<'a> Model for CodeList<'a> {
    ghost use Rattle.std.specs.Prelude.{List, ℕ, ◌++◌};
    ghost use Rattle.rel_base.specs.LentCodes.{lent};

    ghost Value = { List ℕ };

    ghost view = { λ c. lent c.shared ++ c.own.now };
}

impl<'a> CodeList<'a> {
    // No codes.
    fn none() -> CodeList<'a>
        ensures { result ≡ [] }
    {
        CodeList {
            shared: CodeSlice::none(),
            own: &[],
        }
    }

    // The codes of a column.
    fn of(codes: &'a Codes) -> CodeList<'a>
        ensures { result ≡ codes.now }
    {
        let (shared, own) = codes.parts();
        CodeList { shared, own }
    }

    // A row's code, or 0 where there is none.
    pub(crate) fn code(&self, row: RowNo) -> u32
        ensures { result ≡ slice_index self.now (row - 1) }
    {
        let place = (row.number() - 1) as usize;
        if place < self.shared.len() {
            return self.shared.get(place);
        }
        let behind = place - self.shared.len();
        if behind < self.own.len() {
            self.own[behind]
        } else {
            0
        }
    }
}

// The codes of the target's column, or none where the target is which row it is.
pub(crate) fn targets(snapshot: &Snapshot, target: Target) -> CodeList<'_>
    requires { IsColumnTarget (length snapshot.now.codes) target }
    ensures { AreTargets snapshot.now target result }
{
    match target {
        Target::Col(column) => CodeList::of(snapshot.column(column)),
        Target::RowId => CodeList::none(),
    }
}

// The codes of a further column by which the rows of a group are told apart, or none where there is no such column, and those of the
// target.
#[derive(Drop)]
pub(crate) struct Lists<'a> {
    pub(crate) keys: CodeList<'a>,
    pub(crate) targets: CodeList<'a>,
}

impl<'a> Lists<'a> {
    // The lists of a snapshot's columns.
    pub(crate) fn of(snapshot: &'a Snapshot, by: Option<u8>, target: Target) -> Lists<'a>
        requires column { ForSome by (λ column. column < length snapshot.now.codes) }
        requires target { IsColumnTarget (length snapshot.now.codes) target }
        ensures { AreLists snapshot.now by target result }
    {
        let keys = match by {
            Some(column) => CodeList::of(snapshot.column(column)),
            None => CodeList::none(),
        };
        let targets = targets(snapshot, target);
        Lists { keys, targets }
    }
}
