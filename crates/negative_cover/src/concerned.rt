// The targets that an agree set concerns.
ghost use Rattle.std.specs.Prelude.{if◌then◌else◌, ◌≡◌, ◌≤◌, [], true, false, IsTrue, ◌↔◌};
ghost use Rattle.col_set.specs.ColSet.{subset, inter};
ghost use Rattle.col_set.specs.Target.{IsColumnTarget};
ghost use Rattle.negative_cover.specs.Witnesses.{sets_of};
ghost use Rattle.negative_cover.specs.Concerning.{concerns, AreConcerned, ConcernsNone};

use crate::NegativeCover;
use rel_base::{ColSet, MOST_COLUMNS, Target};

/// The targets of which a further agree set refutes a candidate, where the candidates are the least left sides that no witness
/// refutes: whether the row's identity is one of them, and which columns are.
#[derive(Clone, Copy)]
pub struct Concerned {
    pub row_id: bool,
    pub columns: ColSet,
}

impl Concerned {
    /// Those of an agree set of so many columns, by the agree sets of the witnesses alone: the targets that it lacks, less those that
    /// some witness lacks which contains it. It takes a step a witness, and no memory.
    pub fn by(witnesses: &NegativeCover, agree: ColSet, columns: u8) -> Concerned
        requires { columns ≤ MOST_COLUMNS }
        ensures { AreConcerned columns (sets_of witnesses.now) agree result }
    {
        let mut concerned = Concerned::lacking(columns, agree);
        for witness in witnesses.witnesses() {
            concerned = concerned.told(agree, witness.agree);
        }
        concerned
    }

    // The targets that an agree set lacks.
    fn lacking(columns: u8, agree: ColSet) -> Concerned
        requires { columns ≤ MOST_COLUMNS }
        ensures { AreConcerned columns [] agree result }
    {
        Concerned {
            row_id: true,
            columns: ColSet::all(columns).minus(agree),
        }
    }

    // Less those that a witness lacks, where it contains the agree set.
    fn told(self, agree: ColSet, witness: ColSet) -> Concerned
        ensures { result ≡ (if subset agree witness then record { row_id = false; columns = inter self.columns witness } else self) }
    {
        if agree.subset_of(witness) {
            Concerned {
                row_id: false,
                columns: self.columns.inter(witness),
            }
        } else {
            self
        }
    }

    /// Whether there are none.
    pub fn is_none(&self) -> bool
        ensures { IsTrue result ↔ ConcernsNone self.now }
    {
        !self.row_id && self.columns == ColSet::empty()
    }

    /// Whether the target is one of them.
    pub fn has(&self, target: Target) -> bool
        requires { IsColumnTarget MOST_COLUMNS target }
        ensures { result ≡ concerns self.now target }
    {
        match target {
            Target::RowId => self.row_id,
            Target::Col(column) => self.columns.has(column),
        }
    }
}
