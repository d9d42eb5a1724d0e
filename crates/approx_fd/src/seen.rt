// Which sets are seen to fail, by column.
use rel_base::ColSet;
use std::alloc::{AllocError, Global};

// For each column sets that fail. It is a hint: what it says decides which left sides are looked at, and no contract speaks of it.
#[derive(Drop)]
pub(crate) struct Seen {
    sets: Vec<Vec<ColSet>>,
}

// A set that fails for a column.
#[derive(Clone, Copy, PartialEq, Eq)]
pub(crate) struct Failure {
    pub(crate) column: u8,
    pub(crate) set: ColSet,
}

impl Seen {
    // No set for any of so many columns.
    pub(crate) fn none(alloc: Global, columns: u8) -> Result<Seen, AllocError> {
        let mut sets = Vec::with_capacity(alloc, columns as usize)?;
        for _ in 0..columns {
            sets.push(Vec::new(alloc))?;
        }
        Ok(Seen { sets })
    }

    // The sets of a column.
    pub(crate) fn of(&self, column: u8) -> &[ColSet] {
        match self.sets.get(column as usize) {
            Some(sets) => sets.as_slice(),
            None => &[],
        }
    }

    // Whether the set lies inside one of a column.
    pub(crate) fn refutes(&self, column: u8, set: ColSet) -> bool {
        self.of(column).iter().any(|other| set.subset_of(*other))
    }

    pub(crate) fn note(&mut self, column: u8, set: ColSet) -> Result<(), AllocError> {
        if let Some(sets) = self.sets.get_mut(column as usize) {
            sets.push(set)?;
        }
        Ok(())
    }

    pub(crate) fn note_all(&mut self, failures: &[Failure]) -> Result<(), AllocError> {
        for failure in failures {
            self.note(failure.column, failure.set)?;
        }
        Ok(())
    }
}
