// The numbers of tables, from 1.
ghost use Rattle.std.specs.Prelude.{◌≡◌, ◌+◌, IfOk};
ghost use Rattle.std.specs.List.{enumerate_from};

use rel_base::Table;
use std::alloc::{AllocError, Global};

// The number of the table at a place. There is no memory for as many tables as would go beyond the numbers.
pub(crate) fn number_at(place: usize) -> Result<u32, AllocError>
    ensures { IfOk result (λ number. number ≡ place + 1) }
{
    if place < u32::MAX as usize {
        Ok(place as u32 + 1)
    } else {
        Err(AllocError)
    }
}

// The tables, each behind its number.
pub(crate) fn numbered(alloc: Global, tables: &[Table]) -> Result<Vec<(u32, Table)>, AllocError>
    ensures { IfOk result (λ numbered. numbered.items ≡ enumerate_from 1 tables.now) }
{
    let mut numbered = Vec::with_capacity(alloc, tables.len())?;
    for (place, table) in tables.iter().enumerate() {
        numbered.push((number_at(place)?, *table))?;
    }
    Ok(numbered)
}
