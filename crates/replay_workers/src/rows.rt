ghost use Rattle.std.specs.Prelude.{ℕ, ◌≡◌, ◌<◌, List, map, Some, slice_get, vec_items, vec_len, IfOk};
ghost use Rattle.replay_workers.specs.declared.passes.Row.{Row as RowOf};
ghost use Rattle.replay_workers.specs.Passes.{passes_of_row, passes_of_played};

use crate::passes::{Played, Row, ZonePass};
use std::alloc::Global;
use zone_outside::NoMemory;

/// The rows of passes with the numbers of their workers.
pub(crate) fn numbered(alloc: Global, rows: Vec<Vec<ZonePass>>) -> Result<Vec<Row>, NoMemory>
    requires { vec_len rows < 4294967296 }
    ensures passes { IfOk result (λ numbered. map passes_of_row numbered.items ≡ map vec_items rows.items) }
    ensures numbers { IfOk result (λ numbered. (k : ℕ) (row : RowOf) → slice_get numbered.items k ≡ Some row → row.number ≡ k) }
{
    let mut numbered = Vec::with_capacity(alloc, rows.len())?;
    let mut number = 0u32;
    for passes in rows {
        numbered.push(Row { number, passes })?;
        number += 1;
    }
    Ok(numbered)
}

/// The passes of all workers.
pub(crate) fn passes_of(alloc: Global, played: Vec<Played>) -> Result<Vec<Vec<ZonePass>>, NoMemory>
    ensures { IfOk result (λ rows. map vec_items rows.items ≡ map passes_of_played played.items) }
{
    let mut rows = Vec::with_capacity(alloc, played.len())?;
    for one in played {
        rows.push(one.passes)?;
    }
    Ok(rows)
}
