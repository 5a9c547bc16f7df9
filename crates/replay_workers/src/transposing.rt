ghost use Rattle.std.specs.Prelude.{ℕ, ◌≡◌, List, length, map, vec_len, vec_items, slice_get, OnOk, IfOk};
ghost use Rattle.std.specs.List.{All};
ghost use Rattle.replay_workers.specs.Transposing.{added, IsTransposed};

use std::alloc::Global;
use zone_outside::NoMemory;

/// Adds an element to each column, from a row.
fn add_row<T: Drop>(columns: &mut Vec<Vec<T>>, row: Vec<T>) -> Result<(), NoMemory>
    requires { vec_len row ≡ vec_len columns.old }
    ensures count { OnOk result (vec_len columns.new ≡ vec_len columns.old) }
    ensures rows { OnOk result (map vec_items columns.new.items ≡ added (map vec_items columns.old.items) row.items) }
{
    let mut row = row;
    let mut place = columns.len();
    while let Some(item) = row.pop() {
        place -= 1;
        columns[place].push(item)?;
    }
    Ok(())
}

/// The columns of rows that are this long.
pub(crate) fn transpose<T: Drop>(
    alloc: Global,
    rows: Vec<Vec<T>>,
    width: usize,
) -> Result<Vec<Vec<T>>, NoMemory>
    requires { All (λ row. vec_len row ≡ width) rows.items }
    ensures count { IfOk result (λ columns. vec_len columns ≡ width) }
    ensures cells { IfOk result (λ columns. IsTransposed (map vec_items rows.items) (map vec_items columns.items)) }
{
    let mut columns = Vec::with_capacity(alloc, width)?;
    for _ in 0..width {
        columns.push(Vec::new(alloc))?;
    }
    for row in rows {
        add_row(&mut columns, row)?;
    }
    Ok(columns)
}
