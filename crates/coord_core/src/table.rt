ghost use Rattle.std.specs.Prelude.{◌≡◌, ◌<◌, IfOk, length, slice_index_or, false, ℕ, ◌==◌};
ghost use Rattle.std.specs.List.{All, filter, list_any};
ghost use Rattle.coord_core.specs.Tables.{values_of, bottoms, numbers_below};
ghost use Rattle.coord_core.specs.States.{started, is_started};

use crate::queue::Queue;
use hipe_base::Memory;
use lattice_laws::{Lattice, System};
use std::alloc::Global;

/// What some cells of a table have, in the order of `cells`.
pub fn values_at<V: Lattice>(alloc: Global, table: &[V], cells: &[u64]) -> Result<Vec<V>, Memory>
    requires { All (λ cell. cell < length table.now) cells.now }
    ensures { IfOk result (λ values. values.items ≡ values_of V.meaning table.now cells.now) }
{
    let mut values = Vec::with_capacity(alloc, cells.len())?;
    for cell in cells {
        values.push(table[*cell as usize])?;
    }
    Ok(values)
}

/// A table with bottom in each cell.
fn bottom_table<S: System>(alloc: Global, system: &S) -> Result<Vec<S::Value>, Memory>
    ensures { IfOk result (λ table. table.items ≡ bottoms S.Value.meaning S.meaning) }
{
    let mut table = Vec::with_capacity(alloc, system.cells() as usize)?;
    for _ in 0..system.cells() {
        table.push(S::Value::bottom())?;
    }
    Ok(table)
}

/// The table with which a coordinator opens: the starts, and bottom elsewhere.
pub fn started_table<S: System>(alloc: Global, system: &S) -> Result<Vec<S::Value>, Memory>
    ensures { IfOk result (λ table.
        table.items ≡ started (bottoms S.Value.meaning S.meaning) S.meaning.starts) }
{
    let mut table = bottom_table(alloc, system)?;
    for start in system.starts() {
        table[start.0 as usize] = start.1;
    }
    Ok(table)
}

/// For each cell, whether it starts with a value.
fn started_cells<S: System>(alloc: Global, system: &S) -> Result<Vec<bool>, Memory>
    ensures cells { IfOk result (λ flags. length flags.items ≡ S.meaning.cells) }
    ensures flags { IfOk result (λ flags.
        (cell : ℕ) → cell < S.meaning.cells →
        slice_index_or flags.items cell false
        ≡ list_any (λ start. start.0 == cell) S.meaning.starts) }
{
    let mut flags = vec![in alloc; false; system.cells() as usize]?;
    for start in system.starts() {
        flags[start.0 as usize] = true;
    }
    Ok(flags)
}

/// The queue with which a coordinator opens: the nodes whose reached cell is started, ascending.
pub fn started_queue<S: System>(alloc: Global, system: &S) -> Result<Queue, Memory>
    ensures waiting { IfOk result (λ queue.
        queue.waiting ≡ filter (is_started S.meaning) (numbers_below S.meaning.nodes)) }
    ensures nodes { IfOk result (λ queue. queue.nodes ≡ S.meaning.nodes) }
{
    let started = started_cells(alloc, system)?;
    let mut queue = Queue::new(alloc, system.nodes())?;
    for node in 0..system.nodes() {
        if started[system.needs(node)[0] as usize] {
            queue.add(node);
        }
    }
    Ok(queue)
}
