ghost use Rattle.std.specs.Prelude.{◌≡◌, ◌<◌, length};
ghost use Rattle.std.specs.List.{zip};
ghost use Rattle.coord_core.specs.Tables.{joined, joined_all};
ghost use Rattle.coord_core.specs.States.{rises, risen, queued_after, queue_after};

use crate::queue::Queue;
use lattice_laws::{Lattice, System};

/// Joins a value into its cell, and queues the cell's readers where it rises. Says whether it does.
fn join_output<S: System>(
    system: &S,
    table: &mut [S::Value],
    queue: &mut Queue,
    cell: u64,
    value: S::Value,
) -> bool
    requires cell { cell < S.meaning.cells }
    requires cells { length table.old ≡ S.meaning.cells }
    requires nodes { queue.old.nodes ≡ S.meaning.nodes }
    ensures table { table.new ≡ joined S.Value.meaning table.old (cell, value) }
    ensures queue { queue.new.waiting
        ≡ queued_after S.Value.meaning S.meaning table.old queue.old.waiting (cell, value) }
    ensures nodes { queue.new.nodes ≡ queue.old.nodes }
    ensures rises { result ≡ rises S.Value.meaning table.old (cell, value) }
{
    let before = table[cell as usize];
    table[cell as usize] = before.join(value);
    let rises = !value.at_most(before);
    if rises {
        queue.add_all(system.readers(cell));
    }
    rises
}

/// Joins what a node gives into its cells, one after another, and queues the readers of those that rise. Says how many
/// do.
pub fn join_outputs<S: System>(
    system: &S,
    table: &mut [S::Value],
    queue: &mut Queue,
    node: u32,
    outputs: &[S::Value],
) -> u64
    requires node { node < S.meaning.nodes }
    requires outputs { length outputs.now ≡ length (S.meaning.gives node) }
    requires cells { length table.old ≡ S.meaning.cells }
    requires nodes { queue.old.nodes ≡ S.meaning.nodes }
    ensures table { let given = zip (S.meaning.gives node) outputs.now in
        table.new ≡ joined_all S.Value.meaning table.old given }
    ensures queue { let given = zip (S.meaning.gives node) outputs.now in
        queue.new.waiting ≡ queue_after S.Value.meaning S.meaning table.old queue.old.waiting given }
    ensures nodes { queue.new.nodes ≡ queue.old.nodes }
    ensures risen { let given = zip (S.meaning.gives node) outputs.now in
        result ≡ risen S.Value.meaning table.old given }
{
    let gives = system.gives(node);
    let mut risen = 0;
    for i in 0..gives.len() {
        if join_output(system, table, queue, gives[i], outputs[i]) {
            risen += 1;
        }
    }
    risen
}
