ghost use Rattle.std.specs.Prelude.{◌≡◌, ◌<◌, IfOk, length};
ghost use Rattle.lattice_laws.specs.Systems.{SystemMeaning, IsSystem};

use crate::lattice::Lattice;
use hipe_base::Memory;
use std::alloc::Global;

/// Nodes that make values for cells of the values of other cells.
///
/// What a system means is fixed by its type alone, so any two values of one type are the same system. Its laws are
/// those of `IsSystem`: numbers are in range, a node gives no cell twice, and the readers of a cell are exactly the
/// nodes that need it. A node's first need is its reached cell: where that is bottom, the node gives bottoms.
pub trait System {
    /// What a cell holds.
    type Value: Lattice;

    // what the functions compute
    ghost meaning: { SystemMeaning Self.Value };

    /// How many nodes there are. They have the numbers below that.
    fn nodes(&self) -> u32
        ensures { result ≡ meaning.nodes };

    /// How many cells there are. They have the numbers below that.
    fn cells(&self) -> u64
        ensures { result ≡ meaning.cells };

    /// The cells whose values `node` needs, its reached cell first.
    fn needs(&self, node: u32) -> &[u64]
        requires { node < meaning.nodes }
        ensures { result.now ≡ meaning.needs node };

    /// The cells for which `node` gives values, none of them twice.
    fn gives(&self, node: u32) -> &[u64]
        requires { node < meaning.nodes }
        ensures { result.now ≡ meaning.gives node };

    /// The nodes that need `cell`, ascending.
    fn readers(&self, cell: u64) -> &[u32]
        requires { cell < meaning.cells }
        ensures { result.now ≡ meaning.readers cell };

    /// The cells that start with a value, none of them twice, each with its value.
    fn starts(&self) -> &[(u64, Self::Value)]
        ensures { result.now ≡ meaning.starts };

    /// What `node` makes of the values of its needs, one value for each cell that it gives. It is monotone, and gives
    /// bottoms where the first of `snapshot` is bottom. `Memory` where there was none.
    fn local(
        &self,
        alloc: Global,
        node: u32,
        snapshot: &[Self::Value],
    ) -> Result<Vec<Self::Value>, Memory>
        requires node { node < meaning.nodes }
        requires snapshot { length snapshot.now ≡ length (meaning.needs node) }
        ensures { IfOk result (λ values. values.items ≡ meaning.local node snapshot.now) };

    // the laws
    ghost lawful: { IsSystem Self.Value.is_value Self.Value.meaning meaning };
}
