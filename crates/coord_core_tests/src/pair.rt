ghost use Rattle.std.specs.Prelude.{◌≡◌};
ghost use Rattle.coord_core_tests.specs.Pairs.{pair};
ghost use Rattle.coord_core_tests.specs.PairLaws.{pair_is_system};

use crate::level::Level;
use hipe_base::Memory;
use lattice_laws::System;
use std::alloc::Global;

/// Node 0 needs cells 0 and 3 and gives 1 and 2; node 1 needs 2 and 1 and gives 3. Cell 0 starts with 1.
#[derive(Drop)]
pub struct Pair {
    start: (u64, Level),
    ghost cell: { start.0 ≡ 0 },
    ghost level: { start.1 ≡ 1 },
}

impl Pair {
    /// The pair.
    pub fn new() -> Pair
        ensures { result.start ≡ (0, 1) }
    {
        Pair {
            start: (0, Level::new(1)),
        }
    }
}

impl System for Pair {
    type Value = Level;

    ghost meaning = { pair };

    ghost lawful = { pair_is_system };

    fn nodes(&self) -> u32 {
        2
    }

    fn cells(&self) -> u64 {
        4
    }

    fn needs(&self, node: u32) -> &[u64] {
        if node == 0 { &[0, 3] } else { &[2, 1] }
    }

    fn gives(&self, node: u32) -> &[u64] {
        if node == 0 { &[1, 2] } else { &[3] }
    }

    fn readers(&self, cell: u64) -> &[u32] {
        match cell {
            0 => &[0],
            1 => &[1],
            2 => &[1],
            _ => &[0],
        }
    }

    fn starts(&self) -> &[(u64, Level)] {
        std::slice::from_ref(&self.start)
    }

    fn local(&self, alloc: Global, node: u32, snapshot: &[Level]) -> Result<Vec<Level>, Memory> {
        let reached = snapshot[0].number();
        let other = snapshot[1].number();
        if node == 0 {
            let (first, second) = if reached == 0 {
                (0, 0)
            } else {
                (other.max(1), 1)
            };
            Ok(vec![in alloc; Level::new(first), Level::new(second)]?)
        } else {
            let only = if reached == 0 { 0 } else { (other + 1).min(3) };
            Ok(vec![in alloc; Level::new(only)]?)
        }
    }
}
