ghost use Rattle.std.specs.Prelude.{◌≡◌};
ghost use Rattle.coord_core_tests.specs.Rings.{ring};
ghost use Rattle.coord_core_tests.specs.RingLaws.{ring_is_system};

use crate::level::Level;
use hipe_base::Memory;
use lattice_laws::System;
use std::alloc::Global;

/// Both nodes need cell 0, which starts with 1. Node 0 needs cell 2 and gives 1; node 1 needs cell 1 and gives 2.
#[derive(Drop)]
pub struct Ring {
    start: (u64, Level),
    ghost cell: { start.0 ≡ 0 },
    ghost level: { start.1 ≡ 1 },
}

impl Ring {
    /// The ring.
    pub fn new() -> Ring
        ensures { result.start ≡ (0, 1) }
    {
        Ring {
            start: (0, Level::new(1)),
        }
    }
}

impl System for Ring {
    type Value = Level;

    ghost meaning = { ring };

    ghost lawful = { ring_is_system };

    fn nodes(&self) -> u32 {
        2
    }

    fn cells(&self) -> u64 {
        3
    }

    fn needs(&self, node: u32) -> &[u64] {
        if node == 0 { &[0, 2] } else { &[0, 1] }
    }

    fn gives(&self, node: u32) -> &[u64] {
        if node == 0 { &[1] } else { &[2] }
    }

    fn readers(&self, cell: u64) -> &[u32] {
        match cell {
            0 => &[0, 1],
            1 => &[1],
            _ => &[0],
        }
    }

    fn starts(&self) -> &[(u64, Level)] {
        std::slice::from_ref(&self.start)
    }

    fn local(&self, alloc: Global, _node: u32, snapshot: &[Level]) -> Result<Vec<Level>, Memory> {
        let reached = snapshot[0].number();
        let other = snapshot[1].number();
        let only = if reached == 0 { 0 } else { (other + 1).min(3) };
        Ok(vec![in alloc; Level::new(only)]?)
    }
}
