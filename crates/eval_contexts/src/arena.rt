// What the values of runs stand in.

ghost use Rattle.std.specs.Prelude.{◌≡◌, IfOk};

use bumpalo::Bump;
use eval_values::Atoms;
use hipe_base::Memory;
use std::alloc::Global;

/// What the values of runs stand in: the memory of their parts, and the atoms that runs make themselves.
#[derive(Drop)]
pub struct Arena {
    pub alloc: Global,
    pub bump: Bump,
    pub atoms: Atoms,
}

impl Arena {
    /// An empty one. An error where there is no memory for it.
    pub fn new(alloc: Global) -> Result<Arena, Memory>
        ensures { IfOk result (λ arena. arena.alloc ≡ alloc) }
    {
        Ok(Arena {
            alloc,
            bump: Bump::new(alloc),
            atoms: Atoms::new(alloc)?,
        })
    }
}
