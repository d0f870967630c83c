// Good modules.

ghost use Rattle.core_ast.specs.Trees.{module_of};
ghost use Rattle.core_ast.specs.Good.{IsGood};
ghost use Rattle.core_ast.specs.WellFormed.{IsWellFormed};

use crate::tree::Module;

/// A module that breaks no rule and is well formed, which its type keeps.
#[derive(Drop)]
pub struct GoodModule {
    /// The module itself.
    pub tree: Module,
    pub ghost good: { IsGood (module_of tree) },
    pub ghost well_formed: { IsWellFormed (module_of tree) },
}
