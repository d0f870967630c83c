// The nodes of the functions of a module, up to the limit.

ghost use Rattle.std.specs.Prelude.{◌≡◌, ◌∷◌, [], map};
ghost use Rattle.core_ast.specs.Trees.{definition_of, definitions};
ghost use Rattle.core_lint.specs.Tallies.{sized};

use crate::tally::Tally;
use core_ast::{FunDef, Rule, count};
use hipe_base::limits::NODE_LIMIT;

// A function of a module.
#[tactic(auto, using(crate::proofs::Room::room))]
fn module_function(def: &FunDef, tally: &mut Tally)
    ensures { tally.new ≡ sized (definitions (definition_of def.now ∷ [])) tally.old }
{
    let left = count::definition(def, NODE_LIMIT as u64 + 1);
    tally.test(left != 0, Rule::SizeLimit, def.at);
}

/// The nodes of these functions of a module.
#[tactic(auto, using(core_ast::proofs::Levels::levels))]
pub fn module_functions(list: &[FunDef], tally: &mut Tally)
    ensures { tally.new ≡ sized (definitions (map definition_of list.now)) tally.old }
{
    for def in list {
        module_function(def, tally);
    }
}
