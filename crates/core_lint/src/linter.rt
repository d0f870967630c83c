// The linter.

ghost use Rattle.std.specs.Prelude.{◌≡◌, ◌+◌, [], IfOk, IfErr, MatchOption};
ghost use Rattle.core_ast.specs.Trees.{module_of};
ghost use Rattle.core_ast.specs.WellFormed.{IsWellFormed};
ghost use Rattle.core_ast.specs.Good.{IsGood, IsFirstBroken};
ghost use Rattle.core_lint.specs.Walks.{visited_module};
ghost use Rattle.core_lint.specs.Tallies.{tallied_module};
ghost use Rattle.core_lint.specs.Refusals.{IsRefusal};

use crate::counting::{definitions, exports};
use crate::refusal::LintRefusal;
use crate::scope::Scope;
use crate::scoping;
use crate::sizing::module_functions;
use crate::tally::Tally;
use crate::walk::Walk;
use core_ast::{Broken, GoodModule, Module};
use hipe_base::Memory;
use hipe_base::limits::FUNCTION_LIMIT;
use std::alloc::Global;

// The first broken rule that counts.
fn counts(m: &Module) -> Option<Broken>
    ensures { result ≡ (tallied_module (module_of m.now) (record { first = None; left = FUNCTION_LIMIT + 1 })).first }
{
    let mut tally = Tally {
        first: None,
        left: FUNCTION_LIMIT + 1,
    };
    exports(m.exports.as_slice(), &mut tally);
    definitions(m.defs.as_slice(), &mut tally);
    module_functions(m.defs.as_slice(), &mut tally);
    tally.first
}

// The first broken rule, where the first that counts is known.
fn names(alloc: Global, m: &Module, first: Option<Broken>) -> Result<Option<Broken>, Memory>
    ensures { IfOk result (λ answer. answer ≡ (visited_module (module_of m.now) (record { variables = []; functions = []; first = first })).first) }
{
    let mut walk = Walk {
        variables: Scope::new(alloc),
        functions: Scope::new(alloc),
        first,
    };
    scoping::module(alloc, m, &mut walk)?;
    Ok(walk.first)
}

// The first broken rule. Names are walked last, so that none is looked for behind a rule that counts.
fn first_broken(alloc: Global, m: &Module) -> Result<Option<Broken>, Memory>
    ensures { IfOk result (λ first. MatchOption first (IsGood (module_of m.now)) (λ b. IsFirstBroken (module_of m.now) b.rule b.at)) }
{
    names(alloc, m, counts(m))
}

/// The module as a good one, or why it isn't: the first rule that it breaks, by the place and at one place by the order of
/// the rules, or that memory ran out.
pub fn lint(alloc: Global, m: Module) -> Result<GoodModule, LintRefusal>
    requires { IsWellFormed (module_of m) }
    ensures same { IfOk result (λ good. good.tree ≡ m) }
    ensures good { IfOk result (λ _. IsGood (module_of m)) }
    ensures refused { IfErr result (λ refusal. IsRefusal (module_of m) refusal) }
{
    match first_broken(alloc, &m) {
        Ok(None) => Ok(GoodModule { tree: m }),
        Ok(Some(broken)) => Err(LintRefusal::Broken {
            rule: broken.rule,
            at: broken.at,
        }),
        Err(_) => Err(LintRefusal::Memory),
    }
}
