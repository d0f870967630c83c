// The sum of a module.

ghost use Rattle.std.specs.Prelude.{◌≡◌, ◌≤◌, ◌<◌, length, map, IfOk, IfErr};
ghost use Rattle.core_ast.specs.Trees.{module_of, definition_of, definitions};
ghost use Rattle.core_ast.specs.Places.{place_of};
ghost use Rattle.core_sum.specs.Sums.{HasSmallIntegers, count_of};
ghost use Rattle.core_sum.specs.Form.{IsSumModule, IsSumRefusal};
ghost use Rattle.core_sum.specs.Made.{Finds, sum_in, alone, sum_of_definitions};

use crate::name::{has_main, is_main};
use crate::part::sum_in;
use crate::sum::{MOST_INTEGERS, Sum, SumRefusal};
use core_ast::{FunDef, GoodModule};
use std::alloc::Global;

// The sum of the function, where no other follows, or the first part that isn't of the form.
#[tactic(auto, using(crate::proofs::Parts::parts))]
fn alone(alloc: Global, def: &FunDef, others: &[FunDef]) -> Result<Sum, SumRefusal>
    ensures { Finds (let body = (definition_of def.now).function.body in
        alone (sum_in body) (place_of body) (definitions (map definition_of others.now))) result }
{
    let body = def.fun.body.get();
    match sum_in(alloc, body)? {
        Some(sum) => match others {
            [other, ..] => Err(SumRefusal::NotYet { at: other.at }),
            [] => Ok(sum),
        },
        None => Err(SumRefusal::NotYet { at: body.at }),
    }
}

// The sum of the only function, or the first part that isn't of the form.
#[tactic(auto, using(crate::proofs::Parts::parts))]
fn sum_of_functions(alloc: Global, defs: &[FunDef]) -> Result<Sum, SumRefusal>
    requires { 0 < length defs.now }
    ensures { Finds (sum_of_definitions (definitions (map definition_of defs.now))) result }
{
    match defs {
        [def, others @ ..] => {
            if is_main(&def.name) {
                alone(alloc, def, others)
            } else {
                Err(SumRefusal::NotYet { at: def.at })
            }
        }
        [] => unreachable!(),
    }
}

/// The sum of a good module whose exports hold `'main'/0`, whose only function that is, and whose body is made of integers from
/// -999,999 to 999,999 and calls of `'erlang':'+'` of two such parts.
///
/// # Errors
///
/// - `NotExported` if and only if the exports don't hold `'main'/0`.
/// - `NotYet` if and only if they do and some part isn't of the form: a function other than `'main'/0`, or an expression that isn't
///   made so. It has the place of the first such part in the order of the text.
/// - `Memory` where memory runs out.
pub fn sum_of(alloc: Global, m: &GoodModule) -> Result<Sum, SumRefusal>
    ensures sum { IfOk result (λ e. IsSumModule (module_of m.now.tree) e) }
    ensures refused { IfErr result (λ refusal. IsSumRefusal (module_of m.now.tree) refusal) }
    // What such a sum can hold.
    ensures small { IfOk result (λ e. HasSmallIntegers e) }
    ensures few { IfOk result (λ e. count_of e ≤ MOST_INTEGERS) }
{
    if !has_main(m.tree.exports.as_slice()) {
        return Err(SumRefusal::NotExported);
    }
    sum_of_functions(alloc, m.tree.defs.as_slice())
}
