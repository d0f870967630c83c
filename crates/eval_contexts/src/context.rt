// The context of an expression.

ghost use Rattle.std.specs.Prelude.{◌≡◌, ◌++◌, map, option_map, slice_get, IfOk};
ghost use Rattle.core_ast.specs.Trees.{definition_of, definitions};
ghost use Rattle.core_meaning.specs.Meaning.{part, behind, with, with_functions, value_of, values_in, function_of};
ghost use Rattle.eval_procedures.specs.Shown.{names_in};
ghost use Rattle.eval_values.specs.Values.{term_in, terms_in};
ghost use Rattle.eval_contexts.specs.Contexts.{context_in, captured_in};

use crate::arena::Arena;
use core_ast::{FunDef, FunName, VariableName};
use eval_procedures::{Scope, add, binding, funs_in_definitions, letrec_scope};
use eval_values::Value;
use hipe_base::Memory;

/// The context of an expression: the scope and the values by slot; the number of the first fun in the expression; the depth behind
/// the activation's own frame, and the depth at which an application here stands, which is less in a tail position. Depths are in words of
/// the stack.
#[derive(Clone, Copy)]
pub struct Context<'a> {
    pub scope: Scope<'a>,
    pub bound: &'a [Value<'a>],
    pub number: u64,
    pub inner: u64,
    pub depth: u64,
}

impl<'a> Context<'a> {
    /// The context of a part that is in no tail position.
    pub fn part(self) -> Context<'a>
        ensures { context_in result ≡ part (context_in self.entry) }
    {
        Context {
            depth: self.inner,
            ..self
        }
    }

    /// The context behind so many funs. An error where a function's number passes 2^64 - 1.
    pub fn behind(self, n: u64) -> Result<Context<'a>, Memory>
        ensures { IfOk result (λ c. context_in c ≡ behind n (context_in self.entry)) }
    {
        Ok(Context {
            number: add(self.number, n)?,
            ..self
        })
    }

    /// The context where these variables are bound to these values too. An error where there is no memory for it, or where a slot
    /// passes 2^64 - 1.
    pub fn with(
        self,
        arena: &'a Arena,
        xs: &[&'a VariableName],
        values: &[Value<'a>],
    ) -> Result<Context<'a>, Memory>
        ensures { IfOk result (λ c. context_in c ≡ with (names_in xs.now) (terms_in values.now) (context_in self.entry)) }
    {
        let scope = binding(&arena.bump, self.bound.len() as u64, xs, self.scope)?;
        let bound = joined(arena, self.bound, values)?;
        Ok(Context {
            scope,
            bound,
            ..self
        })
    }

    /// The context where the functions of a `letrec` are known too, behind them. An error where there is no memory for it, or where a
    /// count passes 2^64 - 1.
    pub fn with_functions(self, arena: &'a Arena, defs: &'a [FunDef]) -> Result<Context<'a>, Memory>
        ensures { IfOk result (λ c. context_in c ≡ with_functions (definitions (map definition_of defs.now)) (context_in self.entry)) }
    {
        let scope = letrec_scope(arena.alloc, &arena.bump, self.number, defs, self.scope)?;
        let number = add(self.number, funs_in_definitions(defs)?)?;
        Ok(Context {
            scope,
            number,
            ..self
        })
    }

    /// The value of a variable.
    pub fn value_of(self, x: &VariableName) -> Option<Value<'a>>
        ensures { option_map term_in result ≡ value_of x.now (context_in self.entry) }
    {
        match self.scope.slot_of(x) {
            Some(slot) => value_at(self.bound, slot),
            None => None,
        }
    }

    /// The values in these slots, or nothing where a slot has none. An error where there is no memory for them.
    #[tactic(auto, using(crate::proofs::Slots::slots))]
    pub fn values_in(
        self,
        arena: &'a Arena,
        slots: &[u64],
    ) -> Result<Option<&'a [Value<'a>]>, Memory>
        ensures { IfOk result (λ found. option_map (λ vs. terms_in vs.now) found ≡ values_in (context_in self.entry).bound slots.now) }
    {
        let mut found = Vec::new(arena.alloc);
        for slot in slots {
            match value_at(self.bound, *slot) {
                Some(value) => found.push(value)?,
                None => return Ok(None),
            }
        }
        Ok(Some(arena.bump.try_alloc_slice_copy(found.as_slice())?))
    }

    /// The number of the function of this name, and the values that it captured. An error where there is no memory for them.
    pub fn function_of(
        self,
        arena: &'a Arena,
        f: &FunName,
    ) -> Result<Option<(u64, &'a [Value<'a>])>, Memory>
        ensures { IfOk result (λ found. option_map captured_in found ≡ function_of f.now (context_in self.entry)) }
    {
        match self.scope.known_of(f) {
            Some(known) => match self.values_in(arena, known.captured)? {
                Some(values) => Ok(Some((known.number, values))),
                None => Ok(None),
            },
            None => Ok(None),
        }
    }
}

// The value in a slot.
fn value_at<'a>(bound: &[Value<'a>], slot: u64) -> Option<Value<'a>>
    ensures { option_map term_in result ≡ slice_get (terms_in bound.now) slot }
{
    bound.get(slot as usize).copied()
}

/// The values of one list and behind them those of another. An error where there is no memory for them.
pub fn joined<'a>(
    arena: &'a Arena,
    first: &[Value<'a>],
    second: &[Value<'a>],
) -> Result<&'a [Value<'a>], Memory>
    ensures { IfOk result (λ all. all.now ≡ first.now ++ second.now) }
{
    let mut all = Vec::with_capacity(arena.alloc, first.len())?;
    all.extend_from_slice(first)?;
    all.extend_from_slice(second)?;
    Ok(arena.bump.try_alloc_slice_copy(all.as_slice())?)
}
