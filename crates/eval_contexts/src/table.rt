// What a run asks of a program.

ghost use Rattle.std.specs.List.{list_any};
ghost use Rattle.std.specs.Prelude.{◌≡◌, map, length, slice_get, bytes_eq, IfOk};
ghost use Rattle.core_ast.specs.Names.{is_named};
ghost use Rattle.core_ast.specs.Trees.{definition_of, definitions, module_of};
ghost use Rattle.core_meaning.specs.Meaning.{arity_of, exported, number_among};
ghost use Rattle.core_meaning.specs.Scopes.{function_names};
ghost use Rattle.core_meaning.specs.Procedures.{program_of};
ghost use Rattle.eval_values.specs.Results.{arities_in};
ghost use Rattle.eval_contexts.specs.Programs.{program_in};
ghost use Rattle.hipe_terms.specs.Bifs.{bif_name, built_in, first_named};

use crate::arena::Arena;
use crate::program::Program;
use core_ast::{FunDef, FunName, Module};
use eval_procedures::{Procedure, module_procedures};
use eval_values::{Ground, same_atom};
use hipe_base::Memory;
use hipe_terms::{Atom, Bif, Place};
use std::alloc::Global;

impl<'a> Program<'a> {
    /// What a run knows of this module. An error where there is no memory for it, or where a count passes 2^64 - 1.
    pub fn new(arena: &'a Arena, m: &'a Module) -> Result<Program<'a>, Memory>
        ensures { IfOk result (λ p. program_in p ≡ program_of (module_of m.now)) }
    {
        let defs = m.defs.as_slice();
        let found = module_procedures(arena.alloc, &arena.bump, defs)?;
        let arities = parameters_of(arena.alloc, found.as_slice())?;
        Ok(Program {
            name: &m.name,
            exports: m.exports.as_slice(),
            defs,
            procedures: arena.bump.try_alloc_slice_copy(found.as_slice())?,
            arities: arena.bump.try_alloc_slice_copy(arities.as_slice())?,
        })
    }

    /// What the built-in functions stand on.
    pub fn ground(&self, arena: &'a Arena) -> Ground<'a>
        ensures { arities_in result.arities.now ≡ arity_of (program_in self.now) }
    {
        Ground {
            alloc: arena.alloc,
            bump: &arena.bump,
            atoms: &arena.atoms,
            arities: self.arities,
        }
    }

    /// The number of parameters of the function of this number, and 0 where there is none.
    pub fn arity_of(&self, n: u64) -> u64
        ensures { result ≡ arity_of (program_in self.now) n }
    {
        match number_at(self.arities, n) {
            Some(arity) => arity,
            None => 0,
        }
    }

    /// The number of the function that the module exports under this name.
    pub fn exported(&self, name: &Atom, arity: u64) -> Option<u64>
        ensures { result ≡ exported (program_in self.now) (record { name = name.now; arity = arity }) }
    {
        if is_exported(name, arity, self.exports) {
            number_among(name, arity, self.defs)
        } else {
            None
        }
    }
}

// The number at this index.
fn number_at(numbers: &[u64], index: u64) -> Option<u64>
    ensures { result ≡ slice_get numbers.now index }
{
    numbers.get(index as usize).copied()
}

// The number of parameters of each of these functions.
fn parameters_of(alloc: Global, procedures: &[Procedure<'_>]) -> Result<Vec<u64>, Memory>
    ensures { IfOk result (λ found. found.items ≡ map (λ f. length f.parameters.now) procedures.now) }
{
    let mut found = Vec::new(alloc);
    for f in procedures {
        found.push(f.parameters.len() as u64)?;
    }
    Ok(found)
}

// Whether a function of this name is among the exports.
fn is_exported(name: &Atom, arity: u64, exports: &[(FunName, Place)]) -> bool
    ensures { result ≡ list_any (λ g. is_named (record { name = name.now; arity = arity }) g) (map (λ e. e.0) exports.now) }
{
    for e in exports {
        if has_name(name, arity, &e.0) {
            return true;
        }
    }
    false
}

// The number of the first definition of this name.
fn number_among(name: &Atom, arity: u64, defs: &[FunDef]) -> Option<u64>
    ensures { result ≡ number_among 0 (record { name = name.now; arity = arity }) (function_names (definitions (map definition_of defs.now))) }
{
    for (i, def) in defs.iter().enumerate() {
        if is_definition_of(name, arity, def) {
            return Some(i as u64);
        }
    }
    None
}

// Whether a definition is that of a function of this name and arity.
#[tactic(auto, using(core_ast::proofs::Levels::levels))]
fn is_definition_of(name: &Atom, arity: u64, def: &FunDef) -> bool
    ensures { result ≡ is_named (record { name = name.now; arity = arity }) (definition_of def.now).name }
{
    has_name(name, arity, &def.name)
}

// Whether a function has this name and arity.
fn has_name(name: &Atom, arity: u64, f: &FunName) -> bool
    ensures { result ≡ is_named (record { name = name.now; arity = arity }) f.now }
{
    same_atom(name, &f.name) && arity == f.arity
}

/// The built-in function of this module, name and number of arguments.
pub fn built_in(of: &Atom, name: &Atom, arity: usize) -> Option<Bif>
    ensures { result ≡ built_in of.now name.now arity }
{
    if of.has_text("erlang") {
        first_named(name, arity, &BUILT_INS)
    } else {
        None
    }
}

// The first of these of this name and number of arguments.
fn first_named(name: &Atom, arity: usize, bifs: &[Bif]) -> Option<Bif>
    ensures { result ≡ first_named name.now arity bifs.now }
{
    for bif in bifs {
        if is_name_of(*bif, name) && bif.arity() == arity {
            return Some(*bif);
        }
    }
    None
}

// Whether an atom is the name of this built-in function.
fn is_name_of(bif: Bif, name: &Atom) -> bool
    ensures { result ≡ bytes_eq (bif_name bif) name.now }
{
    bif.name() == name.as_str()
}

// All built-in functions.
const BUILT_INS: [Bif; 42] = [
    Bif::Add,
    Bif::Subtract,
    Bif::Multiply,
    Bif::Negate,
    Bif::Divide,
    Bif::Remainder,
    Bif::BitAnd,
    Bif::BitOr,
    Bif::BitXor,
    Bif::BitNot,
    Bif::ShiftLeft,
    Bif::ShiftRight,
    Bif::Equal,
    Bif::NotEqual,
    Bif::ExactlyEqual,
    Bif::ExactlyNotEqual,
    Bif::LessThan,
    Bif::AtMost,
    Bif::GreaterThan,
    Bif::AtLeast,
    Bif::And,
    Bif::Or,
    Bif::Not,
    Bif::IsInteger,
    Bif::IsNumber,
    Bif::IsAtom,
    Bif::IsBoolean,
    Bif::IsList,
    Bif::IsTuple,
    Bif::IsFunction,
    Bif::IsFunctionOfArity,
    Bif::Head,
    Bif::Tail,
    Bif::Length,
    Bif::Append,
    Bif::Element,
    Bif::SetElement,
    Bif::TupleSize,
    Bif::Error,
    Bif::Throw,
    Bif::Exit,
    Bif::Display,
];
