// A program: a module, with its functions by number.

ghost use Rattle.std.specs.Prelude.{◌≡◌, map, length};

use core_ast::{FunDef, FunName};
use eval_procedures::Procedure;
use hipe_terms::{Atom, Place};

/// What a run knows of a module: its name, the functions that others can call, its definitions, and all functions by number,
/// with their numbers of parameters.
#[derive(Drop)]
pub struct Program<'a> {
    pub name: &'a Atom,
    pub exports: &'a [(FunName, Place)],
    pub defs: &'a [FunDef],
    pub procedures: &'a [Procedure<'a>],
    pub arities: &'a [u64],
    pub ghost counted: { arities.now ≡ map (λ f. length f.parameters.now) procedures.now },
}
