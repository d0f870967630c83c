// Values of the parser: what was read.

use core_ast::{Clause, Expr, Fun, FunDef, FunName, Module, Pattern, Var};
use hipe_terms::{Atom, Call, Constant, Place};
use sqlite_items::Items;

/// A part that was read.
#[derive(Drop)]
pub enum Value {
    /// Where a part begins that isn't read whole.
    At(Place),
    /// An atom.
    Atom(Atom),
    /// The name of a function.
    Name(FunName),
    /// A variable that is bound, with its place.
    Variable(Var),
    /// Variables that are bound.
    Variables(Items<Var>),
    /// A constant.
    Constant(Constant),
    /// Constants with commas, or the arguments of a call.
    Constants(Items<Constant>),
    /// A pattern.
    Pattern(Pattern),
    /// Patterns.
    Patterns(Items<Pattern>),
    /// An expression.
    Expression(Expr),
    /// Expressions.
    Expressions(Items<Expr>),
    /// Clauses.
    Clauses(Items<Clause>),
    /// A fun.
    Fun(Fun),
    /// Definitions of a module or of a `letrec`.
    Definitions(Items<FunDef>),
    /// Names of exported functions, with their places.
    Exports(Items<(FunName, Place)>),
    /// Attributes with their constants.
    Attributes(Items<(Atom, Constant)>),
    /// A module.
    Module(Module),
    /// A call.
    Call(Call),
}
