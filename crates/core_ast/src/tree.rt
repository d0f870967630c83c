// Modules, functions, expressions and clauses.

use crate::pattern::{Pattern, Var};
use crate::variable::VariableName;
use hipe_terms::{Atom, Constant, Place};
use sqlite_items::{Boxed, Items};

/// The name of a function: an atom and the number of its parameters.
#[derive(Debug, Drop)]
pub struct FunName {
    /// Its atom.
    pub name: Atom,
    /// How many parameters it has. More than 255 break a rule, but can be written.
    pub arity: u64,
}

/// A module.
#[derive(Drop)]
pub struct Module {
    /// Its name.
    pub name: Atom,
    /// The functions that other modules can call, each with the place of its name.
    pub exports: Items<(FunName, Place)>,
    /// Names and their values, which mean nothing to a run.
    pub attributes: Items<(Atom, Constant)>,
    /// The functions, in the order of the text.
    pub defs: Items<FunDef>,
}

/// A function with its name, of a module or of a `letrec`.
#[cycle(expression)]
#[derive(Drop)]
pub struct FunDef {
    pub name: FunName,
    pub fun: Fun,
    /// Where the name begins. Lines and code points are counted from 1.
    pub at: Place,
}

/// A fun: parameters and a body.
#[cycle(expression)]
#[derive(Drop)]
pub struct Fun {
    pub params: Items<Var>,
    pub body: Boxed<Expr>,
    /// Where it begins. Lines and code points are counted from 1.
    pub at: Place,
}

/// An expression.
#[cycle(expression)]
#[derive(Drop)]
pub struct Expr {
    pub node: Node,
    /// Where it begins. Lines and code points are counted from 1.
    pub at: Place,
}

/// What an expression is. A list in the tail of a list is one list with it, and a text
/// is a list of integers.
#[cycle(expression)]
#[derive(Drop)]
pub enum Node {
    /// An integer, from `LEAST_INTEGER` to `GREATEST_INTEGER`. A character is one too.
    Int(i64),
    /// An atom.
    Atom(Atom),
    /// The empty list.
    Nil,
    /// A variable.
    Var(VariableName),
    /// A function by its name.
    Name(FunName),
    /// A tuple.
    Tuple(Items<Expr>),
    /// The first elements, and the list behind them.
    List(Items<Expr>, Boxed<Expr>),
    /// Any number of values, as `<1,2>`.
    Values(Items<Expr>),
    /// `let` of variables, the values that they are bound to, and the body.
    Let(Items<Var>, Boxed<Expr>, Boxed<Expr>),
    /// `case` of values, and its clauses.
    Case(Boxed<Expr>, Items<Clause>),
    /// A fun.
    Lambda(Fun),
    /// `letrec` of functions, and its body.
    Letrec(Items<FunDef>, Boxed<Expr>),
    /// `apply` of a fun, and its arguments.
    Apply(Boxed<Expr>, Items<Expr>),
    /// `call` of a module's function, and its arguments.
    Call(Atom, Atom, Items<Expr>),
    /// `primop` by its name, and its arguments.
    Primop(Atom, Items<Expr>),
    /// `try`, the variables of its `of`, that body, the variables of its `catch`, and that body.
    Try(Boxed<Expr>, Items<Var>, Boxed<Expr>, Items<Var>, Boxed<Expr>),
    /// `do` of two expressions.
    Do(Boxed<Expr>, Boxed<Expr>),
    /// `catch` of an expression.
    Catch(Boxed<Expr>),
}

/// A clause of a `case`.
#[cycle(expression)]
#[derive(Drop)]
pub struct Clause {
    pub patterns: Items<Pattern>,
    pub guard: Expr,
    pub body: Expr,
    /// Where it begins. Lines and code points are counted from 1.
    pub at: Place,
}
