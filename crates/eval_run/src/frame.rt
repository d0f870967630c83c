// What waits for values, and what comes next.

use core_ast::{Clause, Expr, FunName, Var};
use eval_contexts::Context;
use eval_values::Value;
use hipe_terms::{Atom, Class};
use sqlite_items::Items;

/// What the values of a list of parts are for.
#[derive(Drop)]
pub enum Goal<'a> {
    /// A tuple of them.
    Tuple,
    /// The elements of a list before its tail, and the tail's context.
    List(&'a Expr, Context<'a>),
    /// The values of the expression.
    Values,
    /// The arguments of a function by its name.
    Name(&'a FunName, Context<'a>),
    /// The arguments of a value that is applied at this depth.
    Apply(Value<'a>, u64),
    /// The arguments of a module's function at this depth.
    Call(&'a Atom, &'a Atom, u64),
    /// The arguments of a primitive operation.
    Primop(&'a Atom),
}

/// What waits for the values of an expression.
#[derive(Drop)]
pub enum Frame<'a> {
    /// The other parts of a list of parts: those behind this one, the values of those before it, and what the values are for.
    Parts {
        rest: &'a [Expr],
        done: Items<Value<'a>>,
        context: Context<'a>,
        goal: Goal<'a>,
    },
    /// A list whose elements are known and whose tail is evaluated.
    Tail(Items<Value<'a>>),
    /// The arguments of what is applied.
    Operator(&'a [Expr], Context<'a>, u64),
    /// The variables and the body of a `let`, and its context.
    Let(&'a [Var], &'a Expr, Context<'a>),
    /// The clauses of a `case`, and their context.
    Case(&'a [Clause], Context<'a>),
    /// The body of the clause whose guard is evaluated and its context, the clauses behind it and theirs, and the values that are
    /// matched.
    Guard {
        body: &'a Expr,
        rest: &'a [Clause],
        values: &'a [Value<'a>],
        context: Context<'a>,
        inside: Context<'a>,
    },
    /// The variables and the body of a `try` and their context, and those of its `catch`.
    Try {
        variables: &'a [Var],
        body: &'a Expr,
        context: Context<'a>,
        causes: &'a [Var],
        handler: &'a Expr,
        handled: Context<'a>,
    },
    /// The second part of a `do`, and its context.
    Do(&'a Expr, Context<'a>),
    /// A `catch`.
    Catch,
}

/// How a run ends. `Stuck` is how no good module's run ends: a name that is not in scope, or a number of values that does not
/// fit.
#[derive(Drop)]
pub enum Ending<'a> {
    /// With these values.
    Values(Items<Value<'a>>),
    /// With a class and a reason.
    Raised(Class, Value<'a>),
    /// Where a function is applied and no fuel is left.
    FuelSpent,
    /// See above.
    Stuck,
}

/// What comes next.
#[derive(Drop)]
pub enum Control<'a> {
    /// An expression is evaluated.
    Evaluate(&'a Expr, Context<'a>),
    /// One value is given to what waits.
    Value(Value<'a>),
    /// Any number of values are given to what waits.
    Values(Items<Value<'a>>),
    /// A class and a reason are raised.
    Raise(Class, Value<'a>),
    /// A clause is chosen for values.
    Choose(&'a [Clause], &'a [Value<'a>], Context<'a>),
    /// The run ends.
    End(Ending<'a>),
}
