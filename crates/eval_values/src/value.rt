// Values.

ghost use Rattle.std.specs.Prelude.{◌≡◌};
ghost use Rattle.eval_values.specs.Values.{term_in};
ghost use Rattle.eval_values.specs.Shapes.{shape_term};

use hipe_terms::Atom;

/// A value: a term whose parts stand in an arena or in the module's tree. Contracts see it as its term, `term_in`.
#[cycle(value)]
#[derive(Clone, Copy)]
pub enum Value<'a> {
    /// An integer, from `LEAST_INTEGER` to `GREATEST_INTEGER`.
    Int(i64),
    /// An atom.
    Atom(&'a Atom),
    /// The empty list.
    Nil,
    /// A list with a first element.
    Cons(&'a Cell<'a>),
    /// A tuple of these elements.
    Tuple(&'a [Value<'a>]),
    /// A fun: the number of its function, and the values of its captured variables.
    Fun(u64, &'a [Value<'a>]),
}

/// The first element of a list, and the rest of the list.
#[cycle(value)]
#[derive(Clone, Copy)]
pub struct Cell<'a> {
    pub head: Value<'a>,
    pub tail: Value<'a>,
}

/// What a value is: one level of it.
#[derive(Clone, Copy)]
pub enum Shape<'a> {
    Int(i64),
    Atom(&'a Atom),
    Nil,
    /// The first element and the rest.
    Cons(Value<'a>, Value<'a>),
    Tuple(&'a [Value<'a>]),
    Fun(u64, &'a [Value<'a>]),
}

/// What a value is.
#[tactic(auto, using(crate::proofs::Made::made))]
pub fn shape_of<'a>(value: Value<'a>) -> Shape<'a>
    ensures { term_in value.entry ≡ shape_term result }
{
    match value {
        Value::Int(n) => Shape::Int(n),
        Value::Atom(a) => Shape::Atom(a),
        Value::Nil => Shape::Nil,
        Value::Cons(cell) => Shape::Cons(cell.head, cell.tail),
        Value::Tuple(parts) => Shape::Tuple(parts),
        Value::Fun(n, captured) => Shape::Fun(n, captured),
    }
}
