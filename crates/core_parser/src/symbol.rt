// Symbols of the parser: what is to come.

use core_grammar::Mark;

/// What may be annotated, where its first terminal tells whether it is. Numbers are levels.
#[derive(Clone, Copy, Debug)]
pub enum Part {
    /// A module.
    Module,
    /// The name of a function.
    Name,
    /// An atom.
    Atom,
    /// The module or the name of a `call`.
    Operand,
    /// A variable.
    Variable,
    /// A constant.
    Constant(u32),
    /// A fun.
    Fun(u32),
    /// An expression.
    Expression(u32),
}

/// What lists and tuples are made of. Numbers are levels.
#[derive(Clone, Copy, Debug)]
pub enum Term {
    /// An expression.
    Expression(u32),
    /// A pattern.
    Pattern(u32),
    /// A constant.
    Constant(u32),
}

/// What stands between commas.
#[derive(Clone, Copy, Debug)]
pub enum Element {
    /// A variable, annotated or not.
    Variable,
    /// The name of an exported function, annotated or not.
    Export,
    /// An attribute.
    Attribute,
    /// A part of a term, of this level.
    Term(Term),
}

/// What closes elements with commas.
#[derive(Clone, Copy, Debug)]
pub enum Closer {
    /// `)`
    Round,
    /// `}`
    Brace,
    /// `]`
    Square,
    /// `>`
    Angle,
}

/// How the values on top of the stack are put together, once the parts that they stand for were read.
#[derive(Clone, Copy, Debug)]
pub enum Maker {
    /// No elements yet.
    Empty(Element),
    /// The top goes to the end of the elements below it.
    Push(Element),
    /// Elements before a tail.
    Join(Term),
    /// The name of a function, as an expression.
    Name,
    /// A tuple of the elements.
    Tuple(Term),
    /// The values `<..>` of the elements.
    Values,
    /// A `let`.
    Let,
    /// A fun, as an expression.
    Lambda,
    /// A `letrec`.
    Letrec,
    /// An `apply`.
    Apply,
    /// A `call`.
    Call,
    /// A `primop`.
    Primop,
    /// A `try`.
    Try,
    /// A `do`.
    Do,
    /// A `catch`.
    Catch,
    /// No clauses yet.
    NoClauses,
    /// A clause, at the end of the clauses below it.
    Clause,
    /// The patterns of a clause that has one.
    OnePattern,
    /// An alias of the pattern on top.
    Alias,
    /// The variables where there is one without `<`.
    OneVariable,
    /// A fun of the parameters and the body.
    Fun,
    /// No definitions yet.
    NoDefinitions,
    /// A definition, at the end of the definitions below it.
    Definition,
    /// The constants of an annotation mean nothing.
    Drop,
}

/// What is to come. Numbers are levels.
#[derive(Clone, Copy, Debug)]
pub enum Symbol {
    /// This keyword or sign.
    Wants(Mark),
    /// A part, annotated or not.
    Annotated(Part),
    /// A part without an annotation.
    Bare(Part),
    /// `/` and a number, or nothing.
    AfterAtom,
    /// The number of parameters in the name of a function.
    Arity,
    /// An element.
    Item(Element),
    /// Elements with commas, none or more, and what closes them.
    First(Element, Closer),
    /// The same behind an element.
    Rest(Element, Closer),
    /// What follows the `[` of a list of this level.
    CellsFirst(Term),
    /// What follows an element of a list of this level.
    CellsRest(Term),
    /// The tail of a list of this level.
    Tail(Term),
    /// The tail of a list of expressions, behind its `(`.
    ExpressionTailInside(u32),
    /// The tail of a list of patterns, behind its `(`.
    PatternTailInside(u32),
    /// What follows the `[` of a list that is a tail.
    TailFirst(Term),
    /// Variables: one, or none or more in `<..>`.
    Variables,
    /// A pattern.
    Pattern(u32),
    /// A pattern behind its `(`.
    PatternInside(u32),
    /// A pattern behind `(` and a variable.
    PatternInsideVariable(u32),
    /// A variable that is an alias.
    AliasName(u32),
    /// `=` and a pattern, or nothing.
    AfterVariable(u32),
    /// A clause, annotated or not.
    Clause(u32),
    /// A clause behind `(`.
    ClauseInside(u32),
    /// A clause behind `( V`.
    ClauseInsideVariable(u32),
    /// A clause behind `( (`.
    ClauseTwiceInside(u32),
    /// A clause behind `( ( V`.
    ClauseTwiceInsideVariable(u32),
    /// A clause behind `( ( V -| [..] )`.
    ClauseTwiceInsideAnnotated(u32),
    /// What follows `(` and a pattern: the `when` of a clause that is annotated, or the pattern's annotation.
    ClauseMiddle(u32),
    /// Clauses, none or more, and `end`.
    ClausesRest(u32),
    /// Definitions, none or more.
    Definitions(u32),
    /// The `end` of a module.
    ModuleEnd,
    /// The arguments of a call and `)`.
    ArgumentsFirst,
    /// The argument of this number.
    Argument(u32),
    /// What follows an argument: `,` and the argument of this number, or `)`.
    ArgumentsRest(u32),
    /// Values are put together, with no terminal.
    Make(Maker),
}
