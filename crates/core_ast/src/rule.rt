// The rules of good modules.

ghost use Rattle.std.specs.Prelude.{◌≡◌};
ghost use Rattle.core_ast.specs.RuleNames.{rule_name};

use hipe_terms::Place;

/// A rule that a module of the profile must keep, beside the grammar. Where several are broken at one place, the first of
/// these is answered.
#[derive(Clone, Copy, Debug, PartialEq, Eq, PartialOrd, Ord)]
pub enum Rule {
    /// Two functions of the module, or of one `letrec`, have one name and arity. Broken at the second name.
    DuplicateFunction,
    /// An exported name without a definition. A repeated export is allowed.
    ExportUndefined,
    /// A function's name that is in no scope.
    UnboundFunction,
    /// A variable that is in no scope.
    UnboundVariable,
    /// A variable that is bound twice: by a fun's parameters, a `let`, the `of` or the `catch` of a `try`, or the patterns
    /// of one clause. Broken at the second.
    DuplicateVariable,
    /// A part that has another number of values than its place needs; a function with another number of parameters than its name
    /// says, at its `fun`; and a `try` whose `catch` binds other than two or three variables, at the first of them, or at the
    /// `try` where there is none.
    Degree,
    /// A name, a fun, an `apply`, a `call` or a `primop` with more than `ARITY_LIMIT` parameters or arguments.
    ArityLimit,
    /// Another primitive operation than `raise/2`, `match_fail/1` and `build_stacktrace/1`.
    UnknownPrimop,
    /// A function of the module with more than `NODE_LIMIT` nodes, at its name; and the `fun` of the first function beyond
    /// `FUNCTION_LIMIT`.
    SizeLimit,
}

impl Rule {
    /// The rule's name.
    pub fn name(self) -> &'static str
        ensures { result.now ≡ rule_name self }
    {
        match self {
            Rule::DuplicateFunction => "duplicate_function",
            Rule::ExportUndefined => "export_undefined",
            Rule::UnboundFunction => "unbound_function",
            Rule::UnboundVariable => "unbound_variable",
            Rule::DuplicateVariable => "duplicate_variable",
            Rule::Degree => "degree",
            Rule::ArityLimit => "arity_limit",
            Rule::UnknownPrimop => "unknown_primop",
            Rule::SizeLimit => "size_limit",
        }
    }
}

/// A broken rule, and where it is broken.
#[derive(Clone, Copy, Debug)]
pub struct Broken {
    pub rule: Rule,
    /// The place that the rule names. Lines and code points are counted from 1.
    pub at: Place,
}
