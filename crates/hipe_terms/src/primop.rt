// The primitive operations.

ghost use Rattle.std.specs.Prelude.{◌≡◌};
ghost use Rattle.hipe_terms.specs.Primops.{primop_name, primop_arity, only_raises, primop_named};

use crate::atom::Atom;

/// A primitive operation of Core Erlang 1.0.3 that the profile has.
#[derive(Clone, Copy, Debug, PartialEq, Eq)]
pub enum Primop {
    /// Raises its second argument in the class that its first one names.
    Raise,
    /// Raises its argument, or that no clause of a function matches.
    MatchFail,
    /// Gives the trace of what was raised.
    BuildStacktrace,
}

impl Primop {
    /// The operation's name.
    pub fn name(self) -> &'static str
        ensures { result.now ≡ primop_name self }
    {
        match self {
            Primop::Raise => "raise",
            Primop::MatchFail => "match_fail",
            Primop::BuildStacktrace => "build_stacktrace",
        }
    }

    /// How many arguments the operation takes.
    pub fn arity(self) -> usize
        ensures { result ≡ primop_arity self }
    {
        match self {
            Primop::Raise => 2,
            Primop::MatchFail => 1,
            Primop::BuildStacktrace => 1,
        }
    }

    /// Whether the operation never gives a value.
    pub fn only_raises(self) -> bool
        ensures { result ≡ only_raises self }
    {
        match self {
            Primop::Raise => true,
            Primop::MatchFail => true,
            Primop::BuildStacktrace => false,
        }
    }

    /// The operation with this name, if there is one. It takes no memory.
    pub fn named(name: &Atom) -> Option<Primop>
        ensures { result ≡ primop_named name.now }
    {
        if name.has_text("raise") {
            Some(Primop::Raise)
        } else if name.has_text("match_fail") {
            Some(Primop::MatchFail)
        } else if name.has_text("build_stacktrace") {
            Some(Primop::BuildStacktrace)
        } else {
            None
        }
    }
}
