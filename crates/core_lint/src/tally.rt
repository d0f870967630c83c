// What the walk that counts knows.

ghost use Rattle.std.specs.Prelude.{◌≡◌};
ghost use Rattle.core_ast.specs.Degrees.{is_raising_call, is_raising_primop};
ghost use Rattle.core_ast.specs.Rules.{is_primop};
ghost use Rattle.core_lint.specs.Tallies.{tested, needed, limited, begun, caught, agreed};

use crate::broken::note_unless;
use core_ast::{Broken, Place, Rule, Var};
use hipe_base::limits::ARITY_LIMIT;
use hipe_terms::{Atom, Primop};

/// The first broken rule so far, and how many functions are left before one is beyond the limit, itself counted: 1 where the
/// next one is.
#[derive(Drop)]
pub struct Tally {
    pub first: Option<Broken>,
    pub left: u32,
}

impl Tally {
    /// The rule is broken at this place unless the test holds.
    pub fn test(&mut self, holds: bool, rule: Rule, at: Place)
        ensures { self.new ≡ tested holds rule at self.old }
    {
        note_unless(holds, rule, at, &mut self.first);
    }

    /// A part with this degree, None being every degree, stands at a place that needs this many values.
    pub fn need(&mut self, degree: Option<u64>, count: u64, at: Place)
        ensures { self.new ≡ needed degree count at self.old }
    {
        let fits = match degree {
            Some(values) => values == count,
            None => true,
        };
        self.test(fits, Rule::Degree, at);
    }

    /// A name, a fun or a call has this many parameters or arguments.
    pub fn limit(&mut self, count: u64, at: Place)
        ensures { self.new ≡ limited count at self.old }
    {
        self.test(!(ARITY_LIMIT < count), Rule::ArityLimit, at);
    }

    /// A function begins.
    pub fn begin(&mut self, at: Place)
        ensures { self.new ≡ begun at self.old }
    {
        self.test(!(self.left == 1), Rule::SizeLimit, at);
        self.left = self.left.saturating_sub(1);
    }

    /// These are the variables of the `catch` of a `try` at this place.
    pub fn catch(&mut self, at: Place, causes: &[Var])
        ensures { self.new ≡ caught at causes.now self.old }
    {
        match causes.first() {
            Some(cause) => {
                let holds = causes.len() == 2 || causes.len() == 3;
                self.test(holds, Rule::Degree, cause.at);
            }
            None => self.test(false, Rule::Degree, at),
        }
    }

    /// A body has this degree, where the bodies before it agree on the first.
    pub fn agree(&mut self, before: Option<u64>, degree: Option<u64>, at: Place)
        ensures { self.new ≡ agreed before degree at self.old }
    {
        if let Some(count) = before {
            self.need(degree, count, at);
        }
    }
}

/// Whether a call only raises: `error/1`, `throw/1` and `exit/1` of `erlang` do.
pub fn is_raising_call(of: &Atom, name: &Atom, count: usize) -> bool
    ensures { result ≡ is_raising_call of.now name.now count }
{
    of.has_text("erlang")
        && (name.has_text("error") || name.has_text("throw") || name.has_text("exit"))
        && count == 1
}

/// Whether a primitive operation only raises, by its name alone.
pub fn is_raising_primop(name: &Atom) -> bool
    ensures { result ≡ is_raising_primop name.now }
{
    match Primop::named(name) {
        Some(primop) => primop.only_raises(),
        None => false,
    }
}

/// Whether a primitive operation of this name takes so many arguments.
pub fn is_primop(name: &Atom, count: usize) -> bool
    ensures { result ≡ is_primop name.now count }
{
    match Primop::named(name) {
        Some(primop) => count == primop.arity(),
        None => false,
    }
}
