// The first broken rule so far.

ghost use Rattle.std.specs.Prelude.{◌≡◌};
ghost use Rattle.core_ast.specs.First.{is_sooner};
ghost use Rattle.core_lint.specs.Noted.{is_wanted, noted_unless};

use core_ast::{Broken, Place, Rule};

// Whether a is answered before b.
fn is_sooner(a: Broken, b: Broken) -> bool
    ensures { result ≡ is_sooner a b }
{
    if a.at.line != b.at.line {
        return a.at.line < b.at.line;
    }
    if a.at.col != b.at.col {
        return a.at.col < b.at.col;
    }
    a.rule < b.rule
}

/// Whether a rule that is broken at this place would be answered before the first that is known.
pub fn is_wanted(rule: Rule, at: Place, first: Option<Broken>) -> bool
    ensures { result ≡ is_wanted rule at first }
{
    match first {
        Some(known) => is_sooner(Broken { rule, at }, known),
        None => true,
    }
}

/// Notes a rule that is broken unless the test holds, where it is answered before the first that is known.
pub fn note_unless(holds: bool, rule: Rule, at: Place, first: &mut Option<Broken>)
    ensures { first.new ≡ noted_unless holds rule at first.old }
{
    if holds {
        return;
    }
    let found = Broken { rule, at };
    match *first {
        Some(known) => {
            if is_sooner(found, known) {
                *first = Some(found);
            }
        }
        None => *first = Some(found),
    }
}
