// Keywords and signs.

ghost use Rattle.std.specs.Prelude.{◌≡◌, List};
ghost use Rattle.core_parser.specs.declared.symbol.Symbol.{Symbol as ASymbol};
ghost use Rattle.core_parser.specs.declared.value.Value.{Value as AValue};
ghost use Rattle.core_parser.specs.Machine as M;
ghost use Rattle.core_parser.specs.Machine.{moved};

use core_grammar::{Kind, Mark};
use core_parser::{Moved, Wanted};

/// This keyword or sign.
pub fn wants(m: Mark, kind: &Kind) -> Moved
    ensures { (ss : List ASymbol) (vs : List AValue) → M.wants m kind.now ss vs ≡ moved result ss vs }
{
    match kind {
        Kind::Mark(n) => {
            if m == *n {
                Moved::Plain
            } else {
                Moved::Stuck(Wanted::Other)
            }
        }
        _ => Moved::Stuck(Wanted::Other),
    }
}
