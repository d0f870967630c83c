// The good module of a text.
ghost use Rattle.std.specs.Prelude.{◌≤◌, length, IfOk, IfErr};
ghost use Rattle.core_reader.specs.Language.{Reads};
ghost use Rattle.hipe_stop.specs.Refusing.{IsStop};

use super::stop::Stop;
use core_ast::GoodModule;
use core_lint::lint;
use core_reader::read_module;
use hipe_base::limits::TEXT_LIMIT;
use std::alloc::Global;

/// The good module of a text.
///
/// # Errors
///
/// - `Refused` where the text isn't read, or else its module breaks a rule, with the first place.
/// - `Memory` where there was no memory for it.
pub fn good_module(alloc: Global, text: &[u8]) -> Result<GoodModule, Stop>
    requires { length text.now ≤ TEXT_LIMIT }
    ensures reads { IfOk result (λ good. Reads text.now good.tree) }
    ensures stop { IfErr result (λ stop. IsStop text.now stop) }
{
    let module = read_module(alloc, text)?;
    let good = lint(alloc, module)?;
    Ok(good)
}
