// Constants whose words are known.

ghost use Rattle.std.specs.Prelude.{◌≡◌, IfOk};
ghost use Rattle.hipe_terms.specs.Words.{words_of};

use hipe_base::Memory;
use hipe_terms::Constant;
use sqlite_items::Items;
use std::alloc::Global;

/// A tuple of two integers, which takes three words.
#[tactic(auto, using(crate::proofs::Constants::constants))]
pub fn pair(alloc: Global) -> Result<Constant, Memory>
    ensures { IfOk result (λ c. words_of c ≡ 3) }
{
    let mut parts = Vec::new(alloc);
    parts.push(Constant::Int(1))?;
    parts.push(Constant::Int(2))?;
    Ok(Constant::Tuple(Items::from_vec(parts)))
}
