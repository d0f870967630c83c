// Why a module isn't good.

use core_ast::{Place, Rule};
use thiserror::Error;

/// Why `lint` hands out no good module.
#[derive(Clone, Copy, Debug, PartialEq, Eq, Error)]
pub enum LintRefusal {
    /// The first broken rule, and where it is broken.
    #[error("Broken")]
    Broken { rule: Rule, at: Place },
    /// There was no memory for the names in scope.
    #[error("Memory")]
    Memory,
}
