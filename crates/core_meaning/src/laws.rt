// What holds of all runs. Each function states a law and does nothing.

ghost use Rattle.core_meaning.specs.Laws.{EvaluationGrows, MoreFuelAgrees, SpentFuelIsGone, LimitsAreExact};

/// Along a run the words, the claim on the stack, the work and what is printed only grow, and no fuel comes back.
pub fn counts_grow()
    ensures grow { EvaluationGrows }
{}

/// More fuel changes nothing once a run ends otherwise than by spent fuel. Where the fuel was spent, more fuel prints, builds and claims at
/// least as much, and what was printed is a prefix of it.
pub fn more_fuel_agrees()
    ensures agrees { MoreFuelAgrees }
{}

/// A run that ends by spent fuel has none left: it is the run up to the first application that finds none.
pub fn spent_fuel_is_gone()
    ensures gone { SpentFuelIsGone }
{}

/// A run under limits on the heap and the stack, for real frames that are at most what is claimed, is the whole run within the heap; or it
/// ends where the heap is full, and the words of the whole run pass the heap; or it ends where the stack is full, and the claim of the
/// whole run passes the stack. What it printed is a prefix of what the whole run prints.
pub fn limits_are_exact()
    ensures exact { LimitsAreExact }
{}
