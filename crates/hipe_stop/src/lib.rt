// How a program ends without doing what it was asked for: the reasons, the exit statuses and the lines, once for all programs.
//
// Promises: each refusal of the reader and the linter and each fault of a source or a sink has its own `Stop`; a stop's line and
// status are those of specs/Stops.antt; `report` writes the whole line or answers the status of a line that couldn't be written;
// `good_module` gives the good module of a text, or the stop that says why the text has none.
//
// May touch: memory, the sink that `report` is lent, the arguments of the process, which `program_arguments` reads, and the stack, which
// `stack_is_there` writes.
//
// Files:
//   stop.rt          the reasons and the stops, with names and statuses
//   conversions.rt   the stops of the refusals and faults of the calls below
//   good.rt          the good module of a text
//   arguments.rt     the arguments of a program
//   reporting.rt     the line of a stop, and the exit status
//   stack.rt         the stack's pages, written before anything else
#![tactic(auto)]

mod arguments;
mod conversions;
mod good;
mod reporting;
mod stack;
mod stop;

pub use arguments::program_arguments;
pub use good::good_module;
pub use reporting::report;
pub use stack::stack_is_there;
pub use stop::{Reason, Stop};
