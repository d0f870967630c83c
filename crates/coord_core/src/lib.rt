// The coordinator of a system: which node a worker analyses next, and what becomes of its outputs.
//
// A system (`lattice_laws::System`) has nodes that make values for cells of the values of other cells. A coordinator has a table of
// the cells' values and a queue of nodes. A worker takes a ticket, which has the table's values of its node's needs, analyses it
// (`analyse`, which touches nothing shared), and finishes it; the outputs are joined into the cells, and the readers of each cell that
// rises are queued, also those that are out. A ticket may be given back instead.
//
// Promises: every call is a step of a plain state machine (specs/States.antt), and a coordinator is the replay of its journal. After
// every list of events, legal or not, the table lies between the starts and the least table that solves the system, and is that table
// once nothing waits and nothing is out (`every_history`, `least_is_least`). `finish_alone` gives it from any state. The number of takes
// is bounded by the system and the give-backs. Nothing is said of threads here.
//
// May touch: memory alone.
//
// Files:
//   answers.rt    `Taken`, `Ended`, `Returned`
//   coord.rt      `Coord`
//   event.rt      `Event`
//   finished.rt   `Finished` and `analyse`
//   join.rt       joining outputs into a table
//   laws.rt       the theorems on every history
//   queue.rt      the queue, without repeats
//   table.rt      reading a table, and the table and the queue at the start
//   ticket.rt     `Ticket`, and finding one that is out
#![tactic(auto)]

mod answers;
mod coord;
mod event;
mod finished;
mod join;
mod laws;
mod queue;
mod table;
mod ticket;

pub use answers::{Ended, Returned, Taken};
pub use coord::Coord;
pub use event::Event;
pub use finished::{Finished, analyse};
pub use laws::{every_history, least_is_least};
pub use ticket::Ticket;
