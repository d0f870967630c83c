ghost use Rattle.std.specs.Prelude.{◌≡◌, ◌+◌, ◌≤◌, [], IfOk, OnErr, MatchBool, length};
ghost use Rattle.coord_core.specs.Tables.{least};
ghost use Rattle.coord_core.specs.States.{opened, replay, is_finished};
ghost use Rattle.coord_core.specs.Answers.{IsTake, IsEnd, IsReturn};
ghost use Rattle.coord_core.specs.Facts.{IsAdvance, TakesAreBounded};

use crate::answers::{Ended, Returned, Taken};
use crate::event::Event;
use crate::finished::{Finished, analyse};
use crate::join::join_outputs;
use crate::queue::Queue;
use crate::table::{started_queue, started_table, values_at};
use crate::ticket::{Ticket, end_ticket, is_out};
use hipe_base::Memory;
use lattice_laws::System;
use std::alloc::Global;
use std::marker::Model;

/// The coordinator of a system: it gives nodes out to workers as tickets, joins what they make of them into its table,
/// and ends with the least table that solves the system, whatever the order of the workers' calls.
///
/// Contracts see it as the state that its journal leads to.
#[derive(Drop)]
pub struct Coord<'a, S: System> {
    system: &'a S,
    table: Vec<S::Value>,
    queue: Queue,
    out: Vec<Ticket<S::Value>>,
    takes: u64,
    journal: Vec<Event>,
}

impl<'a, S: System> Model for Coord<'a, S> {
    ghost use Rattle.std.specs.Prelude.{◌≡◌, ◌+◌, ◌≤◌, map, vec_len, vec_capacity};
    ghost use Rattle.coord_core.specs.States.{State, IsReplayed};
    ghost use Rattle.coord_core.specs.Tickets.{ticket_view};

    ghost Value = { State S.Value };

    ghost view = { λ c. record {
      table = c.table.items;
      queue = c.queue.waiting;
      out = map ticket_view c.out.items;
      takes = c.takes;
      journal = c.journal.items;
    } };

    // the state is where its journal leads, every node may wait, and the journal has room for the end of each ticket
    // that is out
    ghost invariant = { λ c.
        IsReplayed S.Value.meaning S.meaning (record {
          table = c.table.items;
          queue = c.queue.waiting;
          out = map ticket_view c.out.items;
          takes = c.takes;
          journal = c.journal.items;
        })
        × (c.queue.nodes ≡ S.meaning.nodes)
        × (vec_len c.journal + vec_len c.out ≤ vec_capacity c.journal) };
}

impl<'a, S: System> Coord<'a, S> {
    /// A coordinator with the system's starts in its table and bottom elsewhere, in which the nodes whose reached cell
    /// is started wait, ascending. `Memory` where there was none.
    pub fn open(alloc: Global, system: &'a S) -> Result<Coord<'a, S>, Memory>
        ensures { IfOk result (λ coord. coord ≡ opened S.Value.meaning S.meaning) }
    {
        Ok(Coord {
            system,
            table: started_table(alloc, system)?,
            queue: started_queue(alloc, system)?,
            out: Vec::new(alloc),
            takes: 0,
            journal: Vec::new(alloc),
        })
    }

    /// Whether nothing waits and nothing is out.
    pub fn finished(&self) -> bool
        ensures { result ≡ is_finished self.now }
    {
        self.queue.first().is_none() && self.out.is_empty()
    }

    /// All events so far, in order. The coordinator is where they lead from the opened state, and at most `take_bound`
    /// of them are takes, beside one for each give-back.
    pub fn journal(&self) -> &[Event]
        ensures journal { result.now ≡ self.now.journal }
        ensures replayed { self.now ≡ replay S.Value.meaning S.meaning result.now }
        ensures bounded { TakesAreBounded S.Value.meaning S.meaning result.now }
    {
        &self.journal
    }

    /// Gives the first node that waits to a worker, with the table's values of its needs. It makes room in the journal
    /// for the ticket's own end first, so that its end takes no memory. After `Memory` nothing has changed.
    pub fn take(&mut self, alloc: Global, worker: u32) -> Result<Taken<S::Value>, Memory>
        ensures taken { IfOk result (λ taken. IsTake S.Value.meaning S.meaning self.old worker taken self.new) }
        ensures err { OnErr result (self.new ≡ self.old) }
    {
        let Some(node) = self.queue.first() else {
            return Ok(if self.out.is_empty() {
                Taken::Done
            } else {
                Taken::Idle {
                    out: self.out.len() as u64,
                }
            });
        };
        let needs = self.system.needs(node);
        let snapshot = values_at(alloc, &self.table, needs)?;
        let kept = values_at(alloc, &self.table, needs)?;
        self.journal.reserve(self.out.len() + 2)?;
        self.out.reserve(1)?;
        let number = self.takes + 1;
        self.takes = number;
        self.queue.remove_first();
        self.out.push_reserved(Ticket {
            number,
            node,
            worker,
            snapshot: kept,
        });
        self.journal.push_reserved(Event::Take { worker, node });
        Ok(Taken::Got(Ticket {
            number,
            node,
            worker,
            snapshot,
        }))
    }

    /// Joins what a ticket's node made of its snapshot into the table, ends the ticket, and queues the readers of each
    /// cell that rose, cell by cell, also those that are out. A ticket that isn't out comes back as a stranger, and
    /// nothing changes. It takes no memory.
    pub fn finish(&mut self, f: Finished<S>) -> Ended<S>
        ensures { IsEnd S.Value.meaning S.meaning self.old f result self.new }
    {
        if !is_out(&self.out, f.ticket()) {
            return Ended::Stranger {
                number: f.ticket().number,
                back: f,
            };
        }
        let ticket = f.ticket();
        let risen = join_outputs(
            self.system,
            &mut self.table,
            &mut self.queue,
            ticket.node,
            f.outputs(),
        );
        end_ticket(&mut self.out, ticket.number);
        self.journal.push_reserved(Event::Finish {
            worker: ticket.worker,
            number: ticket.number,
        });
        Ended::Joined { risen }
    }

    /// Ends a ticket with nothing joined, and queues its node where it doesn't wait already. A ticket that isn't out
    /// comes back as a stranger, and nothing changes. It takes no memory.
    pub fn give_back(&mut self, t: Ticket<S::Value>) -> Returned<S::Value>
        ensures { IsReturn S.Value.meaning S.meaning self.old t result self.new }
    {
        if !is_out(&self.out, &t) {
            return Returned::Stranger {
                number: t.number,
                back: t,
            };
        }
        self.queue.add(t.node);
        end_ticket(&mut self.out, t.number);
        self.journal.push_reserved(Event::GiveBack {
            worker: t.worker,
            number: t.number,
        });
        Returned::Back
    }

    /// Finishes the system alone: gives back what is out, in ascending number, and then takes, analyses and finishes
    /// as worker 0 until nothing waits. The answer is the least table that solves the system. After `Memory` the
    /// coordinator is gone.
    pub fn finish_alone(mut self, alloc: Global) -> Result<Vec<S::Value>, Memory>
        ensures { IfOk result (λ table. table.items ≡ least S.Value.meaning S.meaning) }
    {
        while self.give_back_first() {}
        while self.finish_next(alloc)? {}
        Ok(self.into_table())
    }

    /// Gives back the ticket with the least number, if one is out, and says whether one was.
    fn give_back_first(&mut self) -> bool
        ensures { MatchBool result (length self.new.out + 1 ≤ length self.old.out) (self.new.out ≡ []) }
    {
        if self.out.is_empty() {
            return false;
        }
        let first = &self.out[0];
        let (number, node, worker) = (first.number, first.node, first.worker);
        self.queue.add(node);
        end_ticket(&mut self.out, number);
        self.journal
            .push_reserved(Event::GiveBack { worker, number });
        true
    }

    /// Takes a ticket as worker 0, analyses and finishes it, and says whether there was one.
    fn finish_next(&mut self, alloc: Global) -> Result<bool, Memory>
        requires { self.old.out ≡ [] }
        ensures { IfOk result (λ more.
            MatchBool more
            (IsAdvance S.Value.meaning S.meaning self.old self.new)
            (self.new.table ≡ least S.Value.meaning S.meaning)) }
    {
        let system = self.system;
        let ticket = match self.take(alloc, 0)? {
            Taken::Got(ticket) => ticket,
            Taken::Idle { .. } | Taken::Done => return Ok(false),
        };
        match analyse(alloc, system, ticket) {
            Ok(finished) => {
                let _ended = self.finish(finished);
                Ok(true)
            }
            Err((_ticket, memory)) => Err(memory),
        }
    }

    /// The table.
    fn into_table(self) -> Vec<S::Value>
        ensures { result.items ≡ self.entry.table }
    {
        self.table
    }
}
