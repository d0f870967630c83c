use crate::finished::Finished;
use crate::ticket::Ticket;
use lattice_laws::System;

/// What a take answers.
#[derive(Drop)]
pub enum Taken<V> {
    /// The first node of the queue, with the values of its needs.
    Got(Ticket<V>),
    /// Nothing waits, but this many tickets, at least one, are out, and an end of theirs may queue nodes.
    Idle {
        /// How many tickets are out.
        out: u64,
    },
    /// Nothing waits and nothing is out: the table is solved.
    Done,
}

/// What a finish answers.
#[derive(Drop)]
pub enum Ended<S: System> {
    /// The outputs were joined into their cells, and the ticket ended.
    Joined {
        /// How many cells rose.
        risen: u64,
    },
    /// No ticket that is out is like this one. Nothing changed.
    Stranger {
        /// The ticket's number.
        number: u64,
        /// What was handed in.
        back: Finished<S>,
    },
}

/// What a give-back answers.
#[derive(Drop)]
pub enum Returned<V> {
    /// The ticket ended, and its node waits.
    Back,
    /// No ticket that is out is like this one. Nothing changed.
    Stranger {
        /// The ticket's number.
        number: u64,
        /// What was handed in.
        back: Ticket<V>,
    },
}
