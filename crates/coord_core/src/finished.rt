ghost use Rattle.std.specs.Prelude.{◌≡◌, ◌<◌, IfOk, IfErr, length};
ghost use Rattle.coord_core.specs.Tickets.{ticket_view};

use crate::ticket::Ticket;
use hipe_base::Memory;
use lattice_laws::System;
use std::alloc::Global;
use std::marker::Model;

/// A ticket whose node was analysed. Only `analyse` makes one, and its outputs are always what the node makes of the
/// ticket's snapshot.
#[derive(Drop)]
pub struct Finished<S: System> {
    ticket: Ticket<S::Value>,
    outputs: Vec<S::Value>,
}

impl<S: System> Model for Finished<S> {
    ghost use Rattle.std.specs.Prelude.{◌≡◌};
    ghost use Rattle.coord_core.specs.Tickets.{FinishedView, ticket_view};

    ghost Value = { FinishedView S.Value };

    ghost view = { λ f. record { ticket = ticket_view f.ticket; outputs = f.outputs.items } };

    ghost invariant = { λ f. f.outputs.items ≡ S.meaning.local f.ticket.node f.ticket.snapshot.items };
}

impl<S: System> Finished<S> {
    /// The ticket, as it was analysed.
    pub fn ticket(&self) -> &Ticket<S::Value>
        ensures { ticket_view result.now ≡ self.now.ticket }
    {
        &self.ticket
    }

    /// What the node made of the snapshot, one value for each cell that it gives.
    pub fn outputs(&self) -> &[S::Value]
        ensures outputs { result.now ≡ self.now.outputs }
        ensures local { result.now ≡ S.meaning.local self.now.ticket.node self.now.ticket.snapshot }
    {
        &self.outputs
    }
}

/// Analyses a ticket's node on the ticket's own snapshot. It touches nothing that is shared, so any number of workers
/// may do it at once. Where there is no memory, the ticket comes back as it was.
pub fn analyse<S: System>(
    alloc: Global,
    system: &S,
    t: Ticket<S::Value>,
) -> Result<Finished<S>, (Ticket<S::Value>, Memory)>
    requires node { t.node < S.meaning.nodes }
    requires snapshot { length t.snapshot.items ≡ length (S.meaning.needs t.node) }
    ensures ticket { IfOk result (λ finished. finished.ticket ≡ ticket_view t) }
    ensures outputs { IfOk result (λ finished. finished.outputs ≡ S.meaning.local t.node t.snapshot.items) }
    ensures err { IfErr result (λ back. back.0 ≡ t) }
{
    match system.local(alloc, t.node, &t.snapshot) {
        Ok(outputs) => Ok(Finished { ticket: t, outputs }),
        Err(memory) => Err((t, memory)),
    }
}
