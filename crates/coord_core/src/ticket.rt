ghost use Rattle.std.specs.Prelude.{◌≡◌, ◌==◌, ◌↔◌, IsTrue, not, map};
ghost use Rattle.std.specs.List.{Contains, filter};
ghost use Rattle.coord_core.specs.Tickets.{ticket_view};

use lattice_laws::Lattice;

/// Work that was given to a worker: a node, and the values of the node's needs at that time.
///
/// A ticket is plain data. Whoever makes one up gets it back as a stranger, unless it is just like one that is out.
#[derive(Drop)]
pub struct Ticket<V> {
    /// Its number. Takes give the numbers from 1 up.
    pub number: u64,
    /// The node to be analysed.
    pub node: u32,
    /// The worker that took it, under whatever number it goes by.
    pub worker: u32,
    /// What the cells that the node needs had when it was taken, in the order of the node's needs.
    pub snapshot: Vec<V>,
}

/// Whether two values are the same.
fn is_same_value<V: Lattice>(x: V, y: V) -> bool
    ensures { IsTrue result ↔ (x ≡ y) }
{
    x.told();
    y.told();
    x.at_most(y) && y.at_most(x)
}

/// Whether two lists have the same values in the same order.
fn has_same_values<V: Lattice>(xs: &[V], ys: &[V]) -> bool
    ensures { IsTrue result ↔ (xs.now ≡ ys.now) }
{
    if xs.len() != ys.len() {
        return false;
    }
    for i in 0..xs.len() {
        if !is_same_value(xs[i], ys[i]) {
            return false;
        }
    }
    true
}

/// Whether two tickets have the same number, node, worker and snapshot.
fn is_same_ticket<V: Lattice>(a: &Ticket<V>, b: &Ticket<V>) -> bool
    ensures { IsTrue result ↔ (ticket_view a.now ≡ ticket_view b.now) }
{
    a.number == b.number
        && a.node == b.node
        && a.worker == b.worker
        && has_same_values(&a.snapshot, &b.snapshot)
}

/// Whether a ticket just like this one is among those that are out.
pub fn is_out<V: Lattice>(out: &[Ticket<V>], ticket: &Ticket<V>) -> bool
    ensures { IsTrue result ↔ (Contains (map ticket_view out.now) (ticket_view ticket.now)) }
{
    for other in out {
        if is_same_ticket(other, ticket) {
            return true;
        }
    }
    false
}

/// Takes the ticket of a number off the list.
pub fn end_ticket<V: Lattice>(out: &mut Vec<Ticket<V>>, number: u64)
    ensures { out.new.items ≡ filter (λ ticket. not (ticket.number == number)) out.old.items }
{
    out.retain(|ticket| ticket.number != number);
}
