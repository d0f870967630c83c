ghost use Rattle.std.specs.Prelude.{◌≡◌, ◌<◌, IfOk, length};

use crate::level::Level;
use crate::pair::Pair;
use crate::ring::Ring;
use coord_core::{
    Coord, Ended, Event, Finished, Returned, Taken, Ticket, analyse, every_history, least_is_least,
};
use hipe_base::Memory;
use lattice_laws::{Lattice, System};
use std::alloc::Global;
use std::process::Abort;
use std::test::Fail;

/// The numbers of some levels.
fn numbers(alloc: Global, levels: &[Level]) -> Result<Vec<u32>, Memory> {
    let mut all = Vec::new(alloc);
    for level in levels {
        all.push(level.number())?;
    }
    Ok(all)
}

/// A lattice's laws at work, through its bound: the join of bottom and a value, and whether the value is at most it.
fn joined_with_bottom<V: Lattice>(value: V) -> (V, bool, u32) {
    let both = V::bottom().join(value);
    (both, value.at_most(both), both.rank())
}

/// The ticket that a take gives.
fn taken<S: System>(
    rt: &impl Abort,
    alloc: Global,
    coord: &mut Coord<S>,
    worker: u32,
) -> Result<Ticket<S::Value>, Memory>
    ensures node { IfOk result (λ t. t.node < S.meaning.nodes) }
    ensures snapshot { IfOk result (λ t. length t.snapshot.items ≡ length (S.meaning.needs t.node)) }
{
    let Taken::Got(ticket) = coord.take(alloc, worker)? else {
        panic!(rt; "no node waits");
    };
    Ok(ticket)
}

/// A ticket, analysed.
fn analysed<S: System>(
    alloc: Global,
    system: &S,
    ticket: Ticket<S::Value>,
) -> Result<Finished<S>, Memory>
    requires node { ticket.node < S.meaning.nodes }
    requires snapshot { length ticket.snapshot.items ≡ length (S.meaning.needs ticket.node) }
{
    match analyse(alloc, system, ticket) {
        Ok(finished) => Ok(finished),
        Err((_ticket, memory)) => Err(memory),
    }
}

/// How many cells rise at a finish.
fn risen<S: System>(rt: &impl Abort, coord: &mut Coord<S>, finished: Finished<S>) -> u64 {
    let Ended::Joined { risen } = coord.finish(finished) else {
        panic!(rt; "the ticket is a stranger");
    };
    risen
}

/// Takes what may be handed to another thread.
fn crosses_threads<T: Send>(_value: &T) {}

#[test]
fn parts_cross_threads(rt: HostRuntime) -> Result<(), Fail> {
    let pair = Pair::new();
    let alloc = rt.alloc();
    let mut coord = Coord::open(alloc, &pair)?;
    crosses_threads(&coord);
    let ticket = taken(&rt, alloc, &mut coord, 0)?;
    crosses_threads(&ticket);
    let finished = analysed(alloc, &pair, ticket)?;
    crosses_threads(&finished);
    assert_eq!(rt; finished.ticket().number, 1);
    Ok(())
}

#[test]
fn lattice_by_its_bound(rt: HostRuntime) {
    let (both, at_most, rank) = joined_with_bottom(Level::new(2));
    assert_eq!(rt; both.number(), 2);
    assert!(rt; at_most);
    assert_eq!(rt; rank, 2);
    assert_eq!(rt; Level::HEIGHT, 3);
}

#[test]
fn theorems_at_the_pair() {
    every_history::<Pair>();
    least_is_least::<Pair>();
}

#[test]
fn finish_alone_solves_the_pair(rt: HostRuntime) -> Result<(), Fail> {
    let pair = Pair::new();
    let coord = Coord::open(rt.alloc(), &pair)?;
    let table = coord.finish_alone(rt.alloc())?;
    assert_eq!(rt;
        numbers(rt.alloc(), &table)?.as_slice(),
        [1, 3, 1, 3].as_slice()
    );
    Ok(())
}

#[test]
fn six_takes_in_turn_solve_the_pair(rt: HostRuntime) -> Result<(), Fail> {
    let pair = Pair::new();
    let alloc = rt.alloc();
    let mut coord = Coord::open(alloc, &pair)?;
    for rises in [2, 1, 1, 1, 1, 0] {
        let ticket = taken(&rt, alloc, &mut coord, 0)?;
        let finished = analysed(alloc, &pair, ticket)?;
        assert_eq!(rt; risen(&rt, &mut coord, finished), rises);
    }
    assert!(rt; matches!(coord.take(alloc, 0)?, Taken::Done));
    assert!(rt; coord.finished());
    assert_eq!(rt; coord.journal().len(), 12);
    let table = coord.finish_alone(alloc)?;
    assert_eq!(rt; numbers(alloc, &table)?.as_slice(), [1, 3, 1, 3].as_slice());
    Ok(())
}

#[test]
fn idle_while_a_ticket_is_out(rt: HostRuntime) -> Result<(), Fail> {
    let pair = Pair::new();
    let alloc = rt.alloc();
    let mut coord = Coord::open(alloc, &pair)?;
    let first = taken(&rt, alloc, &mut coord, 0)?;
    assert_eq!(rt; first.number, 1);
    let Taken::Idle { out } = coord.take(alloc, 1)? else {
        panic!(rt; "not idle");
    };
    assert_eq!(rt; out, 1);
    assert!(rt; !coord.finished());
    assert!(rt; matches!(coord.give_back(first), Returned::Back));
    let second = taken(&rt, alloc, &mut coord, 1)?;
    assert_eq!(rt; second.number, 2);
    assert_eq!(rt; second.node, 0);
    Ok(())
}

#[test]
fn readers_that_are_out_are_queued(rt: HostRuntime) -> Result<(), Fail> {
    let ring = Ring::new();
    let alloc = rt.alloc();
    let mut coord = Coord::open(alloc, &ring)?;
    let first = taken(&rt, alloc, &mut coord, 1)?;
    let second = taken(&rt, alloc, &mut coord, 2)?;
    let finished = analysed(alloc, &ring, first)?;
    assert_eq!(rt; risen(&rt, &mut coord, finished), 1);
    // node 1 is still out, and waits again
    let third = taken(&rt, alloc, &mut coord, 1)?;
    assert_eq!(rt; third.node, 1);
    let finished = analysed(alloc, &ring, second)?;
    assert_eq!(rt; risen(&rt, &mut coord, finished), 1);
    let finished = analysed(alloc, &ring, third)?;
    assert_eq!(rt; risen(&rt, &mut coord, finished), 1);
    let last = coord.journal().last().copied().ok_or("an empty journal")?;
    assert_eq!(rt;
        last,
        Event::Finish {
            worker: 1,
            number: 3
        }
    );
    let table = coord.finish_alone(alloc)?;
    assert_eq!(rt; numbers(alloc, &table)?.as_slice(), [1, 3, 3].as_slice());
    Ok(())
}

#[test]
fn strangers_change_nothing(rt: HostRuntime) -> Result<(), Fail> {
    let pair = Pair::new();
    let alloc = rt.alloc();
    let mut coord = Coord::open(alloc, &pair)?;
    let ticket = taken(&rt, alloc, &mut coord, 7)?;
    let other = Ticket {
        number: ticket.number,
        node: ticket.node,
        worker: 8,
        snapshot: Vec::from_slice(alloc, &ticket.snapshot)?,
    };
    let Returned::Stranger { number, back } = coord.give_back(other) else {
        panic!(rt; "a made-up ticket ended one");
    };
    assert_eq!(rt; number, 1);
    assert_eq!(rt; back.worker, 8);
    assert_eq!(rt; coord.journal().len(), 1);
    let finished = analysed(alloc, &pair, ticket)?;
    assert_eq!(rt; finished.outputs().len(), 2);
    assert_eq!(rt; risen(&rt, &mut coord, finished), 2);
    Ok(())
}
