ghost use Rattle.std.specs.Prelude.{◌≡◌, List, IsTrue, nat_eq};
ghost use Rattle.std.specs.List.{IsDistinct};
ghost use Rattle.coord_core.specs.declared.event.Event.{Event};
ghost use Rattle.coord_core.specs.Tables.{IsAtMost, IsSolution, least};
ghost use Rattle.coord_core.specs.States.{replay, is_finished};
ghost use Rattle.coord_core.specs.Bounds.{takes_in};
ghost use Rattle.coord_core.specs.Facts.{AreWithin, SnapshotsAreAtMost, ReachedNodesArePendingOrStable, TakesAreBounded, numbers_out, NumbersRise};

use lattice_laws::System;

/// What is true after every list of events, legal or not. It does nothing: the clauses are the theorem.
pub fn every_history<S: System>()
    // each cell is at most the least solution's, and at least its start
    ensures at_most_least { (events : List Event) →
        let st = replay S.Value.meaning S.meaning events in
        IsAtMost S.Value.meaning st.table (least S.Value.meaning S.meaning) }
    ensures at_least_starts { (events : List Event) →
        let st = replay S.Value.meaning S.meaning events in
        AreWithin S.Value.meaning st.table S.meaning.starts }
    // each snapshot that is out is at most the table's values
    ensures snapshots { (events : List Event) →
        SnapshotsAreAtMost S.Value.meaning S.meaning (replay S.Value.meaning S.meaning events) }
    // each node that is reached waits, or is out with the table's values, or has nothing to add; none waits twice
    ensures pending_or_stable { (events : List Event) →
        ReachedNodesArePendingOrStable S.Value.meaning S.meaning (replay S.Value.meaning S.meaning events) }
    ensures queue { (events : List Event) →
        IsDistinct nat_eq (replay S.Value.meaning S.meaning events).queue }
    // where nothing waits and nothing is out, the table is the least solution
    ensures at_rest { (events : List Event) →
        let st = replay S.Value.meaning S.meaning events in
        IsTrue (is_finished st) → st.table ≡ least S.Value.meaning S.meaning }
    // the number of takes is bounded
    ensures bounded { (events : List Event) →
        TakesAreBounded S.Value.meaning S.meaning (replay S.Value.meaning S.meaning events).journal }
    // as many tickets were given as the journal has takes; their numbers rise from 1, and no two that are out have one number
    ensures counted { (events : List Event) →
        let st = replay S.Value.meaning S.meaning events in
        st.takes ≡ takes_in st.journal }
    ensures numbers { (events : List Event) → NumbersRise (replay S.Value.meaning S.meaning events) }
    ensures distinct { (events : List Event) →
        IsDistinct nat_eq (numbers_out (replay S.Value.meaning S.meaning events)) }
{}

/// That `least` deserves its name. It does nothing: the clauses are the theorem.
pub fn least_is_least<S: System>()
    ensures solution { IsSolution S.Value.is_value S.Value.meaning S.meaning (least S.Value.meaning S.meaning) }
    ensures at_most_each { (table : List S.Value) →
        IsSolution S.Value.is_value S.Value.meaning S.meaning table →
        IsAtMost S.Value.meaning (least S.Value.meaning S.meaning) table }
{}
