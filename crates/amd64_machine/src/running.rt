// Steps of a run that goes on.
ghost use Rattle.std.specs.Prelude.{◌≡◌, ◌≤◌};
ghost use Rattle.heap_terms.specs.Seen.{symbols_of};
ghost use Rattle.amd64_machine.specs.Fetch.{Here, fetch};
ghost use Rattle.hipe_edge.specs.Streams.{stream};
ghost use Rattle.amd64_machine.specs.Seen.{IsCache, HasTerm};
ghost use Rattle.amd64_machine.specs.Steps.{StepsTo, RunsTo};

use super::cache::{Cached, fetched};
use super::perform::perform;
use super::serving::serve_call;
use super::state::{Core, Did, Ended};
use amd64_form::Inst;
use heap_terms::Symbols;
use hipe_edge::Sink;
use std::alloc::Global;

// Does the instruction that was fetched at the address where the machine is, and answers how the run ended by it.
fn carry_out<K: Sink>(
    core: &mut Core,
    inst: Inst,
    next: u64,
    symbols: &Symbols,
    alloc: Global,
    out: &mut K,
) -> Option<Ended>
    requires { Here inst next ≡ fetch core.old.region.code core.old.at }
    ensures step { StepsTo (symbols_of symbols.now) core.old core.new result
        (stream (K.written out.old) (K.written out.new) (K.faults out.old) (K.faults out.new)) }
    ensures code { core.new.region.code ≡ core.old.region.code }
    ensures term { HasTerm (symbols_of symbols.now) core.new.region.heap result }
    ensures faults_never_fall { K.faults out.old ≤ K.faults out.new }
{
    match perform(core, inst, next) {
        Did::Goes => None,
        Did::Stops => Some(Ended::MachineFault(core.at)),
        Did::Calls(next) => serve_call(core, symbols, alloc, next, out),
    }
}

// Does the instruction at the address where the machine is, and answers how the run ended by it.
pub(crate) fn advance<K: Sink>(
    core: &mut Core,
    cache: &mut Vec<Option<Cached>>,
    symbols: &Symbols,
    alloc: Global,
    out: &mut K,
) -> Option<Ended>
    requires { IsCache core.old.region.code cache.old.items }
    ensures step { StepsTo (symbols_of symbols.now) core.old core.new result
        (stream (K.written out.old) (K.written out.new) (K.faults out.old) (K.faults out.new)) }
    ensures cache { IsCache core.new.region.code cache.new.items }
    ensures term { HasTerm (symbols_of symbols.now) core.new.region.heap result }
    ensures faults_never_fall { K.faults out.old ≤ K.faults out.new }
{
    match fetched(cache, core.region.code(), core.at) {
        Some((inst, next)) => carry_out(core, inst, next, symbols, alloc, out),
        None => Some(Ended::MachineFault(core.at)),
    }
}

// Does at most `n` instructions, and answers how the run ended by them.
pub(crate) fn run_on<K: Sink>(
    core: &mut Core,
    cache: &mut Vec<Option<Cached>>,
    symbols: &Symbols,
    alloc: Global,
    n: u64,
    out: &mut K,
) -> Option<Ended>
    requires { IsCache core.old.region.code cache.old.items }
    ensures run { RunsTo n (symbols_of symbols.now) core.old core.new result
        (stream (K.written out.old) (K.written out.new) (K.faults out.old) (K.faults out.new)) }
    ensures cache { IsCache core.new.region.code cache.new.items }
    ensures term { HasTerm (symbols_of symbols.now) core.new.region.heap result }
    ensures faults_never_fall { K.faults out.old ≤ K.faults out.new }
{
    for _ in 0..n {
        let ended = advance(core, cache, symbols, alloc, out);
        if ended.is_some() {
            return ended;
        }
    }
    None
}
