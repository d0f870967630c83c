// What a call of a service does.
ghost use Rattle.std.specs.Prelude.{◌≡◌, ◌≤◌, List, IfOk, OnErr};
ghost use Rattle.hipe_terms.specs.Terms.{Term};
ghost use Rattle.heap_terms.specs.Seen.{symbols_of};
ghost use Rattle.amd64_machine.specs.Arithmetic.{no_flags};
ghost use Rattle.amd64_machine.specs.Fetch.{fetch};
ghost use Rattle.amd64_machine.specs.Machine.{On, Calls, act, answered, grown};
ghost use Rattle.hipe_edge.specs.Streams.{stream};
ghost use Rattle.amd64_machine.specs.Seen.{HasTerm, registers_seen, state_at};
ghost use Rattle.amd64_machine.specs.Steps.{StepsTo, WasServed};

use super::state::{Core, Ended, Flags, get, put};
use amd64_form::Reg;
use heap_terms::Symbols;
use heap_terms::tags::TRUE_WORD;
use hipe_base::Memory;
use hipe_edge::{Sink, write_line};
use machine_services::{Served, ServiceCall, serve};
use std::alloc::Global;

// Calls the service that the registers name.
fn call_service(core: &mut Core, symbols: &Symbols, alloc: Global) -> Result<Served, Memory>
    ensures served { IfOk result (λ s. WasServed (symbols_of symbols.now) core.old s core.new) }
    ensures others { core.new ≡ record core.old { region = record core.old.region { heap = core.new.region.heap } } }
    ensures memory { OnErr result (core.new ≡ core.old) }
{
    let call = ServiceCall {
        number: get(&core.registers, Reg::Rax),
        first: get(&core.registers, Reg::Rdi),
        second: get(&core.registers, Reg::Rsi),
        free: get(&core.registers, Reg::R15),
    };
    core.region.limits();
    let mut heap = core.region.take_heap(alloc);
    let served = serve(alloc, symbols, &mut heap, call);
    core.region.put_heap(heap);
    served
}

// Goes on behind a service with its result.
fn go_on(core: &mut Core, result_word: u64, next: u64)
    ensures state { (ts : List Term) → state_at core.new ts
        ≡ On next (answered result_word (registers_seen core.old.registers)) no_flags core.old.region ts }
    ensures region { core.new.region ≡ core.old.region }
{
    put(&mut core.registers, Reg::R11, 0);
    put(&mut core.registers, Reg::Rcx, 0);
    put(&mut core.registers, Reg::Rax, result_word);
    core.flags = Flags::UNKNOWN;
    core.at = next;
}

// Goes on behind a service that built so many words.
fn go_on_behind(core: &mut Core, result_word: u64, words: usize, next: u64)
    ensures state { (ts : List Term) → state_at core.new ts
        ≡ On next (answered result_word (grown words (registers_seen core.old.registers))) no_flags core.old.region ts }
    ensures region { core.new.region ≡ core.old.region }
{
    let bytes = (words as u64).wrapping_mul(8);
    let free = get(&core.registers, Reg::R15).wrapping_add(bytes);
    put(&mut core.registers, Reg::R15, free);
    go_on(core, result_word, next);
}

// Serves the call at the address where the machine is, with the next one's address, and answers how the run ended by it.
pub(crate) fn serve_call<K: Sink>(
    core: &mut Core,
    symbols: &Symbols,
    alloc: Global,
    next: u64,
    out: &mut K,
) -> Option<Ended>
    requires { act (fetch core.old.region.code core.old.at) (registers_seen core.old.registers) core.old.flags core.old.region ≡ Calls next }
    ensures step { StepsTo (symbols_of symbols.now) core.old core.new result
        (stream (K.written out.old) (K.written out.new) (K.faults out.old) (K.faults out.new)) }
    ensures code { core.new.region.code ≡ core.old.region.code }
    ensures term { HasTerm (symbols_of symbols.now) core.new.region.heap result }
    ensures faults_never_fall { K.faults out.old ≤ K.faults out.new }
{
    let first = get(&core.registers, Reg::Rdi);
    match call_service(core, symbols, alloc) {
        Err(_) => Some(Ended::Memory),
        Ok(Served::NoNext) => Some(Ended::MachineFault(core.at)),
        Ok(Served::Returned) => Some(Ended::Returned(first)),
        Ok(Served::Raised(class)) => Some(Ended::Raised(class, first)),
        Ok(Served::HeapFull) => Some(Ended::HeapFull),
        Ok(Served::StackFull) => Some(Ended::StackFull),
        Ok(Served::Answered(word)) => {
            go_on(core, word, next);
            None
        }
        Ok(Served::Displayed(line)) => match write_line(out, line.as_bytes()) {
            Ok(()) => {
                go_on(core, TRUE_WORD, next);
                None
            }
            Err(_) => Some(Ended::WriteFault),
        },
        Ok(Served::Built { result, words }) => {
            go_on_behind(core, result, words, next);
            None
        }
    }
}
