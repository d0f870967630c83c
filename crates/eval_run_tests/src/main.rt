// Texts and what the plain evaluator says of them, a command a line: the program with which the evaluator is tried.
//
// Promises: nothing.
//
// May touch: input and output.
//
// A command is a name, a space and the rest of the line:
//   ends TEXT          how the call 'main'() of a module of one function with this body ends
//   body FUEL;TEXT     the same with so much fuel: what it prints, how it ends, and the words, the claim and the fuel that is left
//   work FUEL;TEXT     the same with the work behind them
//   line TEXT          a line of a long text
//   run FUEL;CALL      the same of a call of the module of the lines so far, which stay
//   new                no lines
//
// The lines of `stdin` and `stdout` are made by `table`, which has the expected answers by hand.
//
// Files:
//   main.rt   commands and their answers
#![tactic(auto)]

use core_ast::FunDef;
use core_reader::{read_call, read_module};
use eval_contexts::Arena;
use eval_run::{Ending, Evaluation, eval_call};
use eval_text::show_value;
use eval_values::Value;
use hipe_base::Memory;
use std::alloc::Global;

// The longest text that is read here, in bytes.
const LONGEST: usize = 1_000_000;

type Answer = Result<String, Memory>;

// How much of a run is told.
#[derive(Clone, Copy, PartialEq, Eq)]
enum Told {
    Ending,
    Counts,
    Work,
}

// Appends how a run ended.
fn show_ending(
    alloc: Global,
    defs: &[FunDef],
    ending: &Ending<'_>,
    text: &mut String,
) -> Result<(), Memory> {
    match ending {
        Ending::Values(values) => {
            text.push_str("value")?;
            for value in values.as_slice() {
                text.push_str(" ")?;
                show_value(alloc, defs, *value, text)?;
            }
            Ok(())
        }
        Ending::Raised(class, reason) => {
            text.push_str(class.name())?;
            text.push_str(" ")?;
            show_value(alloc, defs, *reason, text)
        }
        Ending::FuelSpent => text.push_str("fuel_spent"),
        Ending::Stuck => text.push_str("stuck"),
    }
}

// What a run printed, how it ended, and what it counted.
fn shown(alloc: Global, defs: &[FunDef], run: &Evaluation<'_>, told: Told) -> Answer {
    let mut text = String::new(alloc);
    let printed: &[Value<'_>] = run.printed.as_slice();
    for value in printed {
        show_value(alloc, defs, *value, &mut text)?;
        text.push_str(" ")?;
    }
    show_ending(alloc, defs, &run.ending, &mut text)?;
    let words = run.counts.words;
    let claim = run.counts.claim;
    let fuel = run.counts.fuel;
    let work = run.counts.work;
    match told {
        Told::Ending => {}
        Told::Counts => {
            text.push_str(format!(in alloc;
                "; words {words} claim {claim} fuel {fuel}"
            )?.as_str())?;
        }
        Told::Work => {
            text.push_str(format!(in alloc;
                "; words {words} claim {claim} fuel {fuel} work {work}"
            )?.as_str())?;
        }
    }
    Ok(text)
}

// A call of the module of a text.
fn called(alloc: Global, text: &str, call: &str, fuel: u64, told: Told) -> Answer {
    if text.len() > LONGEST || call.len() > LONGEST {
        return String::from_str(alloc, "too long");
    }
    let Ok(m) = read_module(alloc, text.as_bytes()) else {
        return String::from_str(alloc, "the module isn't read");
    };
    let Ok(call) = read_call(alloc, call) else {
        return String::from_str(alloc, "the call isn't read");
    };
    let arena = Arena::new(alloc)?;
    let run = eval_call(&arena, &m, &call, fuel)?;
    shown(alloc, m.defs.as_slice(), &run, told)
}

// The call 'main'() of a module of one function with this body.
fn body(alloc: Global, body: &str, fuel: u64, told: Told) -> Answer {
    let text = format!(in alloc;
        "module 'm' ['main'/0] attributes [] 'main'/0 = fun () -> {body} end"
    )?;
    called(alloc, text.as_str(), "'main'()", fuel, told)
}

// The fuel of a command, and what stands behind it.
fn fuel_of(rest: &str) -> Option<(u64, &str)> {
    let (fuel, rest) = rest.split_once(";")?;
    match fuel.parse::<u64>() {
        Ok(fuel) => Some((fuel, rest)),
        Err(_) => None,
    }
}

// The answer to a line, where it has one. The lines of a long text are kept.
fn answered(alloc: Global, kept: &mut String, line: &str) -> Result<Option<String>, Memory> {
    let (command, rest) = match line.split_once(" ") {
        Some(parts) => parts,
        None => (line, ""),
    };
    match command {
        "ends" => return Ok(Some(body(alloc, rest, 0, Told::Ending)?)),
        "line" => {
            kept.push_str(rest)?;
            kept.push_str("\n")?;
            return Ok(None);
        }
        "new" => {
            *kept = String::new(alloc);
            return Ok(None);
        }
        _ => {}
    }
    let Some((fuel, rest)) = fuel_of(rest) else {
        return Ok(Some(String::from_str(alloc, "no fuel")?));
    };
    match command {
        "body" => Ok(Some(body(alloc, rest, fuel, Told::Counts)?)),
        "work" => Ok(Some(body(alloc, rest, fuel, Told::Work)?)),
        "run" => Ok(Some(called(alloc, kept.as_str(), rest, fuel, Told::Counts)?)),
        _ => Ok(Some(String::from_str(alloc, "no command")?)),
    }
}

fn main(rt: HostRuntime) -> anyhow::Result<()> {
    let alloc = rt.alloc();
    let mut kept = String::new(alloc);
    for line in rt.lines(alloc) {
        if let Some(answer) = answered(alloc, &mut kept, line?.as_str())? {
            println!(rt; "{answer}")?;
        }
    }
    Ok(())
}
