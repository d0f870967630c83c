// Texts and what the linter says of them, a command a line: the program with which the linter is tried.
//
// A command is a name, a space and the rest of the line:
//   module TEXT          whether the module of a text is good, or its first broken rule and the place
//   body TEXT            the same of a module of one function with this body, which begins at 1:58
//   numbered N;A;B;C     the same of the body A, `B1`, `B2` up to `BN` with commas, C
//   functions N;A        the same of a module of so many functions, each on a line of its own from the second on, and the text A
//
// The lines of `stdin` and `stdout` are made by `table`, which has the expected answers by hand.
//
// Promises: nothing.
//
// May touch: memory, standard input and output.
//
// Files: this one alone.
#![tactic(auto)]

use core_ast::{Place, Rule};
use core_lint::{LintRefusal, lint};
use core_reader::read_module;
use hipe_base::Memory;
use std::alloc::Global;

// The longest text that is read here, in bytes.
const LONGEST: usize = 4_000_000;

type Answer = Result<String, Memory>;

// A broken rule and its place.
fn broken(alloc: Global, rule: Rule, at: Place) -> Answer {
    let name = rule.name();
    let line = at.line;
    let col = at.col;
    format!(in alloc; "{name} {line}:{col}")
}

// What the linter says of the module of a text.
fn module(alloc: Global, text: &str) -> Answer {
    if text.len() > LONGEST {
        return String::from_str(alloc, "too long");
    }
    let Ok(m) = read_module(alloc, text.as_bytes()) else {
        return String::from_str(alloc, "not read");
    };
    match lint(alloc, m) {
        Ok(_) => String::from_str(alloc, "good"),
        Err(LintRefusal::Broken { rule, at }) => broken(alloc, rule, at),
        Err(LintRefusal::Memory) => String::from_str(alloc, "memory"),
    }
}

// What it says of the module of one function with this body.
fn body(alloc: Global, body: &str) -> Answer {
    let text = format!(in alloc;
        "module 'm' ['main'/0] attributes [] 'main'/0 = fun () -> {body} end"
    )?;
    module(alloc, text.as_str())
}

// The parts `B1`, `B2`, .. with commas between them.
fn push_numbered(alloc: Global, text: &mut String, part: &str, count: u64) -> Result<(), Memory> {
    for i in 0..count {
        if i > 0 {
            text.push_str(",")?;
        }
        let number = i + 1;
        text.push_str(format!(in alloc; "{part}{number}")?.as_str())?;
    }
    Ok(())
}

// The number and the texts of such a command.
fn numbered_of(rest: &str) -> Option<(u64, &str, &str, &str)> {
    let (count, rest) = rest.split_once(";")?;
    let (before, rest) = rest.split_once(";")?;
    let (part, behind) = rest.split_once(";")?;
    match count.parse::<u64>() {
        Ok(count) => Some((count, before, part, behind)),
        Err(_) => None,
    }
}

// What it says of a body with numbered parts.
fn numbered(alloc: Global, rest: &str) -> Answer {
    let Some((count, before, part, behind)) = numbered_of(rest) else {
        return String::from_str(alloc, "no texts");
    };
    let mut text = String::from_str(alloc, before)?;
    push_numbered(alloc, &mut text, part, count)?;
    text.push_str(behind)?;
    body(alloc, text.as_str())
}

// What it says of a module of so many functions, and of those in the text behind them.
fn functions(alloc: Global, rest: &str) -> Answer {
    let Some((count, behind)) = rest.split_once(";") else {
        return String::from_str(alloc, "no texts");
    };
    let Ok(count) = count.parse::<u64>() else {
        return String::from_str(alloc, "no number");
    };
    let mut text = String::from_str(alloc, "module 'm' [] attributes []\n")?;
    for i in 0..count {
        text.push_str(format!(in alloc; "'f{i}'/0 = fun () -> 1\n")?.as_str())?;
    }
    text.push_str(behind)?;
    text.push_str(" end")?;
    module(alloc, text.as_str())
}

// The answer to a line.
fn answered(alloc: Global, line: &str) -> Answer {
    let (command, rest) = match line.split_once(" ") {
        Some(parts) => parts,
        None => (line, ""),
    };
    match command {
        "module" => module(alloc, rest),
        "body" => body(alloc, rest),
        "numbered" => numbered(alloc, rest),
        "functions" => functions(alloc, rest),
        _ => String::from_str(alloc, "no command"),
    }
}

fn main(rt: HostRuntime) -> anyhow::Result<()> {
    let alloc = rt.alloc();
    for line in rt.lines(alloc) {
        let answer = answered(alloc, line?.as_str())?;
        println!(rt; "{answer}")?;
    }
    Ok(())
}
