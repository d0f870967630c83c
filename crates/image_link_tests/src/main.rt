// Links programs from lines and writes their images, with which `image_link` is tested.
//
// A command is a word and what it needs, with blanks between them:
//   module NAME                               begins a program of this module
//   atom NAME                                 interns an atom
//   number NAME                               the number of an atom, where it is known
//   text NUMBER                               the atom of a number, where there is one
//   definition NAME ARITY ENTRY HEX CALL ..   adds a definition of the module with this closure entry and code
//   fun ARITY CAPTURED ENTRY HEX CALL ..      adds a fun
//   export NUMBER                             exports a definition
//   link                                      ends the program
//
// A CALL is `AT:TARGET`. `link` writes the image's bytes in hexadecimal, and what the image is made of. What takes an
// atom or adds a function writes its number. A command writes `refused` where what it needs doesn't hold, and `none`
// where there is no such atom.
//
// The lines of `stdin` and `stdout` are made by `table`, which writes the format by its rules.
//
// Promises: nothing.
//
// May touch: memory, standard input and output.
//
// Files:
//   conditions.rt   what the calls of `image_link` require, as tests
//   program.rt      a program that is read from lines
#![tactic(auto)]

mod conditions;
mod program;

use program::{Answer, Program, first_and_rest, numbered};
use std::alloc::Global;

// Begins a program.
fn begun(alloc: Global, kept: &mut Option<Program>, name: &str) -> Answer {
    let Some(program) = Program::new(alloc, name)? else {
        return Ok(None);
    };
    let number = program.module();
    *kept = Some(program);
    numbered(alloc, number)
}

// The answer to a line, where it isn't refused.
fn answered(alloc: Global, kept: &mut Option<Program>, line: &str) -> Answer {
    let (command, rest) = first_and_rest(line);
    if command == "module" {
        return begun(alloc, kept, rest);
    }
    if command == "link" {
        return match kept.take() {
            Some(program) => program.link(alloc),
            None => Ok(None),
        };
    }
    let Some(program) = kept else {
        return Ok(None);
    };
    match command {
        "atom" => program.atom(alloc, rest),
        "number" => program.number(alloc, rest),
        "text" => program.text(alloc, rest),
        "definition" => program.definition(alloc, rest),
        "fun" => program.fun(alloc, rest),
        "export" => program.export(alloc, rest),
        _ => Ok(None),
    }
}

fn main(rt: HostRuntime) -> anyhow::Result<()> {
    let mut kept = None;
    for line in rt.lines(rt.alloc()) {
        match answered(rt.alloc(), &mut kept, line?.as_str())? {
            Some(answer) => println!(rt; "{answer}")?,
            None => println!(rt; "refused")?,
        }
    }
    Ok(())
}
