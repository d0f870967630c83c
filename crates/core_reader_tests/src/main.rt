// Texts and what the reader says of them, a command a line: the program with which the reader is tried.
//
// Promises: nothing of its own; what it writes is compared with what `table` expects.
//
// May touch: its input and its output, and memory.
//
// Files:
//   answer.rt   the answer to a command
//   shown.rt    the text of a tree with its places
//
// A command is a name, a space and the rest of the line:
//   module TEXT            the module of a text, as a tree with places, or its refusal
//   body TEXT              the same of a module of one function with this body, which begins at 1:58
//   clause TEXT            the same of a `case` with this clause, which begins at 1:68
//   call TEXT              the call of a text, or where it is none
//   alphabet TOKENS        the tokens for the tables, with spaces between them
//   after TEXT             the tokens that may come after a text, and those that aren't in the profile there
//   nested N;A;B;C;D;E     whether the module with this body is read: A, N times B, C, N times D, E
//   line TEXT              a line of a long text
//   places                 the module of the lines so far, as a tree with places, or its refusal
//   read                   the module of the lines so far, and whether it is the same when it is printed and read again
//   print                  the module of the lines so far, printed
//
// The lines of `stdin` and `stdout` are made by `table`, which has the expected answers by hand and by rule.
#![tactic(auto)]

mod answer;
mod shown;

use answer::{after, again, body, call, clause, module, nested, printed};
use std::alloc::Global;
use std::mem;

// What is kept between lines.
#[derive(Drop)]
struct Kept {
    alphabet: String,
    text: String,
}

impl Kept {
    // The lines so far, which then begin anew.
    fn take(&mut self, alloc: Global) -> String {
        mem::replace(&mut self.text, String::new(alloc))
    }
}

// The answer to a line, where it has one.
fn answered(alloc: Global, kept: &mut Kept, line: &str) -> anyhow::Result<Option<String>> {
    let (command, rest) = match line.split_once(" ") {
        Some(parts) => parts,
        None => (line, ""),
    };
    match command {
        "module" => Ok(Some(module(alloc, rest)?)),
        "body" => Ok(Some(body(alloc, rest)?)),
        "clause" => Ok(Some(clause(alloc, rest)?)),
        "call" => Ok(Some(call(alloc, rest)?)),
        "after" => Ok(Some(after(alloc, kept.alphabet.as_str(), rest)?)),
        "nested" => Ok(Some(nested(alloc, rest)?)),
        "alphabet" => {
            kept.alphabet = String::from_str(alloc, rest)?;
            Ok(None)
        }
        "line" => {
            kept.text.push_str(rest)?;
            kept.text.push_str("\n")?;
            Ok(None)
        }
        "places" => Ok(Some(module(alloc, kept.take(alloc).as_str())?)),
        "read" => Ok(Some(again(alloc, kept.take(alloc).as_str())?)),
        "print" => Ok(Some(printed(alloc, kept.take(alloc).as_str())?)),
        _ => Ok(Some(String::from_str(alloc, "no command")?)),
    }
}

fn main(rt: HostRuntime) -> anyhow::Result<()> {
    let alloc = rt.alloc();
    let mut kept = Kept {
        alphabet: String::new(alloc),
        text: String::new(alloc),
    };
    for line in rt.lines(alloc) {
        if let Some(answer) = answered(alloc, &mut kept, line?.as_str())? {
            println!(rt; "{answer}")?;
        }
    }
    Ok(())
}
