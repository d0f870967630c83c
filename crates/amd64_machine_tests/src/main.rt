// Runs programs of a few instructions on the machine, with which the machine is tested.
//
// Each line of the input is a program's bytes in hexadecimal, and behind a blank its instructions for the reader. It is the code of
// the one exported function of an image, which is called without arguments, with a heap of 64 words. It writes what the program
// displayed, and how it ended: with the line of its result, that the heap or the stack was full, at how many bytes behind the
// program's begin there was no next state, or that its steps weren't enough. A program has 1,000 steps, or as many as the
// command's one word says. Before the program stand the exit part, which has 19 bytes, and 5 bytes that are no instruction.
//
// In the lines of `stdin` that try an operation, the value is 1 where CF is set, 2 where ZF is, 4 where SF is, 8 where OF
// is, and 16 where the result is the one that stands in the program; or the 14 conditions in the order of their numbers
// as bits. On a processor, with a trap in place of service 0, 181 of the programs ended with the same integer, and 26 faulted at the
// same place. The ends of the others are by hand from the machine's definition: they use other services or values, test flags that
// it leaves unknown, or use addresses that it alone refuses.
//
// Promises: nothing.
//
// May touch: memory, standard input and output.
//
// Files:
//   tests.rt   steps one by one, runs that go on, lines that aren't written, and loading
#![tactic(auto)]

ghost use Rattle.std.specs.Prelude.{◌≡◌, ◌<◌, [], length, IfOk};

#[cfg(test)]
mod tests;

use amd64_machine::{End, Machine};
use hipe_edge::StdSink;
use hipe_terms::{Atom, Call};
use image_link::{Code, Image, Names, link};
use region_memory::Region;
use region_memory::layout::{CODE_BEGIN, TABLE_LIMIT};
use sqlite_items::Items;
use std::alloc::Global;
use std::env;
use std::rt::Stdout;

// Where the program's first byte stands in the code.
const PROGRAM_BEGIN: u64 = 24;

// How many steps a program has, where no word says so.
const STEPS: u64 = 1_000;

// How many words the heap and the stack have.
const HEAP: u32 = 64;

const STACK: u32 = 1_025;

fn atom(alloc: Global, text: &str) -> anyhow::Result<Atom> {
    match Atom::new(String::from_str(alloc, text)?) {
        Ok(atom) => Ok(atom),
        Err(_) => Err(anyhow::anyhow!("no atom")),
    }
}

// Code without calls.
fn code(alloc: Global, bytes: Vec<u8>) -> Code
    ensures bytes { result.bytes ≡ bytes.items }
    ensures calls { result.calls ≡ [] }
    ensures entry { result.closure_entry ≡ 0 }
{
    Code {
        bytes: Items::from_vec(bytes),
        calls: Items::new(alloc),
        closure_entry: 0,
    }
}

// The functions 'padding'/0 and 'main'/0, which is exported.
fn names(alloc: Global) -> anyhow::Result<Names>
    ensures { IfOk result (λ names. length names.functions ≡ 2) }
{
    let mut names = Names::new(alloc, &atom(alloc, "test")?)?;
    let padding = names.intern(alloc, &atom(alloc, "padding")?)?;
    let main = names.intern(alloc, &atom(alloc, "main")?)?;
    if padding >= names.atoms().len() || main >= names.atoms().len() {
        return Err(anyhow::anyhow!("no number"));
    }
    names.add_definition(padding, 0)?;
    names.add_definition(main, 0)?;
    names.export(1)?;
    Ok(names)
}

// The image whose function 'main'/0 is the program.
fn image(alloc: Global, program: Vec<u8>) -> anyhow::Result<Image> {
    if program.is_empty() {
        return Err(anyhow::anyhow!("no program"));
    }
    let padding = Vec::from_slice(alloc, &[0x90, 0x90, 0x90, 0x90, 0x90])?;
    let parts = vec![in alloc; code(alloc, padding), code(alloc, program)]?;
    match link(alloc, parts, names(alloc)?) {
        Ok(image) => Ok(image),
        Err(_) => Err(anyhow::anyhow!("not linked")),
    }
}

// The call of a function without arguments.
fn named(alloc: Global, name: &str) -> anyhow::Result<Call>
    ensures { IfOk result (λ call. call.args ≡ []) }
{
    Ok(Call {
        name: atom(alloc, name)?,
        args: Items::new(alloc),
    })
}

// The machine before the program's first instruction, with a call of this function.
fn loaded(alloc: Global, program: Vec<u8>, name: &str) -> anyhow::Result<Machine> {
    let call = named(alloc, name)?;
    let image = image(alloc, program)?;
    if image.functions().len() > TABLE_LIMIT {
        return Err(anyhow::anyhow!("too many functions"));
    }
    let region = Region::open(alloc, HEAP, STACK)?;
    Ok(Machine::load(alloc, image, &call, region)?)
}

// The steps of each program: the first word behind the program's name, if there is one.
fn steps(rt: &HostRuntime) -> anyhow::Result<u64> {
    match env::args(rt)?.nth(1) {
        Some(word) => Ok(word.parse()?),
        None => Ok(STEPS),
    }
}

// Runs the program for at most so many steps, and writes how it ended.
fn tried(rt: &HostRuntime, program: Vec<u8>, steps: u64) -> anyhow::Result<()> {
    let mut out = StdSink::new(rt.stdout());
    let mut machine = loaded(rt.alloc(), program, "main")?;
    match machine.run(rt.alloc(), steps, &mut out) {
        End::Returned => {
            if machine.write_result(rt.alloc(), &mut out).is_err() {
                return Err(anyhow::anyhow!("not written"));
            }
        }
        End::Raised { class: _ } => {
            if machine.write_result(rt.alloc(), &mut out).is_err() {
                return Err(anyhow::anyhow!("not written"));
            }
        }
        End::HeapFull => println!(rt; "heap full")?,
        End::StackFull => println!(rt; "stack full")?,
        End::StepsSpent => println!(rt; "steps spent")?,
        End::MachineFault { at } => {
            println!(rt; "fault {}", at.wrapping_sub(CODE_BEGIN + PROGRAM_BEGIN))?;
        }
        End::WriteFault => return Err(anyhow::anyhow!("not written")),
        End::Memory => return Err(anyhow::anyhow!("no memory")),
    }
    Ok(())
}

fn main(rt: HostRuntime) -> anyhow::Result<()> {
    let steps = steps(&rt)?;
    for line in rt.lines(rt.alloc()) {
        let line = line?;
        let digits = line.split(' ').next().unwrap_or("");
        tried(&rt, hex::decode(rt.alloc(), digits.as_bytes())?, steps)?;
    }
    Ok(())
}
