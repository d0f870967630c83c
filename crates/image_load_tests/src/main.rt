// Puts calls of a small image into memory, with which `image_load` is tested.
//
// A line of the input is a call in a heap of so many words: HEAP NAME WORD .., with a blank between them. The words give the
// constants of the call. Each is one more constant behind those so far, but that two of them take parts from the end:
//   an integer    the integer
//   'NAME         an atom
//   []            the empty list
//   tuple:N       a tuple of the last N constants
//   list:N        a list of the N constants before the last, whose tail is the last
//
// It writes how the run begins: the address, the words of the first four arguments and the heap pointer, or that the call is
// undefined or the heap full. Behind it stand the numbers of atoms, definitions and functions, the address of the first function in
// the table and the words of its last, the first three words of the argument area, the last word of the stack, and all of the heap.
//
// The lines of `stdin` and `stdout` are made by `table`, which has the layout of memory by its own rules.
//
// Promises: nothing.
//
// May touch: memory, standard input and output.
//
// Files:
//   arguments.rt   the constants of a call, from their texts
//   image.rt       the image whose functions are called
#![tactic(auto)]

ghost use Rattle.std.specs.Prelude.{◌≡◌, All, true};
ghost use Rattle.hipe_terms.specs.Constants.{IsConstant};

mod arguments;
mod image;

use arguments::arguments;
use hipe_terms::{Call, Constant, is_constant};
use image::{atom, image};
use image_load::{Loaded, Start, load_program};
use region_memory::Region;
use region_memory::layout::{ARGUMENTS_BEGIN, STACK_BEGIN, STACK_LEAST, TABLE_BEGIN, TABLE_LIMIT};
use sqlite_items::Items;
use std::alloc::Global;

// The largest heap of a call here, in words.
const HEAP_MOST: u32 = 100;

// The address of the stack's last word.
const STACK_LAST: u64 = STACK_BEGIN + 8 * (STACK_LEAST as u64 - 1);

// The address of the last function's words in the table.
const LAST_FUNCTION: u64 = TABLE_BEGIN + 16 * 6;

// Whether the constants are as every call wants them.
fn are_constants(args: &[Constant]) -> bool
    ensures { result ≡ true → All IsConstant args.now }
{
    args.iter().all(|c| is_constant(c))
}

// The program of a call of the image in so many words of heap.
fn loaded(alloc: Global, heap: u32, call: &Call) -> anyhow::Result<Loaded> {
    let image = image(alloc)?;
    if image.functions().len() > TABLE_LIMIT || heap > HEAP_MOST {
        return Err(anyhow::anyhow!("too many"));
    }
    if !are_constants(call.args.as_slice()) {
        return Err(anyhow::anyhow!("no constant"));
    }
    let region = Region::open(alloc, heap, STACK_LEAST)?;
    Ok(load_program(alloc, image, call, region)?)
}

// The first word of a text, and what stands behind the blank.
fn first_and_rest(text: &str) -> (&str, &str) {
    match text.split_once(" ") {
        Some(parts) => parts,
        None => (text, ""),
    }
}

// The program of a line.
fn read(alloc: Global, line: &str) -> anyhow::Result<Loaded> {
    let (heap, rest) = first_and_rest(line);
    let (name, words) = first_and_rest(rest);
    let Ok(heap) = heap.parse::<u32>() else {
        return Err(anyhow::anyhow!("no number of words"));
    };
    let call = Call {
        name: atom(alloc, name)?,
        args: Items::from_vec(arguments(alloc, words)?),
    };
    loaded(alloc, heap, &call)
}

// Writes a line of words behind what they are.
fn write_words(rt: &HostRuntime, what: &str, words: &[u64]) -> anyhow::Result<()> {
    print!(rt; "{what}")?;
    for word in words {
        print!(rt; " {word}")?;
    }
    println!(rt; "")?;
    Ok(())
}

// Writes a line of the words at addresses.
fn write_memory(
    rt: &HostRuntime,
    what: &str,
    region: &Region,
    addresses: &[u64],
) -> anyhow::Result<()> {
    print!(rt; "{what}")?;
    for address in addresses {
        match region.read(*address) {
            Some(word) => print!(rt; " {word}")?,
            None => print!(rt; " none")?,
        }
    }
    println!(rt; "")?;
    Ok(())
}

// Writes how a run begins.
fn write_start(rt: &HostRuntime, start: Start) -> anyhow::Result<()> {
    match start {
        Start::Undefined => println!(rt; "undefined")?,
        Start::HeapFull => println!(rt; "heap full")?,
        Start::Ready {
            at,
            arguments,
            free,
        } => {
            println!(rt; "ready {at}")?;
            write_words(rt, "words", arguments.as_slice())?;
            println!(rt; "free {free}")?;
        }
    }
    Ok(())
}

// Writes a program.
fn write(rt: &HostRuntime, program: &Loaded) -> anyhow::Result<()> {
    write_start(rt, program.start)?;
    let atoms = program.symbols.atoms.len() as u64;
    let definitions = program.symbols.definitions.len() as u64;
    let functions = program.symbols.functions;
    write_words(rt, "symbols", &[atoms, definitions, functions])?;
    let region = &program.region;
    let table = [
        TABLE_BEGIN,
        LAST_FUNCTION,
        LAST_FUNCTION + 8,
        LAST_FUNCTION + 16,
    ];
    write_memory(rt, "table", region, &table)?;
    let area = [ARGUMENTS_BEGIN, ARGUMENTS_BEGIN + 8, ARGUMENTS_BEGIN + 16];
    write_memory(rt, "area", region, &area)?;
    write_memory(rt, "stack", region, &[STACK_LAST, STACK_LAST + 8])?;
    write_words(rt, "heap", region.heap())
}

fn main(rt: HostRuntime) -> anyhow::Result<()> {
    for line in rt.lines(rt.alloc()) {
        let program = read(rt.alloc(), line?.as_str())?;
        write(&rt, &program)?;
    }
    Ok(())
}
