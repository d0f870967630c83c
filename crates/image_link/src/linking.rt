// From code and names to the image.

ghost use Rattle.std.specs.Prelude.{◌≡◌, ◌+◌, ◌-◌, ◌<◌, ◌≤◌, ◌^◌, ◌++◌, All, IfOk, OnOk, length, min};
ghost use Rattle.image_link.specs.Code.{FIELD, IsPart, exit_bytes};
ghost use Rattle.image_link.specs.Linking.{IsLinked, code_from, code_size, displacement, functions_from, linked, linked_part, replaced, starts_of, size as size_of};

use crate::code::{CallSite, Code, put_exit};
use crate::image::{Function, Image};
use crate::names::{FunctionEntry, Names};
use crate::numbers::EXIT_SIZE;
use hipe_base::Memory;
use hipe_base::limits::CODE_LIMIT;
use std::alloc::Global;

/// Why a program has no image.
#[derive(Clone, Copy, PartialEq, Eq, Debug)]
pub enum LinkFault {
    /// The code has more bytes than `CODE_LIMIT`.
    TooLarge {
        /// How many bytes it has, or 2^64 - 1 where that is less.
        bytes: u64,
    },

    /// There was no memory for the image.
    Memory,
}

/// Links the code of functions to the image of the program that has these names: the exit part, and the parts one behind the other
/// in the order of the functions' numbers, with each call filled by the displacement from the next instruction to the first byte of
/// its target's part (the manual's volume 3, `CALL`).
///
/// # Errors
///
/// `TooLarge` exactly where the code, with the exit part, has more than `CODE_LIMIT` bytes; `Memory` where it hasn't, and there was no
/// memory for the image.
pub fn link(alloc: Global, parts: Vec<Code>, names: Names) -> Result<Image, LinkFault>
    requires count { length parts.items ≡ length names.functions }
    requires parts { All (IsPart (length names.functions)) parts.items }
    ensures { IsLinked parts.items names result }
{
    let size = code_size(parts.as_slice());
    if size > CODE_LIMIT {
        return Err(LinkFault::TooLarge { bytes: size });
    }
    match put_together(alloc, parts.as_slice(), names) {
        Ok(image) => Ok(image),
        Err(_) => Err(LinkFault::Memory),
    }
}

// How many bytes the linked code has, or 2^64 - 1 where that is less.
fn code_size(parts: &[Code]) -> u64
    ensures { result ≡ min (code_size parts.now) (2 ^ 64 - 1) }
{
    let mut size = EXIT_SIZE;
    for part in parts {
        size = size.saturating_add(part.bytes.len() as u64);
    }
    size
}

// The image.
fn put_together(alloc: Global, parts: &[Code], names: Names) -> Result<Image, Memory>
    requires count { length parts.now ≡ length names.functions }
    requires parts { All (IsPart (length names.functions)) parts.now }
    requires size { code_size parts.now ≤ CODE_LIMIT }
    ensures { IfOk result (λ i. i ≡ linked parts.now names) }
{
    let starts = starts(alloc, parts)?;
    let code = join(alloc, parts, starts.as_slice())?;
    let functions = place(alloc, parts, starts.as_slice(), names.functions())?;
    let Names {
        atoms,
        module,
        functions: _,
        exports,
    } = names;
    Ok(Image {
        atoms,
        module,
        functions,
        exports,
        code,
    })
}

// The offsets at which the parts begin.
fn starts(alloc: Global, parts: &[Code]) -> Result<Vec<u32>, Memory>
    requires { code_size parts.now ≤ CODE_LIMIT }
    ensures { IfOk result (λ starts. starts.items ≡ starts_of parts.now) }
{
    let mut starts = Vec::with_capacity(alloc, parts.len())?;
    let mut start = EXIT_SIZE as u32;
    for part in parts {
        starts.push(start)?;
        start += part.bytes.len() as u32;
    }
    Ok(starts)
}

// The code: the exit part, and the parts with their calls filled.
fn join(alloc: Global, parts: &[Code], starts: &[u32]) -> Result<Vec<u8>, Memory>
    requires starts { starts.now ≡ starts_of parts.now }
    requires parts { All (IsPart (length parts.now)) parts.now }
    requires size { code_size parts.now ≤ CODE_LIMIT }
    ensures code { IfOk result (λ code. code.items ≡ exit_bytes ++ code_from parts.now 0 parts.now) }
    ensures bytes { IfOk result (λ code. All (λ b. b < 2 ^ 8) code.items) }
{
    let mut code = Vec::with_capacity(alloc, code_size(parts) as usize)?;
    put_exit(&mut code)?;
    for part in parts {
        put_part(part, starts, &mut code)?;
    }
    are_bytes(code.as_slice());
    Ok(code)
}

// Each byte is one of eight bits.
fn are_bytes(code: &[u8])
    ensures { All (λ b. b < 2 ^ 8) code.now }
{
    let _ = code.len();
}

// Appends a part with its calls filled.
fn put_part(part: &Code, starts: &[u32], code: &mut Vec<u8>) -> Result<(), Memory>
    requires part { IsPart (length starts.now) part.now }
    requires size { length code.old.items + size_of part.now ≤ CODE_LIMIT }
    requires starts { All (λ start. start ≤ CODE_LIMIT) starts.now }
    ensures { OnOk result (code.new.items ≡ code.old.items ++ linked_part starts.now (length code.old.items) part.now) }
{
    let start = code.len();
    code.extend_from_slice(part.bytes.as_slice())?;
    for call in part.calls.as_slice() {
        fill(code, start + call.at as usize, starts[call.target as usize]);
    }
    Ok(())
}

// Fills the field of a call with the displacement to its target.
#[tactic(auto, unfolding(crate::specs::Linking::displacement))]
fn fill(code: &mut Vec<u8>, at: usize, target: u32)
    requires field { at + FIELD ≤ length code.old.items }
    requires size { length code.old.items ≤ CODE_LIMIT }
    requires target { target ≤ CODE_LIMIT }
    ensures { code.new.items ≡ replaced code.old.items at (displacement (at + FIELD) target) }
{
    let next = at + 4;
    let displacement = target as i32 - next as i32;
    code[at..next].copy_from_slice(&displacement.to_le_bytes());
}

// The functions, each with the offset of its closure entry.
fn place(
    alloc: Global,
    parts: &[Code],
    starts: &[u32],
    entries: &[FunctionEntry],
) -> Result<Vec<Function>, Memory>
    requires starts { starts.now ≡ starts_of parts.now }
    requires count { length parts.now ≡ length entries.now }
    requires parts { All (IsPart (length parts.now)) parts.now }
    requires size { code_size parts.now ≤ CODE_LIMIT }
    ensures { IfOk result (λ functions. functions.items ≡ functions_from parts.now 0 entries.now parts.now) }
{
    let mut functions = Vec::with_capacity(alloc, entries.len())?;
    for (number, entry) in entries.iter().enumerate() {
        functions.push(Function {
            name: entry.name,
            arity: entry.arity,
            captured: entry.captured,
            closure_entry: starts[number] + parts[number].closure_entry,
        })?;
    }
    Ok(functions)
}
