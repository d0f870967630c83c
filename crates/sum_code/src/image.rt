// The image of a module whose one function gives a sum.

ghost use Rattle.std.specs.Prelude.{◌≡◌, ◌≤◌, IfOk, codes};
ghost use Rattle.core_sum.specs.Sums.{HasSmallIntegers, count_of, value};
ghost use Rattle.sum_code.specs.Code.{EndsWith, image_for, names_for_main, part_for};
ghost use Rattle.sum_code.specs.Code.{main_call as call_of_main};

use crate::code::code_of;
use core_sum::{MOST_INTEGERS, Sum};
use hipe_base::Memory;
use hipe_terms::{Atom, Call};
use image_link::{Code, Image, LinkFault, Names, link};
use sqlite_items::Items;
use std::alloc::Global;

// The name of the function.
fn main_name(alloc: Global) -> Result<Atom, Memory>
    ensures { IfOk result (λ name. name ≡ codes "main") }
{
    match Atom::new(String::from_str(alloc, "main")?) {
        Ok(name) => Ok(name),
        Err(_) => unreachable!(),
    }
}

/// The call `'main'()`.
///
/// # Errors
///
/// `Memory` where there was no memory for its name.
pub fn main_call(alloc: Global) -> Result<Call, Memory>
    ensures { IfOk result (λ call. call ≡ call_of_main) }
{
    Ok(Call {
        name: main_name(alloc)?,
        args: Items::new(alloc),
    })
}

// The names of a module of this name that exports its one function.
fn names_for_main(alloc: Global, name: &Atom) -> Result<Names, Memory>
    ensures { IfOk result (λ names. names ≡ names_for_main name.now) }
{
    let mut names = Names::new(alloc, name)?;
    let main = names.intern(alloc, &main_name(alloc)?)?;
    let function = names.add_definition(main, 0)?;
    names.export(function)?;
    Ok(names)
}

// The code of the function, which calls no other.
fn part_for(alloc: Global, e: &Sum) -> Result<Code, Memory>
    requires { HasSmallIntegers e.now }
    ensures { IfOk result (λ part. part ≡ part_for e.now) }
{
    Ok(Code {
        bytes: Items::from_vec(code_of(alloc, e)?),
        calls: Items::new(alloc),
        closure_entry: 0,
    })
}

/// The image of a module of this name that exports its one function, `'main'/0`, which gives the sum.
///
/// # Errors
///
/// `Memory` where there was no memory for the code or the image.
pub fn sum_image(alloc: Global, name: &Atom, e: &Sum) -> Result<Image, Memory>
    requires small { HasSmallIntegers e.now }
    requires few { count_of e.now ≤ MOST_INTEGERS }
    ensures image { IfOk result (λ image. image ≡ image_for name.now e.now) }
    // What the image means: the machine ends with the plain sum.
    ensures meaning { IfOk result (λ image. EndsWith image (value e.now)) }
{
    let names = names_for_main(alloc, name)?;
    let mut parts = Vec::new(alloc);
    parts.push(part_for(alloc, e)?)?;
    match link(alloc, parts, names) {
        Ok(image) => Ok(image),
        // The code of so few integers is short.
        Err(LinkFault::TooLarge { .. }) => unreachable!(),
        Err(LinkFault::Memory) => Err(Memory),
    }
}
