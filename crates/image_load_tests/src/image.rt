// The image whose functions are called.

ghost use Rattle.std.specs.Prelude.{◌≡◌, [], ◌∷◌, All, IfOk, length};

use hipe_base::Memory;
use hipe_terms::Atom;
use image_link::{Code, Image, Names, link};
use sqlite_items::Items;
use std::alloc::Global;

/// The atom of a text.
///
/// # Errors
///
/// Where the text is too long for an atom, or there is no memory.
pub(crate) fn atom(alloc: Global, text: &str) -> anyhow::Result<Atom> {
    match Atom::new(String::from_str(alloc, text)?) {
        Ok(atom) => Ok(atom),
        Err(_) => Err(anyhow::anyhow!("no atom")),
    }
}

// Code of one byte, which returns.
fn returns(alloc: Global) -> Result<Code, Memory>
    ensures { IfOk result (λ c. c ≡ record { bytes = 195 ∷ []; calls = []; closure_entry = 0 }) }
{
    Ok(Code {
        bytes: Items::from_slice(alloc, &[0xC3])?,
        calls: Items::new(alloc),
        closure_entry: 0,
    })
}

// The code of so many functions.
fn parts(alloc: Global, count: usize) -> Result<Vec<Code>, Memory>
    ensures { IfOk result (λ parts. (length parts.items ≡ count) × All (λ c. c ≡ record { bytes = 195 ∷ []; calls = []; closure_entry = 0 }) parts.items) }
{
    let mut parts = Vec::new(alloc);
    for number in 0..count {
        parts.push(returns(alloc)?)?;
    }
    Ok(parts)
}

// Adds a definition, where the name has an atom and no fun came before.
fn define(names: &mut Names, name: u32, arity: u8) -> anyhow::Result<()> {
    if name >= names.atoms().len() || !names.functions().iter().all(|f| f.name.is_some()) {
        return Err(anyhow::anyhow!("no definition"));
    }
    names.add_definition(name, arity)?;
    Ok(())
}

// Exports a definition, where its number is above those that are exported.
fn export(names: &mut Names, number: u32) -> anyhow::Result<()> {
    let Some(function) = names.functions().get(number as usize) else {
        return Err(anyhow::anyhow!("no function"));
    };
    if function.name.is_none() || !names.exports().iter().all(|e| *e < number) {
        return Err(anyhow::anyhow!("no export"));
    }
    names.export(number)?;
    Ok(())
}

// The names of the image.
fn names(alloc: Global) -> anyhow::Result<Names> {
    let mut names = Names::new(alloc, &atom(alloc, "m")?)?;
    let f = names.intern(alloc, &atom(alloc, "f")?)?;
    let g = names.intern(alloc, &atom(alloc, "g")?)?;
    let h = names.intern(alloc, &atom(alloc, "h")?)?;
    for (name, arity) in [(f, 0), (f, 2), (f, 5), (g, 6), (h, 0), (f, 0)] {
        define(&mut names, name, arity)?;
    }
    names.add_fun(1, 0)?;
    for number in [0, 1, 2, 3, 5] {
        export(&mut names, number)?;
    }
    Ok(names)
}

/// The image of the module `m` with the functions 'f'/0, 'f'/2, 'f'/5, 'g'/6, 'h'/0, 'f'/0 once more, and a fun of one argument. All
/// are exported but 'h'/0 and the fun. The atoms 14 to 17 are m, f, g and h. The code of each function is one byte.
///
/// # Errors
///
/// Where there is no memory.
pub(crate) fn image(alloc: Global) -> anyhow::Result<Image> {
    let names = names(alloc)?;
    let parts = parts(alloc, names.functions().len())?;
    match link(alloc, parts, names) {
        Ok(image) => Ok(image),
        Err(_) => Err(anyhow::anyhow!("not linked")),
    }
}
