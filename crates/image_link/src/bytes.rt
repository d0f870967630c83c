// From an image to its bytes.

ghost use Rattle.std.specs.Prelude.{◌≡◌, ◌<◌, ◌++◌, ◌^◌, IfOk, OnOk, flat_map, length};
ghost use Rattle.image_link.specs.Format.{atom_bytes, bytes_of, eight, four, function_bytes, header, tables, two, whole_length};

use crate::atoms::AtomTable;
use crate::image::{Function, Image};
use crate::numbers::{NO_NAME, VERSION};
use hipe_base::Memory;
use sha2::{Digest, Sha256};
use std::alloc::Global;

/// The bytes of an image in version 1 of the format: a header of 40 bytes, the tables of atoms, functions and exports, the code,
/// and the SHA-256 of all that (FIPS 180-4, section 6.2).
///
/// # Errors
///
/// `Memory` where there was no memory for them.
pub fn image_bytes(alloc: Global, image: &Image) -> Result<Vec<u8>, Memory>
    ensures { IfOk result (λ bytes. bytes.items ≡ bytes_of image.now) }
{
    image.rules();
    let length = whole_length(image);
    let mut bytes = Vec::with_capacity(alloc, length as usize)?;
    put_header(image, length, &mut bytes)?;
    put_tables(image, &mut bytes)?;
    bytes.extend_from_slice(image.code())?;
    let digest = Sha256::digest(bytes.as_slice());
    bytes.extend_from_slice(&digest)?;
    Ok(bytes)
}

// How many bytes an image has.
fn whole_length(image: &Image) -> u64
    ensures { result ≡ whole_length image.now }
{
    image.rules();
    let mut length = 72 + image.code().len() as u64;
    for text in image.atoms().texts() {
        length += 2 + text.len() as u64;
    }
    length + 16 * image.functions().len() as u64 + 4 * image.exports().len() as u64
}

// Appends a number of two bytes.
#[tactic(auto, unfolding(crate::specs::Format::two))]
fn put_short(n: u16, bytes: &mut Vec<u8>) -> Result<(), Memory>
    ensures { OnOk result (bytes.new.items ≡ bytes.old.items ++ two n) }
{
    bytes.extend_from_slice(&n.to_le_bytes())
}

// Appends a number of four bytes.
#[tactic(auto, unfolding(crate::specs::Format::four))]
fn put(n: u32, bytes: &mut Vec<u8>) -> Result<(), Memory>
    ensures { OnOk result (bytes.new.items ≡ bytes.old.items ++ four n) }
{
    bytes.extend_from_slice(&n.to_le_bytes())
}

// Appends a number of eight bytes.
#[tactic(auto, unfolding(crate::specs::Format::eight))]
fn put_long(n: u64, bytes: &mut Vec<u8>) -> Result<(), Memory>
    ensures { OnOk result (bytes.new.items ≡ bytes.old.items ++ eight n) }
{
    bytes.extend_from_slice(&n.to_le_bytes())
}

// Appends the header.
fn put_header(image: &Image, length: u64, bytes: &mut Vec<u8>) -> Result<(), Memory>
    requires { length ≡ whole_length image.now }
    ensures { OnOk result (bytes.new.items ≡ bytes.old.items ++ header image.now) }
{
    image.rules();
    bytes.extend_from_slice(b"HIPE")?;
    put(VERSION, bytes)?;
    put_long(length, bytes)?;
    put(image.atoms().len(), bytes)?;
    put(image.functions().len() as u32, bytes)?;
    put(image.exports().len() as u32, bytes)?;
    // No unwind entries: places in the code where a raised class goes on. No code of today has any.
    put(0, bytes)?;
    put(image.module(), bytes)?;
    put(image.code().len() as u32, bytes)
}

// Appends the tables of atoms, functions and exports.
fn put_tables(image: &Image, bytes: &mut Vec<u8>) -> Result<(), Memory>
    ensures { OnOk result (bytes.new.items ≡ bytes.old.items ++ tables image.now) }
{
    put_atoms(image.atoms(), bytes)?;
    put_functions(image.functions(), bytes)?;
    put_exports(image.exports(), bytes)
}

// Appends the table of atoms.
fn put_atoms(atoms: &AtomTable, bytes: &mut Vec<u8>) -> Result<(), Memory>
    ensures { OnOk result (bytes.new.items ≡ bytes.old.items ++ flat_map atom_bytes atoms.now) }
{
    for text in atoms.texts() {
        put_atom(text.as_str(), bytes)?;
    }
    Ok(())
}

// Appends the table of functions.
fn put_functions(functions: &[Function], bytes: &mut Vec<u8>) -> Result<(), Memory>
    ensures { OnOk result (bytes.new.items ≡ bytes.old.items ++ flat_map function_bytes functions.now) }
{
    for function in functions {
        put_function(*function, bytes)?;
    }
    Ok(())
}

// Appends the table of exports.
fn put_exports(exports: &[u32], bytes: &mut Vec<u8>) -> Result<(), Memory>
    ensures { OnOk result (bytes.new.items ≡ bytes.old.items ++ flat_map four exports.now) }
{
    for export in exports {
        put(*export, bytes)?;
    }
    Ok(())
}

// Appends an atom.
fn put_atom(text: &str, bytes: &mut Vec<u8>) -> Result<(), Memory>
    requires { length text.now < 2 ^ 16 }
    ensures { OnOk result (bytes.new.items ≡ bytes.old.items ++ two (length text.now) ++ text.now) }
{
    put_short(text.len() as u16, bytes)?;
    bytes.extend_from_slice(text.as_bytes())
}

// Appends a function.
fn put_function(function: Function, bytes: &mut Vec<u8>) -> Result<(), Memory>
    ensures { OnOk result (bytes.new.items ≡ bytes.old.items ++ function_bytes function) }
{
    put(function.name.unwrap_or(NO_NAME), bytes)?;
    put(function.arity as u32, bytes)?;
    put(function.captured as u32, bytes)?;
    put(function.closure_entry, bytes)
}
