// The symbols of a program and of a call.

ghost use Rattle.std.specs.Prelude.{◌≡◌, ◌<◌, [], All, IfOk, OnOk, encode_utf8_all, get_or, length, map};
ghost use Rattle.image_link.specs.Image.{entry_of};
ghost use Rattle.image_link.specs.Names.{IsEntry};
ghost use Rattle.heap_terms.specs.Seen.{symbols_of, name_of};
ghost use Rattle.image_load.specs.Loading.{all_interned, with_atoms_of, definitions_of, symbols_of_call};
ghost use Rattle.image_load.specs.Room.{IsAtomText};

use heap_terms::{DefinitionName, Symbols};
use hipe_base::Memory;
use hipe_terms::{Atom, Constant};
use image_link::{AtomTable, Function};
use std::alloc::Global;

// Interns the atoms of a constant, from left to right.
#[cycle(intern)]
#[tactic(auto, using(crate::proofs::Levels::levels))]
fn intern(alloc: Global, c: &Constant, atoms: &mut AtomTable) -> Result<(), Memory>
    ensures { OnOk result (atoms.new ≡ with_atoms_of c.now atoms.old) }
{
    match c {
        Constant::Int(_) => Ok(()),
        Constant::Atom(a) => {
            atoms.intern(alloc, a)?;
            Ok(())
        }
        Constant::Nil => Ok(()),
        Constant::List(parts, tail) => {
            intern_each(alloc, parts.as_slice(), atoms)?;
            intern(alloc, tail.get(), atoms)
        }
        Constant::Tuple(parts) => intern_each(alloc, parts.as_slice(), atoms),
    }
}

#[cycle(intern)]
#[tactic(auto, using(crate::proofs::Levels::levels))]
fn intern_each(alloc: Global, parts: &[Constant], atoms: &mut AtomTable) -> Result<(), Memory>
    ensures { OnOk result (atoms.new ≡ all_interned (map with_atoms_of parts.now) atoms.old) }
{
    for part in parts {
        intern(alloc, part, atoms)?;
    }
    Ok(())
}

// The atom of a text.
fn atom_of(alloc: Global, text: &str) -> Result<Atom, Memory>
    requires { IsAtomText text.now }
    ensures { IfOk result (λ a. encode_utf8_all a ≡ text.now) }
{
    match Atom::new(String::from_str(alloc, text)?) {
        Ok(a) => Ok(a),
        Err(_) => unreachable!(),
    }
}

// The atom with this number.
fn atom_at(alloc: Global, table: &AtomTable, number: u32) -> Result<Atom, Memory>
    requires { number < length table.now }
    ensures { IfOk result (λ a. a ≡ get_or table.now number []) }
{
    let _ = table.len();
    match table.text(number) {
        Some(text) => atom_of(alloc, text),
        None => unreachable!(),
    }
}

// The atoms of a table, by number.
fn atoms_of(alloc: Global, table: &AtomTable) -> Result<Vec<Atom>, Memory>
    ensures { IfOk result (λ atoms. atoms.items ≡ table.now) }
{
    let mut atoms = Vec::new(alloc);
    for number in 0..table.len() {
        atoms.push(atom_at(alloc, table, number)?)?;
    }
    Ok(atoms)
}

// The names of the definitions, which stand before the funs.
fn definitions_of(
    alloc: Global,
    table: &AtomTable,
    functions: &[Function],
) -> Result<Vec<DefinitionName>, Memory>
    requires { All (IsEntry (length table.now)) (map entry_of functions.now) }
    ensures { IfOk result (λ names. map name_of names.items ≡ definitions_of table.now functions.now) }
{
    let mut names = Vec::new(alloc);
    for function in functions {
        let Some(number) = function.name else {
            return Ok(names);
        };
        let name = atom_at(alloc, table, number)?;
        names.push(DefinitionName {
            name,
            arity: function.arity as u64,
        })?;
    }
    Ok(names)
}

// The symbols of a program with these atoms and functions, and of a call with these arguments. The call's atoms that are new are
// interned.
pub(crate) fn symbols_for(
    alloc: Global,
    table: &mut AtomTable,
    functions: &[Function],
    args: &[Constant],
) -> Result<Symbols, Memory>
    requires { All (IsEntry (length table.old)) (map entry_of functions.now) }
    ensures symbols { IfOk result (λ s. symbols_of s ≡ symbols_of_call table.old functions.now args.now) }
    ensures table { OnOk result (table.new ≡ all_interned (map with_atoms_of args.now) table.old) }
{
    let definitions = definitions_of(alloc, table, functions)?;
    intern_each(alloc, args, table)?;
    Ok(Symbols {
        atoms: atoms_of(alloc, table)?,
        definitions,
        functions: functions.len() as u64,
    })
}
