// A table of atoms with their numbers.

ghost use Rattle.std.specs.Prelude.{◌≡◌, ◌<◌, ◌≤◌, ◌*◌, ◌^◌, ◌++◌, All, string_bytes, IfOk, OnOk, OnErr, bytes_eq, chars, encode_utf8_all, length, option_map, slice_get};
ghost use Rattle.std.specs.List.{IsDistinct};
ghost use Rattle.std.specs.Option.{option_copied};
ghost use Rattle.image_link.specs.Atoms.{Atoms, IsAtomTable, all_interned, atoms_of, first_atoms, interned, number_in, number_of};

use hipe_base::Memory;
use hipe_base::limits::ATOM_LIMIT;
use hipe_terms::Atom;
use indexmap::IndexSet;
use std::alloc::Global;
use std::marker::Model;

// The atoms of every program, in the order of their numbers.
const FIRST: [&str; 14] = [
    "true",
    "false",
    "error",
    "exit",
    "throw",
    "badarith",
    "badarg",
    "system_limit",
    "undef",
    "case_clause",
    "function_clause",
    "badfun",
    "badarity",
    "EXIT",
];

// Puts a text at the end, where it is new.
fn insert(alloc: Global, texts: &mut IndexSet<String>, text: &str) -> Result<(), Memory>
    ensures ok { OnOk result (atoms_of texts.new.keys ≡ interned (chars text.now) (atoms_of texts.old.keys)) }
    ensures distinct { OnOk result (IsDistinct bytes_eq (atoms_of texts.new.keys)) }
    ensures err { OnErr result (texts.new.keys ≡ texts.old.keys) }
{
    let text = String::from_str(alloc, text)?;
    texts.insert(text)?;
    Ok(())
}

// Puts these texts at the end, in their order, those that are new.
#[tactic(auto, unfolding(crate::specs::Atoms::all_interned))]
fn insert_all(alloc: Global, texts: &mut IndexSet<String>, list: &[&str]) -> Result<(), Memory>
    requires { IsDistinct bytes_eq (atoms_of texts.old.keys) }
    ensures ok { OnOk result (atoms_of texts.new.keys ≡ all_interned list.now (atoms_of texts.old.keys)) }
    ensures distinct { OnOk result (IsDistinct bytes_eq (atoms_of texts.new.keys)) }
{
    for text in list {
        insert(alloc, texts, *text)?;
    }
    Ok(())
}

/// The atoms of a program by their numbers, from 0 on. Contracts see them as their list.
///
/// The first fourteen are in every table: `true false error exit throw badarith badarg system_limit undef case_clause
/// function_clause badfun badarity EXIT`. No two are equal, and there are fewer than 2^32.
#[derive(Drop)]
pub struct AtomTable {
    texts: IndexSet<String>,
}

impl Model for AtomTable {
    ghost use Rattle.std.specs.Prelude.{ℕ, List};
    ghost use Rattle.image_link.specs.Atoms.{IsAtomTable, atoms_of};

    ghost Value = { List (List ℕ) };

    ghost view = { λ t. atoms_of t.texts.keys };

    ghost invariant = { λ t. IsAtomTable (atoms_of t.texts.keys) };
}

impl AtomTable {
    /// The fourteen atoms of every program.
    ///
    /// # Errors
    ///
    /// `Memory` where there was no memory for them.
    pub fn new(alloc: Global) -> Result<AtomTable, Memory>
        ensures atoms { IfOk result (λ t. t ≡ first_atoms) }
        ensures rules { IfOk result (λ t. IsAtomTable t) }
    {
        let mut texts = IndexSet::new(alloc);
        insert_all(alloc, &mut texts, &FIRST)?;
        Ok(AtomTable { texts })
    }

    /// The number of an atom. It goes last where it isn't in the table yet, so numbers are in the order of first sight.
    ///
    /// # Errors
    ///
    /// `Memory` where there was no memory for one more, or where there are 2^32 - 1 already. The table is as before.
    pub fn intern(&mut self, alloc: Global, atom: &Atom) -> Result<u32, Memory>
        ensures number { IfOk result (λ n. n ≡ number_in atom.now self.old) }
        ensures ok { OnOk result (self.new ≡ interned atom.now self.old) }
        ensures err { OnErr result (self.new ≡ self.old) }
        ensures within { IfOk result (λ n. n < length self.new) }
        // Numbers that were given stay.
        ensures kept { (more : Atoms) × (self.new ≡ self.old ++ more) }
        ensures rules { IsAtomTable self.new }
    {
        if let Some(at) = self.texts.get_index_of(atom.as_str()) {
            return Ok(at as u32);
        }
        atom.keeps_limit();
        let at = self.len();
        if at == u32::MAX {
            return Err(Memory);
        }
        insert(alloc, &mut self.texts, atom.as_str())?;
        Ok(at)
    }

    /// The number of an atom, where it is in the table.
    pub fn number(&self, atom: &Atom) -> Option<u32>
        ensures { result ≡ number_of atom.now self.now }
    {
        let at = self.texts.get_index_of(atom.as_str())?;
        Some(at as u32)
    }

    /// The text of the atom with this number, in UTF-8, where there is one.
    pub fn text(&self, number: u32) -> Option<&str>
        ensures { option_copied result ≡ option_map encode_utf8_all (slice_get self.now number) }
    {
        let text = self.texts.get_index(number as usize)?;
        Some(text.as_str())
    }

    // The texts of the atoms, by their numbers.
    pub(crate) fn texts(&self) -> &[String]
        ensures atoms { atoms_of result.now ≡ self.now }
        ensures short { All (λ text. length (string_bytes text) ≤ 4 * ATOM_LIMIT) result.now }
        ensures count { length result.now < 2 ^ 32 }
    {
        self.texts.as_slice()
    }

    /// How many atoms there are.
    pub fn len(&self) -> u32
        ensures len { result ≡ length self.now }
        ensures rules { IsAtomTable self.now }
    {
        self.texts.len() as u32
    }
}
