// The names of a program.

ghost use Rattle.std.specs.Prelude.{◌≡◌, ◌<◌, IfOk, OnOk, OnErr, All, length};
ghost use Rattle.image_link.specs.Atoms.{number_in};
ghost use Rattle.image_link.specs.Names.{AreNames, IsDefinition, IsEntry, NamesDefinition, names_for, with_atom, with_export, with_function};

use crate::atoms::AtomTable;
use hipe_base::Memory;
use hipe_terms::Atom;
use std::alloc::Global;
use std::marker::Model;

/// A function of a program.
#[derive(Clone, Copy, PartialEq, Eq, Debug)]
pub struct FunctionEntry {
    /// The number of the atom that names a definition of the module; `None` for a fun.
    pub name: Option<u32>,

    /// How many arguments it takes.
    pub arity: u8,

    /// How many values it captures; 0 for a definition.
    pub captured: u16,
}

/// The names of a program: the module's name, its atoms, its functions and which of them are exported.
///
/// Functions are numbered from 0 on, definitions of the module before funs. The exported ones are named by their numbers, in
/// ascending order.
#[derive(Drop)]
pub struct Names {
    pub(crate) atoms: AtomTable,
    pub(crate) module: u32,
    pub(crate) functions: Vec<FunctionEntry>,
    pub(crate) exports: Vec<u32>,
}

impl Model for Names {
    ghost use Rattle.image_link.specs.Names.{ProgramNames, AreNames};

    ghost Value = { ProgramNames };

    ghost view = { λ n. record { atoms = n.atoms; module_atom = n.module; functions = n.functions.items; exports = n.exports.items } };

    ghost invariant = { λ n. AreNames (record { atoms = n.atoms; module_atom = n.module; functions = n.functions.items; exports = n.exports.items }) };
}

impl Names {
    /// The names of a module before its atoms and functions are known: the atoms of every program, and the module's name where it
    /// is none of these.
    ///
    /// # Errors
    ///
    /// `Memory` where there was no memory for them.
    pub fn new(alloc: Global, module_name: &Atom) -> Result<Names, Memory>
        ensures { IfOk result (λ n. n ≡ names_for module_name.now) }
    {
        let mut atoms = AtomTable::new(alloc)?;
        let module = atoms.intern(alloc, module_name)?;
        Ok(Names {
            atoms,
            module,
            functions: Vec::new(alloc),
            exports: Vec::new(alloc),
        })
    }

    /// The number of an atom, which is appended where it is new.
    ///
    /// # Errors
    ///
    /// `Memory` where there was no memory for one more, or where there are 2^32 - 1 already. The names are as before.
    pub fn intern(&mut self, alloc: Global, atom: &Atom) -> Result<u32, Memory>
        ensures number { IfOk result (λ n. n ≡ number_in atom.now self.old.atoms) }
        ensures within { IfOk result (λ n. n < length self.new.atoms) }
        ensures ok { OnOk result (self.new ≡ with_atom atom.now self.old) }
        ensures err { OnErr result (self.new ≡ self.old) }
    {
        self.atoms.intern(alloc, atom)
    }

    /// Adds a definition of the module, and gives its number. Definitions stand before funs.
    ///
    /// # Errors
    ///
    /// `Memory` where there was no memory for one more, or where there are 2^32 - 1 functions already. The names are as before.
    pub fn add_definition(&mut self, name: u32, arity: u8) -> Result<u32, Memory>
        requires name { name < length self.old.atoms }
        requires order { All IsDefinition self.old.functions }
        ensures number { IfOk result (λ n. n ≡ length self.old.functions) }
        ensures ok { OnOk result (self.new ≡ with_function (record { name = Some name; arity = arity; captured = 0 }) self.old) }
        ensures err { OnErr result (self.new ≡ self.old) }
    {
        self.add(FunctionEntry {
            name: Some(name),
            arity,
            captured: 0,
        })
    }

    /// Adds a fun, and gives its number.
    ///
    /// # Errors
    ///
    /// `Memory` where there was no memory for one more, or where there are 2^32 - 1 functions already. The names are as before.
    pub fn add_fun(&mut self, arity: u8, captured: u16) -> Result<u32, Memory>
        ensures number { IfOk result (λ n. n ≡ length self.old.functions) }
        ensures ok { OnOk result (self.new ≡ with_function (record { name = None; arity = arity; captured = captured }) self.old) }
        ensures err { OnErr result (self.new ≡ self.old) }
    {
        self.add(FunctionEntry {
            name: None,
            arity,
            captured,
        })
    }

    // Adds a function, and gives its number.
    fn add(&mut self, function: FunctionEntry) -> Result<u32, Memory>
        requires entry { IsEntry (length self.old.atoms) function }
        requires order { IsDefinition function → All IsDefinition self.old.functions }
        ensures number { IfOk result (λ n. n ≡ length self.old.functions) }
        ensures ok { OnOk result (self.new ≡ with_function function self.old) }
        ensures err { OnErr result (self.new ≡ self.old) }
    {
        let number = self.functions.len();
        if number >= u32::MAX as usize {
            return Err(Memory);
        }
        self.functions.push(function)?;
        Ok(number as u32)
    }

    /// Exports a definition, whose number is above those that are exported already.
    ///
    /// # Errors
    ///
    /// `Memory` where there was no memory for one more. The names are as before.
    pub fn export(&mut self, function: u32) -> Result<(), Memory>
        requires definition { NamesDefinition self.old.functions function }
        requires order { All (λ e. e < function) self.old.exports }
        ensures ok { OnOk result (self.new ≡ with_export function self.old) }
        ensures err { OnErr result (self.new ≡ self.old) }
    {
        self.exports.push(function)?;
        Ok(())
    }

    /// The atoms.
    pub fn atoms(&self) -> &AtomTable
        ensures { result.now ≡ self.now.atoms }
    {
        &self.atoms
    }

    /// The number of the atom that names the module.
    pub fn module(&self) -> u32
        ensures { result ≡ self.now.module_atom }
    {
        self.module
    }

    /// The functions, by their numbers.
    pub fn functions(&self) -> &[FunctionEntry]
        ensures functions { result.now ≡ self.now.functions }
        ensures rules { AreNames self.now }
    {
        self.functions.as_slice()
    }

    /// The numbers of the exported definitions, ascending.
    pub fn exports(&self) -> &[u32]
        ensures { result.now ≡ self.now.exports }
    {
        self.exports.as_slice()
    }
}
