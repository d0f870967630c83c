// The image and its functions.

ghost use Rattle.std.specs.Prelude.{◌≡◌};
ghost use Rattle.image_link.specs.Image.{IsImage};

use crate::atoms::AtomTable;
use std::marker::Model;

/// A function of an image.
#[derive(Clone, Copy, PartialEq, Eq, Debug)]
pub struct Function {
    /// The number of the atom that names a definition of the module; `None` for a fun.
    pub name: Option<u32>,

    /// How many arguments it takes.
    pub arity: u8,

    /// How many values it captures; 0 for a definition.
    pub captured: u16,

    /// Where its closure entry stands in the code.
    pub closure_entry: u32,
}

/// A program that can be run: its names and its linked code.
///
/// It keeps the rules of its fields, which `rules` says.
#[derive(Drop)]
pub struct Image {
    pub(crate) atoms: AtomTable,
    pub(crate) module: u32,
    pub(crate) functions: Vec<Function>,
    pub(crate) exports: Vec<u32>,
    pub(crate) code: Vec<u8>,
}

impl Model for Image {
    ghost use Rattle.image_link.specs.Image.{ProgramImage, IsImage};

    ghost Value = { ProgramImage };

    ghost view = { λ i. record { atoms = i.atoms; module_atom = i.module; functions = i.functions.items; exports = i.exports.items; code = i.code.items } };

    ghost invariant = { λ i. IsImage (record { atoms = i.atoms; module_atom = i.module; functions = i.functions.items; exports = i.exports.items; code = i.code.items }) };
}

/// What an image is made of.
#[derive(Drop)]
pub struct ImageParts {
    /// The atoms.
    pub atoms: AtomTable,

    /// The number of the atom that names the module.
    pub module: u32,

    /// The functions, by their numbers.
    pub functions: Vec<Function>,

    /// The numbers of the exported definitions, ascending.
    pub exports: Vec<u32>,

    /// The code, which begins with the exit part.
    pub code: Vec<u8>,
}

impl Image {
    /// The code, which begins with the exit part.
    pub fn code(&self) -> &[u8]
        ensures { result.now ≡ self.now.code }
    {
        self.code.as_slice()
    }

    /// The atoms.
    pub fn atoms(&self) -> &AtomTable
        ensures { result.now ≡ self.now.atoms }
    {
        &self.atoms
    }

    /// The number of the atom that names the module.
    pub fn module(&self) -> u32
        ensures { result ≡ self.now.module_atom }
    {
        self.module
    }

    /// The functions, by their numbers.
    pub fn functions(&self) -> &[Function]
        ensures { result.now ≡ self.now.functions }
    {
        self.functions.as_slice()
    }

    /// The numbers of the exported definitions, ascending.
    pub fn exports(&self) -> &[u32]
        ensures { result.now ≡ self.now.exports }
    {
        self.exports.as_slice()
    }

    /// Its fields keep their rules.
    pub fn rules(&self)
        ensures { IsImage self.now }
    {
        let _ = &self.code;
    }

    /// What it is made of, without copying.
    pub fn into_parts(self) -> ImageParts
        ensures atoms { result.atoms ≡ self.atoms }
        ensures module_atom { result.module ≡ self.module_atom }
        ensures functions { result.functions.items ≡ self.functions }
        ensures exports { result.exports.items ≡ self.exports }
        ensures code { result.code.items ≡ self.code }
        ensures rules { IsImage self }
    {
        let Image {
            atoms,
            module,
            functions,
            exports,
            code,
        } = self;
        ImageParts {
            atoms,
            module,
            functions,
            exports,
            code,
        }
    }
}
