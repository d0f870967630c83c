// A program that is read from lines.

use crate::conditions::{are_definitions, can_export, can_link};
use hipe_base::Memory;
use hipe_terms::Atom;
use image_link::{CallSite, Code, Image, LinkFault, Names, image_bytes, link};
use sqlite_items::Items;
use std::alloc::Global;

/// What a command writes, where it isn't refused.
pub type Answer = anyhow::Result<Option<String>>;

/// The first word of a text, and the rest behind the blank.
pub(crate) fn first_and_rest(text: &str) -> (&str, &str) {
    match text.split_once(" ") {
        Some(parts) => parts,
        None => (text, ""),
    }
}

/// A number as an answer.
pub(crate) fn numbered(alloc: Global, number: u32) -> Answer {
    Ok(Some(format!(in alloc; "{number}")?))
}

// The atom of a text that isn't too long.
fn atom(alloc: Global, text: &str) -> Result<Option<Atom>, Memory> {
    Ok(Atom::new(String::from_str(alloc, text)?).ok())
}

// A call.
fn call(word: &str) -> Option<CallSite> {
    let (at, target) = word.split_once(":")?;
    Some(CallSite {
        at: at.parse::<u32>().ok()?,
        target: target.parse::<u32>().ok()?,
    })
}

// The calls of these words.
fn calls(alloc: Global, words: &str) -> Result<Option<Items<CallSite>>, Memory> {
    let mut calls = Vec::new(alloc);
    for word in words.split_whitespace() {
        let Some(call) = call(word) else {
            return Ok(None);
        };
        calls.push(call)?;
    }
    Ok(Some(Items::from_vec(calls)))
}

// The code of these words.
fn code(alloc: Global, words: &str) -> anyhow::Result<Option<Code>> {
    let (entry, words) = first_and_rest(words);
    let (digits, words) = first_and_rest(words);
    let (Ok(closure_entry), Some(calls)) = (entry.parse::<u32>(), calls(alloc, words)?) else {
        return Ok(None);
    };
    Ok(Some(Code {
        bytes: Items::from_vec(hex::decode(alloc, digits.as_bytes())?),
        calls,
        closure_entry,
    }))
}

// An image: its bytes, and how much of what it is made of.
fn shown(alloc: Global, image: Image) -> Answer {
    let digits = hex::encode(alloc, image_bytes(alloc, &image)?.as_slice())?;
    let parts = image.into_parts();
    let module = parts.module;
    let atoms = parts.atoms.len();
    let functions = parts.functions.len();
    let exports = parts.exports.len();
    let bytes = parts.code.len();
    Ok(Some(format!(in alloc;
        "{digits}\nmodule {module} atoms {atoms} functions {functions} exports {exports} code {bytes}"
    )?))
}

/// The names of a program, and the code of its functions.
#[derive(Drop)]
pub struct Program {
    names: Names,
    parts: Vec<Code>,
}

impl Program {
    /// A program of the module of this name.
    pub(crate) fn new(alloc: Global, name: &str) -> Result<Option<Program>, Memory> {
        let Some(name) = atom(alloc, name)? else {
            return Ok(None);
        };
        Ok(Some(Program {
            names: Names::new(alloc, &name)?,
            parts: Vec::new(alloc),
        }))
    }

    /// The number of the module's name.
    pub(crate) fn module(&self) -> u32 {
        self.names.module()
    }

    /// Interns an atom.
    pub(crate) fn atom(&mut self, alloc: Global, text: &str) -> Answer {
        let Some(atom) = atom(alloc, text)? else {
            return Ok(None);
        };
        numbered(alloc, self.names.intern(alloc, &atom)?)
    }

    /// The number of an atom.
    pub(crate) fn number(&self, alloc: Global, text: &str) -> Answer {
        let Some(atom) = atom(alloc, text)? else {
            return Ok(None);
        };
        match self.names.atoms().number(&atom) {
            Some(number) => numbered(alloc, number),
            None => Ok(Some(String::from_str(alloc, "none")?)),
        }
    }

    /// The atom of a number.
    pub(crate) fn text(&self, alloc: Global, number: &str) -> Answer {
        let Ok(number) = number.parse::<u32>() else {
            return Ok(None);
        };
        let text = self.names.atoms().text(number).unwrap_or("none");
        Ok(Some(String::from_str(alloc, text)?))
    }

    /// Adds a definition of the module.
    pub(crate) fn definition(&mut self, alloc: Global, words: &str) -> Answer {
        let (name, words) = first_and_rest(words);
        let (arity, words) = first_and_rest(words);
        let (Some(name), Ok(arity)) = (atom(alloc, name)?, arity.parse::<u8>()) else {
            return Ok(None);
        };
        let Some(code) = code(alloc, words)? else {
            return Ok(None);
        };
        let name = self.names.intern(alloc, &name)?;
        if !are_definitions(self.names.functions()) {
            return Ok(None);
        }
        let number = self.names.add_definition(name, arity)?;
        self.parts.push(code)?;
        numbered(alloc, number)
    }

    /// Adds a fun.
    pub(crate) fn fun(&mut self, alloc: Global, words: &str) -> Answer {
        let (arity, words) = first_and_rest(words);
        let (captured, words) = first_and_rest(words);
        let (Ok(arity), Ok(captured)) = (arity.parse::<u8>(), captured.parse::<u16>()) else {
            return Ok(None);
        };
        let Some(code) = code(alloc, words)? else {
            return Ok(None);
        };
        let number = self.names.add_fun(arity, captured)?;
        self.parts.push(code)?;
        numbered(alloc, number)
    }

    /// Exports a definition.
    pub(crate) fn export(&mut self, alloc: Global, number: &str) -> Answer {
        let Ok(number) = number.parse::<u32>() else {
            return Ok(None);
        };
        if !can_export(&self.names, number) {
            return Ok(None);
        }
        self.names.export(number)?;
        numbered(alloc, number)
    }

    /// Links it.
    pub(crate) fn link(self, alloc: Global) -> Answer {
        let Program { names, parts } = self;
        if !can_link(parts.as_slice(), names.functions()) {
            return Ok(None);
        }
        match link(alloc, parts, names) {
            Ok(image) => shown(alloc, image),
            Err(LinkFault::TooLarge { bytes }) => {
                Ok(Some(format!(in alloc; "too large: {bytes}")?))
            }
            Err(LinkFault::Memory) => Err(anyhow::anyhow!("out of memory")),
        }
    }
}
