// What is known of a program where its words are read.

use hipe_terms::Atom;

/// The name and the number of arguments of a definition, by which its funs are shown.
#[derive(Drop)]
pub struct DefinitionName {
    /// The atom of the name.
    pub name: Atom,
    /// How many arguments it takes, 0 to 255.
    pub arity: u64,
}

/// What is known of a program where its words are read. Contracts see it as `symbols_of`.
#[derive(Drop)]
pub struct Symbols {
    /// The atoms by number.
    pub atoms: Vec<Atom>,
    /// The definitions of the module, which are its first functions.
    pub definitions: Vec<DefinitionName>,
    /// How many functions there are, with those of funs.
    pub functions: u64,
}
