// Names of variables.

ghost use Rattle.std.specs.Prelude.{◌≡◌, string_bytes};

use std::marker::Model;

/// The name of a variable. Contracts see it as the list of its bytes.
#[derive(Debug, Drop)]
pub struct VariableName {
    text: String,
}

impl Model for VariableName {
    ghost use Rattle.std.specs.Prelude.{ℕ, List, string_bytes};

    ghost Value = { List ℕ };

    ghost view = { λ name. string_bytes name.text };
}

impl VariableName {
    /// The name that a text spells.
    pub fn new(text: String) -> VariableName
        ensures { result ≡ string_bytes text }
    {
        VariableName { text }
    }

    /// The text.
    pub fn as_str(&self) -> &str
        ensures { result.now ≡ self.now }
    {
        self.text.as_str()
    }
}
