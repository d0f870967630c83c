// The classes of what a program raises.

ghost use Rattle.std.specs.Prelude.{◌≡◌};
ghost use Rattle.hipe_terms.specs.Classes.{class_name, class_number, class_numbered};

/// The class of what a program raises.
#[derive(Clone, Copy, Debug, PartialEq, Eq)]
pub enum Class {
    Error,
    Exit,
    Throw,
}

impl Class {
    /// The class's name, which is the text of its atom.
    pub fn name(self) -> &'static str
        ensures { result.now ≡ class_name self }
    {
        match self {
            Class::Error => "error",
            Class::Exit => "exit",
            Class::Throw => "throw",
        }
    }

    /// The class's number in a register: 1 for `Error`, 2 for `Exit` and 3 for `Throw`.
    pub fn number(self) -> u64
        ensures { result ≡ class_number self }
    {
        match self {
            Class::Error => 1,
            Class::Exit => 2,
            Class::Throw => 3,
        }
    }

    /// The class with this number, if there is one.
    pub fn from_number(number: u64) -> Option<Class>
        ensures { result ≡ class_numbered number }
    {
        match number {
            1 => Some(Class::Error),
            2 => Some(Class::Exit),
            3 => Some(Class::Throw),
            _ => None,
        }
    }
}
