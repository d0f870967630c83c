// Atoms: names that stand for themselves.

ghost use Rattle.std.specs.Prelude.{◌≡◌, ◌≤◌, ◌<◌, length, chars, string_bytes, encode_utf8_all, nat_lt, true, bytes_eq, MatchResult, IfOk};
ghost use Rattle.std.specs.List.{list_all};
ghost use Rattle.std.specs.Ordering.{nat_cmp};
ghost use Rattle.std.specs.Cmp.Lexicographic.{slice_cmp};

use hipe_base::Memory;
use hipe_base::limits::ATOM_LIMIT;
use std::alloc::Global;
use std::cmp::Ordering;
use std::marker::Model;

/// An atom: a text of at most 255 code points, which its type keeps. Contracts see it as the list of its code points.
#[derive(Debug, Drop)]
pub struct Atom {
    text: String,
}

impl Model for Atom {
    ghost use Rattle.std.specs.Prelude.{ℕ, ◌≤◌, List, length, chars, string_bytes};
    ghost use Rattle.hipe_base.specs.declared.limits.TheConstants.{ATOM_LIMIT};

    ghost Value = { List ℕ };

    ghost view = { λ a. chars (string_bytes a.text) };

    ghost invariant = { λ a. length (chars (string_bytes a.text)) ≤ ATOM_LIMIT };
}

// How many code points a text has.
fn code_points(text: &str) -> usize
    ensures { result ≡ length (chars text.now) }
{
    text.chars().count()
}

impl Atom {
    /// The atom of a text, or the text where it has more than 255 code points.
    pub fn new(text: String) -> Result<Atom, String>
        ensures { MatchResult result (λ a. a ≡ chars (string_bytes text)) (λ back. (back ≡ text) × (ATOM_LIMIT < length (chars (string_bytes text)))) }
    {
        if code_points(text.as_str()) <= ATOM_LIMIT {
            Ok(Atom { text })
        } else {
            Err(text)
        }
    }

    /// The text.
    pub fn as_str(&self) -> &str
        ensures { result.now ≡ encode_utf8_all self.now }
    {
        self.text.as_str()
    }

    /// Whether the atom has this text of ASCII. It takes no memory.
    pub fn has_text(&self, text: &str) -> bool
        requires { list_all (λ b. nat_lt b 128) text.now ≡ true }
        ensures { result ≡ bytes_eq self.now text.now }
    {
        self.as_str() == text
    }

    /// Every atom has at most `ATOM_LIMIT` code points.
    pub fn keeps_limit(&self)
        ensures { length self.now ≤ ATOM_LIMIT }
    {
        let _ = &self.text;
    }

    /// The code points. An error where there is no memory for them.
    pub fn code_points(&self, alloc: Global) -> Result<Vec<char>, Memory>
        ensures { IfOk result (λ points. points.items ≡ self.now) }
    {
        self.text.chars().collect(alloc)
    }

    /// The order of two atoms, by code points. It takes no memory.
    pub fn order(&self, other: &Atom) -> Ordering
        ensures { result ≡ slice_cmp nat_cmp self.now other.now }
    {
        self.text.chars().cmp(other.text.chars())
    }
}
