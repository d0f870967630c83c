// The names in scope.

ghost use Rattle.std.specs.Prelude.{◌≡◌, ◌≤◌, ◌∷◌, [], IfOk, OnOk, OnErr, drop, length, map};
ghost use Rattle.std.specs.List.{list_any};
ghost use Rattle.core_lint.specs.Keys.{same_key, key_of};
ghost use Rattle.core_lint.specs.Entries.{entry_of, entered};

use crate::name::{Bound, Name};
use hipe_base::Memory;
use std::alloc::Global;
use std::collections::BTreeSet;
use std::marker::Model;

// A name in scope, and whether it hides an equal one that was in scope before.
#[derive(Clone, Copy, Debug)]
pub struct Entered<'a> {
    pub name: Name<'a>,
    pub hides: bool,
}

/// The names in scope. Contracts see them as a list, the innermost first.
#[derive(Drop)]
pub struct Scope<'a> {
    names: Vec<Entered<'a>>,
    known: BTreeSet<Name<'a>>,
}

impl<'a> Model for Scope<'a> {
    ghost use Rattle.std.specs.Prelude.{ℕ, List, []};

    ghost Value = { List (List ℕ × ℕ) };

    ghost use Rattle.core_lint.specs.Keys.{keys, IsKnown};

    ghost view = { λ s. keys [] s.names.items };

    ghost invariant = { λ s. IsKnown s.names.items s.known };
}

impl<'a> Scope<'a> {
    /// No names.
    pub fn new(alloc: Global) -> Scope<'a>
        ensures { result ≡ [] }
    {
        Scope {
            names: Vec::new(alloc),
            known: BTreeSet::new(alloc),
        }
    }

    /// Whether a name is in scope.
    pub fn contains(&self, name: Name<'a>) -> bool
        ensures { result ≡ list_any (λ k. same_key (key_of name.entry) k) self.now }
    {
        self.known.contains(&name)
    }

    /// Takes a name into scope, as the innermost, and answers whether it was in scope before.
    pub fn enter(&mut self, name: Name<'a>) -> Result<bool, Memory>
        ensures entered { OnOk result (self.new ≡ key_of name.entry ∷ self.old) }
        ensures hides { IfOk result (λ hides. hides ≡ list_any (λ k. same_key (key_of name.entry) k) self.old) }
        ensures err { OnErr result (self.new ≡ self.old) }
    {
        let Ok(new) = self.known.insert(name) else {
            return Err(Memory);
        };
        if self.names.push(Entered { name, hides: !new }).is_err() {
            if new {
                self.known.remove(&name);
            }
            return Err(Memory);
        }
        Ok(!new)
    }

    /// Leaves the scope of the innermost name, if there is one.
    pub fn leave(&mut self)
        ensures { self.new ≡ drop 1 self.old }
    {
        if let Some(last) = self.names.pop() {
            if !last.hides {
                self.known.remove(&last.name);
            }
        }
    }

    // Leaves the scope of all names.
    fn clear(&mut self)
        ensures { self.new ≡ [] }
    {
        self.names.clear();
        self.known.clear();
    }

    /// Takes these names into scope, the first as the innermost.
    #[tactic(auto, using(crate::proofs::Entered::entering))]
    pub fn enter_all(&mut self, list: &[Bound<'a>]) -> Result<(), Memory>
        ensures { OnOk result (self.new ≡ entered (map entry_of list.now) self.old) }
    {
        let mut left = list.len();
        while left > 0 {
            left -= 1;
            self.enter(list[left].name)?;
        }
        Ok(())
    }

    /// Leaves the scope of as many names as these, the innermost first.
    #[tactic(auto, using(crate::proofs::Entered::entering))]
    pub fn leave_all(&mut self, list: &[Bound<'a>])
        ensures { self.new ≡ drop (length (map entry_of list.now)) self.old }
    {
        if list.len() >= self.names.len() {
            self.clear();
            return;
        }
        for _bound in list {
            self.leave();
        }
    }
}
