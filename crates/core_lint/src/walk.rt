// What the walk through the scopes knows.

ghost use Rattle.std.specs.Prelude.{◌≡◌, [], OnOk, map};
ghost use Rattle.core_lint.specs.Entries.{entry_of, is_some_wanted};
ghost use Rattle.core_lint.specs.Walks.{used_variable, used_function, bound as bound_of, entered_variables, left_variables, entered_functions, left_functions};

use crate::binding::{function, variable};
use crate::broken::{is_wanted, note_unless};
use crate::name::Bound;
use crate::scope::Scope;
use core_ast::{Broken, FunName, Place, Rule, VariableName};
use hipe_base::Memory;
use std::alloc::Global;

// Whether the rule could be the first broken one at some of these places.
fn is_some_wanted(rule: Rule, list: &[Bound<'_>], first: Option<Broken>) -> bool
    ensures { result ≡ is_some_wanted rule list.now first }
{
    for bound in list {
        if is_wanted(rule, bound.at, first) {
            return true;
        }
    }
    false
}

/// The names in scope, and the first broken rule so far.
#[derive(Drop)]
pub struct Walk<'a> {
    pub variables: Scope<'a>,
    pub functions: Scope<'a>,
    pub first: Option<Broken>,
}

impl<'a> Walk<'a> {
    /// A variable is used at this place.
    #[tactic(auto, using(crate::proofs::Wanted::wanted))]
    pub fn use_variable(&mut self, x: &'a VariableName, at: Place)
        ensures { self.new ≡ used_variable x.now at self.old }
    {
        if is_wanted(Rule::UnboundVariable, at, self.first) {
            let holds = self.variables.contains(variable(x));
            note_unless(holds, Rule::UnboundVariable, at, &mut self.first);
        }
    }

    /// A function is named at this place. The rule is broken unless it is in scope.
    #[tactic(auto, using(crate::proofs::Wanted::wanted))]
    pub fn use_function(&mut self, rule: Rule, f: &'a FunName, at: Place)
        ensures { self.new ≡ used_function rule f.now at self.old }
    {
        if is_wanted(rule, at, self.first) {
            let holds = self.functions.contains(function(f));
            note_unless(holds, rule, at, &mut self.first);
        }
    }

    /// These names are bound together. The rule is broken at each that is the same as an earlier one.
    #[tactic(auto, using(crate::proofs::Wanted::wanted))]
    pub fn bind(&mut self, alloc: Global, rule: Rule, list: &[Bound<'a>]) -> Result<(), Memory>
        ensures { OnOk result (self.new ≡ bound_of rule (map entry_of list.now) self.old) }
    {
        if list.len() < 2 || !is_some_wanted(rule, list, self.first) {
            return Ok(());
        }
        let mut seen = Scope::new(alloc);
        for bound in list {
            let repeated = seen.enter(bound.name)?;
            note_unless(!repeated, rule, bound.at, &mut self.first);
        }
        Ok(())
    }

    /// These variables are in scope from here on.
    pub fn enter_variables(&mut self, list: &[Bound<'a>]) -> Result<(), Memory>
        ensures { OnOk result (self.new ≡ entered_variables (map entry_of list.now) self.old) }
    {
        self.variables.enter_all(list)
    }

    /// As many variables as these are in scope no longer.
    pub fn leave_variables(&mut self, list: &[Bound<'a>])
        ensures { self.new ≡ left_variables (map entry_of list.now) self.old }
    {
        self.variables.leave_all(list);
    }

    /// These functions are in scope from here on.
    pub fn enter_functions(&mut self, list: &[Bound<'a>]) -> Result<(), Memory>
        ensures { OnOk result (self.new ≡ entered_functions (map entry_of list.now) self.old) }
    {
        self.functions.enter_all(list)
    }

    /// As many functions as these are in scope no longer.
    pub fn leave_functions(&mut self, list: &[Bound<'a>])
        ensures { self.new ≡ left_functions (map entry_of list.now) self.old }
    {
        self.functions.leave_all(list);
    }
}
