// Primitive operations.

ghost use Rattle.std.specs.Prelude.{◌≡◌, ◌∷◌, []};
ghost use Rattle.hipe_terms.specs.Terms.{more, none, tuple, terms};
ghost use Rattle.core_meaning.specs.Meaning.{build_stacktrace, is_function_clause, match_fail, operation, primop, raise, raises_as};
ghost use Rattle.eval_values.specs.Values.{term_in, terms_in};
ghost use Rattle.eval_run.specs.Configurations.{IfOkRuns};

use crate::frame::{Control, Ending};
use crate::run::{Evaluator, Run};
use crate::shapes::{one_of, two_of};
use eval_values::{Shape, Value, same_atom, shape_of};
use hipe_base::Memory;
use hipe_terms::{Atom, Class, Primop};

impl<'a, 'p> Evaluator<'a, 'p> {
    /// The primitive operation with this name.
    #[tactic(auto, unfolding(core_meaning::specs::Meaning::primop))]
    pub fn primop(
        self,
        run: &mut Run<'a>,
        name: &Atom,
        values: &[Value<'a>],
    ) -> Result<Control<'a>, Memory>
        ensures { IfOkRuns self.entry run.old run.new result (λ p s w. primop name.now (terms_in values.now) s w.handler w.next) }
    {
        self.operation(run, Primop::named(name), values)
    }

    // A primitive operation, or none of the name.
    fn operation(
        self,
        run: &mut Run<'a>,
        named: Option<Primop>,
        values: &[Value<'a>],
    ) -> Result<Control<'a>, Memory>
        ensures { IfOkRuns self.entry run.old run.new result (λ p s w. operation named (terms_in values.now) s w.handler w.next) }
    {
        match named {
            Some(Primop::Raise) => self.raises(run, values),
            Some(Primop::MatchFail) => self.match_fail(run, values),
            Some(Primop::BuildStacktrace) => self.build_stacktrace(run, values),
            None => Ok(Control::End(Ending::Stuck)),
        }
    }

    // `raise`: the class and the reason.
    #[tactic(auto, using(crate::proofs::Steps::raising))]
    fn raises(self, run: &mut Run<'a>, values: &[Value<'a>]) -> Result<Control<'a>, Memory>
        ensures { IfOkRuns self.entry run.old run.new result (λ p s w. raise (terms_in values.now) s w.handler) }
    {
        match two_of(values) {
            Some((class, reason)) => self.raises_as(run, self.class_of(class), reason),
            None => Ok(Control::End(Ending::Stuck)),
        }
    }

    fn raises_as(
        self,
        run: &mut Run<'a>,
        class: Option<Class>,
        reason: Value<'a>,
    ) -> Result<Control<'a>, Memory>
        ensures { IfOkRuns self.entry run.old run.new result (λ p s w. raises_as class (term_in reason.entry) s w.handler) }
    {
        match class {
            Some(class) => Ok(Control::Raise(class, reason)),
            None => self.fails(run, &self.arena.atoms.badarg),
        }
    }

    // `match_fail`: the reason, which stands in a tuple where no clause of a function matched.
    #[tactic(auto, using(crate::proofs::Steps::failing))]
    fn match_fail(self, run: &mut Run<'a>, values: &[Value<'a>]) -> Result<Control<'a>, Memory>
        ensures { IfOkRuns self.entry run.old run.new result (λ p s w. match_fail (terms_in values.now) s w.handler) }
    {
        match one_of(values) {
            Some(reason) => self.match_fails(run, reason),
            None => Ok(Control::End(Ending::Stuck)),
        }
    }

    fn match_fails(self, run: &mut Run<'a>, reason: Value<'a>) -> Result<Control<'a>, Memory>
        ensures { IfOkRuns self.entry run.old run.new result (λ p s w. match_fail (term_in reason.entry ∷ []) s w.handler) }
    {
        if self.is_function_clause(reason) {
            self.fails(run, &self.arena.atoms.function_clause)
        } else {
            Ok(Control::Raise(Class::Error, reason))
        }
    }

    fn is_function_clause(self, reason: Value<'a>) -> bool
        ensures { result ≡ is_function_clause (term_in reason.entry) }
    {
        match shape_of(reason) {
            Shape::Tuple(parts) => self.begins_with_function_clause(parts),
            Shape::Int(_) | Shape::Atom(_) => false,
            Shape::Nil | Shape::Cons(_, _) => false,
            Shape::Fun(_, _) => false,
        }
    }

    // Whether the tuple of these elements begins with the atom.
    #[tactic(auto, using(crate::proofs::Steps::first_elements))]
    fn begins_with_function_clause(self, parts: &[Value<'a>]) -> bool
        ensures { result ≡ is_function_clause (tuple (terms (terms_in parts.now))) }
    {
        if parts.len() == 0 {
            return false;
        }
        self.is_the_atom(parts[0])
    }

    // Whether a tuple of this value begins with the atom.
    fn is_the_atom(self, value: Value<'a>) -> bool
        ensures { result ≡ is_function_clause (tuple (more (term_in value.entry) none)) }
    {
        match shape_of(value) {
            Shape::Atom(a) => same_atom(a, &self.arena.atoms.function_clause),
            Shape::Int(_) | Shape::Nil => false,
            Shape::Cons(_, _) | Shape::Tuple(_) => false,
            Shape::Fun(_, _) => false,
        }
    }

    // `build_stacktrace`: there are no traces.
    #[tactic(auto, using(crate::proofs::Steps::tracing, eval_values::proofs::Made::made))]
    fn build_stacktrace(
        self,
        run: &mut Run<'a>,
        values: &[Value<'a>],
    ) -> Result<Control<'a>, Memory>
        ensures { IfOkRuns self.entry run.old run.new result (λ p s w. build_stacktrace (terms_in values.now) s w.next) }
    {
        match one_of(values) {
            Some(_) => Ok(Control::Value(Value::Nil)),
            None => Ok(Control::End(Ending::Stuck)),
        }
    }
}
