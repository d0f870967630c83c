// Values and errors that a run makes.

ghost use Rattle.std.specs.Prelude.{◌≡◌, ◌∷◌, [], length, IfOk};
ghost use Rattle.hipe_terms.specs.declared.class.Class.TheVariants.{Error, Exit, Throw};
ghost use Rattle.hipe_terms.specs.Terms.{atom, tuple, terms};
ghost use Rattle.hipe_terms.specs.Words.{tuple_words};
ghost use Rattle.core_meaning.specs.Meaning.{caught, class_atom, class_of, is_true, pair};
ghost use Rattle.core_meaning.specs.Source.{unlimited};
ghost use Rattle.eval_values.specs.Values.{term_in, terms_in};
ghost use Rattle.eval_run.specs.Counting.{more_words};
ghost use Rattle.eval_run.specs.Configurations.{IfOkRuns, gives_list};

use crate::frame::Control;
use crate::run::{Evaluator, Run};
use eval_procedures::add;
use eval_values::{Shape, Value, cells, same_atom, shape_of, tuple};
use hipe_base::Memory;
use hipe_terms::{Atom, Class};

impl<'a, 'p> Evaluator<'a, 'p> {
    /// A tuple of two values. Its words are counted by the caller.
    pub fn pair(self, a: Value<'a>, b: Value<'a>) -> Result<Value<'a>, Memory>
        ensures { IfOk result (λ v. term_in v ≡ pair (term_in a.entry) (term_in b.entry)) }
    {
        tuple(&self.arena.bump, &[a, b])
    }

    /// A pair of an atom and a value.
    #[tactic(auto, using(eval_values::proofs::Made::made))]
    pub fn tagged(self, name: &'a Atom, value: Value<'a>) -> Result<Value<'a>, Memory>
        ensures { IfOk result (λ v. term_in v ≡ pair (atom name.now) (term_in value.entry)) }
    {
        self.pair(Value::Atom(name), value)
    }

    /// An error with an atom as its reason is raised.
    #[tactic(auto, using(eval_values::proofs::Made::made))]
    pub fn fails(self, run: &mut Run<'a>, reason: &'a Atom) -> Result<Control<'a>, Memory>
        ensures { IfOkRuns self.entry run.old run.new result (λ p s w. w.handler Error (atom reason.now) s) }
    {
        Ok(Control::Raise(Class::Error, Value::Atom(reason)))
    }

    /// A tuple is made.
    pub fn makes_tuple(
        self,
        run: &mut Run<'a>,
        elements: &[Value<'a>],
    ) -> Result<Control<'a>, Memory>
        ensures { IfOkRuns self.entry run.old run.new result (λ p s w. w.next (tuple (terms (terms_in elements.now)) ∷ []) (more_words (tuple_words (length elements.now)) s)) }
    {
        run.builds(add(elements.len() as u64, 1)?)?;
        Ok(Control::Value(tuple(&self.arena.bump, elements)?))
    }

    /// A list is made of these elements and this tail.
    #[tactic(auto, using(crate::proofs::Primitives::doubles))]
    pub fn makes_list(
        self,
        run: &mut Run<'a>,
        elements: &[Value<'a>],
        tail: Value<'a>,
    ) -> Result<Control<'a>, Memory>
        ensures { IfOkRuns self.entry run.old run.new result (λ p s w. gives_list elements.now tail.entry s w) }
    {
        let count = elements.len() as u64;
        run.builds(add(count, count)?)?;
        Ok(Control::Value(cells(&self.arena.bump, elements, tail)?))
    }

    /// The atom of a class.
    #[tactic(auto, using(eval_values::proofs::Made::made))]
    pub fn class_atom(self, class: Class) -> Value<'a>
        ensures { term_in result ≡ class_atom class }
    {
        match class {
            Class::Error => Value::Atom(&self.arena.atoms.error),
            Class::Exit => Value::Atom(&self.arena.atoms.exit),
            Class::Throw => Value::Atom(&self.arena.atoms.throw),
        }
    }

    /// The class that an atom names.
    pub fn class_of(self, value: Value<'a>) -> Option<Class>
        ensures { result ≡ class_of (term_in value.entry) }
    {
        match shape_of(value) {
            Shape::Atom(a) => {
                if same_atom(a, &self.arena.atoms.error) {
                    Some(Class::Error)
                } else if same_atom(a, &self.arena.atoms.exit) {
                    Some(Class::Exit)
                } else if same_atom(a, &self.arena.atoms.throw) {
                    Some(Class::Throw)
                } else {
                    None
                }
            }
            Shape::Int(_) | Shape::Nil => None,
            Shape::Cons(_, _) | Shape::Tuple(_) => None,
            Shape::Fun(_, _) => None,
        }
    }

    /// Whether a value is the atom `true`.
    pub fn is_true(self, value: Value<'a>) -> bool
        ensures { result ≡ is_true (term_in value.entry) }
    {
        match shape_of(value) {
            Shape::Atom(a) => same_atom(a, &self.arena.atoms.yes),
            Shape::Int(_) | Shape::Nil => false,
            Shape::Cons(_, _) | Shape::Tuple(_) => false,
            Shape::Fun(_, _) => false,
        }
    }

    /// What `catch` gives where a class is raised.
    pub fn caught(
        self,
        run: &mut Run<'a>,
        class: Class,
        reason: Value<'a>,
    ) -> Result<Control<'a>, Memory>
        ensures { IfOkRuns self.entry run.old run.new result (λ p s w. caught (unlimited p) class (term_in reason.entry) s w.next) }
    {
        match class {
            Class::Throw => self.caught_throw(run, reason),
            Class::Exit => self.caught_exit(run, reason),
            Class::Error => self.caught_error(run, reason),
        }
    }

    #[tactic(auto, using(crate::proofs::Primitives::catches))]
    fn caught_throw(self, run: &mut Run<'a>, reason: Value<'a>) -> Result<Control<'a>, Memory>
        ensures { IfOkRuns self.entry run.old run.new result (λ p s w. caught (unlimited p) Throw (term_in reason.entry) s w.next) }
    {
        Ok(Control::Value(reason))
    }

    #[tactic(auto, using(crate::proofs::Primitives::catches))]
    fn caught_exit(self, run: &mut Run<'a>, reason: Value<'a>) -> Result<Control<'a>, Memory>
        ensures { IfOkRuns self.entry run.old run.new result (λ p s w. caught (unlimited p) Exit (term_in reason.entry) s w.next) }
    {
        run.builds(3)?;
        Ok(Control::Value(self.tagged(&self.arena.atoms.caught_exit, reason)?))
    }

    #[tactic(auto, using(crate::proofs::Primitives::catches))]
    fn caught_error(self, run: &mut Run<'a>, reason: Value<'a>) -> Result<Control<'a>, Memory>
        ensures { IfOkRuns self.entry run.old run.new result (λ p s w. caught (unlimited p) Error (term_in reason.entry) s w.next) }
    {
        run.builds(6)?;
        let cause = self.pair(reason, Value::Nil)?;
        Ok(Control::Value(self.tagged(&self.arena.atoms.caught_exit, cause)?))
    }
}
