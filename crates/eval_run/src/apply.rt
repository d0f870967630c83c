// Applications and calls.

ghost use Rattle.std.specs.Prelude.{◌≡◌, codes, option_map, slice_get, IfOk};
ghost use Rattle.hipe_terms.specs.declared.class.Class.TheVariants.{Error};
ghost use Rattle.hipe_terms.specs.Outcome.{bif_outcome};
ghost use Rattle.hipe_terms.specs.Terms.{atom};
ghost use Rattle.eval_contexts.specs.Contexts.{context_in};
ghost use Rattle.core_meaning.specs.Meaning.{arity_of, calls_own, comes_to, own_function, performs, pair};
ghost use Rattle.core_meaning.specs.Source.{unlimited};
ghost use Rattle.eval_procedures.specs.Shown.{procedure_in, procedures_in};
ghost use Rattle.eval_values.specs.Results.{end_in, outcome_in};
ghost use Rattle.eval_values.specs.Values.{term_in, terms_in};
ghost use Rattle.eval_run.specs.Configurations.{known, IfOkRuns};
ghost use Rattle.eval_run.specs.Counting.{more_words};
ghost use Rattle.eval_run.specs.Waiting.{calls_by_fuel, enters_with, applies_name, applies_value, calls_function};
ghost use Rattle.eval_run.specs.Applied.{applies_fun, bad_arity, enters_counted, enters_body};

use crate::frame::{Control, Ending};
use crate::run::{Evaluator, Run};
use crate::shapes::fun_of;
use core_ast::FunName;
use eval_contexts::{Context, built_in, joined};
use eval_procedures::{Procedure, add, binding, names};
use eval_values::{End, Outcome, Value, cells, perform, same_atom};
use hipe_base::Memory;
use hipe_terms::{Atom, Bif, Class};

impl<'a, 'p> Evaluator<'a, 'p> {
    /// A function is applied at this depth: it spends one unit of fuel.
    #[tactic(auto, using(crate::proofs::Applications::applying), unfolding(crate::specs::Configurations::state_in))]
    pub fn apply(
        self,
        run: &mut Run<'a>,
        n: u64,
        captured: &[Value<'a>],
        arguments: &[Value<'a>],
        depth: u64,
    ) -> Result<Control<'a>, Memory>
        ensures { IfOkRuns self.entry run.old run.new result (λ p s w. calls_by_fuel p n (terms_in captured.now) (terms_in arguments.now) depth s w.handler w.next) }
    {
        if run.counts.fuel == 0 {
            return Ok(Control::End(Ending::FuelSpent));
        }
        run.counts.fuel -= 1;
        self.enter(run, n, captured, arguments, depth)
    }

    /// The function of this number is entered at this depth.
    #[tactic(auto, using(crate::proofs::Applications::entering_functions))]
    pub fn enter(
        self,
        run: &mut Run<'a>,
        n: u64,
        captured: &[Value<'a>],
        arguments: &[Value<'a>],
        depth: u64,
    ) -> Result<Control<'a>, Memory>
        ensures { IfOkRuns self.entry run.old run.new result (λ p s w. enters_with p n (slice_get p.procedures n) (terms_in captured.now) (terms_in arguments.now) depth s w) }
    {
        match self.procedure(n) {
            None => Ok(Control::End(Ending::Stuck)),
            Some(f) => self.enter_counted(run, f, captured, arguments, depth),
        }
    }

    // The function of this number.
    #[tactic(auto, unfolding(crate::specs::Configurations::known))]
    fn procedure(self, n: u64) -> Option<Procedure<'a>>
        ensures { option_map procedure_in result ≡ slice_get (known self.entry).procedures n }
    {
        procedure_at(self.program.procedures, n)
    }

    // A function is entered with as many arguments as it has parameters.
    #[tactic(auto, using(crate::proofs::Primitives::counts))]
    fn enter_counted(
        self,
        run: &mut Run<'a>,
        f: Procedure<'a>,
        captured: &[Value<'a>],
        arguments: &[Value<'a>],
        depth: u64,
    ) -> Result<Control<'a>, Memory>
        ensures { IfOkRuns self.entry run.old run.new result (λ p s w. enters_counted p (procedure_in f.entry) (terms_in captured.now) (terms_in arguments.now) depth s w) }
    {
        if f.parameters.len() != arguments.len() {
            return Ok(Control::End(Ending::Stuck));
        }
        self.enter_body(run, f, captured, arguments, depth)
    }

    // A body is entered: it claims its frame.
    #[tactic(auto, using(crate::proofs::Primitives::counts), unfolding(eval_contexts::specs::Contexts::context_in))]
    fn enter_body(
        self,
        run: &mut Run<'a>,
        f: Procedure<'a>,
        captured: &[Value<'a>],
        arguments: &[Value<'a>],
        depth: u64,
    ) -> Result<Control<'a>, Memory>
        ensures { IfOkRuns self.entry run.old run.new result (λ p s w. enters_body p (procedure_in f.entry) (terms_in captured.now) (terms_in arguments.now) depth s w) }
    {
        let inner = add(depth, f.frame)?;
        run.enters(inner, captured.len() as u64)?;
        let found = names(self.arena.alloc, f.parameters)?;
        let scope = binding(&self.arena.bump, f.captured, found.as_slice(), f.scope)?;
        let bound = joined(self.arena, captured, arguments)?;
        let c = Context {
            scope,
            bound,
            number: f.first,
            inner,
            depth,
        };
        Ok(Control::Evaluate(f.body, c))
    }

    /// The function of this name is applied.
    #[tactic(auto, using(crate::proofs::Applications::names_applied))]
    pub fn apply_name(
        self,
        run: &mut Run<'a>,
        f: &FunName,
        c: Context<'a>,
        arguments: &[Value<'a>],
    ) -> Result<Control<'a>, Memory>
        ensures { IfOkRuns self.entry run.old run.new result (λ p s w. applies_name p f.now (context_in c.entry) (terms_in arguments.now) s w) }
    {
        match c.function_of(self.arena, f)? {
            Some((n, captured)) => self.apply(run, n, captured, arguments, c.depth),
            None => Ok(Control::End(Ending::Stuck)),
        }
    }

    /// A value is applied at this depth.
    #[tactic(auto, using(crate::proofs::Steps::applied))]
    pub fn apply_value(
        self,
        run: &mut Run<'a>,
        value: Value<'a>,
        arguments: &[Value<'a>],
        depth: u64,
    ) -> Result<Control<'a>, Memory>
        ensures { IfOkRuns self.entry run.old run.new result (λ p s w. applies_value p (term_in value.entry) (terms_in arguments.now) depth s w) }
    {
        match fun_of(value) {
            Some((n, captured)) => self.apply_fun(run, value, n, captured, arguments, depth),
            None => self.bad_fun(run, value),
        }
    }

    // A fun is applied.
    #[tactic(auto, using(crate::proofs::Primitives::counts))]
    fn apply_fun(
        self,
        run: &mut Run<'a>,
        value: Value<'a>,
        n: u64,
        captured: &[Value<'a>],
        arguments: &[Value<'a>],
        depth: u64,
    ) -> Result<Control<'a>, Memory>
        ensures { IfOkRuns self.entry run.old run.new result (λ p s w. applies_fun p (term_in value.entry) n (terms_in captured.now) (terms_in arguments.now) depth s w) }
    {
        if self.arity_of(n) == arguments.len() as u64 {
            self.apply(run, n, captured, arguments, depth)
        } else {
            self.bad_arity(run, value, arguments)
        }
    }

    // The number of parameters of the function of this number, and 0 where there is none.
    #[tactic(auto, unfolding(crate::specs::Configurations::known))]
    fn arity_of(self, n: u64) -> u64
        ensures { result ≡ arity_of (known self.entry) n }
    {
        self.program.arity_of(n)
    }

    // A fun is applied to another number of arguments than it has parameters.
    #[tactic(auto, using(crate::proofs::Primitives::arguments))]
    fn bad_arity(
        self,
        run: &mut Run<'a>,
        value: Value<'a>,
        arguments: &[Value<'a>],
    ) -> Result<Control<'a>, Memory>
        ensures { IfOkRuns self.entry run.old run.new result (λ p s w. bad_arity (term_in value.entry) (terms_in arguments.now) s w) }
    {
        let count = arguments.len() as u64;
        run.builds(add(6, add(count, count)?)?)?;
        let list = cells(&self.arena.bump, arguments, Value::Nil)?;
        let both = self.pair(value, list)?;
        let reason = self.tagged(&self.arena.atoms.badarity, both)?;
        Ok(Control::Raise(Class::Error, reason))
    }

    // A value that is no fun is applied.
    fn bad_fun(self, run: &mut Run<'a>, value: Value<'a>) -> Result<Control<'a>, Memory>
        ensures { IfOkRuns self.entry run.old run.new result (λ p s w. w.handler Error (pair (atom (codes "badfun")) (term_in value.entry)) (more_words 3 s)) }
    {
        run.builds(3)?;
        let reason = self.tagged(&self.arena.atoms.badfun, value)?;
        Ok(Control::Raise(Class::Error, reason))
    }

    /// A function of a module is called: the built-in functions are asked first, then the module's own.
    #[tactic(auto, using(crate::proofs::Applications::calling))]
    pub fn call(
        self,
        run: &mut Run<'a>,
        of: &Atom,
        name: &Atom,
        arguments: &[Value<'a>],
        depth: u64,
    ) -> Result<Control<'a>, Memory>
        ensures { IfOkRuns self.entry run.old run.new result (λ p s w. calls_function p of.now name.now (terms_in arguments.now) depth s w) }
    {
        match built_in(of, name, arguments.len()) {
            Some(bif) => self.performs(run, bif, arguments),
            None => {
                let own = self.own_function(of, name, arguments.len() as u64);
                self.call_own(run, own, arguments, depth)
            }
        }
    }

    // The number of the module's own function of this name, where the module exports it.
    #[tactic(auto, unfolding(crate::specs::Configurations::known))]
    fn own_function(self, of: &Atom, name: &Atom, arity: u64) -> Option<u64>
        ensures { result ≡ own_function (known self.entry) of.now name.now arity }
    {
        if same_atom(of, self.program.name) {
            self.program.exported(name, arity)
        } else {
            None
        }
    }

    // A function of the module is called.
    fn call_own(
        self,
        run: &mut Run<'a>,
        own: Option<u64>,
        arguments: &[Value<'a>],
        depth: u64,
    ) -> Result<Control<'a>, Memory>
        ensures { IfOkRuns self.entry run.old run.new result (λ p s w. calls_own p (unlimited p) (calls_by_fuel p) own (terms_in arguments.now) depth s w.handler w.next) }
    {
        match own {
            Some(n) => self.apply(run, n, &[], arguments, depth),
            None => self.fails(run, &self.arena.atoms.undef),
        }
    }

    // A built-in function is performed.
    fn performs(
        self,
        run: &mut Run<'a>,
        bif: Bif,
        arguments: &[Value<'a>],
    ) -> Result<Control<'a>, Memory>
        ensures { IfOkRuns self.entry run.old run.new result (λ p s w. performs (unlimited p) (bif_outcome (arity_of p) bif (terms_in arguments.now)) s w.handler w.next) }
    {
        let outcome = self.outcome_of(bif, arguments)?;
        self.finish(run, outcome)
    }

    // How a built-in function ends.
    fn outcome_of(self, bif: Bif, arguments: &[Value<'a>]) -> Result<Outcome<'a>, Memory>
        ensures { IfOk result (λ o. outcome_in o ≡ bif_outcome (arity_of (known self.entry)) bif (terms_in arguments.now)) }
    {
        perform(self.program.ground(self.arena), bif, arguments)
    }

    // What a built-in function did is counted and printed.
    #[tactic(auto, using(crate::proofs::Primitives::performed))]
    fn finish(self, run: &mut Run<'a>, outcome: Outcome<'a>) -> Result<Control<'a>, Memory>
        ensures { IfOkRuns self.entry run.old run.new result (λ p s w. performs (unlimited p) (outcome_in outcome.entry) s w.handler w.next) }
    {
        run.prints(outcome.printed)?;
        run.builds(outcome.words)?;
        self.ends(run, outcome.end)
    }

    // How a built-in function ended.
    fn ends(self, run: &mut Run<'a>, end: End<'a>) -> Result<Control<'a>, Memory>
        ensures { IfOkRuns self.entry run.old run.new result (λ p s w. comes_to (end_in end.entry) s w.handler w.next) }
    {
        match end {
            End::Value(value) => Ok(Control::Value(value)),
            End::Raised(class, reason) => Ok(Control::Raise(class, reason)),
        }
    }
}

// The function of this number among some.
fn procedure_at<'a>(all: &[Procedure<'a>], n: u64) -> Option<Procedure<'a>>
    ensures { option_map procedure_in result ≡ slice_get (procedures_in all.now) n }
{
    all.get(n as usize).copied()
}
