// Clauses.

ghost use Rattle.std.specs.Prelude.{◌∷◌, map, Some};
ghost use Rattle.core_ast.specs.Trees.{clause_of, clauses};
ghost use Rattle.eval_contexts.specs.Contexts.{context_in};
ghost use Rattle.core_meaning.specs.Meaning.{no_clause_for};
ghost use Rattle.core_meaning.specs.Source.{unlimited};
ghost use Rattle.eval_values.specs.Values.{terms_in};
ghost use Rattle.eval_run.specs.Waiting.{chooses};
ghost use Rattle.eval_run.specs.Configurations.{IfOkRuns};
ghost use Rattle.eval_run.specs.Tests.{tries_clause, matched_by};

use crate::frame::{Control, Ending, Frame};
use crate::run::{Evaluator, Run};
use crate::shapes::one_of;
use core_ast::Clause;
use eval_contexts::{Context, matched_all};
use eval_procedures::{add, funs, funs_in_clause, names_bound_by};
use eval_values::{Value, tuple};
use hipe_base::Memory;
use hipe_terms::Class;

impl<'a, 'p> Evaluator<'a, 'p> {
    /// The first clause whose patterns all match is taken, and its guard is evaluated.
    pub fn choose(
        self,
        run: &mut Run<'a>,
        list: &'a [Clause],
        values: &'a [Value<'a>],
        c: Context<'a>,
    ) -> Result<Control<'a>, Memory>
        ensures { IfOkRuns self.entry run.old run.new result (λ p s w. chooses p (clauses (map clause_of list.now)) (terms_in values.now) (context_in c.entry) s w) }
    {
        match list {
            [] => self.no_clause(run, values),
            [first, rest @ ..] => self.try_clause(run, first, rest, values, c),
        }
    }

    // The first clause is tried, where it has as many patterns as there are values.
    #[tactic(auto, using(crate::proofs::Steps::clause_lists))]
    fn try_clause(
        self,
        run: &mut Run<'a>,
        first: &'a Clause,
        rest: &'a [Clause],
        values: &'a [Value<'a>],
        c: Context<'a>,
    ) -> Result<Control<'a>, Memory>
        ensures { IfOkRuns self.entry run.old run.new result (λ p s w. chooses p (clauses (map clause_of (first.now ∷ rest.now))) (terms_in values.now) (context_in c.entry) s w) }
    {
        if values.len() != first.patterns.len() {
            return Ok(Control::End(Ending::Stuck));
        }
        self.match_clause(run, first, rest, values, c)
    }

    // The patterns of the first clause are tried.
    #[tactic(auto, using(core_ast::proofs::Levels::levels))]
    fn match_clause(
        self,
        run: &mut Run<'a>,
        first: &'a Clause,
        rest: &'a [Clause],
        values: &'a [Value<'a>],
        c: Context<'a>,
    ) -> Result<Control<'a>, Memory>
        ensures { IfOkRuns self.entry run.old run.new result (λ p s w. tries_clause p (matched_by first.now values.now) first.now rest.now values.now c.entry s w) }
    {
        let behind = c.behind(funs_in_clause(first)?)?;
        match matched_all(self.arena.alloc, first.patterns.as_slice(), values)? {
            None => Ok(Control::Choose(rest, values, behind)),
            Some(bound) => self.test(run, first, rest, values, bound.as_slice(), c),
        }
    }

    // The guard of the first clause is evaluated, whose variables are bound to these values.
    #[tactic(auto, using(core_ast::proofs::Levels::levels))]
    fn test(
        self,
        run: &mut Run<'a>,
        first: &'a Clause,
        rest: &'a [Clause],
        values: &'a [Value<'a>],
        bound: &[Value<'a>],
        c: Context<'a>,
    ) -> Result<Control<'a>, Memory>
        ensures { IfOkRuns self.entry run.old run.new result (λ p s w. tries_clause p (Some (terms_in bound.now)) first.now rest.now values.now c.entry s w) }
    {
        let behind = c.behind(funs_in_clause(first)?)?;
        let found = names_bound_by(self.arena.alloc, first.patterns.as_slice())?;
        let inside = c.with(self.arena, found.as_slice(), bound)?;
        let body = inside.behind(funs(&first.guard)?)?;
        let frame = Frame::Guard {
            body: &first.body,
            rest,
            values,
            context: behind,
            inside: body,
        };
        self.wait(run, frame, &first.guard, inside.part())
    }

    // No clause was chosen.
    #[tactic(auto, using(crate::proofs::Steps::unmatched))]
    fn no_clause(self, run: &mut Run<'a>, values: &'a [Value<'a>]) -> Result<Control<'a>, Memory>
        ensures { IfOkRuns self.entry run.old run.new result (λ p s w. no_clause_for (unlimited p) (terms_in values.now) s w.handler) }
    {
        match one_of(values) {
            Some(value) => {
                run.builds(3)?;
                let reason = self.tagged(&self.arena.atoms.case_clause, value)?;
                Ok(Control::Raise(Class::Error, reason))
            }
            None => {
                run.builds(add(3, add(values.len() as u64, 1)?)?)?;
                let all = tuple(&self.arena.bump, values)?;
                let reason = self.tagged(&self.arena.atoms.case_clause, all)?;
                Ok(Control::Raise(Class::Error, reason))
            }
        }
    }
}
