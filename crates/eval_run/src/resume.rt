// What each frame does with values.

ghost use Rattle.std.specs.Prelude.{◌≡◌, ◌∷◌, ◌++◌, [], map, None, IfOk};
ghost use Rattle.core_ast.specs.Trees.{expression_of, clause_of, clauses};
ghost use Rattle.eval_contexts.specs.Contexts.{context_in};
ghost use Rattle.core_meaning.specs.Meaning.{is_true, with};
ghost use Rattle.core_meaning.specs.Scopes.{names};
ghost use Rattle.eval_values.specs.Values.{term_in, terms_in};
ghost use Rattle.eval_run.specs.Configurations.{frame_waits, IfOkRuns, evaluates_rest};
ghost use Rattle.eval_run.specs.Shapes.{one_of};
ghost use Rattle.eval_run.specs.Waiting.{binds, chooses, evaluates};
ghost use Rattle.eval_run.specs.Tests.{guarded_clause};
ghost use Rattle.eval_run.specs.declared.frame.Goal.TheVariants.{Apply};

use crate::frame::{Control, Ending, Frame, Goal};
use crate::run::{Evaluator, Run};
use crate::shapes::one_of;
use core_ast::{Clause, Expr, Var};
use eval_contexts::Context;
use eval_procedures::names;
use eval_values::Value;
use hipe_base::Memory;
use sqlite_items::Items;

impl<'a, 'p> Evaluator<'a, 'p> {
    /// One value is given to what waits.
    #[tactic(auto, using(crate::proofs::Steps::frames))]
    pub fn give_one(self, run: &mut Run<'a>, value: Value<'a>) -> Result<Control<'a>, Memory>
        ensures { IfOkRuns self.entry run.old run.new result (λ p s w. w.next (term_in value.entry ∷ []) s) }
    {
        match run.last() {
            None => Ok(Control::End(Ending::Values(self.alone(value)?))),
            Some(frame) => self.resume_one(run, frame, value),
        }
    }

    fn alone(self, value: Value<'a>) -> Result<Items<Value<'a>>, Memory>
        ensures { IfOk result (λ vs. terms_in vs ≡ term_in value.entry ∷ []) }
    {
        Items::from_slice(self.arena.alloc, &[value])
    }

    /// Values are given to what waits.
    #[tactic(auto, using(crate::proofs::Steps::frames))]
    pub fn give(self, run: &mut Run<'a>, values: Items<Value<'a>>) -> Result<Control<'a>, Memory>
        ensures { IfOkRuns self.entry run.old run.new result (λ p s w. w.next (terms_in values.entry) s) }
    {
        match run.last() {
            None => Ok(Control::End(Ending::Values(values))),
            Some(frame) => self.resume(run, frame, values.as_slice()),
        }
    }

    // A frame goes on with values.
    fn resume(
        self,
        run: &mut Run<'a>,
        frame: Frame<'a>,
        values: &[Value<'a>],
    ) -> Result<Control<'a>, Memory>
        ensures { IfOkRuns self.entry run.old run.new result (λ p s w. (frame_waits p frame.entry w).next (terms_in values.now) s) }
    {
        match one_of(values) {
            Some(value) => self.resume_one(run, frame, value),
            None => self.resume_many(run, frame, values),
        }
    }

    // A frame goes on with one value.
    #[tactic(auto, using(crate::proofs::Steps::nexts))]
    fn resume_one(
        self,
        run: &mut Run<'a>,
        frame: Frame<'a>,
        value: Value<'a>,
    ) -> Result<Control<'a>, Memory>
        ensures { IfOkRuns self.entry run.old run.new result (λ p s w. (frame_waits p frame.entry w).next (term_in value.entry ∷ []) s) }
    {
        match frame {
            Frame::Parts {
                rest,
                done,
                context,
                goal,
            } => self.resume_parts(run, rest, done, context, goal, value),
            Frame::Tail(elements) => self.makes_list(run, elements.as_slice(), value),
            Frame::Operator(args, c, depth) => self.resume_operator(run, args, c, depth, value),
            Frame::Let(xs, body, c) => self.bound(run, xs, body, c, &[value]),
            Frame::Case(list, c) => self.choose_for(run, list, c, &[value]),
            Frame::Guard {
                body,
                rest,
                values,
                context,
                inside,
            } => self.guarded(run, body, rest, values, context, inside, value),
            Frame::Try {
                variables,
                body,
                context,
                ..
            } => self.bound(run, variables, body, context, &[value]),
            Frame::Do(second, c) => Ok(Control::Evaluate(second, c)),
            Frame::Catch => Ok(Control::Value(value)),
        }
    }

    // A frame goes on with any other number of values.
    #[tactic(auto, using(crate::proofs::Steps::others))]
    fn resume_many(
        self,
        run: &mut Run<'a>,
        frame: Frame<'a>,
        values: &[Value<'a>],
    ) -> Result<Control<'a>, Memory>
        requires { one_of (terms_in values.now) ≡ None }
        ensures { IfOkRuns self.entry run.old run.new result (λ p s w. (frame_waits p frame.entry w).next (terms_in values.now) s) }
    {
        match frame {
            Frame::Parts { .. } => Ok(Control::End(Ending::Stuck)),
            Frame::Tail(_) => Ok(Control::End(Ending::Stuck)),
            Frame::Operator(_, _, _) => Ok(Control::End(Ending::Stuck)),
            Frame::Let(xs, body, c) => self.bound(run, xs, body, c, values),
            Frame::Case(list, c) => self.choose_for(run, list, c, values),
            Frame::Guard { .. } => Ok(Control::End(Ending::Stuck)),
            Frame::Try {
                variables,
                body,
                context,
                ..
            } => self.bound(run, variables, body, context, values),
            Frame::Do(second, c) => Ok(Control::Evaluate(second, c)),
            Frame::Catch => Ok(Control::End(Ending::Stuck)),
        }
    }

    // The parts behind one that has this value.
    #[tactic(auto, using(crate::proofs::Primitives::printing_values))]
    fn resume_parts(
        self,
        run: &mut Run<'a>,
        rest: &'a [Expr],
        done: Items<Value<'a>>,
        c: Context<'a>,
        goal: Goal<'a>,
        value: Value<'a>,
    ) -> Result<Control<'a>, Memory>
        ensures { IfOkRuns self.entry run.old run.new result (λ p s w. evaluates_rest p rest.now c.entry goal.entry (terms_in done.entry ++ term_in value.entry ∷ []) s w) }
    {
        let mut done = done;
        done.push(value)?;
        self.parts(run, rest, done, c, goal)
    }

    // The arguments of this value.
    fn resume_operator(
        self,
        run: &mut Run<'a>,
        args: &'a [Expr],
        c: Context<'a>,
        depth: u64,
        value: Value<'a>,
    ) -> Result<Control<'a>, Memory>
        ensures { IfOkRuns self.entry run.old run.new result (λ p s w. evaluates_rest p args.now c.entry (Apply value.entry depth) [] s w) }
    {
        let none = Items::new(self.arena.alloc);
        self.parts(run, args, none, c, Goal::Apply(value, depth))
    }

    // A clause is chosen for these values.
    fn choose_for(
        self,
        run: &mut Run<'a>,
        list: &'a [Clause],
        c: Context<'a>,
        values: &[Value<'a>],
    ) -> Result<Control<'a>, Memory>
        ensures { IfOkRuns self.entry run.old run.new result (λ p s w. chooses p (clauses (map clause_of list.now)) (terms_in values.now) (context_in c.entry) s w) }
    {
        let kept = self.arena.bump.try_alloc_slice_copy(values)?;
        Ok(Control::Choose(list, kept, c))
    }

    // The guard of a clause with this body has this value.
    fn guarded(
        self,
        run: &mut Run<'a>,
        body: &'a Expr,
        rest: &'a [Clause],
        values: &'a [Value<'a>],
        c: Context<'a>,
        d: Context<'a>,
        value: Value<'a>,
    ) -> Result<Control<'a>, Memory>
        ensures { IfOkRuns self.entry run.old run.new result (λ p s w. guarded_clause p (is_true (term_in value.entry)) body.now rest.now values.now c.entry d.entry s w) }
    {
        if self.is_true(value) {
            Ok(Control::Evaluate(body, d))
        } else {
            Ok(Control::Choose(rest, values, c))
        }
    }

    /// A body is evaluated where these variables are bound to as many values.
    #[tactic(auto, using(crate::proofs::Steps::binding))]
    pub fn bound(
        self,
        run: &mut Run<'a>,
        xs: &'a [Var],
        body: &'a Expr,
        c: Context<'a>,
        values: &[Value<'a>],
    ) -> Result<Control<'a>, Memory>
        ensures { IfOkRuns self.entry run.old run.new result (λ p s w. binds p xs.now (expression_of body.now) (context_in c.entry) (terms_in values.now) s w) }
    {
        if values.len() != xs.len() {
            return Ok(Control::End(Ending::Stuck));
        }
        self.bound_body(run, xs, body, c, values)
    }

    /// A body is evaluated where these variables are bound to these values.
    pub fn bound_body(
        self,
        run: &mut Run<'a>,
        xs: &'a [Var],
        body: &'a Expr,
        c: Context<'a>,
        values: &[Value<'a>],
    ) -> Result<Control<'a>, Memory>
        ensures { IfOkRuns self.entry run.old run.new result (λ p s w. evaluates p (expression_of body.now) (with (names xs.now) (terms_in values.now) (context_in c.entry)) s w) }
    {
        let found = names(self.arena.alloc, xs)?;
        let inside = c.with(self.arena, found.as_slice(), values)?;
        Ok(Control::Evaluate(body, inside))
    }
}
