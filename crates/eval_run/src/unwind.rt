// What each frame does where a class is raised.

ghost use Rattle.core_ast.specs.Trees.{expression_of};
ghost use Rattle.eval_contexts.specs.Contexts.{context_in};
ghost use Rattle.eval_values.specs.Values.{term_in};
ghost use Rattle.eval_run.specs.Configurations.{frame_waits, IfOkRuns};
ghost use Rattle.eval_run.specs.Waiting.{catches};

use crate::frame::{Control, Ending, Frame};
use crate::run::{Evaluator, Run};
use core_ast::{Expr, Var};
use eval_contexts::Context;
use eval_values::Value;
use hipe_base::Memory;
use hipe_terms::Class;

impl<'a, 'p> Evaluator<'a, 'p> {
    /// A class and a reason are raised: what waits is left, up to a guard, a `try` or a `catch`.
    #[tactic(auto, using(crate::proofs::Steps::frames))]
    pub fn raise(
        self,
        run: &mut Run<'a>,
        class: Class,
        reason: Value<'a>,
    ) -> Result<Control<'a>, Memory>
        ensures { IfOkRuns self.entry run.old run.new result (λ p s w. w.handler class (term_in reason.entry) s) }
    {
        match run.last() {
            None => Ok(Control::End(Ending::Raised(class, reason))),
            Some(frame) => self.unwind(run, frame, class, reason),
        }
    }

    // A frame is left, or goes on.
    #[tactic(auto, using(crate::proofs::Steps::handlers))]
    fn unwind(
        self,
        run: &mut Run<'a>,
        frame: Frame<'a>,
        class: Class,
        reason: Value<'a>,
    ) -> Result<Control<'a>, Memory>
        ensures { IfOkRuns self.entry run.old run.new result (λ p s w. (frame_waits p frame.entry w).handler class (term_in reason.entry) s) }
    {
        match frame {
            Frame::Guard {
                rest,
                values,
                context,
                ..
            } => Ok(Control::Choose(rest, values, context)),
            Frame::Try {
                causes,
                handler,
                handled,
                ..
            } => self.handle(run, causes, handler, handled, class, reason),
            Frame::Catch => self.caught(run, class, reason),
            Frame::Parts { .. } => Ok(Control::Raise(class, reason)),
            Frame::Tail(_) => Ok(Control::Raise(class, reason)),
            Frame::Operator(_, _, _) => Ok(Control::Raise(class, reason)),
            Frame::Let(_, _, _) => Ok(Control::Raise(class, reason)),
            Frame::Case(_, _) => Ok(Control::Raise(class, reason)),
            Frame::Do(_, _) => Ok(Control::Raise(class, reason)),
        }
    }

    // The body behind `catch` in a `try`.
    #[tactic(auto, using(crate::proofs::Steps::handling))]
    fn handle(
        self,
        run: &mut Run<'a>,
        ys: &'a [Var],
        handler: &'a Expr,
        d: Context<'a>,
        class: Class,
        reason: Value<'a>,
    ) -> Result<Control<'a>, Memory>
        ensures { IfOkRuns self.entry run.old run.new result (λ p s w. catches p ys.now (expression_of handler.now) (context_in d.entry) class (term_in reason.entry) s w) }
    {
        let name = self.class_atom(class);
        if ys.len() == 2 {
            return self.bound_body(run, ys, handler, d, &[name, reason]);
        }
        if ys.len() == 3 {
            return self.bound_body(run, ys, handler, d, &[name, reason, name]);
        }
        Ok(Control::End(Ending::Stuck))
    }
}
