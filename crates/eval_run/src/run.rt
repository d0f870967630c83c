// The state of a run, and how it grows.

ghost use Rattle.std.specs.Prelude.{◌≡◌, ◌++◌, [], OnOk};
ghost use Rattle.std.specs.Option.{IfNone, option_to_list};
ghost use Rattle.core_ast.specs.Trees.{expression_of};
ghost use Rattle.eval_contexts.specs.Contexts.{context_in};
ghost use Rattle.core_meaning.specs.Meaning.{ends, entering, printing, worked};
ghost use Rattle.eval_values.specs.Results.{printed_in};
ghost use Rattle.core_meaning.specs.Source.{at_start};
ghost use Rattle.eval_run.specs.Evaluations.{run_in};
ghost use Rattle.eval_run.specs.Configurations.{ending_in, frame_waits, state_in, IfOkRuns};
ghost use Rattle.eval_run.specs.Waiting.{evaluates};
ghost use Rattle.eval_run.specs.Counting.{more_words};

use crate::frame::{Control, Ending, Frame};
use core_ast::Expr;
use eval_contexts::{Arena, Context, Program};
use eval_procedures::add;
use eval_values::Value;
use hipe_base::Memory;
use std::alloc::Global;

/// What a run counts: how many functions may still be entered, the words that were built, the greatest claim on the stack, and
/// the work.
#[derive(Clone, Copy, Debug, PartialEq, Eq)]
pub struct Counts {
    pub fuel: u64,
    pub words: u64,
    pub claim: u64,
    pub work: u64,
}

/// A run under way: what waits, the last frame being the first to go on; what was printed, and what was counted.
#[derive(Drop)]
pub struct Run<'a> {
    pub frames: Vec<Frame<'a>>,
    pub printed: Vec<Value<'a>>,
    pub counts: Counts,
}

/// How a run ended, what it printed, and what it counted.
#[derive(Drop)]
pub struct Evaluation<'a> {
    pub ending: Ending<'a>,
    pub printed: Vec<Value<'a>>,
    pub counts: Counts,
}

/// What evaluates: the memory of values, and what is known of the module.
#[derive(Clone, Copy)]
pub struct Evaluator<'a, 'p> {
    pub arena: &'a Arena,
    pub program: &'p Program<'a>,
}

#[tactic(auto, unfolding(crate::specs::Configurations::state_in))]
impl<'a> Run<'a> {
    /// The start of a run with so much fuel, of a call with so many arguments.
    pub fn at_start(alloc: Global, fuel: u64, arguments: u64) -> Run<'a>
        ensures state { state_in result ≡ at_start fuel arguments }
        ensures frames { result.frames.items ≡ [] }
    {
        let counts = Counts {
            fuel,
            words: 0,
            claim: 0,
            work: arguments,
        };
        Run {
            frames: Vec::new(alloc),
            printed: Vec::new(alloc),
            counts,
        }
    }

    /// The end of a run.
    pub fn ended(self, ending: Ending<'a>) -> Evaluation<'a>
        ensures { run_in result ≡ ends (ending_in ending.entry) (state_in self.entry) }
    {
        let Run {
            frames: _,
            printed,
            counts,
        } = self;
        Evaluation {
            ending,
            printed,
            counts,
        }
    }

    /// So many words more.
    pub fn builds(&mut self, words: u64) -> Result<(), Memory>
        ensures state { OnOk result (state_in self.new ≡ more_words words (state_in self.old)) }
        ensures frames { OnOk result (self.new.frames.items ≡ self.old.frames.items) }
    {
        self.counts.words = add(self.counts.words, words)?;
        Ok(())
    }

    /// So much work more.
    pub fn worked(&mut self, work: u64) -> Result<(), Memory>
        ensures state { OnOk result (state_in self.new ≡ worked work (state_in self.old)) }
        ensures frames { OnOk result (self.new.frames.items ≡ self.old.frames.items) }
    {
        self.counts.work = add(self.counts.work, work)?;
        Ok(())
    }

    /// The last frame is taken.
    #[tactic(auto, using(crate::proofs::Primitives::emptied), unfolding(crate::specs::Configurations::state_in))]
    pub fn last(&mut self) -> Option<Frame<'a>>
        ensures state { state_in self.new ≡ state_in self.old }
        ensures frames { self.old.frames.items ≡ self.new.frames.items ++ option_to_list result }
        ensures none { IfNone result (self.old.frames.items ≡ []) }
    {
        self.frames.pop()
    }

    /// A body that reaches up to this depth is entered, with so many captured values.
    pub fn enters(&mut self, top: u64, captured: u64) -> Result<(), Memory>
        ensures state { OnOk result (state_in self.new ≡ entering top captured (state_in self.old)) }
        ensures frames { OnOk result (self.new.frames.items ≡ self.old.frames.items) }
    {
        self.counts.work = add(self.counts.work, captured)?;
        self.counts.claim = self.counts.claim.max(top);
        Ok(())
    }

    /// What was printed, behind what was printed before.
    #[tactic(auto, using(crate::proofs::Primitives::printing_values), unfolding(crate::specs::Configurations::state_in))]
    pub fn prints(&mut self, value: Option<Value<'a>>) -> Result<(), Memory>
        ensures state { OnOk result (state_in self.new ≡ printing (printed_in value.entry) (state_in self.old)) }
        ensures frames { OnOk result (self.new.frames.items ≡ self.old.frames.items) }
    {
        match value {
            Some(v) => {
                self.printed.push(v)?;
                Ok(())
            }
            None => Ok(()),
        }
    }
}

impl<'a, 'p> Evaluator<'a, 'p> {
    /// A part is evaluated while the frame waits for its values.
    #[tactic(auto, using(crate::proofs::Waits::waiting), unfolding(crate::specs::Configurations::state_in))]
    pub fn wait(
        self,
        run: &mut Run<'a>,
        frame: Frame<'a>,
        part: &'a Expr,
        c: Context<'a>,
    ) -> Result<Control<'a>, Memory>
        ensures { IfOkRuns self.entry run.old run.new result (λ p s w. evaluates p (expression_of part.now) (context_in c.entry) s (frame_waits p frame.entry w)) }
    {
        match run.frames.push(frame) {
            Ok(()) => Ok(Control::Evaluate(part, c)),
            Err(_) => Err(Memory),
        }
    }
}
