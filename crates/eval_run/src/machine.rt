// The run: steps, and the loop.

ghost use Rattle.std.specs.Prelude.{◌≡◌, [], map, sum, Some, IfOk};
ghost use Rattle.hipe_terms.specs.Words.{words_of};
ghost use Rattle.core_ast.specs.Trees.{module_of};
ghost use Rattle.core_meaning.specs.Meaning.{ends, exported};
ghost use Rattle.core_meaning.specs.Source.{source_run};
ghost use Rattle.eval_run.specs.Configurations.{ending_in, goes_on, known, state_in, IfOkEnds};
ghost use Rattle.eval_values.specs.Values.{terms_in};
ghost use Rattle.eval_run.specs.Starts.{started, started_call};
ghost use Rattle.eval_run.specs.Evaluations.{run_in};

use crate::frame::{Control, Ending};
use crate::run::{Evaluation, Evaluator, Run};
use core_ast::Module;
use eval_contexts::{Arena, Program};
use eval_values::{Value, values_of, words_of_all};
use hipe_base::Memory;
use hipe_terms::{Atom, Call, Class};

/// The run of a call of a module's function with so much fuel, which is the number of applications that it may make. An error
/// where there is no memory for it, or where a count or the number of steps passes 2^64 - 1.
pub fn eval_call<'a>(
    arena: &'a Arena,
    m: &'a Module,
    call: &'a Call,
    fuel: u64,
) -> Result<Evaluation<'a>, Memory>
    ensures { IfOk result (λ v. run_in v ≡ source_run (module_of m.now) call.now fuel) }
{
    let program = Program::new(arena, m)?;
    let arguments = values_of(arena.alloc, &arena.bump, call.args.as_slice())?;
    let given = arguments.as_slice();
    let mut run = Run::at_start(arena.alloc, fuel, given.len() as u64);
    let evaluator = Evaluator {
        arena,
        program: &program,
    };
    let ending = evaluator.starts(&mut run, call, given)?;
    Ok(run.ended(ending))
}

impl<'a, 'p> Evaluator<'a, 'p> {
    // The run of a call from its start.
    #[tactic(auto, using(eval_values::proofs::Made::made))]
    fn starts(
        self,
        run: &mut Run<'a>,
        call: &Call,
        arguments: &[Value<'a>],
    ) -> Result<Ending<'a>, Memory>
        requires { run.old.frames.items ≡ [] }
        ensures { IfOkEnds self.entry run.old run.new result (λ p s. started_call p call.now arguments.now s) }
    {
        match self.exported(&call.name, arguments.len() as u64) {
            Some(n) => self.starts_function(run, n, call, arguments),
            None => {
                let reason = Value::Atom(&self.arena.atoms.undef);
                Ok(Ending::Raised(Class::Error, reason))
            }
        }
    }

    // The number of the function that the module exports under this name.
    #[tactic(auto, unfolding(crate::specs::Configurations::known))]
    fn exported(self, name: &Atom, arity: u64) -> Option<u64>
        ensures { result ≡ exported (known self.entry) (record { name = name.now; arity = arity }) }
    {
        self.program.exported(name, arity)
    }

    // The function of this number is entered with a call's constants, and runs to its end.
    #[tactic(auto, using(crate::proofs::Steps::frames))]
    fn starts_function(
        self,
        run: &mut Run<'a>,
        n: u64,
        call: &Call,
        arguments: &[Value<'a>],
    ) -> Result<Ending<'a>, Memory>
        requires { run.old.frames.items ≡ [] }
        ensures { IfOkEnds self.entry run.old run.new result (λ p s. started p (Some n) (terms_in arguments.now) (sum (map words_of call.now.args)) s) }
    {
        match words_of_all(call.args.as_slice()) {
            Some(words) => run.builds(words)?,
            None => return Err(Memory),
        }
        let control = self.enter(run, n, &[], arguments, 0)?;
        self.run(run, control)
    }

    /// Goes on to the end.
    pub fn run(self, run: &mut Run<'a>, control: Control<'a>) -> Result<Ending<'a>, Memory>
        ensures { IfOk result (λ e. ends (ending_in e) (state_in run.new) ≡ goes_on self.entry run.old control.entry) }
    {
        let mut next = control;
        for _ in 0..u64::MAX {
            match next {
                Control::End(ending) => return Ok(ending),
                other => next = self.step(run, other)?,
            }
        }
        Err(Memory)
    }

    // One step.
    fn step(self, run: &mut Run<'a>, control: Control<'a>) -> Result<Control<'a>, Memory>
        ensures { IfOk result (λ next. goes_on self.entry run.new next ≡ goes_on self.entry run.old control.entry) }
    {
        match control {
            Control::Evaluate(e, c) => self.evaluate(run, e, c),
            Control::Value(value) => self.give_one(run, value),
            Control::Values(values) => self.give(run, values),
            Control::Raise(class, reason) => self.raise(run, class, reason),
            Control::Choose(list, values, c) => self.choose(run, list, values, c),
            Control::End(ending) => Ok(Control::End(ending)),
        }
    }
}
