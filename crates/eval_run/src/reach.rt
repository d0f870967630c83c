// What is done with the values of a list of parts.

ghost use Rattle.eval_values.specs.Values.{terms_in};
ghost use Rattle.eval_run.specs.Configurations.{purpose_in, IfOkRuns};
ghost use Rattle.eval_run.specs.Waiting.{reaches};

use crate::frame::{Control, Frame, Goal};
use crate::run::{Evaluator, Run};
use eval_values::Value;
use hipe_base::Memory;
use sqlite_items::Items;

impl<'a, 'p> Evaluator<'a, 'p> {
    /// All is done with the values of a list of parts.
    #[tactic(auto, using(crate::proofs::Steps::reaching))]
    pub fn reach(
        self,
        run: &mut Run<'a>,
        goal: Goal<'a>,
        values: Items<Value<'a>>,
    ) -> Result<Control<'a>, Memory>
        ensures { IfOkRuns self.entry run.old run.new result (λ p s w. reaches p (purpose_in goal.entry) (terms_in values.entry) s w) }
    {
        match goal {
            Goal::Tuple => self.makes_tuple(run, values.as_slice()),
            Goal::List(tail, c) => self.wait(run, Frame::Tail(values), tail, c),
            Goal::Values => Ok(Control::Values(values)),
            Goal::Name(f, c) => self.apply_name(run, f, c, values.as_slice()),
            Goal::Apply(value, depth) => self.apply_value(run, value, values.as_slice(), depth),
            Goal::Call(of, name, depth) => self.call(run, of, name, values.as_slice(), depth),
            Goal::Primop(name) => self.primop(run, name, values.as_slice()),
        }
    }
}
