// What a run writes on out.
ghost use Rattle.std.specs.Prelude.{◌≡◌, ◌++◌, ◌-◌, IsSome, IfSome, IfOk, OnOk, string_bytes, codes};
ghost use Rattle.hipe_terms.specs.Shown.{shown};
ghost use Rattle.eval_run.specs.Configurations.{ending_in};
ghost use Rattle.eval_run.specs.Evaluations.{run_in};
ghost use Rattle.core_meaning.specs.Output.{new_line, printed_lines};
ghost use Rattle.eval_values.specs.Values.{term_in, terms_in};
ghost use Rattle.eval_source.specs.Texts.{Writes, ending_line, ending_status, counts_lines};
ghost use Rattle.eval_text.specs.Named.{names_of};

use core_ast::FunDef;
use eval_run::{Counts, Ending, Evaluation};
use eval_text::show_value;
use eval_values::Value;
use hipe_base::Memory;
use std::alloc::Global;

/// What a run writes on out, and its exit status.
#[derive(Drop)]
pub struct Lines {
    pub text: String,
    pub status: u8,
}

/// What a run with so much fuel writes, where the module's definitions name its funs: each displayed value, how it ended, and what
/// it counted, each in a line. An error where there is no memory for it.
pub fn lines_of(
    alloc: Global,
    defs: &[FunDef],
    fuel: u64,
    run: &Evaluation<'_>,
) -> Result<Lines, Memory>
    requires { IsSome (ending_line (names_of defs.now) (run_in run.now).ending) }
    ensures { IfOk result (λ lines. Writes (names_of defs.now) fuel (run_in run.now) (string_bytes lines.text) lines.status) }
{
    let mut text = String::new(alloc);
    show_printed(alloc, defs, run.printed.as_slice(), &mut text)?;
    let status = show_ending(alloc, defs, &run.ending, &mut text)?;
    show_counts(alloc, fuel, run.counts, &mut text)?;
    Ok(Lines { text, status })
}

// Appends displayed values, each in a line.
fn show_printed(
    alloc: Global,
    defs: &[FunDef],
    printed: &[Value<'_>],
    text: &mut String,
) -> Result<(), Memory>
    ensures { OnOk result (string_bytes text.new ≡ string_bytes text.old ++ printed_lines (names_of defs.now) (terms_in printed.now)) }
{
    for value in printed {
        show_line(alloc, defs, *value, text)?;
    }
    Ok(())
}

// Appends a value and the end of its line.
fn show_line(
    alloc: Global,
    defs: &[FunDef],
    value: Value<'_>,
    text: &mut String,
) -> Result<(), Memory>
    ensures { OnOk result (string_bytes text.new ≡ string_bytes text.old ++ (shown (names_of defs.now) (term_in value.entry) ++ new_line)) }
{
    show_value(alloc, defs, value, text)?;
    text.push_str("\n")
}

// Appends the line of how a run ended, and answers its exit status.
fn show_ending(
    alloc: Global,
    defs: &[FunDef],
    ending: &Ending<'_>,
    text: &mut String,
) -> Result<u8, Memory>
    requires { IsSome (ending_line (names_of defs.now) (ending_in ending.now)) }
    ensures line { IfOk result (λ _. IfSome (ending_line (names_of defs.now) (ending_in ending.now)) (λ line. string_bytes text.new ≡ string_bytes text.old ++ line)) }
    ensures status { IfOk result (λ status. status ≡ ending_status (ending_in ending.now)) }
{
    match ending {
        Ending::Values(values) => match values.as_slice() {
            [value] => {
                text.push_str("value ")?;
                show_line(alloc, defs, *value, text)?;
                Ok(0)
            }
            _ => unreachable!(),
        },
        Ending::Raised(class, reason) => {
            text.push_str(class.name())?;
            text.push_str(" ")?;
            show_line(alloc, defs, *reason, text)?;
            Ok(1)
        }
        Ending::FuelSpent => {
            text.push_str("fuel_spent\n")?;
            Ok(5)
        }
        Ending::Stuck => unreachable!(),
    }
}

// Appends what a run with so much fuel counted.
fn show_counts(alloc: Global, fuel: u64, counts: Counts, text: &mut String) -> Result<(), Memory>
    ensures { OnOk result (string_bytes text.new ≡ string_bytes text.old ++ counts_lines counts.words counts.claim (fuel - counts.fuel)) }
{
    let Counts {
        fuel: left,
        words,
        claim,
        work: _,
    } = counts;
    let spent = fuel.saturating_sub(left);
    let lines = format!(in alloc; "words {words}\nclaim {claim}\nfuel {spent}\n")?;
    text.push_str(lines.as_str())
}
