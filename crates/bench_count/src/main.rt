// Counts the tokens of the text on standard input, or the definitions of the module: the program of the measurements.
//
// The argument is `tokens` or `definitions`. The program writes the number and ends with status 0, or with status 1 where the text
// has a fault or is refused, where it can't be read, and where the argument is another.
//
// Promises: nothing.
//
// May touch: standard input and output, and the arguments.
//
// Files:
//   count.rt   what is counted
//   tests.rt   each count of a small text
#![tactic(auto)]

mod count;
#[cfg(test)]
mod tests;

use count::count_of;
use hipe_base::limits::TEXT_LIMIT;
use hipe_edge::{StdSource, read_all};
use hipe_stop::program_arguments;
use std::process::ExitCode;

fn main(rt: HostRuntime) -> ExitCode {
    let Ok(arguments) = program_arguments(&rt) else {
        return ExitCode::FAILURE;
    };
    let [what] = arguments.as_slice() else {
        return ExitCode::FAILURE;
    };
    let mut source = StdSource::new(rt.stdin());
    let Ok(text) = read_all(rt.alloc(), &mut source, TEXT_LIMIT) else {
        return ExitCode::FAILURE;
    };
    let Some(count) = count_of(rt.alloc(), what.as_str(), text.as_slice()) else {
        return ExitCode::FAILURE;
    };
    match println!(rt; "{count}") {
        Ok(()) => ExitCode::SUCCESS,
        Err(_) => ExitCode::FAILURE,
    }
}
