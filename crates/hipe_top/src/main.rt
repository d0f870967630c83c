// The compiler's program.
//
// It takes on standard input the text of a module of Core Erlang. The argument `check` tells whether the module is good. The
// arguments `run` and `'main'()` take a good module whose function `'main'/0` gives a sum of integers: they make an image of AMD64
// code of it, load the image into the machine of `amd64_machine`, run it there, and write the value.
//
// Promises: by the contract of `hipe_alone`, for any source and any sinks that tell their bytes: status 0 if and only if the
// arguments are good, the text is one that their mode takes, and no read, write or allocation failed; and then the mode's line stands
// on out, for `run` that of the plain sum, which is the integer with which the machine's own definition ends on the image; and for
// each other status what stands on the source and the sinks. `main` only lends it standard input, output and error, which tell no
// bytes: of them the contract says which status comes when, and that the answer fits some bytes.
//
// May touch: memory, the source and the sinks that it is lent; in `main` the process's arguments and standard streams.
//
// Files:
//   arguments.rt   the arguments and the modes that they name
//   limits.rt      the limits, with their reasons
//   place.rt       the place of a module in its text
//   run.rt         from the source to the line on out
//   top.rt         `hipe_alone`
//   tests.rt       the program in memory
#![tactic(auto)]

mod arguments;
mod limits;
mod place;
mod run;
#[cfg(test)]
mod tests;
mod top;

use hipe_edge::{StdSink, StdSource};
use hipe_stop::{Stop, program_arguments, report, stack_is_there};
use limits::STACK_PAGES;
use std::process::ExitCode;
use top::hipe_alone;

fn main(rt: HostRuntime) -> ExitCode {
    let mut source = StdSource::new(rt.stdin());
    let mut out = StdSink::new(rt.stdout());
    let mut err = StdSink::new(rt.stderr());
    let arguments = if stack_is_there(&rt, STACK_PAGES) {
        program_arguments(&rt)
    } else {
        Err(Stop::Memory)
    };
    let status = match arguments {
        Ok(arguments) => hipe_alone(rt.alloc(), &arguments, &mut source, &mut out, &mut err),
        Err(stop) => report(rt.alloc(), stop, &mut err),
    };
    ExitCode::from(status)
}
