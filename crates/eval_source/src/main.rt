// What the definitions of the language say of a call of a module.
//
// It takes on standard input the text of a module of Core Erlang, and the arguments CALL and perhaps `--fuel N`. It reads the
// module and checks it, evaluates the call by `eval_run`, and writes each displayed term, the result, and what the run counted.
// It is how the definitions are tried on real modules, and how every case is looked at where compiled code and the source could
// differ. It is no part of the compiler.
//
// Promises: by the contract of `eval_source`, for any source and any sinks: where memory is found and no read or write
// fails, exactly the text and the status that the definitions give, those of `source_run` for a good module; and for each other
// end what stands on the source and the sinks. `main` only lends it standard input, output and error.
//
// The statuses are those of the compiler's program: 0 where the call returned, 1 where the run raised a class, 2 for the
// arguments, 3 for the text, 5 where what was given to the run was spent, which here is its fuel, 6 for reads, 7 for writes, 8 for
// memory.
//
// May touch: memory, the source and the sinks that it is lent; in `main` the process's arguments and standard streams.
//
// Files:
//   limits.rt      the limits, with their reasons
//   command.rt     what the arguments ask for
//   arguments.rt   the arguments, by hand
//   lines.rt       what a run writes
//   run.rt         from the arguments and the source to the lines on out
//   top.rt         `eval_source`
#![tactic(auto)]

mod arguments;
mod command;
mod limits;
mod lines;
mod run;
mod top;

use hipe_edge::{StdSink, StdSource};
use hipe_stop::{Stop, program_arguments, report, stack_is_there};
use limits::STACK_PAGES;
use std::process::ExitCode;
use top::eval_source;

fn main(rt: HostRuntime) -> ExitCode {
    let mut source = StdSource::new(rt.stdin());
    let mut out = StdSink::new(rt.stdout());
    let mut err = StdSink::new(rt.stderr());
    let arguments = if stack_is_there(&rt, STACK_PAGES) {
        program_arguments(&rt)
    } else {
        Err(Stop::Memory)
    };
    let status = match arguments {
        Ok(arguments) => eval_source(rt.alloc(), &arguments, &mut source, &mut out, &mut err),
        Err(stop) => report(rt.alloc(), stop, &mut err),
    };
    ExitCode::from(status)
}
