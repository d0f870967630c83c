// The arguments of a program.
use super::stop::Stop;
use std::env;
use std::io::ErrorKind;
use std::rt::Env;

/// The program's arguments, without its name.
///
/// # Errors
///
/// - `Arguments` where one isn't UTF-8: then it is none of a command.
/// - `Memory` where there was no memory for them.
pub fn program_arguments<R: Env + AllocGlobal>(rt: &R) -> Result<Vec<String>, Stop> {
    match env::args(rt) {
        Ok(args) => Ok(args.skip(1).collect(rt.alloc())?),
        Err(error) if error.kind() == ErrorKind::OutOfMemory => Err(Stop::Memory),
        Err(_) => Err(Stop::Arguments),
    }
}
