// The arguments of the command.
ghost use Rattle.std.specs.Prelude.{◌≡◌, ◌↔◌, IsTrue, map, MatchOption};
ghost use Rattle.std.specs.String.{string_bytes};
ghost use Rattle.hipe_top.specs.Command.{IsCommand, arguments_of};

/// What the program does with a text.
#[derive(Clone, Copy, Debug, PartialEq, Eq)]
pub enum Mode {
    /// It tells whether the text is a good module.
    Check,
    /// It compiles the text and runs `'main'()`.
    Run,
}

// Whether the arguments are `check`.
fn is_check(arguments: &[String]) -> bool
    ensures { IsTrue result ↔ map string_bytes arguments.now ≡ arguments_of Mode.Check }
{
    match arguments {
        [mode] => mode.as_str() == "check",
        _ => false,
    }
}

// Whether the arguments are `run` and the call `'main'()`.
fn is_run(arguments: &[String]) -> bool
    ensures { IsTrue result ↔ map string_bytes arguments.now ≡ arguments_of Mode.Run }
{
    match arguments {
        [mode, call] => mode.as_str() == "run" && call.as_str() == "'main'()",
        _ => false,
    }
}

/// The mode that the arguments name: `check`, or `run` and the call `'main'()`. None where they are others.
pub fn mode_of(arguments: &[String]) -> Option<Mode>
    ensures { MatchOption result (¬ IsCommand (map string_bytes arguments.now))
        (λ mode. map string_bytes arguments.now ≡ arguments_of mode) }
{
    if is_check(arguments) {
        Some(Mode::Check)
    } else if is_run(arguments) {
        Some(Mode::Run)
    } else {
        None
    }
}
