// Why a list of terminals is no module.

/// Why a terminal can't stand where it stands.
#[derive(Clone, Copy, Debug, PartialEq, Eq)]
pub enum Fault {
    /// No module, or no call, goes on with it.
    Syntax,
    /// No module of the profile goes on with it, but one of Core Erlang may: it is a float, `receive`, `#` or `~` where an
    /// integer could stand, or a variable as the module or the name of a `call`.
    NotInProfile,
    /// A part of too high a level begins with it, or an argument after the last that a call may have.
    TooDeep,
}
