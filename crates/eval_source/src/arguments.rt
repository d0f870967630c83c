// The arguments of the command.
ghost use Rattle.std.specs.Prelude.{◌≡◌, ◌⊎◌, ◌+◌, ◌-◌, ◌*◌, ◌^◌, ◌≤◌, true, false, map, option_map, MatchOption};
ghost use Rattle.std.specs.String.{string_bytes};
ghost use Rattle.eval_source.specs.Arguments.{command_with, command_of, number_of, that_fits, with_digits, is_digit};
ghost use Rattle.eval_source.specs.Commands.{command_in};

use super::command::Command;
use super::limits::{DEFAULT_FUEL, MOST_DIGITS};

/// What the arguments ask for, which are CALL and perhaps `--fuel N`. None where they are others.
pub fn command_of(arguments: &[String]) -> Option<Command<'_>>
    ensures { option_map command_in result ≡ command_of (map string_bytes arguments.now) }
{
    match arguments {
        [call] => command_with(call.as_str(), Some(DEFAULT_FUEL)),
        [call, option, n] if option.as_str() == "--fuel" => {
            command_with(call.as_str(), number_of(n.as_str().as_bytes()))
        }
        _ => None,
    }
}

// The command of a call's text, where it is short enough, and of a number.
fn command_with(call: &str, fuel: Option<u64>) -> Option<Command<'_>>
    ensures { option_map command_in result ≡ command_with call.now fuel }
{
    let fuel = fuel?;
    if call.len() > u32::MAX as usize {
        return None;
    }
    Some(Command { call, fuel })
}

// The number that decimal digits name.
fn number_of(digits: &[u8]) -> Option<u64>
    ensures { result ≡ number_of digits.now }
{
    if digits.is_empty() || digits.len() > MOST_DIGITS {
        return None;
    }
    value_of(digits)
}

// The number that any count of digits names, where it fits.
#[tactic(auto, using(crate::proofs::Digits::digits))]
fn value_of(digits: &[u8]) -> Option<u64>
    ensures { result ≡ that_fits (with_digits 0 digits.now) }
{
    let mut n = 0u64;
    for b in digits {
        match with_digit(n, *b) {
            Some(more) => n = more,
            None => return None,
        }
    }
    Some(n)
}

// A number with one more digit, where it is one and the number fits.
fn with_digit(n: u64, b: u8) -> Option<u64>
    ensures { MatchOption result ((is_digit b ≡ false) ⊎ (2 ^ 64 ≤ n * 10 + (b - 48)))
        (λ m. (is_digit b ≡ true) × (m ≡ n * 10 + (b - 48))) }
{
    if !is_digit(b) {
        return None;
    }
    n.checked_mul(10)?.checked_add(u64::from(b - b'0'))
}

fn is_digit(b: u8) -> bool
    ensures { result ≡ is_digit b }
{
    b'0' <= b && b <= b'9'
}
