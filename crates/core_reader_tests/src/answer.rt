// The answer to each command.

ghost use Rattle.std.specs.Prelude.{IfOk};
ghost use Rattle.core_ast.specs.Trees.{module_of};
ghost use Rattle.core_ast.specs.WellFormed.{IsWellFormed};

use crate::shown::{show_call, show_module};
use core_ast::Module;
use core_print::print_module;
use core_reader::{CallRefusal, ReadRefusal, read_call, read_module};
use hipe_base::Memory;
use hipe_terms::Place;
use std::alloc::Global;

// The longest text that is read here, in bytes.
const LONGEST: usize = 1_000_000;

type Answer = Result<String, Memory>;

// A refusal and its place.
fn refused(alloc: Global, kind: &str, at: Place) -> Answer {
    let line = at.line;
    let col = at.col;
    format!(in alloc; "{kind} {line}:{col}")
}

fn refusal(alloc: Global, why: ReadRefusal) -> Answer {
    match why {
        ReadRefusal::Token { at } => refused(alloc, "token", at),
        ReadRefusal::WideInteger { at } => refused(alloc, "wide_integer", at),
        ReadRefusal::LongAtom { at } => refused(alloc, "long_atom", at),
        ReadRefusal::Syntax { at } => refused(alloc, "syntax", at),
        ReadRefusal::TooDeep { at } => refused(alloc, "too_deep", at),
        ReadRefusal::NotInProfile { at } => refused(alloc, "not_in_profile", at),
        ReadRefusal::Memory => String::from_str(alloc, "memory"),
    }
}

// The module of a text that isn't too long here.
fn read(alloc: Global, text: &[u8]) -> Result<Module, ReadRefusal>
    ensures { IfOk result (λ m. IsWellFormed (module_of m)) }
{
    if text.len() > LONGEST {
        return Err(ReadRefusal::Memory);
    }
    read_module(alloc, text)
}

/// The module of a text, with its places.
pub(crate) fn module(alloc: Global, text: &str) -> Answer {
    match read(alloc, text.as_bytes()) {
        Ok(m) => show_module(alloc, &m, true),
        Err(why) => refusal(alloc, why),
    }
}

// The text of a module of one function with this body.
fn with_body(alloc: Global, body: &str) -> Answer {
    format!(in alloc; "module 'm' ['main'/0] attributes [] 'main'/0 = fun () -> {body} end")
}

/// The module with this body.
pub(crate) fn body(alloc: Global, body: &str) -> Answer {
    module(alloc, with_body(alloc, body)?.as_str())
}

/// The module with a `case` of this clause.
pub(crate) fn clause(alloc: Global, clause: &str) -> Answer {
    let text = format!(in alloc; "case 1 of {clause} end")?;
    body(alloc, text.as_str())
}

/// The call of a text.
pub(crate) fn call(alloc: Global, text: &str) -> Answer {
    if text.len() > LONGEST {
        return String::from_str(alloc, "memory");
    }
    match read_call(alloc, text) {
        Ok(call) => show_call(alloc, &call),
        Err(CallRefusal::Refused { at }) => refused(alloc, "call", at),
        Err(CallRefusal::Memory) => String::from_str(alloc, "memory"),
    }
}

// What is said of a token behind a text.
enum Verdict {
    GoesOn,
    NotInProfile,
    Syntax,
    Other,
}

// What is said of a token that begins at this column of the first line, at the end of the text.
fn said(alloc: Global, text: &[u8], col: u64) -> Verdict {
    match read(alloc, text) {
        Ok(_) => Verdict::GoesOn,
        Err(ReadRefusal::Syntax { at }) => {
            if at.col == col {
                Verdict::Syntax
            } else if at.col == text.len() as u64 + 1 {
                Verdict::GoesOn
            } else {
                Verdict::Other
            }
        }
        Err(ReadRefusal::NotInProfile { at }) if at.col == col => Verdict::NotInProfile,
        Err(_) => Verdict::Other,
    }
}

// A token with a space before it.
fn listed(list: &mut String, token: &str) -> Result<(), Memory> {
    list.push_str(" ")?;
    list.push_str(token)
}

/// The tokens of the alphabet with which a text of ASCII on one line goes on, and those that the profile hasn't there.
pub(crate) fn after(alloc: Global, alphabet: &str, prefix: &str) -> Answer {
    let mut going_on = String::new(alloc);
    let mut lacking = String::new(alloc);
    let mut other = String::new(alloc);
    for token in alphabet.split_whitespace() {
        let text = format!(in alloc; "{prefix} {token}")?;
        let before = format!(in alloc; "{prefix} ")?;
        match said(alloc, text.as_bytes(), before.len() as u64 + 1) {
            Verdict::GoesOn => listed(&mut going_on, token)?,
            Verdict::NotInProfile => listed(&mut lacking, token)?,
            Verdict::Syntax => {}
            Verdict::Other => listed(&mut other, token)?,
        }
    }
    format!(in alloc; "goes on:{going_on}; not in the profile:{lacking}; other:{other}")
}

// A text again and again.
fn push_times(alloc: Global, text: &mut String, part: &str, times: u64) -> Result<(), Memory> {
    for _ in 0..times {
        text.push_str(part)?;
    }
    Ok(())
}

// What a command of nested texts has.
#[derive(Clone, Copy)]
struct Repeated<'a> {
    times: u64,
    before: &'a str,
    open: &'a str,
    inside: &'a str,
    close: &'a str,
    behind: &'a str,
}

// The six fields of such a command, with `;` between them.
fn nested_of(rest: &str) -> Option<Repeated<'_>> {
    let (times, rest) = rest.split_once(";")?;
    let (before, rest) = rest.split_once(";")?;
    let (open, rest) = rest.split_once(";")?;
    let (inside, rest) = rest.split_once(";")?;
    let (close, behind) = rest.split_once(";")?;
    let times = match times.parse::<u64>() {
        Ok(times) => times,
        Err(_) => return None,
    };
    Some(Repeated {
        times,
        before,
        open,
        inside,
        close,
        behind,
    })
}

/// Whether a body is read that has the same texts so many times, or where it is refused.
pub(crate) fn nested(alloc: Global, rest: &str) -> Answer {
    let Some(parts) = nested_of(rest) else {
        return String::from_str(alloc, "no texts");
    };
    let mut body = String::from_str(alloc, parts.before)?;
    push_times(alloc, &mut body, parts.open, parts.times)?;
    body.push_str(parts.inside)?;
    push_times(alloc, &mut body, parts.close, parts.times)?;
    body.push_str(parts.behind)?;
    match read(alloc, with_body(alloc, body.as_str())?.as_bytes()) {
        Ok(_) => String::from_str(alloc, "read"),
        Err(why) => refusal(alloc, why),
    }
}

// A module without its places, and whether it is the same when it is printed and read again.
fn same_again(alloc: Global, m: &Module) -> Answer
    requires { IsWellFormed (module_of m.now) }
{
    let text = match print_module(alloc, m) {
        Ok(text) => text,
        Err(_) => return String::from_str(alloc, "memory"),
    };
    let second = match read(alloc, text.as_slice()) {
        Ok(second) => second,
        Err(why) => return refusal(alloc, why),
    };
    let first = show_module(alloc, m, false)?;
    let second = show_module(alloc, &second, false)?;
    if first.as_str() == second.as_str() {
        format!(in alloc; "{first}\nthe same when printed and read again")
    } else {
        format!(in alloc; "{first}\n{second}\ndiffer")
    }
}

/// The module of a text without its places, and whether it is the same when it is printed and read again.
pub(crate) fn again(alloc: Global, text: &str) -> Answer {
    match read(alloc, text.as_bytes()) {
        Ok(m) => same_again(alloc, &m),
        Err(why) => refusal(alloc, why),
    }
}

/// The module of a text, printed.
pub(crate) fn printed(alloc: Global, text: &str) -> Answer {
    let m = match read(alloc, text.as_bytes()) {
        Ok(m) => m,
        Err(why) => return refusal(alloc, why),
    };
    let text = match print_module(alloc, &m) {
        Ok(text) => text,
        Err(_) => return String::from_str(alloc, "memory"),
    };
    match String::from_utf8(text) {
        Ok(text) => Ok(text),
        Err(_) => String::from_str(alloc, "no UTF-8"),
    }
}
