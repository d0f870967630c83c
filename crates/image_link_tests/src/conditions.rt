// What the calls of `image_link` require, as tests.

ghost use Rattle.std.specs.Prelude.{◌≡◌, ◌<◌, All, AllPairs, IsTrue, length};
ghost use Rattle.image_link.specs.Code.{AreApart, IsCallIn, IsPart};
ghost use Rattle.image_link.specs.Names.{IsDefinition, NamesDefinition};

use image_link::{CallSite, Code, FunctionEntry, Names};

/// Whether there are no funs yet.
pub fn are_definitions(functions: &[FunctionEntry]) -> bool
    ensures { IsTrue result → All IsDefinition functions.now }
{
    functions.iter().all(|f| f.name.is_some())
}

/// Whether the function can be exported next.
pub fn can_export(names: &Names, function: u32) -> bool
    ensures definition { IsTrue result → NamesDefinition names.now.functions function }
    ensures order { IsTrue result → All (λ e. e < function) names.now.exports }
{
    match names.functions().get(function as usize) {
        Some(f) => f.name.is_some() && names.exports().iter().all(|e| *e < function),
        None => false,
    }
}

/// Whether these parts can be linked for these functions.
pub fn can_link(parts: &[Code], functions: &[FunctionEntry]) -> bool
    ensures count { IsTrue result → length parts.now ≡ length functions.now }
    ensures parts { IsTrue result → All (IsPart (length functions.now)) parts.now }
{
    let count = functions.len();
    parts.len() == count && parts.iter().all(|part| is_part(part, count))
}

// Whether the code can be linked in a program of so many functions.
fn is_part(part: &Code, functions: usize) -> bool
    ensures { IsTrue result → IsPart functions part.now }
{
    let bytes = part.bytes.len();
    (part.closure_entry as usize) < bytes
        && calls_are_in(part.calls.as_slice(), bytes, functions)
        && all_are_apart(part.calls.as_slice())
}

// Whether the fields of all calls lie in so many bytes, and their targets are among so many functions.
fn calls_are_in(calls: &[CallSite], bytes: usize, functions: usize) -> bool
    ensures { IsTrue result → All (IsCallIn bytes functions) calls.now }
{
    calls.iter().all(|call| is_call_in(*call, bytes, functions))
}

fn is_call_in(call: CallSite, bytes: usize, functions: usize) -> bool
    ensures { IsTrue result → IsCallIn bytes functions call }
{
    call.at as usize + 4 <= bytes && (call.target as usize) < functions
}

// Whether the fields of no two calls have a byte in common.
fn all_are_apart(calls: &[CallSite]) -> bool
    ensures { IsTrue result → AllPairs AreApart calls.now }
{
    match calls.split_last() {
        Some((last, before)) => are_apart_from(before, *last) && all_are_apart(before),
        None => true,
    }
}

fn are_apart_from(calls: &[CallSite], last: CallSite) -> bool
    ensures { IsTrue result → All (λ call. AreApart call last) calls.now }
{
    calls.iter().all(|call| are_apart(*call, last))
}

fn are_apart(a: CallSite, b: CallSite) -> bool
    ensures { IsTrue result → AreApart a b }
{
    a.at as u64 + 4 <= b.at as u64 || b.at as u64 + 4 <= a.at as u64
}
