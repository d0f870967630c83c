// The text of constants.

ghost use Rattle.std.specs.Prelude.{◌≡◌, ◌++◌, [], map, flat_map, string_bytes, IfOk, OnOk, OnErr};
ghost use Rattle.std.specs.Fmt.{signed_decimal};
ghost use Rattle.hipe_terms.specs.Constants.{IsConstant, AreConstants, is_nil};
ghost use Rattle.hipe_terms.specs.Shown.{in_hex, escaped, quoted, shown, shown_all, comma_before};
ghost use Rattle.hipe_terms.specs.Terms.{term_of, terms};

use crate::atom::Atom;
use crate::constant::Constant;
use hipe_base::Memory;
use std::alloc::Global;

/// The text of a constant in UTF-8: integers in decimal, atoms in single quotes with escapes, lists as `[1,2]` or
/// `[1,2|3]` and tuples as `{1,2}`, without spaces. An error where there is no memory for it.
pub fn show(alloc: Global, c: &Constant) -> Result<Vec<u8>, Memory>
    requires { IsConstant c.now }
    ensures { IfOk result (λ text. text.items ≡ shown [] (term_of c.now)) }
{
    let mut text = String::new(alloc);
    show_constant(alloc, c, &mut text)?;
    Ok(text.into_bytes())
}

/// Appends the text of a constant.
///
/// # Errors
///
/// `Memory` where there is no memory for the text. What stood there before stays as it was.
pub fn show_onto(alloc: Global, c: &Constant, text: &mut String) -> Result<(), Memory>
    requires { IsConstant c.now }
    ensures ok { OnOk result (string_bytes text.new ≡ string_bytes text.old ++ shown [] (term_of c.now)) }
    ensures err { OnErr result (string_bytes text.new ≡ string_bytes text.old) }
{
    let mut shown = String::new(alloc);
    show_constant(alloc, c, &mut shown)?;
    text.push_str(shown.as_str())
}

// Appends the text of a constant, or a part of it where there is no memory for all of it.
#[cycle(show)]
#[tactic(auto, using(crate::proofs::Levels::term_levels))]
fn show_constant(alloc: Global, c: &Constant, text: &mut String) -> Result<(), Memory>
    requires { IsConstant c.now }
    ensures { OnOk result (string_bytes text.new ≡ string_bytes text.old ++ shown [] (term_of c.now)) }
{
    match c {
        Constant::Int(n) => show_integer(alloc, *n, text),
        Constant::Atom(a) => show_quoted(alloc, a, text),
        Constant::Nil => text.push_str("[]"),
        Constant::List(parts, tail) => {
            text.push_str("[")?;
            show_each(alloc, parts.as_slice(), text)?;
            if is_nil(tail.get()) {
                text.push_str("]")?;
                return Ok(());
            }
            text.push_str("|")?;
            show_constant(alloc, tail.get(), text)?;
            text.push_str("]")?;
            Ok(())
        }
        Constant::Tuple(parts) => {
            text.push_str("{")?;
            show_each(alloc, parts.as_slice(), text)?;
            text.push_str("}")?;
            Ok(())
        }
    }
}

// The texts of these constants with commas between them.
#[cycle(show)]
#[tactic(auto, using(crate::proofs::Levels::term_levels))]
fn show_each(alloc: Global, parts: &[Constant], text: &mut String) -> Result<(), Memory>
    requires { AreConstants parts.now }
    ensures { OnOk result (string_bytes text.new ≡ string_bytes text.old ++ shown_all [] (terms (map term_of parts.now))) }
{
    for (i, part) in parts.iter().enumerate() {
        show_comma(i, text)?;
        show_constant(alloc, part, text)?;
    }
    Ok(())
}

fn is_nil(c: &Constant) -> bool
    ensures { result ≡ is_nil c.now }
{
    matches!(c, Constant::Nil)
}

// A comma, but for the first element.
fn show_comma(i: usize, text: &mut String) -> Result<(), Memory>
    ensures { OnOk result (string_bytes text.new ≡ string_bytes text.old ++ comma_before i) }
{
    if i > 0 {
        return text.push_str(",");
    }
    Ok(())
}

fn show_integer(alloc: Global, n: i64, text: &mut String) -> Result<(), Memory>
    ensures { OnOk result (string_bytes text.new ≡ string_bytes text.old ++ signed_decimal n) }
{
    let decimal = format!(in alloc; "{n}")?;
    text.push_str(decimal.as_str())
}

/// Appends an atom in single quotes.
///
/// # Errors
///
/// `Memory` where there is no memory for the text. What stood there before stays as it was.
pub fn show_atom(alloc: Global, atom: &Atom, text: &mut String) -> Result<(), Memory>
    ensures ok { OnOk result (string_bytes text.new ≡ string_bytes text.old ++ quoted atom.now) }
    ensures err { OnErr result (string_bytes text.new ≡ string_bytes text.old) }
{
    let mut shown = String::new(alloc);
    show_quoted(alloc, atom, &mut shown)?;
    text.push_str(shown.as_str())
}

// Appends an atom in single quotes, or a part of it where there is no memory for all of it.
fn show_quoted(alloc: Global, atom: &Atom, text: &mut String) -> Result<(), Memory>
    ensures { OnOk result (string_bytes text.new ≡ string_bytes text.old ++ quoted atom.now) }
{
    let points = atom.code_points(alloc)?;
    text.push_str("'")?;
    show_code_points(alloc, points.as_slice(), text)?;
    text.push_str("'")
}

fn show_code_points(alloc: Global, points: &[char], text: &mut String) -> Result<(), Memory>
    ensures { OnOk result (string_bytes text.new ≡ string_bytes text.old ++ flat_map escaped points.now) }
{
    for c in points {
        show_code_point(alloc, *c, text)?;
    }
    Ok(())
}

fn show_code_point(alloc: Global, c: char, text: &mut String) -> Result<(), Memory>
    ensures { OnOk result (string_bytes text.new ≡ string_bytes text.old ++ escaped c) }
{
    match c {
        '\'' => text.push_str("\\'"),
        '\\' => text.push_str("\\\\"),
        '\u{8}' => text.push_str("\\b"),
        '\t' => text.push_str("\\t"),
        '\n' => text.push_str("\\n"),
        '\u{b}' => text.push_str("\\v"),
        '\u{c}' => text.push_str("\\f"),
        '\r' => text.push_str("\\r"),
        '\u{1b}' => text.push_str("\\e"),
        '\u{7f}' => text.push_str("\\d"),
        '\u{0}'..='\u{1f}' | '\u{80}'..='\u{9f}' => show_in_hex(alloc, c as u32, text),
        _ => text.push(c),
    }
}

// A code point in lower-case hexadecimal.
fn show_in_hex(alloc: Global, c: u32, text: &mut String) -> Result<(), Memory>
    ensures { OnOk result (string_bytes text.new ≡ string_bytes text.old ++ in_hex c) }
{
    let escape = format!(in alloc; "\\x{{{c:x}}}")?;
    text.push_str(escape.as_str())
}
