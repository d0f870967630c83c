// Orders and texts by hand.

use crate::words::pair;
use hipe_base::Memory;
use hipe_terms::{Atom, Bif, Constant, is_constant, order, same, show, words_of};
use sqlite_items::{Boxed, Items};
use std::alloc::Global;
use std::cmp::Ordering;
use std::test::Fail;

fn atom(alloc: Global, text: &str) -> Result<Constant, Fail> {
    match Atom::new(format!(in alloc; "{text}")?) {
        Ok(a) => Ok(Constant::Atom(a)),
        Err(_) => Err(Fail::from("too long")),
    }
}

fn tuple(parts: Vec<Constant>) -> Constant {
    Constant::Tuple(Items::from_vec(parts))
}

fn list(alloc: Global, parts: Vec<Constant>, tail: Constant) -> Result<Constant, Memory> {
    Ok(Constant::List(Items::from_vec(parts), Boxed::new(alloc, tail)?))
}

fn integers(alloc: Global, numbers: &[i64]) -> Result<Vec<Constant>, Memory> {
    let mut parts = Vec::new(alloc);
    for n in numbers {
        parts.push(Constant::Int(*n))?;
    }
    Ok(parts)
}

// Whether each of these comes before the next.
fn ascend(all: &[Constant]) -> bool {
    for pair in all.windows(2) {
        if let [a, b] = pair {
            if !is_constant(a) || !is_constant(b) {
                return false;
            }
            if order(a, b) != Ordering::Less
                || order(b, a) != Ordering::Greater
                || same(a, b)
                || !same(a, a)
            {
                return false;
            }
        }
    }
    true
}

fn is_shown(alloc: Global, c: &Constant, text: &str) -> Result<bool, Fail> {
    if !is_constant(c) {
        return Ok(false);
    }
    let shown = show(alloc, c)?;
    Ok(shown.as_slice() == text.as_bytes())
}

#[test]
fn terms_stand_in_their_order(rt: HostRuntime) -> Result<(), Fail> {
    let alloc = rt.alloc();
    let mut all = integers(alloc, &[-576_460_752_303_423_488, -1, 0, 1])?;
    for text in ["", "Z", "a", "ab", "b", "\u{e9}", "\u{ffff}", "\u{10000}"] {
        all.push(atom(alloc, text)?)?;
    }
    all.push(tuple(integers(alloc, &[])?))?;
    all.push(tuple(integers(alloc, &[9])?))?;
    all.push(tuple(integers(alloc, &[1, 2])?))?;
    all.push(tuple(integers(alloc, &[2, 1])?))?;
    all.push(Constant::Nil)?;
    all.push(list(alloc, integers(alloc, &[1])?, atom(alloc, "z")?)?)?;
    all.push(list(alloc, integers(alloc, &[1])?, Constant::Nil)?)?;
    all.push(list(alloc, integers(alloc, &[1, 0])?, Constant::Nil)?)?;
    all.push(list(alloc, integers(alloc, &[2])?, Constant::Nil)?)?;
    assert!(rt; ascend(all.as_slice()));
    Ok(())
}

#[test]
fn atoms_are_shown_with_escapes(rt: HostRuntime) -> Result<(), Fail> {
    let alloc = rt.alloc();
    let table = [
        ("a b", "'a b'"),
        ("it's", "'it\\'s'"),
        ("\\", "'\\\\'"),
        ("\u{8}\t\n\u{b}\u{c}\r", "'\\b\\t\\n\\v\\f\\r'"),
        ("\u{1b}\u{7f}", "'\\e\\d'"),
        ("\u{0}\u{7}\u{e}\u{1f} ", "'\\x{0}\\x{7}\\x{e}\\x{1f} '"),
        ("~\u{80}\u{9f}\u{a0}", "'~\\x{80}\\x{9f}\u{a0}'"),
        ("\u{e9}\u{20ac}\u{1f600}", "'\u{e9}\u{20ac}\u{1f600}'"),
        ("", "''"),
    ];
    for (text, shown) in table {
        assert!(rt; is_shown(alloc, &atom(alloc, text)?, shown)?);
    }
    Ok(())
}

#[test]
fn lists_and_tuples_are_shown(rt: HostRuntime) -> Result<(), Fail> {
    let alloc = rt.alloc();
    assert!(rt;
        is_shown(
            alloc,
            &Constant::Int(-576_460_752_303_423_488),
            "-576460752303423488"
        )?
    );
    assert!(rt; is_shown(alloc, &Constant::Nil, "[]")?);
    assert!(rt; is_shown(alloc, &tuple(integers(alloc, &[])?), "{}")?);
    assert!(rt; is_shown(alloc, &tuple(integers(alloc, &[1, 2])?), "{1,2}")?);
    assert!(rt;
        is_shown(
            alloc,
            &list(alloc, integers(alloc, &[1, 2])?, Constant::Nil)?,
            "[1,2]"
        )?
    );
    assert!(rt;
        is_shown(
            alloc,
            &list(alloc, integers(alloc, &[1, 2])?, Constant::Int(3))?,
            "[1,2|3]"
        )?
    );
    Ok(())
}

#[test]
fn an_atom_has_at_most_255_code_points(rt: HostRuntime) -> Result<(), Fail> {
    let alloc = rt.alloc();
    let longest = "\u{e9}".repeat(alloc, 255)?;
    assert!(rt; Atom::new(format!(in alloc; "{longest}")?).is_ok());
    assert!(rt; Atom::new(format!(in alloc; "{longest}x")?).is_err());
    Ok(())
}

#[test]
fn built_in_functions_have_names(rt: HostRuntime) {
    assert_eq!(rt; Bif::IsFunctionOfArity.name(), "is_function");
    assert_eq!(rt; Bif::IsFunctionOfArity.arity(), 2);
    assert_eq!(rt; Bif::AtMost.name(), "=<");
}

#[test]
fn words_are_counted(rt: HostRuntime) -> Result<(), Fail> {
    let alloc = rt.alloc();
    assert_eq!(rt; words_of(&pair(alloc)?), 3);
    Ok(())
}
