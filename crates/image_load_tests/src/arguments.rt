// The constants of a call, from words.

use crate::image::atom;
use hipe_terms::Constant;
use sqlite_items::{Boxed, Items};
use std::alloc::Global;

// Takes so many constants from the end.
fn parts(constants: &mut Vec<Constant>, count: &str) -> anyhow::Result<Items<Constant>> {
    let Ok(count) = count.parse::<usize>() else {
        return Err(anyhow::anyhow!("no number"));
    };
    let Some(at) = constants.len().checked_sub(count) else {
        return Err(anyhow::anyhow!("too few parts"));
    };
    Ok(Items::from_vec(constants.split_off(at)?))
}

// Takes a list's parts from the end.
fn list(alloc: Global, constants: &mut Vec<Constant>, count: &str) -> anyhow::Result<Constant> {
    let Some(tail) = constants.pop() else {
        return Err(anyhow::anyhow!("no tail"));
    };
    Ok(Constant::List(parts(constants, count)?, Boxed::new(alloc, tail)?))
}

// The constant of a word, whose parts are taken from the end.
fn constant(alloc: Global, constants: &mut Vec<Constant>, word: &str) -> anyhow::Result<Constant> {
    if word == "[]" {
        return Ok(Constant::Nil);
    }
    if let Some(name) = word.strip_prefix("'") {
        return Ok(Constant::Atom(atom(alloc, name)?));
    }
    if let Some(count) = word.strip_prefix("tuple:") {
        return Ok(Constant::Tuple(parts(constants, count)?));
    }
    if let Some(count) = word.strip_prefix("list:") {
        return list(alloc, constants, count);
    }
    match word.parse::<i64>() {
        Ok(n) => Ok(Constant::Int(n)),
        Err(_) => Err(anyhow::anyhow!("no constant")),
    }
}

/// The constants that words give.
///
/// # Errors
///
/// Where a word gives none, or too few constants stand before it; and where there is no memory.
pub(crate) fn arguments(alloc: Global, words: &str) -> anyhow::Result<Vec<Constant>> {
    let mut constants = Vec::new(alloc);
    for word in words.split_whitespace() {
        let constant = constant(alloc, &mut constants, word)?;
        constants.push(constant)?;
    }
    Ok(constants)
}
