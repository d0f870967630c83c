// Texts, as the lists of their characters.

ghost use Rattle.std.specs.Prelude.{◌≡◌, map, IfOk};
ghost use Rattle.core_grammar.specs.Trees.{constant_text, constant_character, pattern_text, pattern_character, text_at, character_at};

use core_ast::{Expr, Node, PatNode, Pattern};
use hipe_base::Memory;
use hipe_terms::{Constant, Place};
use sqlite_items::{Boxed, Items};
use std::alloc::Global;

// The characters of a text.
#[tactic(auto, unfolding(core_grammar::specs::Trees::constant_of))]
fn constant_characters(alloc: Global, text: &[u32]) -> Result<Items<Constant>, Memory>
    ensures { IfOk result (λ cs. cs ≡ map constant_character text.now) }
{
    let mut characters = Vec::with_capacity(alloc, text.len())?;
    for c in text {
        characters.push_reserved(Constant::Int(*c as i64));
    }
    Ok(Items::from_vec(characters))
}

/// A text, as a constant.
#[tactic(auto, unfolding(core_grammar::specs::Trees::constant_of))]
pub fn constant_text(alloc: Global, text: &[u32]) -> Result<Constant, Memory>
    ensures { IfOk result (λ c. c ≡ constant_text text.now) }
{
    if text.is_empty() {
        return Ok(Constant::Nil);
    }
    let characters = constant_characters(alloc, text)?;
    let tail = Boxed::new(alloc, Constant::Nil)?;
    Ok(Constant::List(characters, tail))
}

// The characters of a text, each at its place.
#[tactic(auto, unfolding(core_grammar::specs::Trees::pattern_at))]
fn pattern_characters(alloc: Global, at: Place, text: &[u32]) -> Result<Items<Pattern>, Memory>
    ensures { IfOk result (λ fs. fs ≡ map (pattern_character at) text.now) }
{
    let mut characters = Vec::with_capacity(alloc, text.len())?;
    for c in text {
        characters.push_reserved(Pattern {
            node: PatNode::Int(*c as i64),
            at,
        });
    }
    Ok(Items::from_vec(characters))
}

/// A text at a place, as a pattern.
#[tactic(auto, unfolding(core_grammar::specs::Trees::pattern_at))]
pub fn pattern_text(alloc: Global, at: Place, text: &[u32]) -> Result<Pattern, Memory>
    ensures { IfOk result (λ f. f ≡ pattern_text at text.now) }
{
    let end = Pattern {
        node: PatNode::Nil,
        at,
    };
    if text.is_empty() {
        return Ok(end);
    }
    let characters = pattern_characters(alloc, at, text)?;
    let tail = Boxed::new(alloc, end)?;
    Ok(Pattern {
        node: PatNode::List(characters, tail),
        at,
    })
}

// The characters of a text, each at its place.
#[tactic(auto, unfolding(core_grammar::specs::Trees::expression_at))]
fn characters(alloc: Global, at: Place, text: &[u32]) -> Result<Items<Expr>, Memory>
    ensures { IfOk result (λ es. es ≡ map (character_at at) text.now) }
{
    let mut characters = Vec::with_capacity(alloc, text.len())?;
    for c in text {
        characters.push_reserved(Expr {
            node: Node::Int(*c as i64),
            at,
        });
    }
    Ok(Items::from_vec(characters))
}

/// A text at a place, as an expression.
#[tactic(auto, unfolding(core_grammar::specs::Trees::expression_at))]
pub fn text_at(alloc: Global, at: Place, text: &[u32]) -> Result<Expr, Memory>
    ensures { IfOk result (λ e. e ≡ text_at at text.now) }
{
    let end = Expr {
        node: Node::Nil,
        at,
    };
    if text.is_empty() {
        return Ok(end);
    }
    let characters = characters(alloc, at, text)?;
    let tail = Boxed::new(alloc, end)?;
    Ok(Expr {
        node: Node::List(characters, tail),
        at,
    })
}
