// The order of two words.

ghost use Rattle.std.specs.Prelude.{[], ◌∷◌, ◌≡◌, ◌≤◌, ◌<◌, ◌+◌, ◌++◌, map, length, Some, IfOk, OnOk};
ghost use Rattle.region_memory.specs.declared.layout.TheConstants.{HEAP_LIMIT};
ghost use Rattle.heap_terms.specs.Parts.{size_below};
ghost use Rattle.heap_terms.specs.Seen.{symbols_of, reference_of, one_seen};
ghost use Rattle.heap_terms.specs.Shapes.{parts};
ghost use Rattle.machine_services.specs.Comparing.{compared, compared_below, then_on};
ghost use Rattle.machine_services.specs.Pending.{pending_seen, pending_order, pending_size, order_pending, size_pending, decides, first_order, kind_order, rank_of, opened, ends_order, parted, Pair, Parts};

use crate::list::from_outside;
use heap_terms::{Reference, Shape, Symbols, shape_at};
use hipe_base::Memory;
use std::alloc::Global;
use std::cmp::Ordering;

/// Words that refer below one place: the elements of a tuple or the captured values of a fun, from one on.
#[derive(Clone, Copy)]
pub struct Words<'a> {
    /// The number of the heap's word, from 0 on, below which an object must begin for a word to refer to it.
    pub below: usize,
    /// The words, in their order.
    pub words: &'a [u64],
}

/// What is still to be compared.
#[derive(Clone, Copy)]
pub enum Pending<'a> {
    /// One reference with another.
    Pair(Reference, Reference),
    /// The parts of an object with those of another, one by one.
    Parts(Words<'a>, Words<'a>),
}

/// The order of two words outside the heap by the order of terms, or `None` where a word that is followed is no term. Both are
/// followed from the left as far as the answer needs. An error where there is no memory for what is still to be compared.
pub fn compare(
    alloc: Global,
    symbols: &Symbols,
    heap: &[u64],
    a: u64,
    b: u64,
) -> Result<Option<Ordering>, Memory>
    requires { length heap.now ≤ HEAP_LIMIT }
    ensures { IfOk result (λ order. order ≡ compared (symbols_of symbols.now) heap.now a b) }
{
    let mut pending = Vec::new(alloc);
    pending.push(Pending::Pair(from_outside(heap, a), from_outside(heap, b)))?;
    while let Some(next) = pending.pop() {
        let found = compare_next(symbols, heap, next, &mut pending)?;
        if decides(found) {
            return Ok(found);
        }
    }
    Ok(Some(Ordering::Equal))
}

// Whether what comes later doesn't count.
fn decides(found: Option<Ordering>) -> bool
    ensures { result ≡ decides found }
{
    !matches!(found, Some(Ordering::Equal))
}

// Compares two references or the first two parts, and puts what is still to be compared behind the others. The answer is equal
// where what is pending decides.
fn compare_next<'a>(
    symbols: &'a Symbols,
    heap: &'a [u64],
    next: Pending<'a>,
    pending: &mut Vec<Pending<'a>>,
) -> Result<Option<Ordering>, Memory>
    requires { length heap.now ≤ HEAP_LIMIT }
    ensures order { IfOk result (λ found. then_on found (order_pending (symbols_of symbols.now) heap.now pending.new.items)
        ≡ then_on (pending_order (compared_below (symbols_of symbols.now) heap.now) (pending_seen next.entry)) (order_pending (symbols_of symbols.now) heap.now pending.old.items)) }
    ensures falls { OnOk result (size_pending (symbols_of symbols.now) heap.now pending.new.items
        < pending_size (size_below (symbols_of symbols.now) heap.now) (pending_seen next.entry) + size_pending (symbols_of symbols.now) heap.now pending.old.items) }
{
    match next {
        Pending::Pair(a, b) => compare_pair(symbols, heap, pending, a, b),
        Pending::Parts(left, right) => Ok(Some(compare_parts(pending, left, right)?)),
    }
}

// Compares two references as far as it shows without their parts, and puts the parts behind the others where that doesn't decide.
fn compare_pair<'a>(
    symbols: &'a Symbols,
    heap: &'a [u64],
    pending: &mut Vec<Pending<'a>>,
    a: Reference,
    b: Reference,
) -> Result<Option<Ordering>, Memory>
    requires { length heap.now ≤ HEAP_LIMIT }
    ensures order { IfOk result (λ found. then_on found (order_pending (symbols_of symbols.now) heap.now pending.new.items)
        ≡ then_on (compared_below (symbols_of symbols.now) heap.now (reference_of a) (reference_of b)) (order_pending (symbols_of symbols.now) heap.now pending.old.items)) }
    ensures falls { OnOk result (size_pending (symbols_of symbols.now) heap.now pending.new.items
        < size_below (symbols_of symbols.now) heap.now (reference_of a) + size_pending (symbols_of symbols.now) heap.now pending.old.items) }
{
    let Some(left) = shape_at(symbols, heap, a) else {
        return Ok(None);
    };
    let Some(right) = shape_at(symbols, heap, b) else {
        return Ok(None);
    };
    match first_order(left, right) {
        Ordering::Equal => push_opened(pending, left, right)?,
        unequal => return Ok(Some(unequal)),
    }
    Ok(Some(Ordering::Equal))
}

// The order of two shapes as far as it shows without their parts.
fn first_order(a: Shape<'_>, b: Shape<'_>) -> Ordering
    ensures { result ≡ first_order (one_seen a.entry) (one_seen b.entry) }
{
    match rank(a).cmp(&rank(b)) {
        Ordering::Equal => kind_order(a, b),
        unequal => unequal,
    }
}

// The order of two shapes of one kind as far as it shows without their parts.
fn kind_order(a: Shape<'_>, b: Shape<'_>) -> Ordering
    ensures { result ≡ kind_order (one_seen a.entry) (one_seen b.entry) }
{
    match a {
        Shape::Integer(m) => match b {
            Shape::Integer(n) => m.cmp(&n),
            Shape::Atom(_) | Shape::Nil | Shape::Cons(_, _) => Ordering::Equal,
            Shape::Tuple { .. } | Shape::Fun { .. } => Ordering::Equal,
        },
        Shape::Atom(x) => match b {
            Shape::Atom(y) => x.order(y),
            Shape::Integer(_) | Shape::Nil | Shape::Cons(_, _) => Ordering::Equal,
            Shape::Tuple { .. } | Shape::Fun { .. } => Ordering::Equal,
        },
        Shape::Fun { number: m, .. } => match b {
            Shape::Fun { number: n, .. } => m.cmp(&n),
            Shape::Integer(_) | Shape::Atom(_) | Shape::Nil => Ordering::Equal,
            Shape::Cons(_, _) | Shape::Tuple { .. } => Ordering::Equal,
        },
        Shape::Tuple { elements: xs, .. } => match b {
            Shape::Tuple { elements: ys, .. } => xs.len().cmp(&ys.len()),
            Shape::Integer(_) | Shape::Atom(_) | Shape::Nil => Ordering::Equal,
            Shape::Cons(_, _) | Shape::Fun { .. } => Ordering::Equal,
        },
        Shape::Nil | Shape::Cons(_, _) => Ordering::Equal,
    }
}

// The place of a shape's kind among the kinds.
fn rank(a: Shape<'_>) -> u8
    ensures { result ≡ rank_of (one_seen a.entry) }
{
    match a {
        Shape::Integer(_) => 0,
        Shape::Atom(_) => 1,
        Shape::Fun { .. } => 2,
        Shape::Tuple { .. } => 3,
        Shape::Nil => 4,
        Shape::Cons(_, _) => 5,
    }
}

// Puts the parts of two shapes of one kind behind the others, the first last.
fn push_opened<'a>(pending: &mut Vec<Pending<'a>>, a: Shape<'a>, b: Shape<'a>) -> Result<(), Memory>
    ensures { OnOk result (map pending_seen pending.new.items ≡ map pending_seen pending.old.items ++ opened (one_seen a.entry) (one_seen b.entry)) }
{
    match a {
        Shape::Integer(_) | Shape::Atom(_) | Shape::Nil => Ok(()),
        Shape::Cons(x, xs) => match b {
            Shape::Cons(y, ys) => {
                pending.push(Pending::Pair(xs, ys))?;
                pending.push(Pending::Pair(x, y))?;
                Ok(())
            }
            Shape::Integer(_) | Shape::Atom(_) | Shape::Nil => Ok(()),
            Shape::Tuple { .. } | Shape::Fun { .. } => Ok(()),
        },
        Shape::Tuple {
            below: i,
            elements: xs,
        } => match b {
            Shape::Tuple {
                below: j,
                elements: ys,
            } => push_words(pending, i, xs, j, ys),
            Shape::Integer(_) | Shape::Atom(_) | Shape::Nil => Ok(()),
            Shape::Cons(_, _) | Shape::Fun { .. } => Ok(()),
        },
        Shape::Fun {
            below: i,
            captured: xs,
            ..
        } => match b {
            Shape::Fun {
                below: j,
                captured: ys,
                ..
            } => push_words(pending, i, xs, j, ys),
            Shape::Integer(_) | Shape::Atom(_) | Shape::Nil => Ok(()),
            Shape::Cons(_, _) | Shape::Tuple { .. } => Ok(()),
        },
    }
}

// Puts the words of two objects, that refer below these places, behind the others.
fn push_words<'a>(
    pending: &mut Vec<Pending<'a>>,
    i: usize,
    xs: &'a [u64],
    j: usize,
    ys: &'a [u64],
) -> Result<(), Memory>
    ensures { OnOk result (map pending_seen pending.new.items ≡ map pending_seen pending.old.items ++ Parts (parts i xs.now) (parts j ys.now) ∷ []) }
{
    let left = Words {
        below: i,
        words: xs,
    };
    let right = Words {
        below: j,
        words: ys,
    };
    pending.push(Pending::Parts(left, right))?;
    Ok(())
}

// Compares the first of the parts, and puts it behind the others that are left.
fn compare_parts<'a>(
    pending: &mut Vec<Pending<'a>>,
    left: Words<'a>,
    right: Words<'a>,
) -> Result<Ordering, Memory>
    ensures found { IfOk result (λ found. found ≡ ends_order (parts left.entry.below left.entry.words.now) (parts right.entry.below right.entry.words.now)) }
    ensures pushed { OnOk result (map pending_seen pending.new.items
        ≡ map pending_seen pending.old.items ++ parted (parts left.entry.below left.entry.words.now) (parts right.entry.below right.entry.words.now)) }
{
    let Some((a, lefts)) = left.words.split_first() else {
        return Ok(if right.words.is_empty() {
            Ordering::Equal
        } else {
            Ordering::Less
        });
    };
    let Some((b, rights)) = right.words.split_first() else {
        return Ok(Ordering::Greater);
    };
    push_words(pending, left.below, lefts, right.below, rights)?;
    let first = Reference {
        below: left.below,
        word: *a,
    };
    let second = Reference {
        below: right.below,
        word: *b,
    };
    pending.push(Pending::Pair(first, second))?;
    Ok(Ordering::Equal)
}
