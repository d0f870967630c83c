// Words by hand, and the terms for which they stand.

ghost use Rattle.std.specs.Prelude.{◌≡◌, IfOk};
ghost use Rattle.hipe_terms.specs.Words.{words_of};

use crate::constants::build;
use crate::follow::stands;
use crate::numbers::AtomNumbers;
use crate::show::show_word;
use crate::symbols::{DefinitionName, Symbols};
use hipe_terms::{Atom, Constant, is_constant};
use sqlite_items::Items;
use std::alloc::Global;
use std::test::Fail;

// Twenty words, the first at 25769803616.
const HEAP: [u64; 20] = [
    // [42]
    687,
    59,
    // {'true',[42]}
    128,
    11,
    25_769_803_617,
    // A fun of function 0 with this tuple.
    84,
    15,
    25_769_803_634,
    // A fun of function 1.
    20,
    31,
    // A fun of function 2, which isn't there.
    20,
    47,
    // A tuple whose element is the tuple itself.
    64,
    25_769_803_714,
    // [1|'true']
    31,
    11,
    // [0,1|'true']
    15,
    25_769_803_729,
    // A fun with a captured value behind the end of the heap.
    84,
    15,
];

fn atom(alloc: Global, text: &str) -> Result<Atom, Fail> {
    match Atom::new(String::from_str(alloc, text)?) {
        Ok(a) => Ok(a),
        Err(_) => Err(Fail::from("too long")),
    }
}

fn symbols(alloc: Global) -> Result<Symbols, Fail> {
    let mut atoms = Vec::new(alloc);
    for text in ["true", "a", "b"] {
        atoms.push(atom(alloc, text)?)?;
    }
    let mut definitions = Vec::new(alloc);
    let name = atom(alloc, "main")?;
    definitions.push(DefinitionName { name, arity: 0 })?;
    Ok(Symbols {
        atoms,
        definitions,
        functions: 2,
    })
}

#[test]
fn words_stand_for_terms(rt: HostRuntime) -> Result<(), Fail> {
    let symbols = symbols(rt.alloc())?;
    let mut text = String::new(rt.alloc());
    for word in [
        687,
        15,
        18_446_744_073_709_551_615,
        9_223_372_036_854_775_807,
        9_223_372_036_854_775_823,
        11,
        139,
        59,
        25_769_803_617,
        25_769_803_745,
        25_769_803_634,
        25_769_803_658,
        25_769_803_682,
    ] {
        assert!(rt;
            show_word(rt.alloc(), &symbols, &HEAP, word, &mut text)?,
            "{word}"
        );
        text.push_str(" ")?;
    }
    let expected =
        "42 0 -1 576460752303423487 -576460752303423488 'true' 'b' [] [42] [0,1|'true'] {'true',[42]} #Fun<'main'/0> #Fun<0> ";
    assert_eq!(rt; text.as_str(), expected);
    Ok(())
}

#[test]
fn words_stand_for_no_term(rt: HostRuntime) -> Result<(), Fail> {
    let symbols = symbols(rt.alloc())?;
    for word in [
        // Of no form, and an atom that isn't there.
        0,
        203,
        // The fun of function 2, the tuple of itself, and the fun at the end.
        25_769_803_698,
        25_769_803_714,
        25_769_803_762,
        // The last word as half of a cell, and an object without a header.
        25_769_803_769,
        25_769_803_618,
        // A list and a tuple, each four bytes further.
        25_769_803_621,
        25_769_803_638,
        // Before the first word of the heap, and at its end.
        25_769_803_609,
        25_769_803_777,
    ] {
        assert!(rt; !stands(rt.alloc(), &symbols, &HEAP, word)?, "{word}");
    }
    Ok(())
}

// One atom, which has the number 0.
#[derive(Drop)]
struct OneAtom {
    atom: Atom,
}

impl AtomNumbers for OneAtom {
    ghost use Rattle.std.specs.Prelude.{[], ◌∷◌};

    ghost atoms = { λ one. one.atom ∷ [] };

    #[tactic(auto, using(crate::proofs::Building::numbers))]
    fn number(&self, atom: &Atom) -> usize {
        if atom.order(&self.atom).is_eq() { 0 } else { 1 }
    }
}

// {a,2}
#[tactic(auto, using(crate::proofs::Building::building))]
fn tuple(alloc: Global) -> Result<Constant, Fail>
    ensures { IfOk result (λ c. words_of c ≡ 3) }
{
    let mut elements = Vec::new(alloc);
    elements.push(Constant::Atom(atom(alloc, "a")?))?;
    elements.push(Constant::Int(2))?;
    Ok(Constant::Tuple(Items::from_vec(elements)))
}

#[test]
fn constants_are_built(rt: HostRuntime) -> Result<(), Fail> {
    let alloc = rt.alloc();
    let constant = tuple(alloc)?;
    let numbers = OneAtom {
        atom: atom(alloc, "a")?,
    };
    let mut used = Vec::new(alloc);
    assert!(rt; is_constant(&constant));
    // In a heap of three words.
    let word = build(alloc, 25_769_803_752, &numbers, &constant, &mut used)?;
    assert_eq!(rt; word, 25_769_803_754);
    assert_eq!(rt; used.as_slice(), [128, 11, 47].as_slice());
    Ok(())
}
