// Services over a heap by hand.

use crate::services::{ServiceCall, serve};
use heap_terms::Symbols;
use hipe_terms::Atom;
use region_memory::layout::HEAP_LIMIT;
use std::alloc::Global;
use std::test::Fail;

// Sixteen words, the first at 25769803648. The heap pointer is at the twelfth, at 25769803736.
const HEAP: [u64; 16] = [
    // [42]
    687,
    59,
    // [1,42]
    31,
    25_769_803_649,
    // {'true',[1,42]}
    128,
    11,
    25_769_803_665,
    // [0|'true']
    15,
    11,
    // A tuple whose element is the tuple itself.
    64,
    25_769_803_722,
    0,
    0,
    0,
    0,
    0,
];

fn symbols(alloc: Global) -> Result<Symbols, Fail> {
    let mut atoms = Vec::new(alloc);
    match Atom::new(String::from_str(alloc, "true")?) {
        Ok(name) => atoms.push(name)?,
        Err(_) => return Err(Fail::from("too long")),
    }
    Ok(Symbols {
        atoms,
        definitions: Vec::new(alloc),
        functions: 0,
    })
}

// What the service did, and the words that it left in the heap.
fn served(alloc: Global, call: [u64; 4]) -> Result<(String, [u64; 16]), Fail> {
    let mut heap = HEAP;
    let [number, first, second, free] = call;
    let call = ServiceCall {
        number,
        first,
        second,
        free,
    };
    if heap.len() > HEAP_LIMIT as usize {
        return Err(Fail::from("too many words"));
    }
    let answer = serve(alloc, &symbols(alloc)?, &mut heap, call)?;
    let text = format!(in alloc; "{answer:?}")?;
    Ok((text, heap))
}

#[test]
fn services_answer(rt: HostRuntime) -> Result<(), Fail> {
    for (call, expected) in [
        ([0, 25_769_803_665, 0, 0], "Returned"),
        ([1, 25_769_803_682, 2, 0], "Raised(Exit)"),
        ([2, 0, 0, 0], "HeapFull"),
        ([3, 0, 0, 0], "StackFull"),
        (
            [4, 25_769_803_682, 0, 0],
            "Displayed(\"{'true',[1,42]}\\n\")",
        ),
        ([5, 25_769_803_665, 25_769_803_665, 0], "Answered(1)"),
        ([5, 25_769_803_649, 25_769_803_665, 0], "Answered(0)"),
        // The sizes decide, so the element that is no term isn't looked at.
        ([5, 25_769_803_682, 25_769_803_722, 0], "Answered(0)"),
        ([6, 687, 11, 0], "Answered(18446744073709551615)"),
        ([6, 687, 687, 0], "Answered(0)"),
        ([6, 25_769_803_649, 25_769_803_665, 0], "Answered(1)"),
        ([7, 25_769_803_665, 0, 0], "Answered(2)"),
        ([7, 25_769_803_705, 0, 0], "Answered(18446744073709551615)"),
        ([8, 25_769_803_705, 59, 25_769_803_736], "Answered(0)"),
        // Nothing before 42: at the heap's end, between words, and below the heap.
        ([8, 59, 687, 25_769_803_776], "Answered(687)"),
        ([8, 59, 687, 25_769_803_740], "Answered(687)"),
        ([8, 59, 687, 25_769_803_640], "Answered(687)"),
        ([8, 25_769_803_665, 59, 25_769_803_752], "HeapFull"),
        ([9, 25_769_803_682, 0, 25_769_803_760], "HeapFull"),
    ] {
        let (text, heap) = served(rt.alloc(), call)?;
        assert_eq!(rt; text.as_str(), expected);
        assert!(rt; heap == HEAP);
    }
    Ok(())
}

#[test]
fn there_is_no_next_state(rt: HostRuntime) -> Result<(), Fail> {
    for call in [
        // Words that are no terms: 0, and the tuple that has itself.
        [0, 25_769_803_722, 0, 0],
        [1, 0, 1, 0],
        [4, 25_769_803_722, 0, 0],
        [5, 25_769_803_722, 25_769_803_722, 0],
        [6, 687, 0, 0],
        [7, 0, 0, 0],
        [8, 0, 59, 25_769_803_736],
        // Another class, no tuple, and another service.
        [1, 687, 4, 0],
        [9, 25_769_803_665, 0, 25_769_803_736],
        [10, 0, 0, 0],
        // Heap pointers between words, below the heap and above it.
        [8, 25_769_803_665, 59, 25_769_803_740],
        [8, 25_769_803_665, 59, 25_769_803_640],
        [9, 25_769_803_682, 0, 25_769_803_784],
    ] {
        let (text, heap) = served(rt.alloc(), call)?;
        assert_eq!(rt; text.as_str(), "NoNext");
        assert!(rt; heap == HEAP);
    }
    Ok(())
}

#[test]
fn words_are_built(rt: HostRuntime) -> Result<(), Fail> {
    for (call, expected, at, words) in [
        // [1,42] before 'true', at the heap pointer; and before nil, over its own words.
        (
            [8, 25_769_803_665, 11, 25_769_803_736],
            "Built { result: 25769803753, words: 4 }",
            11,
            [687, 11, 31, 25_769_803_737],
        ),
        (
            [8, 25_769_803_665, 59, 25_769_803_656],
            "Built { result: 25769803673, words: 4 }",
            1,
            [687, 59, 31, 25_769_803_657],
        ),
        (
            [9, 25_769_803_682, 0, 25_769_803_736],
            "Built { result: 25769803738, words: 3 }",
            11,
            [128, 11, 25_769_803_665, 0],
        ),
    ] {
        let (text, heap) = served(rt.alloc(), call)?;
        assert_eq!(rt; text.as_str(), expected);
        assert!(rt; heap.iter().skip(at).take(4).eq(words.iter()));
    }
    Ok(())
}
