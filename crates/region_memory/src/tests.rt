// Reads and writes at addresses by hand; and that a call with ample memory succeeds.
use super::*;
use crate::layout::{HEAP_LIMIT, STACK_LIMIT};
use hipe_base::Memory;
use std::alloc::Global;
use std::test::Fail;

// 18 bytes of code, one function, 1,024 words of stack and two words of heap.
fn sample(alloc: Global) -> Result<Region, Memory> {
    let code = vec![in alloc;
        1, 2, 3, 4, 5, 6, 7, 8, 9, 10, 11, 12, 13, 14, 15, 16, 17, 18,
    ]?;
    let table = vec![in alloc; 0x1_0000_0008, 255]?;
    Ok(Region::open(alloc, 2, 1_024)?.with_program(code, table))
}

// At these addresses stand these words, and none can be written.
fn only_read(alloc: Global, rows: &[(u64, Option<u64>)]) -> Result<bool, Memory> {
    let mut region = sample(alloc)?;
    for (address, word) in rows {
        if region.read(*address) != *word || region.write(*address, !*address) {
            return Ok(false);
        }
        if region.read(*address) != *word {
            return Ok(false);
        }
    }
    Ok(true)
}

#[test]
fn code_and_table_are_only_read(rt: HostRuntime) -> Result<(), Fail> {
    let rows = [
        (0x1_0000_0000, Some(0x0807_0605_0403_0201)),
        (0x1_0000_0001, None),
        (0x1_0000_0004, None),
        (0x1_0000_0008, Some(0x100F_0E0D_0C0B_0A09)),
        // Two bytes of code are left.
        (0x1_0000_0010, None),
        (0x2_0000_0000, Some(0x1_0000_0008)),
        (0x2_0000_0004, None),
        (0x2_0000_0008, Some(255)),
        (0x2_0000_0010, None),
    ];
    assert!(rt; only_read(rt.alloc(), &rows)?);
    Ok(())
}

#[test]
fn no_words_stand_beside_the_regions(rt: HostRuntime) -> Result<(), Fail> {
    let mut region = sample(rt.alloc())?;
    for address in [
        0,
        0xFFFF_FFF8,
        0x2_FFFF_FFF8,
        // The argument area has 65,792 words.
        0x3_0000_0002,
        0x3_0008_0800,
        0x3_FFFF_FFF8,
        // The stack.
        0x4_0000_0004,
        0x4_0000_2000,
        // The heap.
        0x5_FFFF_FFE8,
        0x5_FFFF_FFF4,
        0x6_0000_0000,
        // The same bits 32 to 34, and the last multiple of eight.
        0x8000_0004_0000_0000,
        0xFFFF_FFFF_FFFF_FFF8,
    ] {
        assert_eq!(rt; region.read(address), None, "{address}");
        assert!(rt; !region.write(address, 1), "{address}");
    }
    Ok(())
}

// The first and the last word of the argument area, the stack and the heap.
const WRITABLE: [u64; 6] = [
    0x3_0000_0000,
    0x3_0008_07F8,
    0x4_0000_0000,
    0x4_0000_1FF8,
    0x5_FFFF_FFF0,
    0x5_FFFF_FFF8,
];

#[test]
fn written_words_are_read(rt: HostRuntime) -> Result<(), Fail> {
    let mut region = sample(rt.alloc())?;
    for address in WRITABLE {
        assert_eq!(rt; region.read(address), Some(0), "{address}");
        assert!(rt; region.write(address, !address), "{address}");
    }
    for address in WRITABLE {
        assert_eq!(rt; region.read(address), Some(!address), "{address}");
    }
    Ok(())
}

#[test]
fn words_by_number_are_those_by_address(rt: HostRuntime) -> Result<(), Fail> {
    let mut region = sample(rt.alloc())?;
    assert_eq!(rt; region.code().len(), 18);
    assert_eq!(rt; region.heap_begin(), 0x5_FFFF_FFF0);
    assert_eq!(rt; region.stack_end(), 0x4_0000_2000);
    region.fill_arguments(&[6, 7]);
    assert_eq!(rt; region.read(0x3_0000_0008), Some(7));
    assert!(rt; region.write(0x5_FFFF_FFF8, 9));
    assert_eq!(rt; region.heap(), [0, 9].as_slice());
    region.fill_heap(&[8]);
    assert_eq!(rt; region.read(0x5_FFFF_FFF0), Some(8));
    let empty = Region::open(rt.alloc(), 0, 1_024)?;
    assert_eq!(rt; empty.heap_begin(), 0x6_0000_0000);
    assert_eq!(rt; empty.read(0x5_FFFF_FFF8), None);
    Ok(())
}

#[test]
fn the_largest_regions(rt: HostRuntime) -> Result<(), Fail> {
    let mut region = Region::open(rt.alloc(), HEAP_LIMIT, STACK_LIMIT)?;
    assert_eq!(rt; region.heap_begin(), 0x5_C000_0000);
    for at in [0x4_0000_0000, 0x4_07FF_FFF8, 0x5_C000_0000, 0x5_FFFF_FFF8] {
        assert!(rt; region.write(at, at));
        assert_eq!(rt; region.read(at), Some(at));
    }
    assert!(rt; !region.write(0x5_BFFF_FFF8, 1));
    assert!(rt; !region.write(0x4_0800_0000, 1));
    Ok(())
}
