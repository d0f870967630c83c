// Images of small sums, with their bytes by hand.

use super::*;
use core_sum::Sum;
use hipe_terms::Atom;
use sqlite_items::Boxed;
use std::alloc::Global;
use std::test::Fail;

// The exit part: mov rdi, rax; mov rsi, rdx; lea rax, [rdx+3]; shr rax, 2; syscall.
// Then mov rax, 687; mov rdx, 0; ret.
const OF_42: &[u8] = b"\x48\x89\xC7\x48\x89\xD6\x48\x8D\x82\x03\0\0\0\x48\xC1\xE8\x02\x0F\x05\
    \x48\xB8\xAF\x02\0\0\0\0\0\0\x48\xBA\0\0\0\0\0\0\0\0\xC3";

// The exit part, and mov rax, 655; push rax; mov rax, -17; pop rcx; add rax, rcx; add rax, -15; mov rdx, 0; ret.
const OF_40_AND_MINUS_2: &[u8] =
    b"\x48\x89\xC7\x48\x89\xD6\x48\x8D\x82\x03\0\0\0\x48\xC1\xE8\x02\x0F\x05\
    \x48\xB8\x8F\x02\0\0\0\0\0\0\x50\x48\xB8\xEF\xFF\xFF\xFF\xFF\xFF\xFF\xFF\x59\
    \x48\x01\xC8\x48\x81\xC0\xF1\xFF\xFF\xFF\x48\xBA\0\0\0\0\0\0\0\0\xC3";

fn atom(alloc: Global, text: &str) -> Result<Atom, Fail> {
    let atom = Atom::new(String::from_str(alloc, text)?);
    Ok(atom.ok().ok_or("too long")?)
}

#[test]
#[tactic(auto, using(crate::proofs::Levels::levels))]
fn an_integer_has_this_image(rt: HostRuntime) -> Result<(), Fail> {
    let alloc = rt.alloc();
    let image = sum_image(alloc, &atom(alloc, "sum")?, &Sum::Int(42))?;
    assert_eq!(rt; image.code(), OF_42);
    assert_eq!(rt; image.functions().len(), 1);
    assert_eq!(rt; image.exports(), [0].as_slice());
    assert_eq!(rt; image.module(), 14);
    assert_eq!(rt; image.atoms().text(14), Some("sum"));
    assert_eq!(rt; image.atoms().text(15), Some("main"));
    Ok(())
}

#[test]
#[tactic(auto, using(crate::proofs::Levels::levels))]
fn a_module_may_have_the_functions_name(rt: HostRuntime) -> Result<(), Fail> {
    let alloc = rt.alloc();
    let left = Boxed::new(alloc, Sum::Int(40))?;
    let right = Boxed::new(alloc, Sum::Int(-2))?;
    let image = sum_image(alloc, &atom(alloc, "main")?, &Sum::Plus(left, right))?;
    assert_eq!(rt; image.code(), OF_40_AND_MINUS_2);
    assert_eq!(rt; image.module(), 14);
    assert_eq!(rt; image.atoms().len(), 15);
    Ok(())
}

#[test]
fn the_call_is_main(rt: HostRuntime) -> Result<(), Fail> {
    let call = main_call(rt.alloc())?;
    assert_eq!(rt; call.name.as_str(), "main");
    assert_eq!(rt; call.args.len(), 0);
    Ok(())
}
