use amd64_form::*;
use std::test::*;

#[test]
fn a_store(rt: HostRuntime) {
    let store = Inst::Store {
        base: Reg::from_number(12),
        offset: 16,
        from: Reg::R9,
    };
    let bytes = encode(store);
    assert_eq!(rt; bytes.as_slice(), b"\x4D\x89\x8C\x24\x10\0\0\0".as_slice());
    assert_eq!(rt; decode(bytes.as_slice()), Ok((store, bytes.len())));
    assert!(rt; !bytes.is_empty());
}

#[test]
fn numbers(rt: HostRuntime) {
    assert_eq!(rt; Reg::R13.number(), 13);
    assert_eq!(rt; Condition::Ge.number(), 13);
    assert_eq!(rt; ShiftCount::new(63).bits(), 63);
    one_spelling();
}

#[test]
fn names(rt: HostRuntime) {
    assert_eq!(rt; Reg::R15.name(), "r15");
    assert_eq!(rt; BinaryOp::Xor.name(), "xor");
    assert_eq!(rt; UnaryOp::Idiv.name(), "idiv");
    assert_eq!(rt; ShiftOp::Sar.name(), "sar");
    assert_eq!(rt; Condition::Ae.name(), "ae");
}
