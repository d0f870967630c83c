// Each count of a small text.
use super::count::count_of;
use std::test::Fail;

#[test]
fn counts_of_texts(rt: HostRuntime) -> Result<(), Fail> {
    for (what, text, want) in [
        (
            "tokens",
            "module 'm' [] % the rest is a comment\nend\n",
            Some(5),
        ),
        ("tokens", "foo", None),
        (
            "definitions",
            "module 'm' [] attributes [] 'f'/0 = fun () -> 1 end",
            Some(1),
        ),
        ("definitions", "module 'm' []", None),
        ("lines", "", None),
    ] {
        assert_eq!(rt; count_of(rt.alloc(), what, text.as_bytes()), want, "{text}");
    }
    Ok(())
}
