// The whole program in memory: worked texts, refusals, and calls that fail.
use super::top::hipe_alone;
use hipe_base::Memory;
use hipe_edge::{CountSink, MemSink, MemSource, SureSource};
use std::alloc::Global;
use std::process::Abort;
use std::test::Fail;

const BEFORE: &str = "module 'm' ['main'/0] attributes [] 'main'/0 = fun () -> ";

// What a call answered and wrote.
#[derive(Drop)]
struct Seen {
    status: u8,
    out: Vec<u8>,
    err: Vec<u8>,
}

// The arguments of a command.
fn command(alloc: Global, arguments: &[&str]) -> Result<Vec<String>, Memory> {
    let mut all = Vec::new(alloc);
    for argument in arguments {
        all.push(String::from_str(alloc, argument)?)?;
    }
    Ok(all)
}

// Calls the program on a text, with the numbers of the calls that fail on the source, on out and on err.
fn call(alloc: Global, arguments: &[&str], text: &str, fails: [&[u64]; 3]) -> Result<Seen, Memory> {
    let arguments = command(alloc, arguments)?;
    let bytes = Vec::from_slice(alloc, text.as_bytes())?;
    let mut source = MemSource::new(bytes, Vec::from_slice(alloc, fails[0])?);
    let mut out = MemSink::new(alloc, 100, Vec::from_slice(alloc, fails[1])?)?;
    let mut err = MemSink::new(alloc, 100, Vec::from_slice(alloc, fails[2])?)?;
    let status = hipe_alone(alloc, &arguments, &mut source, &mut out, &mut err);
    Ok(Seen {
        status,
        out: Vec::from_slice(alloc, out.bytes())?,
        err: Vec::from_slice(alloc, err.bytes())?,
    })
}

fn assert_seen(rt: &impl Abort, seen: &Seen, status: u8, out: &str, err: &str) {
    assert_eq!(rt; seen.status, status);
    assert_eq!(rt; seen.out.as_slice(), out.as_bytes());
    assert_eq!(rt; seen.err.as_slice(), err.as_bytes());
}

// What `check` and `run` answer to this text.
fn assert_text(
    rt: &impl Abort,
    alloc: Global,
    text: &str,
    checked: (u8, &str, &str),
    ran: (u8, &str, &str),
) -> Result<(), Memory> {
    let seen = call(alloc, &["check"], text, [&[], &[], &[]])?;
    assert_seen(rt, &seen, checked.0, checked.1, checked.2);
    let seen = call(alloc, &["run", "'main'()"], text, [&[], &[], &[]])?;
    assert_seen(rt, &seen, ran.0, ran.1, ran.2);
    Ok(())
}

// What they answer to a module with this body.
fn assert_body(
    rt: &impl Abort,
    alloc: Global,
    body: &str,
    checked: (u8, &str, &str),
    ran: (u8, &str, &str),
) -> Result<(), Memory> {
    let text = format!(in alloc; "{BEFORE}{body} end")?;
    assert_text(rt, alloc, text.as_str(), checked, ran)
}

#[test]
fn bodies_give_their_sums(rt: HostRuntime) -> Result<(), Fail> {
    let good = (0, "ok\n", "");
    for (body, value) in [
        ("42", "value 42\n"),
        ("call 'erlang':'+'(40,2)", "value 42\n"),
        ("call 'erlang':'+'(-5,call 'erlang':'+'(2,3))", "value 0\n"),
        (
            "call 'erlang':'+'(call 'erlang':'+'(1,2),call 'erlang':'+'(3,-999999))",
            "value -999993\n",
        ),
        ("-999999", "value -999999\n"),
        (
            "( call 'erlang':( '+' -| ['a'] )(( 1 -| [] ), $a) -| [] )",
            "value 98\n",
        ),
    ] {
        assert_body(&rt, rt.alloc(), body, good, (0, value, ""))?;
    }
    Ok(())
}

#[test]
fn bodies_are_refused(rt: HostRuntime) -> Result<(), Fail> {
    let good = (0, "ok\n", "");
    for (body, line) in [
        ("1000000", "hipe: not_yet 1:58\n"),
        ("call 'erlang':'-'(40,2)", "hipe: not_yet 1:58\n"),
        ("( 'x' -| [] )", "hipe: not_yet 1:60\n"),
    ] {
        assert_body(&rt, rt.alloc(), body, good, (3, "", line))?;
    }
    for (body, line) in [
        ("", "hipe: syntax 1:59\n"),
        ("foo", "hipe: token 1:58\n"),
        ("576460752303423488", "hipe: wide_integer 1:58\n"),
        ("1.5", "hipe: not_in_profile 1:58\n"),
        ("'f'/0", "hipe: unbound_function 1:58\n"),
        ("{X}", "hipe: unbound_variable 1:59\n"),
        ("fun (X,X) -> X", "hipe: duplicate_variable 1:65\n"),
        ("<1,2>", "hipe: degree 1:58\n"),
        ("primop 'x'()", "hipe: unknown_primop 1:58\n"),
    ] {
        assert_body(&rt, rt.alloc(), body, (3, "", line), (3, "", line))?;
    }
    Ok(())
}

#[test]
fn places_of_modules(rt: HostRuntime) -> Result<(), Fail> {
    let alloc = rt.alloc();
    for (text, line) in [
        ("", "hipe: syntax 1:1\n"),
        (
            "module 'm' [] attributes [] 'f'/0 = fun () -> 1 'f'/0 = fun () -> 2 end",
            "hipe: duplicate_function 1:49\n",
        ),
    ] {
        assert_text(&rt, alloc, text, (3, "", line), (3, "", line))?;
    }
    for (text, line) in [
        (
            "\n % a comment\n  ( module 'm' [] attributes [] 'f'/0 = fun () -> 1 end -| [] )",
            "hipe: not_yet 3:5\n",
        ),
        (
            "module 'm' ['main'/0] attributes [] 'f'/0 = fun () -> 1 'main'/0 = fun () -> 'x' end",
            "hipe: not_yet 1:37\n",
        ),
        (
            "module 'm' ['main'/0] attributes [] 'main'/0 = fun () -> 1 'f'/0 = fun () -> 1 end",
            "hipe: not_yet 1:60\n",
        ),
    ] {
        assert_text(&rt, alloc, text, (0, "ok\n", ""), (3, "", line))?;
    }
    Ok(())
}

#[test]
fn arguments_and_inputs_are_refused(rt: HostRuntime) -> Result<(), Fail> {
    let alloc = rt.alloc();
    for arguments in [
        ["run"].as_slice(),
        &["run", "'main'()", "x"],
        &["check", "'main'()"],
        &["run", "main()"],
        &[],
    ] {
        let seen = call(alloc, arguments, "", [&[], &[], &[]])?;
        assert_seen(&rt, &seen, 2, "", "hipe: words\n");
    }
    for (spaces, err) in [
        (16_777_216, "hipe: syntax 1:16777217\n"),
        (16_777_217, "hipe: too_long\n"),
    ] {
        let arguments = command(alloc, &["check"])?;
        let mut source = SureSource::new(vec![in alloc; b' '; spaces]?);
        let mut out = CountSink::new();
        let mut line = MemSink::new(alloc, 100, Vec::new(alloc))?;
        assert_eq!(rt;
            hipe_alone(alloc, &arguments, &mut source, &mut out, &mut line),
            3
        );
        assert_eq!(rt; out.count(), 0);
        assert_eq!(rt; line.bytes(), err.as_bytes());
    }
    Ok(())
}

#[test]
fn calls_that_fail_are_told(rt: HostRuntime) -> Result<(), Fail> {
    let alloc = rt.alloc();
    let none: &[u64] = &[];
    let (good, bad) = ("42 end", "42");
    for (body, source, out, err, status, written, line) in [
        (
            good,
            [1].as_slice(),
            none,
            none,
            6,
            "",
            "hipe: read_fault\n",
        ),
        (good, &[2], none, none, 6, "", "hipe: read_fault\n"),
        (good, none, &[1], none, 7, "", "hipe: write_fault\n"),
        (good, none, &[1], &[1], 7, "", ""),
        (good, none, &[2], &[1], 0, "value 42\n", ""),
        (good, &[1], none, &[1], 7, "", ""),
        (bad, none, none, &[1], 7, "", ""),
        (bad, none, &[1], &[2], 3, "", "hipe: syntax 1:60\n"),
        (good, none, none, none, 0, "value 42\n", ""),
    ] {
        let text = format!(in alloc; "{BEFORE}{body}")?;
        let seen = call(
            alloc,
            &["run", "'main'()"],
            text.as_str(),
            [source, out, err],
        )?;
        assert_seen(&rt, &seen, status, written, line);
    }
    Ok(())
}

#[test]
fn checks_that_fail_are_told(rt: HostRuntime) -> Result<(), Fail> {
    let alloc = rt.alloc();
    let none: &[u64] = &[];
    let text = format!(in alloc; "{BEFORE}42 end")?;
    for (source, out, status, line) in [
        ([1].as_slice(), none, 6, "hipe: read_fault\n"),
        (none, &[1], 7, "hipe: write_fault\n"),
    ] {
        let seen = call(alloc, &["check"], text.as_str(), [source, out, none])?;
        assert_seen(&rt, &seen, status, "", line);
    }
    Ok(())
}
