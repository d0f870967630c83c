// What no program of the input shows: steps one by one, runs that go on, lines that aren't written, and loading.
use super::{PROGRAM_BEGIN, loaded};
use amd64_machine::{End, Machine, calls_go_on, conditions_compare, fetches_code, runs_go_on};
use hipe_edge::{CountSink, MemSink};
use hipe_terms::Class;
use region_memory::layout::CODE_BEGIN;
use std::alloc::Global;
use std::test::Fail;

// mov rdi, 687; mov rax, 0; syscall
const RETURNS: &[u8] = b"\x48\xBF\xAF\x02\0\0\0\0\0\0\x48\xB8\0\0\0\0\0\0\0\0\x0F\x05";

// mov rdi, 687; mov rax, 4; syscall; syscall
const DISPLAYS: &[u8] = b"\x48\xBF\xAF\x02\0\0\0\0\0\0\x48\xB8\x04\0\0\0\0\0\0\0\x0F\x05\x0F\x05";

fn started(alloc: Global, program: &[u8], name: &str) -> Result<Machine, Fail> {
    match loaded(alloc, Vec::from_slice(alloc, program)?, name) {
        Ok(machine) => Ok(machine),
        Err(_) => Err(Fail::from("not loaded")),
    }
}

#[test]
fn steps(rt: HostRuntime) -> Result<(), Fail> {
    let mut machine = started(rt.alloc(), RETURNS, "main")?;
    let mut out = CountSink::new();
    for (n, want) in [
        (0, End::StepsSpent),
        (2, End::StepsSpent),
        (0, End::StepsSpent),
        (1, End::Returned),
        (0, End::Returned),
        (5, End::Returned),
    ] {
        assert_eq!(rt; machine.run(rt.alloc(), n, &mut out), want, "{n}");
    }
    assert_eq!(rt; machine.step(rt.alloc(), &mut out), Some(End::Returned));

    // push rax; and behind the code
    let mut machine = started(rt.alloc(), b"\x50", "main")?;
    let fault = End::MachineFault {
        at: CODE_BEGIN + PROGRAM_BEGIN + 1,
    };
    assert_eq!(rt; machine.step(rt.alloc(), &mut out), None);
    assert_eq!(rt; machine.run(rt.alloc(), 0, &mut out), End::StepsSpent);
    assert_eq!(rt; machine.step(rt.alloc(), &mut out), Some(fault));
    assert_eq!(rt; machine.run(rt.alloc(), 5, &mut out), fault);
    assert_eq!(rt; out.count(), 0);
    Ok(())
}

#[test]
fn a_failed_write_stops_the_machine(rt: HostRuntime) -> Result<(), Fail> {
    let mut machine = started(rt.alloc(), DISPLAYS, "main")?;
    let mut out = MemSink::new(rt.alloc(), 30, vec![in rt.alloc(); 1]?)?;
    assert_eq!(rt; machine.run(rt.alloc(), 100, &mut out), End::WriteFault);
    assert_eq!(rt; machine.run(rt.alloc(), 100, &mut out), End::WriteFault);
    assert_eq!(rt; machine.step(rt.alloc(), &mut out), Some(End::WriteFault));
    assert_eq!(rt; out.bytes(), b"".as_slice());
    Ok(())
}

#[test]
fn displayed_once(rt: HostRuntime) -> Result<(), Fail> {
    let mut machine = started(rt.alloc(), DISPLAYS, "main")?;
    let mut out = MemSink::new(rt.alloc(), 30, Vec::new(rt.alloc()))?;
    assert_eq!(rt; machine.run(rt.alloc(), 3, &mut out), End::StepsSpent);
    assert_eq!(rt;
        machine.run(rt.alloc(), 3, &mut out),
        End::MachineFault {
            at: CODE_BEGIN + PROGRAM_BEGIN + 22
        }
    );
    assert_eq!(rt;
        machine.run(rt.alloc(), 3, &mut out),
        End::MachineFault {
            at: CODE_BEGIN + PROGRAM_BEGIN + 22
        }
    );
    assert_eq!(rt; out.bytes(), b"42\n".as_slice());
    Ok(())
}

#[test]
fn a_call_that_is_not_exported(rt: HostRuntime) -> Result<(), Fail> {
    let alloc = rt.alloc();
    let mut machine = started(alloc, RETURNS, "padding")?;
    let mut out = CountSink::new();
    let undefined = End::Raised {
        class: Class::Error,
    };
    assert_eq!(rt; machine.run(alloc, 0, &mut out), undefined);
    assert_eq!(rt; machine.run(alloc, 100, &mut out), undefined);
    Ok(())
}

#[test]
fn laws() {
    fetches_code();
    conditions_compare();
    runs_go_on();
    calls_go_on();
}
