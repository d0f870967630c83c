// A disassembler, with which the instructions and their bytes are tested.
//
// Each line of the input is some bytes in hexadecimal. It writes the bytes of the instruction at their beginning, as
// `encode` gives them, and its text, and the length that `decode` gives where that isn't the length of these bytes; or
// `short` or `unknown` where `decode` says so.
//
// The lines of `stdin` and `stdout` are from GNU as 2.40, where displacements of 32 bits were asked for. Where it takes
// a shorter form, as for constants that fit 8 bits and shifts by 1, they are the manual's, and objdump reads them so.
// Behind the instructions stand prefixes of instructions, and bytes that are none: nop, another opcode or prefix, a
// displacement of 8 bits, an index in the SIB byte, mov rax, rdi by its other opcode, a count of 64.
//
// Promises: nothing.
//
// May touch: memory, standard input and output.
//
// Files:
//   tests.rt   what no line of the input shows
#![tactic(auto)]

#[cfg(test)]
mod tests;

use amd64_form::{DecodeFault, decode, encode};
use std::alloc::Global;

// What is written for a line.
fn listed(alloc: Global, line: &str) -> anyhow::Result<String> {
    let bytes = hex::decode(alloc, line.as_bytes())?;
    match decode(&bytes) {
        Ok((inst, length)) => {
            let code = encode(inst);
            let digits = hex::encode(alloc, code.as_slice())?;
            if length == code.len() {
                Ok(format!(in alloc; "{digits} {inst}")?)
            } else {
                Ok(format!(in alloc; "{digits} {inst}, of {length} bytes")?)
            }
        }
        Err(DecodeFault::Short) => Ok(format!(in alloc; "short")?),
        Err(DecodeFault::Unknown) => Ok(format!(in alloc; "unknown")?),
    }
}

fn main(rt: HostRuntime) -> anyhow::Result<()> {
    for line in rt.lines(rt.alloc()) {
        let text = listed(rt.alloc(), line?.as_str())?;
        println!(rt; "{text}")?;
    }
    Ok(())
}
