// Instructions that were decoded, by their addresses.
ghost use Rattle.std.specs.Prelude.{◌≡◌, ℕ, ◌<◌, List, IfOk, length};
ghost use Rattle.amd64_machine.specs.Fetch.{fetch, FetchesCode};
ghost use Rattle.amd64_machine.specs.Seen.{fetched_seen, IsCache};

use amd64_form::{Inst, decode};
use hipe_base::Memory;
use region_memory::layout::CODE_BEGIN;
use std::alloc::Global;

// An instruction that was decoded, its address and that of the next.
#[derive(Clone, Copy)]
pub(crate) struct Cached {
    at: u64,
    inst: Inst,
    next: u64,
}

// How many entries a cache has at most. Two instructions so many bytes apart take each other's place.
const ENTRY_LIMIT: usize = 65_536;

// An empty cache for code of so many bytes: one entry for each byte, rounded up to a power of two.
pub(crate) fn new_cache(alloc: Global, code: &[u8]) -> Result<Vec<Option<Cached>>, Memory>
    ensures { IfOk result (λ entries. IsCache code.now entries.items) }
{
    let entries = code.len().min(ENTRY_LIMIT).next_power_of_two();
    let mut cache = Vec::with_capacity(alloc, entries)?;
    for _ in 0..entries {
        cache.push(None)?;
    }
    Ok(cache)
}

/// An instruction is fetched exactly where its encoding stands in the code, and the next begins behind it.
pub fn fetches_code()
    ensures { (code : List ℕ) → FetchesCode code }
{}

// The instruction at the address and the address of the next, if one stands there.
fn decoded(code: &[u8], at: u64) -> Option<(Inst, u64)>
    ensures { fetched_seen result ≡ fetch code.now at }
{
    if at < CODE_BEGIN {
        return None;
    }
    let offset = (at - CODE_BEGIN) as usize;
    if offset >= code.len() {
        return None;
    }
    match decode(&code[offset..]) {
        Ok((inst, length)) => Some((inst, at + length as u64)),
        Err(_) => None,
    }
}

// The same by the cache: it is decoded where it isn't there.
pub(crate) fn fetched(cache: &mut Vec<Option<Cached>>, code: &[u8], at: u64) -> Option<(Inst, u64)>
    requires { IsCache code.now cache.old.items }
    ensures found { fetched_seen result ≡ fetch code.now at }
    ensures cache { IsCache code.now cache.new.items }
{
    let slot = (at & (cache.len() as u64 - 1)) as usize;
    match cache[slot] {
        Some(found) if found.at == at => Some((found.inst, found.next)),
        _ => fill(cache, code, at, slot),
    }
}

// Decodes the instruction at the address, and puts it into this entry of the cache.
#[cold]
fn fill(cache: &mut Vec<Option<Cached>>, code: &[u8], at: u64, slot: usize) -> Option<(Inst, u64)>
    requires slot { slot < length cache.old.items }
    requires cache { IsCache code.now cache.old.items }
    ensures found { fetched_seen result ≡ fetch code.now at }
    ensures cache { IsCache code.now cache.new.items }
{
    let (inst, next) = decoded(code, at)?;
    cache[slot] = Some(Cached { at, inst, next });
    Some((inst, next))
}
