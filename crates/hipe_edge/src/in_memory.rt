// A source and a sink in memory, whose calls fail where they are told to.
ghost use Rattle.std.specs.Prelude.{◌≡◌, ◌⊎◌, ◌↔◌, ℕ, ◌+◌, ◌<◌, ◌≤◌, min, List, [], ◌++◌, length, take, drop, Some, Ok, IsErr, is_err, IfOk, OnOk, OnErr, if◌then◌else◌, Contains};
ghost use Rattle.hipe_edge.specs.Counts.{counted, Rises};
ghost use Rattle.hipe_edge.specs.InMemory.{SourceInMemory, SinkInMemory};

use super::streams::{Failed, Sink, Source};
use super::sure::SureSource;
use hipe_base::Memory;
use std::alloc::Global;
use std::marker::Model;

/// Bytes in memory that are read from their beginning, and reads of which some fail: those whose numbers,
/// counted from 1, it is told. The numbers of calls and of faults stand still at 2^64 - 1.
#[derive(Drop)]
pub struct MemSource {
    source: SureSource,
    fails: Vec<u64>,
    calls: u64,
    faults: u64,
}

impl Model for MemSource {
    ghost use Rattle.hipe_edge.specs.InMemory.{SourceInMemory};

    ghost Value = { SourceInMemory };

    ghost view = { λ s. record { bytes = s.source; fails = s.fails.items; calls = s.calls; faults = s.faults } };
}

impl MemSource {
    /// A source of these bytes, whose reads of these numbers fail.
    pub fn new(bytes: Vec<u8>, fails: Vec<u64>) -> MemSource
        ensures { result ≡ record { bytes = bytes.items; fails = fails.items; calls = 0; faults = 0 } }
    {
        MemSource {
            source: SureSource::new(bytes),
            fails,
            calls: 0,
            faults: 0,
        }
    }
}

impl Source for MemSource {
    ghost left = { λ s. Some s.bytes };

    ghost faults = { λ s. s.faults };

    /// Fails exactly where the number of this call is listed. Any other call gives as many bytes as fit.
    fn read(&mut self, into: &mut [u8]) -> Result<usize, Failed>
        ensures calls { self.new.calls ≡ counted self.old.calls }
        ensures fails { IsErr result ↔ Contains self.old.fails self.new.calls }
        ensures count { IfOk result (λ n. n ≡ min (length into.old) (length self.old.bytes)) }
        ensures bound { IfOk result (λ n. n ≤ length into.new) }
        ensures taken { IfOk result (λ n. self.old.bytes ≡ take n into.new ++ self.new.bytes) }
        ensures beyond { IfOk result (λ n. drop n into.new ≡ drop n into.old) }
        ensures kept { OnErr result ((self.new.bytes ≡ self.old.bytes) × (into.new ≡ into.old)) }
        ensures faults { self.new.faults
            ≡ (if is_err result then counted self.old.faults else self.old.faults) }
        ensures faults_never_fall { self.old.faults ≤ self.new.faults }
        ensures failed { OnErr result (Rises self.old.faults self.new.faults) }
        ensures same { self.new.fails ≡ self.old.fails }
    {
        self.calls = self.calls.saturating_add(1);
        if self.fails.contains(&self.calls) {
            self.faults = self.faults.saturating_add(1);
            return Err(Failed);
        }
        self.source.read(into)
    }
}

/// Room in memory for bytes, and writes of which some fail: those whose numbers, counted from 1, it is told,
/// and those of a piece that is longer than the room that is left. The numbers of calls and of faults stand
/// still at 2^64 - 1. No write takes memory.
#[derive(Drop)]
pub struct MemSink {
    bytes: Vec<u8>,
    room: usize,
    fails: Vec<u64>,
    calls: u64,
    faults: u64,
}

impl Model for MemSink {
    ghost use Rattle.std.specs.Prelude.{◌≤◌, vec_len, vec_capacity};
    ghost use Rattle.hipe_edge.specs.InMemory.{SinkInMemory};

    ghost Value = { SinkInMemory };

    ghost view = { λ s. record { bytes = s.bytes.items; room = s.room; fails = s.fails.items; calls = s.calls; faults = s.faults } };

    ghost invariant = { λ s. (vec_len s.bytes ≤ s.room) × (s.room ≤ vec_capacity s.bytes) };
}

impl MemSink {
    /// A sink with room for `room` bytes, whose writes of these numbers fail. It takes the memory for all of
    /// them first.
    ///
    /// # Errors
    ///
    /// `Memory` where there was none for `room` bytes.
    pub fn new(alloc: Global, room: usize, fails: Vec<u64>) -> Result<MemSink, Memory>
        ensures { IfOk result (λ s.
            s ≡ record { bytes = []; room = room; fails = fails.items; calls = 0; faults = 0 }) }
    {
        Ok(MemSink {
            bytes: Vec::with_capacity(alloc, room)?,
            room,
            fails,
            calls: 0,
            faults: 0,
        })
    }

    /// The bytes that it was given so far.
    pub fn bytes(&self) -> &[u8]
        ensures { result.now ≡ self.now.bytes }
    {
        self.bytes.as_slice()
    }
}

impl Sink for MemSink {
    ghost written = { λ s. Some s.bytes };

    ghost faults = { λ s. s.faults };

    /// Fails exactly where the number of this call is listed or the piece is longer than the room that is
    /// left. Any other call takes the whole piece.
    fn write(&mut self, from: &[u8]) -> Result<usize, Failed>
        ensures calls { self.new.calls ≡ counted self.old.calls }
        ensures fails { IsErr result ↔ (Contains self.old.fails self.new.calls
            ⊎ (self.old.room < length self.old.bytes + length from.now)) }
        ensures whole { IfOk result (λ n. n ≡ length from.now) }
        ensures appended { OnOk result (self.new.bytes ≡ self.old.bytes ++ from.now) }
        ensures kept { OnErr result (self.new.bytes ≡ self.old.bytes) }
        ensures faults { self.new.faults
            ≡ (if is_err result then counted self.old.faults else self.old.faults) }
        ensures faults_never_fall { self.old.faults ≤ self.new.faults }
        ensures failed { OnErr result (Rises self.old.faults self.new.faults) }
        ensures same { (self.new.room ≡ self.old.room) × (self.new.fails ≡ self.old.fails) }
    {
        self.calls = self.calls.saturating_add(1);
        let room_left = self.room - self.bytes.len();
        if self.fails.contains(&self.calls) || room_left < from.len() {
            self.faults = self.faults.saturating_add(1);
            return Err(Failed);
        }
        // The room was taken in `new`, so the bytes fit.
        self.bytes.extend_from_slice(from).unwrap();
        Ok(from.len())
    }
}
