// What no clause says: that calls with ample memory succeed, in which pieces bytes are read and written,
// and what the adapters make of the answers of `std::io`.
use super::*;
use hipe_base::Memory;
use std::alloc::Global;
use std::io;
use std::io::{Error, ErrorKind, Read, Write};
use std::test::Fail;

// `len` bytes, no two neighbours of which are equal.
fn sample(alloc: Global, len: usize) -> Result<Vec<u8>, Memory> {
    let mut bytes = Vec::new(alloc);
    for i in 0..len {
        bytes.push((i % 251) as u8)?;
    }
    Ok(bytes)
}

#[test]
fn reads_everything_up_to_the_limit_or_to_a_fault(rt: HostRuntime) -> Result<(), Fail> {
    let too_long = Err(ReadAllFault::TooLong);
    let read_fault = Err(ReadAllFault::ReadFault);
    // Where all is read, the last read finds the end.
    for (len, limit, fails, want) in [
        (0, 0, 2, Ok(())),
        (1, 0, 2, too_long),
        (5, 5, 3, Ok(())),
        (6, 5, 2, too_long),
        (70_000, 70_000, 4, Ok(())),
        (70_001, 70_000, 3, too_long),
        (3, 10, 1, read_fault),
        (3, 10, 2, read_fault),
    ] {
        let bytes = sample(rt.alloc(), len)?;
        let mut source = MemSource::new(bytes.clone()?, vec![in rt.alloc(); fails]?);
        match read_all(rt.alloc(), &mut source, limit) {
            Ok(read) => {
                assert_eq!(rt; want, Ok(()), "{len}");
                assert!(rt; read == bytes, "{len}");
            }
            Err(fault) => assert_eq!(rt; want, Err(fault), "{len}"),
        }
    }
    Ok(())
}

#[test]
fn a_write_fails_at_its_number_or_past_the_room(rt: HostRuntime) -> Result<(), Fail> {
    // Pieces of two bytes: three writes.
    for (fails, room, want, written) in [
        (1, 9, Err(WriteFault), b"".as_slice()),
        (2, 9, Err(WriteFault), b"ab"),
        (3, 9, Err(WriteFault), b"abcd"),
        (4, 9, Ok(()), b"abcde"),
        (4, 5, Ok(()), b"abcde"),
        (4, 4, Err(WriteFault), b"abcd"),
        (4, 3, Err(WriteFault), b"ab"),
    ] {
        let mut sink = MemSink::new(rt.alloc(), room, vec![in rt.alloc(); fails]?)?;
        assert_eq!(rt;
            write_pieces(&mut sink, b"abcde", 2),
            want,
            "write {fails} fails"
        );
        assert_eq!(rt;
            sink.bytes(),
            written,
            "write {fails} fails, room for {room}"
        );
    }
    Ok(())
}

#[test]
fn a_line_goes_out_in_pieces(rt: HostRuntime) -> Result<(), Fail> {
    let line = sample(rt.alloc(), 5_000)?;
    let mut sink = MemSink::new(rt.alloc(), 5_000, vec![in rt.alloc(); 2]?)?;
    assert_eq!(rt; write_line(&mut sink, line.as_slice()), Err(WriteFault));
    assert_eq!(rt; sink.bytes().len(), 4_096);
    let mut count = CountSink::new();
    assert_eq!(rt; write_line(&mut count, line.as_slice()), Ok(()));
    assert_eq!(rt; count.count(), 5_000);
    Ok(())
}

// A reader that fails, and a writer whose flush does.
#[derive(Drop)]
struct Broken;

impl Read for Broken {
    fn read(&mut self, _buf: &mut [u8]) -> io::Result<usize> {
        Err(Error::from(ErrorKind::TimedOut))
    }
}

impl Write for Broken {
    fn write(&mut self, buf: &[u8]) -> io::Result<usize> {
        Ok(buf.len())
    }

    fn flush(&mut self) -> io::Result<()> {
        Err(Error::from(ErrorKind::TimedOut))
    }
}

#[test]
fn reads_and_writes_through_std(rt: HostRuntime) -> Result<(), Fail> {
    let mut source = StdSource::new(b"abc".as_slice());
    let mut into = [0u8; 4];
    assert_eq!(rt; source.read(&mut into), Ok(3));
    assert_eq!(rt; into, *b"abc\0");
    assert_eq!(rt; source.read(&mut into), Ok(0));
    assert_eq!(rt; StdSource::new(Broken).read(&mut into), Err(Failed));

    let mut out = Vec::new(rt.alloc());
    assert_eq!(rt; StdSink::new(&mut out).write(b"line\n"), Ok(5));
    assert_eq!(rt; out.as_slice(), b"line\n".as_slice());

    // The write takes the bytes, and the flush fails.
    let written = write_piece(&mut StdSink::new(Broken), b"line");
    assert_eq!(rt; written, Err(WriteFault));
    Ok(())
}

// A reader whose first read fails, and whose others give a byte each. It keeps how many reads there were, and how much room the last had.
#[derive(Drop)]
struct Halting {
    reads: u8,
    room: usize,
}

impl Read for Halting {
    fn read(&mut self, buf: &mut [u8]) -> io::Result<usize> {
        self.reads = self.reads.saturating_add(1);
        self.room = buf.len();
        if self.reads == 1 {
            return Err(Error::from(ErrorKind::TimedOut));
        }
        if buf.is_empty() {
            return Ok(0);
        }
        buf[0] = self.reads;
        Ok(1)
    }
}

#[test]
fn a_source_reads_once_a_call_and_on_after_a_fault(rt: HostRuntime) -> Result<(), Fail> {
    let mut reader = Halting { reads: 0, room: 0 };
    let mut source = StdSource::new(&mut reader);
    let mut into = [0u8; 4];
    assert_eq!(rt; source.read(&mut into), Err(Failed));
    assert_eq!(rt; into, [0, 0, 0, 0]);
    assert_eq!(rt; source.read(&mut into), Ok(1));
    assert_eq!(rt; into, [2, 0, 0, 0]);
    assert_eq!(rt; source.read(&mut into), Ok(1));
    assert_eq!(rt; into, [3, 0, 0, 0]);
    assert_eq!(rt; reader.reads, 3);
    assert_eq!(rt; reader.room, 4);
    Ok(())
}

// A writer that takes two bytes at most. It keeps the lengths of the first pieces that it was offered, how many there were, and
// how many flushes.
#[derive(Drop)]
struct Sipping {
    offered: [usize; 4],
    writes: usize,
    flushes: u8,
}

impl Write for Sipping {
    fn write(&mut self, buf: &[u8]) -> io::Result<usize> {
        if self.writes < 4 {
            self.offered[self.writes] = buf.len();
        }
        self.writes = self.writes.saturating_add(1);
        Ok(buf.len().min(2))
    }

    fn flush(&mut self) -> io::Result<()> {
        self.flushes = self.flushes.saturating_add(1);
        Ok(())
    }
}

#[test]
fn a_write_is_offered_all_that_is_left_and_flushed(rt: HostRuntime) -> Result<(), Fail> {
    let mut writer = Sipping {
        offered: [0; 4],
        writes: 0,
        flushes: 0,
    };
    let written = write_piece(&mut StdSink::new(&mut writer), b"abcde");
    assert_eq!(rt; written, Ok(()));
    assert_eq!(rt; writer.offered, [5, 3, 1, 0]);
    assert_eq!(rt; writer.writes, 3);
    assert_eq!(rt; writer.flushes, 3);
    Ok(())
}
