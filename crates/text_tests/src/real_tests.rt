//! Real files, and streams that take or give a few bytes at a time.

use outer_io::{Failed, FileFault, Files, RealFiles, RealSink, Sink, read_whole};
use std::alloc::Global;
use std::io::{ErrorKind, Read, Write};
use std::test::Fail;
use std::{fs, io};

// Takes at most two bytes at a time, and nothing past its room. It counts the calls of `flush`.
#[derive(Drop)]
struct Grudging {
    held: Vec<u8>,
    room: usize,
    flushes: u64,
}

impl Write for Grudging {
    fn write(&mut self, buf: &[u8]) -> io::Result<usize> {
        let taken = buf.len().min(2).min(self.room);
        self.held.extend_from_slice(&buf[..taken])?;
        self.room -= taken;
        Ok(taken)
    }

    fn flush(&mut self) -> io::Result<()> {
        self.flushes = self.flushes.saturating_add(1);
        Ok(())
    }
}

fn stream_with_room(alloc: Global, room: usize) -> Grudging {
    let held = Vec::new(alloc);
    Grudging {
        held,
        room,
        flushes: 0,
    }
}

// Gives three bytes one at a time, and then fails with this kind.
#[derive(Drop)]
struct Faltering {
    left: u8,
    fails_with: ErrorKind,
}

impl Read for Faltering {
    fn read(&mut self, buf: &mut [u8]) -> io::Result<usize> {
        if buf.is_empty() {
            return Ok(0);
        }
        if self.left == 0 {
            return Err(io::Error::from(self.fails_with));
        }
        self.left -= 1;
        buf[0] = b'x';
        Ok(1)
    }
}

fn stops_with(fails_with: ErrorKind) -> Faltering {
    Faltering {
        left: 3,
        fails_with,
    }
}

#[test]
fn a_real_sink_writes_and_flushes_whole_pieces(rt: HostRuntime) -> Result<(), Fail> {
    let mut ample = stream_with_room(rt.alloc(), 9);
    let mut sink = RealSink::new(&mut ample);
    assert_eq!(rt; sink.put(b"whole"), Ok(()));
    assert_eq!(rt; sink.put(b""), Ok(()));
    assert_eq!(rt; ample.flushes, 2);
    assert_eq!(rt; ample.held.as_slice(), b"whole".as_slice());
    let mut narrow = RealSink::new(stream_with_room(rt.alloc(), 3));
    assert_eq!(rt; narrow.put(b"whole"), Err(Failed));
    Ok(())
}

#[test]
fn a_reader_that_fails_in_mid_stream_or_has_too_much_leaves_nothing(
    rt: HostRuntime,
) -> Result<(), Fail> {
    let mut into = Vec::from_slice(rt.alloc(), b"a")?;
    let cut = read_whole(stops_with(ErrorKind::BrokenPipe), 9, &mut into);
    assert_eq!(rt; cut, Err(FileFault::Failed));
    let no_memory = read_whole(stops_with(ErrorKind::OutOfMemory), 9, &mut into);
    assert_eq!(rt; no_memory, Err(FileFault::NoMemory));
    assert_eq!(rt;
        read_whole(b"five!".as_slice(), 4, &mut into),
        Err(FileFault::TooLong)
    );
    assert_eq!(rt; into.as_slice(), b"a".as_slice());
    assert_eq!(rt; read_whole(b"five!".as_slice(), 5, &mut into), Ok(()));
    assert_eq!(rt; into.as_slice(), b"afive!".as_slice());
    Ok(())
}

#[test]
fn real_files_are_read_up_to_their_limit(rt: HostRuntime) -> Result<(), Fail> {
    let mut files = RealFiles::new(&rt);
    let mut into = Vec::from_slice(rt.alloc(), b"a")?;
    assert_eq!(rt; files.write("five.bin", b"bytes"), Ok(()));
    assert_eq!(rt;
        files.read("five.bin", 4, &mut into),
        Err(FileFault::TooLong)
    );
    assert_eq!(rt;
        files.read("none.bin", 4, &mut into),
        Err(FileFault::Failed)
    );
    assert_eq!(rt; files.read("five.bin", 5, &mut into), Ok(()));
    assert_eq!(rt; into.as_slice(), b"abytes".as_slice());
    fs::remove_file(&rt, "five.bin")?;
    assert_eq!(rt; files.write("no folder/x", b"x"), Err(Failed));
    Ok(())
}
