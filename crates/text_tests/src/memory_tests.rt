//! The sink and the files in memory, at the calls that are to fail and at others.

use outer_io::{Failed, FileFault, Files, MemFiles, MemSink, Sink, put_pieces};
use std::alloc::{AllocError, Global};
use std::test::Fail;

fn numbers(alloc: Global, list: &[u64]) -> Result<Vec<u64>, AllocError> {
    Vec::from_slice(alloc, list)
}

#[test]
fn a_sink_fails_at_its_listed_calls_and_tells_its_pieces(rt: HostRuntime) -> Result<(), Fail> {
    let mut sink = MemSink::new(rt.alloc(), numbers(rt.alloc(), &[2, 5])?);
    assert_eq!(rt; sink.put(b"one"), Ok(()));
    assert_eq!(rt; sink.put(b"two"), Err(Failed));
    assert_eq!(rt; sink.put(b""), Ok(()));
    assert_eq!(rt; sink.put(b"three"), Ok(()));
    assert_eq!(rt; sink.put(b"five"), Err(Failed));
    assert_eq!(rt; sink.bytes(), b"onethree".as_slice());
    assert_eq!(rt; sink.piece_lengths(), [3, 0, 5].as_slice());
    Ok(())
}

#[test]
fn a_text_is_put_in_pieces_up_to_a_fault(rt: HostRuntime) -> Result<(), Fail> {
    let mut sink = MemSink::new(rt.alloc(), numbers(rt.alloc(), &[6])?);
    assert_eq!(rt; put_pieces(&mut sink, 3, b"abcdefgh"), Ok(()));
    assert_eq!(rt; sink.piece_lengths(), [3, 3, 2].as_slice());
    assert_eq!(rt; put_pieces(&mut sink, 3, b""), Ok(()));
    assert_eq!(rt; put_pieces(&mut sink, 3, b"ABCDEFGHIJ"), Err(Failed));
    assert_eq!(rt; sink.piece_lengths(), [3, 3, 2, 3, 3].as_slice());
    assert_eq!(rt; sink.bytes(), b"abcdefghABCDEF".as_slice());
    Ok(())
}

#[test]
fn files_fail_at_listed_calls_and_else_answer_by_what_is_there(
    rt: HostRuntime,
) -> Result<(), Fail> {
    let alloc = rt.alloc();
    let mut files = MemFiles::new(alloc, numbers(alloc, &[4, 6])?, numbers(alloc, &[1])?);
    let mut into = Vec::new(alloc);
    assert_eq!(rt; files.add("F", b"abc"), Ok(()));
    assert_eq!(rt; files.read("G", 3, &mut into), Err(FileFault::Missing));
    assert_eq!(rt; files.read("F", 2, &mut into), Err(FileFault::TooLong));
    assert_eq!(rt; files.read("F", 3, &mut into), Ok(()));
    assert_eq!(rt; files.read("F", 3, &mut into), Err(FileFault::Failed));
    assert_eq!(rt; files.read("F", 4, &mut into), Ok(()));
    assert_eq!(rt; files.read("G", 3, &mut into), Err(FileFault::Failed));
    assert_eq!(rt; into.as_slice(), b"abcabc".as_slice());
    assert_eq!(rt; files.write("F", b"x"), Err(Failed));
    assert_eq!(rt; files.contents("F"), Some(b"abc".as_slice()));
    assert_eq!(rt; files.write("F", b"x"), Ok(()));
    assert_eq!(rt; files.contents("F"), Some(b"x".as_slice()));
    Ok(())
}
