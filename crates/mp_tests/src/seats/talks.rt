//! Lines that come to a seat over memory.
use crate::seats::onlooker::Onlooker;
use crate::seats::words::Words;
use mp_seats::{Seat, TalkFault};
use mp_streams::{Out, ReadSource, WriteSink};
use mp_text::LineReader;
use std::alloc::{AllocError, Global};
use std::sync::Wait;
use std::thread::Threads;

/// What is replied to the lines, and how that ended.
fn replies<R: Threads + Wait + Sync>(
    rt: &R,
    alloc: Global,
    lines: &[u8],
) -> Result<(Vec<u8>, Result<(), TalkFault>), AllocError> {
    let mut lines = LineReader::new(alloc, ReadSource::new(lines))?;
    let mut out = Out::new(alloc, WriteSink::new(Vec::<u8>::new(alloc)))?;
    let mut seat = Seat::new(alloc, Words, Onlooker);
    let ended = seat.serve(rt, &mut lines, &mut out);
    Ok((out.into_sink().into_inner(), ended))
}

#[test]
fn question_without_memory(rt: HostRuntime) {
    if let Ok((text, ended)) = replies(&rt, rt.alloc(), b"foo\nwaves\nfoo\n") {
        assert!(rt; text.as_slice() == b"unread refused unread ".as_slice());
        assert!(rt; ended == Ok(()));
    }
}
