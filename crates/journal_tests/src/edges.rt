//! What no clause says of edges: a read or a write that fails in mid-stream, and edges over slices.
use crate::tools::assert_same;
use io_host::{HostReader, HostWriter};
use io_memory::{MemorySink, MemorySource, SteadySource};
use io_traits::{Failed, ReadError, Sink, Source, read_to_limit, write_whole};
use std::alloc::{AllocError, Global};
use std::process::Abort;

// Up to three bytes are read: a text, the call of `read` that fails, if one does, and what is answered.
const READ: [(&[u8], u64, Result<&[u8], ReadError>); 6] = [
    (b"", 0, Ok(b"")),
    (b"abc", 0, Ok(b"abc")),
    (b"abcd", 0, Err(ReadError::TooLong)),
    (b"abc", 1, Err(ReadError::Failed)),
    (b"abc", 2, Err(ReadError::Failed)),
    (b"abc", 3, Ok(b"abc")),
];

#[test]
fn reads_up_to_the_limit(rt: HostRuntime) -> Result<(), AllocError> {
    for (text, failing, wanted) in READ {
        assert_read(&rt, rt.alloc(), memory(rt.alloc(), text, failing)?, wanted);
    }
    Ok(())
}

// A source in memory of which one call fails.
fn memory(alloc: Global, text: &[u8], failing: u64) -> Result<MemorySource, AllocError> {
    Ok(MemorySource::new(text.to_vec(alloc)?, [failing].to_vec(alloc)?))
}

#[test]
fn reads_a_steady_source_and_a_slice(rt: HostRuntime) -> Result<(), AllocError> {
    let text = b"abc".as_slice();
    let steady = SteadySource::new(text.to_vec(rt.alloc())?);
    assert_read(&rt, rt.alloc(), steady, Ok(text));
    assert_read(&rt, rt.alloc(), HostReader::new(text), Ok(text));
    Ok(())
}

fn assert_read<S: Source + Drop>(
    rt: &impl Abort,
    alloc: Global,
    mut source: S,
    wanted: Result<&[u8], ReadError>,
) {
    let read = read_to_limit(alloc, &mut source, 3);
    let found = match &read {
        Ok(bytes) => Ok(bytes.as_slice()),
        Err(error) => Err(*error),
    };
    assert_same(rt, &"what is read", &found, &wanted);
}

#[test]
fn writes_whole_texts(rt: HostRuntime) -> Result<(), AllocError> {
    let sink = MemorySink::new(rt.alloc(), [2].to_vec(rt.alloc())?);
    let texts: [(&[u8], Result<(), Failed>); 3] = [
        (b"one", Ok(())),
        (b"two", Err(Failed)),
        (b"three", Ok(())),
    ];
    let sink = written(&rt, sink, &texts);
    assert_same(&rt, &"the text", &sink.text(), &b"onethree".as_slice());
    Ok(())
}

#[test]
fn writes_into_a_slice(rt: HostRuntime) {
    let mut room = [0; 4];
    let texts: [(&[u8], Result<(), Failed>); 2] = [(b"abc", Ok(())), (b"de", Err(Failed))];
    written(&rt, HostWriter::new(room.as_mut_slice()), &texts);
    assert_same(&rt, &"the text", &room, b"abcd");
}

// The sink, into which these texts were written with these answers.
fn written<K: Sink>(rt: &impl Abort, mut sink: K, texts: &[(&[u8], Result<(), Failed>)]) -> K {
    for &(text, wanted) in texts {
        assert_same(rt, &"a text", &write_whole(&mut sink, text), &wanted);
    }
    sink
}
