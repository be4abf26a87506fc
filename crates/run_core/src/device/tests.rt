use super::*;
use crate::test_devices::{Call, FAILURE, MemoryReader, MemoryWriter};
use std::io::ErrorKind;

// Returns the number of bytes that a call moved, or the kind of its error.
fn told(answer: io::Result<usize>) -> Result<usize, ErrorKind> {
    answer.map_err(|error| error.kind())
}

// Each call of the wrapper makes one call of the device, with the whole buffer, and returns the same result.
#[test]
fn hands_on_each_read(rt: HostRuntime) {
    let reader = MemoryReader::new(rt.alloc(), b"abcd", 3).failing_at(2);
    let mut input = Input::new(reader);
    let mut buffer = [b'.'; 4];
    let first = told(input.fetch(&mut buffer));
    let failed = told(input.fetch(&mut buffer));
    let rest = told(input.fetch(&mut buffer));
    let end = told(input.fetch(&mut buffer));
    assert_eq!(rt;
        (first, failed, rest, end),
        (Ok(3), Err(FAILURE), Ok(1), Ok(0))
    );
    assert_eq!(rt; (buffer, input.failures()), (*b"dbc.", 1));
    assert_eq!(rt;
        input.into_inner().calls(),
        [
            Call::Moved(4, 3),
            Call::Failed,
            Call::Moved(4, 1),
            Call::Moved(4, 0)
        ]
        .as_slice()
    );
}

#[test]
fn hands_on_each_write(rt: HostRuntime) {
    let mut out = Output::new(MemoryWriter::new(rt.alloc(), 2).failing_at(2));
    let first = told(out.give(b"abc"));
    let failed = told(out.give(b"c"));
    let empty = told(out.give(b""));
    assert_eq!(rt; (first, failed, empty), (Ok(2), Err(FAILURE), Ok(0)));
    assert_eq!(rt; out.failures(), 1);
    let writer = out.into_inner();
    assert_eq!(rt; writer.taken(), b"ab".as_slice());
    assert_eq!(rt;
        writer.calls(),
        [Call::Moved(3, 2), Call::Failed, Call::Moved(0, 0)].as_slice()
    );
}

// A write that takes no byte is a failure, unless its piece is empty. A read that returns no byte is not a failure.
#[test]
fn counts_failures(rt: HostRuntime) {
    let mut input = Input::new(MemoryReader::new(rt.alloc(), b"abcd", 3));
    let nothing = told(input.fetch(&mut []));
    assert_eq!(rt; (nothing, input.failures()), (Ok(0), 0));
    let mut full = Output::new(MemoryWriter::new(rt.alloc(), 0));
    let taken = told(full.give(b"a"));
    assert_eq!(rt; (taken, full.failures()), (Ok(0), 1));
    let mut out = Output::new(MemoryWriter::new(rt.alloc(), 2).failing_at(1));
    let kind = out.flush().map_err(|error| error.kind());
    assert_eq!(rt; (kind, out.failures()), (Err(FAILURE), 1));
}
