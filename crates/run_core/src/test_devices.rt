//! Devices in memory and a generator of known numbers, for tests. A device exposes its contents to contracts, records
//! its calls, and can fail at one of them.
ghost use Rattle.std.specs.Prelude.{◌≡◌, ◌<◌, Some, None, drop, slice_index};
ghost use Rattle.rand_core.specs.Steps.{stream_of, steps_u64_low};

use rand_core::Rng;
use rand_core::utils::{NextWord, fill_bytes_via_u64};
use std::alloc::Global;
use std::io;
use std::io::{ErrorKind, Read, Write};
use std::marker::Model;

/// The error of a call that a test makes fail. Many programs repeat a call after this error, but a run must not.
pub const FAILURE: ErrorKind = ErrorKind::Interrupted;

/// A limit on the bytes of each call. No call reaches it.
pub const ALL: usize = usize::MAX;

/// A call of a device.
#[derive(Clone, Copy, Debug, PartialEq, Eq)]
pub enum Call {
    /// A read or a write: the length of its buffer, and the number of bytes that it moved.
    Moved(usize, usize),
    Flushed,
    Failed,
}

// Records a call. If its number, counted from 1, is `fails_at`, records and returns a failure instead.
fn record(calls: &mut Vec<Call>, fails_at: usize, call: Call) -> io::Result<()> {
    if calls.len().saturating_add(1) == fails_at {
        calls.push(Call::Failed)?;
        return Err(io::Error::from(FAILURE));
    }
    calls.push(call)?;
    Ok(())
}

/// A writer that takes at most a given number of bytes a call, and may fail at one call.
#[derive(Drop)]
pub struct MemoryWriter {
    taken: Vec<u8>,
    calls: Vec<Call>,
    most: usize,
    fails_at: usize,
}

impl MemoryWriter {
    /// Returns a writer that takes at most `most` bytes a call.
    pub fn new(alloc: Global, most: usize) -> MemoryWriter {
        MemoryWriter {
            taken: Vec::new(alloc),
            calls: Vec::new(alloc),
            most,
            fails_at: 0,
        }
    }

    /// Makes the call with this number fail, counted from 1. With 0 no call fails.
    pub fn failing_at(mut self, call: usize) -> MemoryWriter {
        self.fails_at = call;
        self
    }

    /// Returns the bytes that the writer has taken.
    pub fn taken(&self) -> &[u8] {
        self.taken.as_slice()
    }

    /// Returns the calls of the writer, in order.
    pub fn calls(&self) -> &[Call] {
        self.calls.as_slice()
    }
}

impl Write for MemoryWriter {
    ghost contents = { λ writer. Some writer.taken.items };

    fn write(&mut self, buf: &[u8]) -> io::Result<usize> {
        let count = buf.len().min(self.most);
        record(
            &mut self.calls,
            self.fails_at,
            Call::Moved(buf.len(), count),
        )?;
        self.taken.extend_from_slice(&buf[..count])?;
        Ok(count)
    }

    fn flush(&mut self) -> io::Result<()> {
        record(&mut self.calls, self.fails_at, Call::Flushed)
    }
}

/// A reader of given bytes. It returns at most a given number of them a call, and may fail at one call.
///
/// Contracts see the bytes that are left, or `None` if the reader repeats them forever.
#[derive(Drop)]
pub struct MemoryReader<'a> {
    bytes: &'a [u8],
    left: &'a [u8],
    calls: Vec<Call>,
    is_repeated: bool,
    most: usize,
    fails_at: usize,
}

impl<'a> Model for MemoryReader<'a> {
    ghost use Rattle.std.specs.Prelude.{ℕ, List, Option, Some, None, if◌then◌else◌, ◌<◌};

    ghost Value = { Option (List ℕ) };

    ghost view = { λ r. if r.is_repeated then None else Some r.left.now };

    ghost invariant = { λ r. 0 < r.most };
}

impl<'a> MemoryReader<'a> {
    /// Returns a reader of these bytes that returns at most `most` of them a call.
    ///
    /// Precondition: `most` is not 0, since a read of no byte means the end of the input.
    pub fn new(alloc: Global, bytes: &'a [u8], most: usize) -> MemoryReader<'a>
        requires { 0 < most }
        ensures { result ≡ Some bytes.now }
    {
        MemoryReader {
            bytes,
            left: bytes,
            calls: Vec::new(alloc),
            is_repeated: false,
            most,
            fails_at: 0,
        }
    }

    /// Makes the reader start again after the last byte, forever.
    pub fn repeated(mut self) -> MemoryReader<'a>
        ensures { result ≡ None }
    {
        self.is_repeated = true;
        self
    }

    /// Makes the call with this number fail, counted from 1. With 0 no call fails.
    pub fn failing_at(mut self, call: usize) -> MemoryReader<'a>
        ensures { result ≡ self.entry }
    {
        self.fails_at = call;
        self
    }

    /// Returns the calls of the reader, in order.
    pub fn calls(&self) -> &[Call] {
        self.calls.as_slice()
    }
}

impl Read for MemoryReader<'_> {
    ghost remaining = { λ reader. reader };

    fn read(&mut self, buf: &mut [u8]) -> io::Result<usize> {
        if self.is_repeated && self.left.is_empty() {
            self.left = self.bytes;
        }
        let room = buf.len();
        let count = room.min(self.most);
        let given = count.min(self.left.len());
        record(&mut self.calls, self.fails_at, Call::Moved(room, given))?;
        self.left.read(&mut buf[..count])
    }
}

/// A generator that returns given numbers in order, and 0 after the last. Contracts see the numbers that are left.
#[derive(Drop)]
pub struct ListedWords<'a> {
    left: &'a [u64],
}

impl<'a> Model for ListedWords<'a> {
    ghost use Rattle.std.specs.Prelude.{ℕ, List};

    ghost Value = { List ℕ };

    ghost view = { λ w. w.left.now };
}

impl<'a> ListedWords<'a> {
    /// Returns a generator of these numbers.
    pub fn new(numbers: &'a [u64]) -> ListedWords<'a>
        ensures { result ≡ numbers.now }
    {
        ListedWords { left: numbers }
    }
}

impl NextWord<u64> for ListedWords<'_> {
    ghost step = { λ numbers. (slice_index numbers 0, drop 1 numbers) };

    fn next_word(&mut self) -> u64 {
        match self.left.split_first() {
            Some((word, left)) => {
                self.left = left;
                *word
            }
            None => 0,
        }
    }
}

impl Rng for ListedWords<'_> {
    ghost stream = { stream_of (steps_u64_low (λ numbers. (slice_index numbers 0, drop 1 numbers))) };

    fn next_u32(&mut self) -> u32 {
        (self.next_word() % (1 << 32)) as u32
    }

    fn next_u64(&mut self) -> u64 {
        self.next_word()
    }

    fn fill_bytes(&mut self, dst: &mut [u8]) {
        fill_bytes_via_u64(self, dst)
    }
}
