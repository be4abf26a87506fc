//! Wrappers around readers and writers. A wrapper passes each call on to its device and counts calls, bytes, idle
//! calls, flushes and failures, so that contracts can refer to them.
ghost use Rattle.std.specs.Prelude.{◌≡◌, ◌+◌, ◌-◌, ◌^◌, ◌<◌, length, OnOk, OnErr};
ghost use Rattle.std.specs.Result.{is_err};
ghost use Rattle.std.specs.Io.{ReadsAtMost, WritesAtMost};
ghost use Rattle.std.specs.Io.KnownBytes.{Keeps, ReadConsumes, WriteAppends};
ghost use Rattle.run_core.specs.DeviceCalls.{FailsToFlush, IsFlushed, IsUnflushed, as_count, is_failed_give, is_idle_fetch, is_idle_give, moved_by, new_device};

use std::io;
use std::io::{Read, Write};
use std::marker::Model;

/// A reader that counts its calls.
///
/// - `failures`: calls that failed.
/// - `calls`: calls of `fetch`, including failed ones.
/// - `bytes`: bytes that these calls returned.
/// - `idle`: calls of `fetch` that returned no byte and did not fail.
///
/// Every count begins at 0. An input is never flushed.
#[derive(Drop)]
pub struct Input<I: Read> {
    inner: I,
    failures: u64,
    calls: u64,
    bytes: u64,
    idle: u64,
}

impl<I: Read> Model for Input<I> {
    ghost use Rattle.std.specs.Prelude.{◌≤◌};
    ghost use Rattle.run_core.specs.DeviceCalls.{device_code};
    ghost use Rattle.run_core.specs.Devices.{Device};

    ghost Value = { Device I };

    ghost coded = { device_code I.code };

    ghost view = { λ i. record { inner = i.inner; shown = I.remaining i.inner; failures = i.failures; calls = i.calls; bytes = i.bytes; idle = i.idle; flushes = 0; flushed = 0 } };

    ghost invariant = { λ i. i.idle ≤ i.calls };
}

impl<I: Read> Input<I> {
    /// Wraps a reader, with every count at 0.
    pub fn new(inner: I) -> Input<I>
        ensures { result ≡ new_device inner (I.remaining inner) }
    {
        Input {
            inner,
            failures: 0,
            calls: 0,
            bytes: 0,
            idle: 0,
        }
    }

    /// Returns the number of failed reads. A read that returns no byte has not failed.
    pub fn failures(&self) -> u64
        ensures { result ≡ self.now.failures }
    {
        self.failures
    }

    /// Returns the wrapped reader.
    pub fn into_inner(self) -> I
        ensures inner { result ≡ self.inner }
        ensures shown { I.remaining result ≡ self.shown }
    {
        self.inner
    }

    /// Reads once into the front of `buffer` and returns the number of bytes read.
    ///
    /// It returns 0 at the end of the input, or if `buffer` is empty. Precondition: no 64-bit count overflows if one
    /// call, one failure and as many bytes as `buffer` has are added.
    ///
    /// # Errors
    ///
    /// - Whatever error the reader's `read` returns, unchanged.
    pub fn fetch(&mut self, buffer: &mut [u8]) -> io::Result<usize>
        requires failures_room { self.old.failures < 2 ^ 64 - 1 }
        requires calls_room { self.old.calls < 2 ^ 64 - 1 }
        requires bytes_room { self.old.bytes + length buffer.old < 2 ^ 64 }
        ensures within { ReadsAtMost result buffer.new }
        ensures gives { ReadConsumes self.old.shown self.new.shown result buffer.new }
        ensures failures { self.new.failures ≡ self.old.failures + as_count (is_err result) }
        ensures calls { self.new.calls ≡ self.old.calls + 1 }
        ensures bytes { self.new.bytes ≡ self.old.bytes + moved_by result }
        ensures idle { self.new.idle ≡ self.old.idle + as_count (is_idle_fetch result) }
    {
        self.calls += 1;
        let answer = self.inner.read(buffer);
        match &answer {
            Ok(0) => self.idle += 1,
            Ok(count) => self.bytes += *count as u64,
            Err(_) => self.failures += 1,
        }
        answer
    }
}

/// A writer that counts its calls.
///
/// - `failures`: failed calls and flushes, and calls of `give` that took no byte although they were given some.
/// - `calls`: calls of `give`, including failed ones.
/// - `bytes`: bytes that these calls took.
/// - `idle`: calls of `give` that were given no byte and did not fail.
/// - `flushes`: flushes, including failed ones.
/// - `flushed`: bytes that were taken before the last successful flush.
///
/// Every count begins at 0.
#[derive(Drop)]
pub struct Output<O: Write> {
    inner: O,
    failures: u64,
    calls: u64,
    bytes: u64,
    idle: u64,
    flushes: u64,
    flushed: u64,
}

impl<O: Write> Model for Output<O> {
    ghost use Rattle.std.specs.Prelude.{◌≤◌};
    ghost use Rattle.run_core.specs.DeviceCalls.{device_code};
    ghost use Rattle.run_core.specs.Devices.{Device};

    ghost Value = { Device O };

    ghost coded = { device_code O.code };

    ghost view = { λ o. record { inner = o.inner; shown = O.contents o.inner; failures = o.failures; calls = o.calls; bytes = o.bytes; idle = o.idle; flushes = o.flushes; flushed = o.flushed } };

    ghost invariant = { λ o. o.idle ≤ o.calls };
}

impl<O: Write> Output<O> {
    /// Wraps a writer, with every count at 0.
    pub fn new(inner: O) -> Output<O>
        ensures { result ≡ new_device inner (O.contents inner) }
    {
        Output {
            inner,
            failures: 0,
            calls: 0,
            bytes: 0,
            idle: 0,
            flushes: 0,
            flushed: 0,
        }
    }

    /// Returns the number of failed calls and flushes. A call of `give` that takes no byte has failed, unless it was
    /// given none.
    pub fn failures(&self) -> u64
        ensures { result ≡ self.now.failures }
    {
        self.failures
    }

    /// Returns the wrapped writer.
    pub fn into_inner(self) -> O
        ensures inner { result ≡ self.inner }
        ensures shown { O.contents result ≡ self.shown }
    {
        self.inner
    }

    /// Writes once from the front of `piece` and returns the number of bytes that the writer took.
    ///
    /// Precondition: no 64-bit count overflows if one call, one failure and as many bytes as `piece` has are added.
    ///
    /// # Errors
    ///
    /// - Whatever error the writer's `write` returns, unchanged.
    pub fn give(&mut self, piece: &[u8]) -> io::Result<usize>
        requires failures_room { self.old.failures < 2 ^ 64 - 1 }
        requires calls_room { self.old.calls < 2 ^ 64 - 1 }
        requires bytes_room { self.old.bytes + length piece.now < 2 ^ 64 }
        ensures within { WritesAtMost result piece.now }
        ensures takes { WriteAppends self.old.shown self.new.shown result piece.now }
        ensures failures { self.new.failures ≡ self.old.failures + as_count (is_failed_give result piece.now) }
        ensures calls { self.new.calls ≡ self.old.calls + 1 }
        ensures bytes { self.new.bytes ≡ self.old.bytes + moved_by result }
        ensures idle { self.new.idle ≡ self.old.idle + as_count (is_idle_give result piece.now) }
        ensures unflushed { IsUnflushed self.old self.new }
    {
        self.calls += 1;
        let answer = self.inner.write(piece);
        match &answer {
            Ok(0) if piece.is_empty() => self.idle += 1,
            Ok(0) | Err(_) => self.failures += 1,
            Ok(count) => self.bytes += *count as u64,
        }
        answer
    }

    /// Flushes the writer once. This moves no byte.
    ///
    /// Precondition: no 64-bit count overflows if one flush and one failure are added.
    ///
    /// # Errors
    ///
    /// - Whatever error the writer's `flush` returns, unchanged.
    pub fn flush(&mut self) -> io::Result<()>
        requires failures_room { self.old.failures < 2 ^ 64 - 1 }
        requires flushes_room { self.old.flushes < 2 ^ 64 - 1 }
        ensures keeps { Keeps self.old.shown self.new.shown }
        ensures failures { self.new.failures ≡ self.old.failures + as_count (is_err result) }
        ensures calls { self.new.calls ≡ self.old.calls }
        ensures bytes { self.new.bytes ≡ self.old.bytes }
        ensures idle { self.new.idle ≡ self.old.idle }
        ensures flushed { OnOk result (IsFlushed self.old self.new) }
        ensures flush_failed { OnErr result (FailsToFlush self.old self.new) }
    {
        self.flushes += 1;
        let answer = self.inner.flush();
        match &answer {
            Ok(()) => self.flushed = self.bytes,
            Err(_) => self.failures += 1,
        }
        answer
    }
}

#[cfg(test)]
mod tests;
