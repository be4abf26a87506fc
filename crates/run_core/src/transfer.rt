//! What the runs do with their devices: read a piece of the input and find the line feed in it, write a whole text, and
//! flush both outputs at the end. Each read or write uses one of the I/O calls that the run has left.
ghost use Rattle.std.specs.Prelude.{◌≡◌, ◌+◌, ◌-◌, ◌^◌, ◌<◌, ◌≤◌, ◌==◌, length, position, OnOk};
ghost use Rattle.run_core.specs.Devices.{HasRoomWithinRun, MovesBytes, turns_limit};
ghost use Rattle.run_core.specs.Output.{Shows};
ghost use Rattle.run_core.specs.Private.Deliveries.{Delivers, FinishesBoth};
ghost use Rattle.run_core.specs.Private.Fetching.{Fetches};
ghost use Rattle.run_core.specs.Texts.{line_feed};

use crate::device::{Input, Output};
use crate::fault::RunFault;
use std::io::{Read, Write};

/// Reads once into `buffer` and returns the number of bytes read, 0 at the end of the input.
///
/// The read uses one of the `left` I/O calls.
///
/// # Errors
///
/// - `Read`: the read failed.
/// - `Turns`: `left` is 0.
pub(crate) fn fetch_piece<I: Read>(
    input: &mut Input<I>,
    buffer: &mut [u8],
    left: &mut u64,
) -> Result<usize, RunFault>
    requires failures_room { input.old.failures < 2 ^ 64 - 1 }
    requires calls_room { input.old.calls < 2 ^ 64 - 1 }
    requires bytes_room { input.old.bytes + length buffer.old < 2 ^ 64 }
    requires buffer_room { 0 < length buffer.old }
    ensures fetches { Fetches left.old input.old input.new buffer.new result }
    ensures some_left { OnOk result (0 < left.old) }
    ensures takes_turn { left.new ≡ left.old - 1 }
    ensures turns { input.new.calls + left.new ≡ input.old.calls + left.old }
{
    if *left == 0 {
        return Err(RunFault::Turns);
    }
    *left -= 1;
    match input.fetch(buffer) {
        Ok(count) => Ok(count),
        Err(_) => Err(RunFault::Read),
    }
}

/// Returns the position of the first line feed, or `None` if there is none.
pub(crate) fn line_feed_at(bytes: &[u8]) -> Option<usize>
    ensures { result ≡ position (λ b. b == line_feed) bytes.now }
{
    bytes.iter().position(|byte| *byte == b'\n')
}

/// Writes all of `text`, in as many calls as the device needs. Each call uses one of the `left` I/O calls.
///
/// # Errors
///
/// After an error, only a prefix of `text` has been written.
///
/// - `Write`: a write failed.
/// - `Turns`: another write is needed, and `left` is 0.
pub(crate) fn send<O: Write>(
    out: &mut Output<O>,
    text: &[u8],
    left: &mut u64,
) -> Result<(), RunFault>
    requires failures_room { out.old.failures < 2 ^ 64 - 1 }
    requires calls_room { out.old.calls + left.old < 2 ^ 64 }
    requires bytes_room { out.old.bytes + length text.now < 2 ^ 64 }
    ensures delivers { Delivers left.old out.old out.new text.now result }
    ensures turns { out.new.calls + left.new ≡ out.old.calls + left.old }
    ensures fewer { left.new ≤ left.old }
    ensures some_turn { OnOk result (0 < length text.now → left.new < left.old) }
    ensures moves { MovesBytes 0 out.old out.new }
    ensures few_bytes { out.new.bytes ≤ out.old.bytes + length text.now }
    ensures few_failures { out.new.failures ≤ out.old.failures + 1 }
    ensures unflushed { out.new.flushes ≡ out.old.flushes }
{
    let mut rest = text;
    'pieces: while !rest.is_empty() {
        if *left == 0 {
            return Err(RunFault::Turns);
        }
        *left -= 1;
        match out.give(rest) {
            Ok(count) if count > 0 => rest = &rest[count..],
            _ => return Err(RunFault::Write),
        }
    }
    Ok(())
}

/// Writes all of `text` in at most `turns` writes, and flushes the output.
///
/// Preconditions: `turns` is at most 2^40, `text` has fewer than 2^63 bytes, and each count of the output is at most
/// 2^63, or 2^63 + 2^40 for its calls. Each run leaves its `faults` within these limits.
///
/// # Errors
///
/// - `Write`: a write failed, and only a prefix of `text` has been written; or the flush failed, after all of `text`.
/// - `Turns`: `text` needs more writes than `turns`, and only a prefix of it has been written.
pub fn show<O: Write>(out: &mut Output<O>, text: &[u8], turns: u64) -> Result<(), RunFault>
    requires turns { turns ≤ turns_limit }
    requires room { HasRoomWithinRun out.old }
    requires short { length text.now < 2 ^ 63 }
    ensures { Shows turns out.old out.new text.now result }
{
    let mut left = turns;
    send(out, text, &mut left)?;
    let Ok(()) = out.flush() else {
        return Err(RunFault::Write);
    };
    Ok(())
}

/// Flushes both outputs at the end of a run, `out` first. Flushes move no byte, and do not count as I/O calls.
///
/// # Errors
///
/// - `Write`: a flush failed. If the flush of `out` failed, `faults` is not flushed.
pub(crate) fn finish_both<O: Write, E: Write>(
    out: &mut Output<O>,
    faults: &mut Output<E>,
) -> Result<(), RunFault>
    requires out_room { (out.old.failures < 2 ^ 64 - 1) × (out.old.flushes < 2 ^ 64 - 1) }
    requires faults_room { (faults.old.failures < 2 ^ 64 - 1) × (faults.old.flushes < 2 ^ 64 - 1) }
    ensures finishes { FinishesBoth out.old faults.old out.new faults.new result }
{
    let Ok(()) = out.flush() else {
        return Err(RunFault::Write);
    };
    let Ok(()) = faults.flush() else {
        return Err(RunFault::Write);
    };
    Ok(())
}
