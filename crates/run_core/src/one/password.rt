//! Reads a password from an input. The password is the first line, without its line feed. The buffer has a fixed size,
//! so nothing is allocated.
ghost use Rattle.std.specs.Prelude.{◌≡◌, ℕ, ◌+◌, ◌-◌, ◌^◌, ◌<◌, ◌≤◌, List, drop, length, take};
ghost use Rattle.run_core.specs.Devices.{HasRoomBeforeRun, MovesBytes, turns_limit};
ghost use Rattle.run_core.specs.Input.{Reads};
ghost use Rattle.run_core.specs.Private.Fetching.{buffer_size, Fetches, FindsLine, Obtains};

use crate::device::Input;
use crate::fault::RunFault;
use crate::transfer::{fetch_piece, line_feed_at};
use crypt_core::password::{PASSWORD_LIMIT, Password};
use std::io::Read;

// A password is too long once this many bytes without a line feed have been read.
const BUFFER_SIZE: usize = PASSWORD_LIMIT + 1;

/// Reads the first line of the input as a password.
///
/// Each read uses one of the `left` I/O calls. Bytes that were read after the line feed are dropped.
///
/// # Errors
///
/// - `Password`: the line is an invalid password. It is too long once more than [`PASSWORD_LIMIT`] bytes without a line
///   feed have been read.
/// - `Read`: a read failed before the end of the line.
/// - `Turns`: another read is needed, and `left` is 0.
pub(crate) fn read_password<I: Read>(
    input: &mut Input<I>,
    left: &mut u64,
) -> Result<Password, RunFault>
    requires turns { left.old ≤ turns_limit }
    requires room { HasRoomBeforeRun input.old }
    ensures read { (bytes : List ℕ) × Reads input.old input.new bytes
        × Obtains input.old input.new bytes left.new result }
    ensures turns { input.new.calls + left.new ≡ input.old.calls + left.old }
    ensures fewer { left.new ≤ left.old }
    ensures moves { MovesBytes 1 input.old input.new }
{
    let mut buffer = [0; BUFFER_SIZE];
    let end = read_first_line(input, &mut buffer, left)?;
    Ok(Password::new(&buffer[..end])?)
}

// Reads until the first line has ended or fills `buffer`, and returns the number of its bytes in `buffer`.
fn read_first_line<I: Read>(
    input: &mut Input<I>,
    buffer: &mut [u8],
    left: &mut u64,
) -> Result<usize, RunFault>
    requires turns { left.old ≤ turns_limit }
    requires room { HasRoomBeforeRun input.old }
    requires size { length buffer.old ≡ buffer_size }
    ensures read { (bytes : List ℕ) × Reads input.old input.new bytes
        × FindsLine input.old input.new bytes left.new buffer.new result }
    ensures turns { input.new.calls + left.new ≡ input.old.calls + left.old }
    ensures fewer { left.new ≤ left.old }
    ensures moves { MovesBytes 1 input.old input.new }
{
    let mut filled = 0;
    'fetches: while filled < buffer.len() {
        let count = fetch_after(input, buffer, filled, left)?;
        if let Some(at) = line_feed_at(&buffer[filled..filled + count]) {
            return Ok(filled + at);
        }
        if count == 0 {
            return Ok(filled);
        }
        filled += count;
    }
    Ok(filled)
}

// Reads once into `buffer`, after its first `filled` bytes. Returns the number of bytes read, 0 at the end of the
// input.
fn fetch_after<I: Read>(
    input: &mut Input<I>,
    buffer: &mut [u8],
    filled: usize,
    left: &mut u64,
) -> Result<usize, RunFault>
    requires failures_room { input.old.failures < 2 ^ 64 - 1 }
    requires calls_room { input.old.calls < 2 ^ 64 - 1 }
    requires bytes_room { input.old.bytes + length buffer.old < 2 ^ 64 }
    requires buffer_room { filled < length buffer.old }
    ensures kept { take filled buffer.new ≡ take filled buffer.old }
    ensures fetches { Fetches left.old input.old input.new (drop filled buffer.new) result }
    ensures takes_turn { left.new ≡ left.old - 1 }
    ensures turns { input.new.calls + left.new ≡ input.old.calls + left.old }
{
    fetch_piece(input, &mut buffer[filled..], left)
}
