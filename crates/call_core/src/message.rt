//! The call that writes the message for a reason, which is given by its number in a report.
ghost use Rattle.call_core.specs.Names.{PutsMessage};

use crate::reason::Reason;
use crate::report::{put, put_whole};

/// Writes the message for the reason with this number to `out`, followed by a zero byte. A message that doesn't fit is
/// cut. If no reason has the number, the message is `unknown reason`.
///
/// Returns 1, or 0 if the message was cut or no reason has the number.
pub fn put_message(number: u32, out: &mut [u8]) -> i32
    ensures { PutsMessage number out.old result out.new }
{
    match Reason::numbered(number) {
        Some(reason) => put_whole(out, reason.message().as_bytes()),
        None => {
            put(out, b"unknown reason");
            0
        }
    }
}
