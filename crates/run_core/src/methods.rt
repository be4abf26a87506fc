//! The list of the methods, which `-m help` prints.
ghost use Rattle.std.specs.Prelude.{◌≡◌, ◌≤◌, [], IfOk};
ghost use Rattle.run_core.specs.Answers.{tally_of};
ghost use Rattle.run_core.specs.Devices.{HasRoomBeforeRun, turns_limit};
ghost use Rattle.run_core.specs.Methods.{methods_text};
ghost use Rattle.run_core.specs.Output.{Shows};

use crate::device::Output;
use crate::fault::RunFault;
use crate::tally::Tally;
use crate::transfer::show;
use std::io::Write;

const METHODS: &str = "Available methods:\nmd5crypt\nsha256crypt\nsha512crypt\nscrypt\n";

/// Writes the list of the methods to `out` and flushes it.
///
/// It makes at most `turns` writes, including failed ones. The flush does not count. Preconditions: `turns` is at most
/// 2^40, and each count of `out` is at most 2^62.
///
/// # Errors
///
/// - `Write`: a write failed, and only a prefix of the list has been written; or the flush failed, after all of it.
/// - `Turns`: the list needs more writes than `turns`, and only a prefix of it has been written.
pub fn run_methods<O: Write>(out: &mut Output<O>, turns: u64) -> Result<Tally, RunFault>
    requires turns { turns ≤ turns_limit }
    requires room { HasRoomBeforeRun out.old }
    ensures shows { Shows turns out.old out.new methods_text result }
    ensures tally { IfOk result (λ tally. tally ≡ tally_of []) }
{
    show(out, METHODS.as_bytes(), turns)?;
    Ok(Tally::new())
}
