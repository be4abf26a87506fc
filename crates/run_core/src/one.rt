//! The run for a single password: it writes the hash, the counts if the job asks for them, and a line feed.
ghost use Rattle.std.specs.Prelude.{◌≡◌, ◌+◌, ◌≤◌};
ghost use Rattle.run_core.specs.JobOptions.{without_budget, without_rehash};
ghost use Rattle.run_core.specs.Devices.{HasRoomBeforeRun, HasRoomWithinRun, MovesBytes, turns_limit};
ghost use Rattle.run_core.specs.One.{EndsOne, RunsOne};
ghost use Rattle.run_core.specs.Private.Fetching.{ObtainsFrom};
ghost use Rattle.run_core.specs.Runs.{IsReady, IsWithinTurns, run_state};

mod password;

use crate::answer::{Outcome, make_hash, render};
use crate::device::{Input, Output};
use crate::fault::RunFault;
use crate::job::{Job, PasswordFrom};
use crate::tally::Tally;
use crate::transfer::{finish_both, send};
use crypt_core::password::Password;
use password::read_password;
use prims_core::meter::Meter;
use rand_core::Rng;
use std::alloc::Global;
use std::io::{Read, Write};

/// Hashes one password with the next setting of the job's maker, and writes the hash and a line feed to `out`.
///
/// The password is an argument or the first line of the input, which ends before the first line feed or at the end of
/// the input. The run drops whatever it has read after that line feed. It checks the password first, then draws three
/// random numbers if it needs a new salt, and then hashes. It flushes both outputs at the end.
///
/// With the job's `work`, the counts `:digests:bytes:mixes:table` follow the hash. The job's `budget` and `rehash` have
/// no effect. The tally counts one line.
///
/// For example, with md5crypt and the salt `xxxxxxxx`, `password` gives `$1$xxxxxxxx$UYCIxa628.9qXjpQCjM4a.`.
///
/// Preconditions: `turns` is at most 2^40, each count of the meter at most 2^100, and each count of the devices at most
/// 2^62.
///
/// # Errors
///
/// - `Password`: the password is invalid. A password in the input is too long once [`PASSWORD_LIMIT`] + 1 bytes without
///   a line feed have been read. Nothing is written, drawn or hashed.
/// - `Read`: a read failed before the end of the password. Nothing is written, drawn or hashed.
/// - `OutOfMemory`: scrypt could not allocate memory. Nothing is written, but the random numbers for a new salt have
///   been drawn.
/// - `Write`: a write failed, and only a prefix of the output has been written; or a flush failed, after all of it.
/// - `Turns`: the run needs more reads and writes than `turns`. If it stopped before a write, a prefix of the output
///   has been written.
///
/// [`PASSWORD_LIMIT`]: crypt_core::password::PASSWORD_LIMIT
pub fn run_one<I: Read, O: Write, E: Write, R: Rng>(
    alloc: Global,
    job: &Job,
    from: &PasswordFrom,
    input: &mut Input<I>,
    out: &mut Output<O>,
    faults: &mut Output<E>,
    rng: &mut R,
    meter: &mut Meter,
    turns: u64,
) -> Result<Tally, RunFault>
    requires { IsReady turns input.old out.old faults.old meter.old }
    ensures runs { RunsOne turns job.now from.now
        (run_state input.old out.old faults.old (R.stream rng.old) meter.old)
        (run_state input.new out.new faults.new (R.stream rng.new) meter.new) result }
    ensures fault_room { HasRoomWithinRun faults.new }
{
    let mut left = turns;
    let password = obtain(from, input, &mut left)?;
    let before = meter.reading();
    let hash = make_hash(alloc, job, &password, rng, meter)?;
    let work = meter.work_since(&before);
    let line = render(job, None, &Outcome::Hashed(hash), &work);
    send(out, line.as_slice(), &mut left)?;
    finish_both(out, faults)?;
    Ok(Tally {
        lines: 1,
        refused: 0,
        misfits: 0,
    })
}

// Returns the password, which is an argument or the first line of the input.
fn obtain<I: Read>(
    from: &PasswordFrom,
    input: &mut Input<I>,
    left: &mut u64,
) -> Result<Password, RunFault>
    requires turns { left.old ≤ turns_limit }
    requires room { HasRoomBeforeRun input.old }
    ensures password { ObtainsFrom from.now input.old input.new left.new result }
    ensures turns { input.new.calls + left.new ≡ input.old.calls + left.old }
    ensures fewer { left.new ≤ left.old }
    ensures moves { MovesBytes 1 input.old input.new }
{
    match from {
        PasswordFrom::Word(bytes) => Ok(Password::new(bytes.as_slice())?),
        PasswordFrom::Input => read_password(input, left),
    }
}
