//! The runs over the lines of an input. A run answers each line as soon as it has read the line's end, before it reads
//! more. So it holds only one line and one piece of the input, and its memory does not grow with the input.
ghost use Rattle.std.specs.Prelude.{◌≡◌, ◌≢◌, ℕ, ◌+◌, ◌^◌, ◌<◌, ◌≤◌, length, Err, IfOk, OnOk};
ghost use Rattle.crypt_core.specs.Passwords.{password_limit};
ghost use Rattle.crypt_core.specs.Settings.{SettingValue};
ghost use Rattle.crypt_core.specs.Work.{cost};
ghost use Rattle.run_core.specs.Answers.{Answer};
ghost use Rattle.crypt_core.specs.Standings.{greatest_cost};
ghost use Rattle.run_core.specs.Devices.{HasRoomWithinRun, MovesBytes};
ghost use Rattle.run_core.specs.LineOptions.{Foresees, HeedsLimit, OnlyRefuses, OnlyRenews, Refutes, RenewsNone};
ghost use Rattle.run_core.specs.LineRuns.{RunsLines};
ghost use Rattle.run_core.specs.Lines.{name_limit};
ghost use Rattle.run_core.specs.Private.Answers.{Renders, counted, outcome_of};
ghost use Rattle.run_core.specs.Private.Deliveries.{Sends};
ghost use Rattle.run_core.specs.Private.Headroom.{HasRoomFor, answer_limit, lines_limit};
ghost use Rattle.run_core.specs.Runs.{IsReady, no_numbers, run_state};
ghost use Rattle.run_core.specs.declared.fault.RunFault.TheVariants.{OutOfMemory};
ghost use Rattle.run_core.specs.declared.line.Kind.TheVariants.{Batch, Check, Audit};

use crate::answer::{Answered, answer_line, render, render_refusal};
use crate::audit::NoNumbers;
use crate::device::{Input, Output};
use crate::fault::RunFault;
use crate::job::Job;
use crate::line::{Kind, LineFault};
use crate::reader::LineReader;
use crate::tally::Tally;
use crate::transfer::{finish_both, send};
use prims_core::meter::Meter;
use rand_core::Rng;
use std::alloc::Global;
use std::io::{Read, Write};

/// Hashes the password of each line `name:password` of the input and writes `name:HASH` to `out`.
///
/// The password is everything after the first colon. The job's maker makes the setting of each hash. A new salt takes
/// three random numbers, which the run draws only for a line that it hashes. The input is split at its line feeds; what
/// follows the last one is a line if it is not empty. Lines are numbered from the job's `first_line` on.
///
/// A line is refused if it breaks a rule ([`LineFault`]) or can cost more than the job's `budget`
/// ([`cost`](crypt_core::work::cost)). The run then writes `mkpasswd: line NUMBER: MESSAGE` to `faults` instead, and
/// continues. It hashes, allocates and draws nothing for that line. The budget is checked last, and makes no difference
/// to lines within it.
///
/// With the job's `work`, each output line ends with the counts `:digests:bytes:mixes:table` of its own hash. The job's
/// `rehash` has no effect. The run flushes both outputs once, at the end. The tally counts all lines and the refused
/// ones.
///
/// For example, with md5crypt and the salt `xxxxxxxx`, the line `ann:password` gives
/// `ann:$1$xxxxxxxx$UYCIxa628.9qXjpQCjM4a.`. If the second line is `bob`, the message about it is
/// `mkpasswd: line 2: no password field`.
///
/// Preconditions: `turns` is at most 2^40, each count of the meter at most 2^100, and each count of the devices at most
/// 2^62.
///
/// # Errors
///
/// When the run ends with an error, all lines before the one at which it stopped have been answered in full. Nothing
/// else has been written, except where stated.
///
/// - `Read`: a read failed. The answered lines are those whose line feed was read.
/// - `OutOfMemory`: scrypt could not allocate memory for the next line.
/// - `Write`: a write failed, and only a prefix of the next line's output has been written; or a flush failed, after
///   all lines.
/// - `Turns`: the run needs more reads and writes than `turns`. If it stopped before a write, a prefix of the next
///   line's output has been written.
///
/// [`LineFault`]: crate::line::LineFault
pub fn run_batch<I: Read, O: Write, E: Write, R: Rng>(
    alloc: Global,
    job: &Job,
    input: &mut Input<I>,
    out: &mut Output<O>,
    faults: &mut Output<E>,
    rng: &mut R,
    meter: &mut Meter,
    turns: u64,
) -> Result<Tally, RunFault>
    requires { IsReady turns input.old out.old faults.old meter.old }
    ensures runs { RunsLines turns Batch job.now
        (run_state input.old out.old faults.old (R.stream rng.old) meter.old)
        (run_state input.new out.new faults.new (R.stream rng.new) meter.new) result }
    ensures fault_room { HasRoomWithinRun faults.new }
    ensures budget { OnlyRefuses Batch job.now }
    ensures rehash { RenewsNone Batch job.now }
{
    answer_lines(
        alloc,
        Kind::Batch,
        job,
        input,
        out,
        faults,
        rng,
        meter,
        turns,
    )
}

/// Checks the password of each line `name:field:password` of the input and writes the verdict to `out`.
///
/// - `name:ok`: hashing the password with the setting in `field` reproduces `field`.
/// - `name:ok:NEWHASH`: hashing the password reproduces `field`, but the job asks for a `rehash`, and its settings
///   replace the one in `field` ([`Setting::replaced_by`]).
/// - `name:no`: hashing the password does not reproduce `field`.
/// - `name:none`: `field` is empty.
/// - `name:locked`: `field` begins with `!` or `*`.
///
/// The password is everything after the second colon. `NEWHASH` is the hash of the password with the next setting of
/// the job's maker. If that setting needs a new salt, the run draws three random numbers once the password has matched.
/// For any other line it draws none.
///
/// The cost of a line is that of its check. If its setting is to be replaced, the cost of the new hash is added,
/// whether or not the password matches. The verdicts `none` and `locked` cost nothing, so such a line is never over
/// budget. With `work`, the counts cover all hashes of the line: two for `NEWHASH`, and none for `none` and `locked`,
/// which show four zeros.
///
/// The tally also counts the verdicts `no`. Everything else is as for [`run_batch`], including the preconditions.
///
/// For example, the line `ann:$1$xxxxxxxx$UYCIxa628.9qXjpQCjM4a.:password` gives `ann:ok`.
///
/// # Errors
///
/// The errors are those of [`run_batch`].
///
/// [`Setting::replaced_by`]: crypt_core::setting::Setting::replaced_by
pub fn run_check<I: Read, O: Write, E: Write, R: Rng>(
    alloc: Global,
    job: &Job,
    input: &mut Input<I>,
    out: &mut Output<O>,
    faults: &mut Output<E>,
    rng: &mut R,
    meter: &mut Meter,
    turns: u64,
) -> Result<Tally, RunFault>
    requires { IsReady turns input.old out.old faults.old meter.old }
    ensures runs { RunsLines turns Check job.now
        (run_state input.old out.old faults.old (R.stream rng.old) meter.old)
        (run_state input.new out.new faults.new (R.stream rng.new) meter.new) result }
    ensures fault_room { HasRoomWithinRun faults.new }
    ensures budget { OnlyRefuses Check job.now }
    ensures rehash { OnlyRenews Check job.now }
{
    answer_lines(
        alloc,
        Kind::Check,
        job,
        input,
        out,
        faults,
        rng,
        meter,
        turns,
    )
}

/// Audits the field of each line `name:field`, or `name:field:` and anything, and writes the finding to `out`.
///
/// - `name:METHOD:ROUNDS:COST:over budget`: `field` has a valid setting, whose hash is over the job's `budget`, or over
///   that of its scheme if the job's is `None` or 0 ([`Standing::OverBudget`]).
/// - `name:METHOD:ROUNDS:COST:dead`: the hash is within the budget, but no password matches `field`, because it is not
///   [whole](crypt_core::stored::StoredHash::is_whole).
/// - `name:METHOD:ROUNDS:COST:outdated`: the hash is within the budget and whole, and the job's settings replace its
///   setting ([`Setting::replaced_by`]).
/// - `name:METHOD:ROUNDS:COST:current`: the hash is within the budget and whole, and the job's settings do not replace
///   its setting.
/// - `name:none`: `field` is empty.
/// - `name:locked`: `field` begins with `!` or `*`.
/// - `name:malformed:MESSAGE`: `field` begins with `$` but breaks a rule of settings, and the first broken rule is not
///   `UnknownScheme`. MESSAGE is the message about that rule ([`SettingFault`]).
/// - `name:SCHEME:unknown`: any other `field` that has the form of another scheme of crypt(5), such as `yescrypt`.
/// - `name:unknown`: any other `field` that begins with `$`.
/// - `name:no scheme`: any other `field`.
///
/// `field` ends at the second colon, or at the end of the line. METHOD is the name of the setting's method. ROUNDS is
/// its number of rounds, or `N/r/p` for scrypt. COST is the cost of hashing a password of 1,024 bytes with it
/// ([`cost`](crypt_core::work::cost)); no password costs more. A line that is too long, or has no valid name or no
/// field, is refused as by [`run_batch`].
///
/// The run needs no generator, and hashes and allocates nothing. The job's `rehash` and `work` have no effect. The
/// tally's `misfits` counts the findings `outdated`, `dead`, `over budget`, `none`, `no scheme` and `malformed`.
/// Everything else is as for [`run_batch`], including the preconditions.
///
/// For example, with sha512crypt the line `ann:$1$xxxxxxxx$UYCIxa628.9qXjpQCjM4a.:19000:0` gives
/// `ann:md5crypt:1000:1927022:outdated`.
///
/// # Errors
///
/// The errors are those of [`run_batch`], but never `OutOfMemory`.
///
/// [`Setting::replaced_by`]: crypt_core::setting::Setting::replaced_by
/// [`SettingFault`]: crypt_core::setting::SettingFault
/// [`Standing::OverBudget`]: crypt_core::standing::Standing::OverBudget
pub fn run_audit<I: Read, O: Write, E: Write>(
    alloc: Global,
    job: &Job,
    input: &mut Input<I>,
    out: &mut Output<O>,
    faults: &mut Output<E>,
    meter: &mut Meter,
    turns: u64,
) -> Result<Tally, RunFault>
    requires { IsReady turns input.old out.old faults.old meter.old }
    ensures runs { RunsLines turns Audit job.now
        (run_state input.old out.old faults.old no_numbers meter.old)
        (run_state input.new out.new faults.new no_numbers meter.new) result }
    ensures fault_room { HasRoomWithinRun faults.new }
    ensures hashes_none { meter.new ≡ meter.old }
    ensures allocates_none { result ≢ Err OutOfMemory }
    ensures longest { (kept : SettingValue) → (password_length : ℕ) → password_length ≤ password_limit
        → cost kept password_length ≤ greatest_cost kept }
    ensures foresees { Foresees job.now }
    ensures checked { HeedsLimit job.now }
    ensures refutes { Refutes job.now }
    ensures rehash { RenewsNone Audit job.now }
{
    let mut numbers = NoNumbers;
    answer_lines(
        alloc,
        Kind::Audit,
        job,
        input,
        out,
        faults,
        &mut numbers,
        meter,
        turns,
    )
}

// Answers each line as soon as it is read, and flushes both outputs after the last line.
fn answer_lines<I: Read, O: Write, E: Write, R: Rng>(
    alloc: Global,
    kind: Kind,
    job: &Job,
    input: &mut Input<I>,
    out: &mut Output<O>,
    faults: &mut Output<E>,
    rng: &mut R,
    meter: &mut Meter,
    turns: u64,
) -> Result<Tally, RunFault>
    requires { IsReady turns input.old out.old faults.old meter.old }
    ensures runs { RunsLines turns kind job.now
        (run_state input.old out.old faults.old (R.stream rng.old) meter.old)
        (run_state input.new out.new faults.new (R.stream rng.new) meter.new) result }
    ensures fault_room { HasRoomWithinRun faults.new }
{
    let mut left = turns;
    let mut reader = LineReader::new();
    let mut tally = Tally::new();
    'lines: while reader.next_line(input, &mut left)? {
        let answer = answer_line(alloc, kind, job, &reader.buffer, rng, meter)?;
        count_and_write(job, &answer, out, faults, &mut tally, &mut left)?;
    }
    finish_both(out, faults)?;
    Ok(tally)
}

// Counts a line in the tally and writes its answer to `out`, or the message about it to `faults` if it is refused.
fn count_and_write<O: Write, E: Write>(
    job: &Job,
    answer: &Result<Answered<'_>, LineFault>,
    out: &mut Output<O>,
    faults: &mut Output<E>,
    tally: &mut Tally,
    left: &mut u64,
) -> Result<(), RunFault>
    requires lines { tally.old.lines ≤ lines_limit }
    requires refused { tally.old.refused ≤ tally.old.lines }
    requires misfits { tally.old.misfits ≤ tally.old.lines }
    requires out_room { HasRoomFor answer_limit left.old out.old }
    requires faults_room { HasRoomFor answer_limit left.old faults.old }
    requires flushes { faults.old.flushes ≤ 2 ^ 62 }
    requires short { IfOk answer.now (λ answered. length answered.name.now ≤ name_limit) }
    ensures tally { tally.new ≡ counted tally.old (outcome_of answer.now) }
    ensures sends { (next : Answer) → Renders job.now (job.now.first_line + tally.old.lines) answer.now next
        → Sends left.new next out.old faults.old out.new faults.new result }
    ensures calls { out.new.calls + faults.new.calls + left.new ≡ out.old.calls + faults.old.calls + left.old }
    ensures fewer { left.new ≤ left.old }
    ensures out_moves { MovesBytes 0 out.old out.new }
    ensures faults_moves { MovesBytes 0 faults.old faults.new }
    ensures failures { out.new.failures + faults.new.failures ≤ out.old.failures + faults.old.failures + 1 }
    ensures out_room { OnOk result (HasRoomFor answer_limit left.new out.new) }
    ensures faults_room { OnOk result (HasRoomFor answer_limit left.new faults.new) }
    ensures fault_room { HasRoomWithinRun faults.new }
{
    let number = u64::from(job.first_line) + tally.lines;
    tally.lines += 1;
    match answer {
        Ok(answered) => {
            tally.misfits += u64::from(answered.outcome.is_misfit());
            let text = render(job, Some(answered.name), &answered.outcome, &answered.work);
            send(out, text.as_slice(), left)
        }
        Err(fault) => {
            tally.refused += 1;
            send(faults, render_refusal(number, fault).as_slice(), left)
        }
    }
}
