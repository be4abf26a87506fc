//! The whole command: it makes a plan from the arguments, runs the plan, and reports errors.
ghost use Rattle.std.specs.Prelude.{◌≡◌, ℕ, ◌<◌, ◌≤◌, false, List, Option, Some, None, is_some, map, string_bytes};
ghost use Rattle.crypt_core.specs.Methods.{method_named};
ghost use Rattle.crypt_core.specs.declared.method.Method.{Method};
ghost use Rattle.mkpasswd.specs.Commands.{IsAsked, Serves, stream_in, wants_generator};
ghost use Rattle.mkpasswd.specs.Corollaries.{IsNoOption, EndsWhole, PrintsHash, hash_arguments};
ghost use Rattle.mkpasswd.specs.Faults.{IsReported, fault_line, fault_row};
ghost use Rattle.mkpasswd.specs.Private.Commands.{ErrorShown, RefusalShown, RunsOrLacks};
ghost use Rattle.run_core.specs.Devices.{HasRoomWithinRun, turns_limit};
ghost use Rattle.run_core.specs.Runs.{IsReady, run_state};

use crate::fault::{Fault, UsageFault};
use crate::options::plan;
use crate::plan::Plan;
use arrayvec::ArrayVec;
use prims_core::meter::Meter;
use rand_core::Rng;
use run_core::device::{Input, Output};
use run_core::lines::{run_audit, run_batch, run_check};
use run_core::methods::run_methods;
use run_core::one::run_one;
use run_core::tally::Tally;
use run_core::transfer::show;
use std::alloc::{AllocError, Global};
use std::io::{Read, Write};

// The capacity for the line that reports an error. The longest line has 35 bytes.
const FAULT_LINE_ROOM: usize = 80;

/// Runs the command with the arguments after the program's name, and returns the exit status.
///
/// - 0: everything was done, or help or the version was printed.
/// - 1: a line was refused or got the verdict `no`, or an audited account needs care ([`Tally::status`]).
/// - 2: the arguments or the password are invalid.
/// - 3: a system error occurred, an allocation failed, or the run needs too many I/O calls.
///
/// [`plan`] makes a plan from the arguments, and [`run_methods`], [`run_one`], [`run_batch`], [`run_check`] or
/// [`run_audit`] runs it. After an error the command writes `mkpasswd: MESSAGE` and a line feed to `faults`. If `clap`
/// refuses the arguments, it writes `clap`'s message instead, without a tip to pass an option as a value. Help and the
/// version go to `out`.
///
/// If the plan hashes or checks passwords, the command calls `make` once and stores the result in `generator`. If that
/// is `None`, the command does not run the plan, and the message is `start fault`. Audits, the list of the methods,
/// help, the version and invalid arguments need no generator, so the command does not call `make` for them. `generator`
/// and `make` stay with the caller, so that the clauses can say how the command used them.
///
/// If the message of an error cannot be written, only the exit status reports the error. If help or the version cannot
/// be written in full, that is an error with status 3.
///
/// The run, or `clap`'s message, takes at most `turns` I/O calls. The line that reports an error takes at most as many
/// more calls as it has bytes.
///
/// For example, the arguments `-m md5crypt -S xxxxxxxx password` write `$1$xxxxxxxx$UYCIxa628.9qXjpQCjM4a.` and a line
/// feed to `out`, and the status is 0.
///
/// Preconditions: `generator` is `None`, `make` can be called, `turns` is at most 2^40, each count of the meter is at
/// most 2^100, and each count of the devices is at most 2^62.
pub fn run_command<I: Read, O: Write, E: Write, R: Rng + Drop, M: FnMut() -> Option<R>>(
    alloc: Global,
    arguments: &[String],
    input: &mut Input<I>,
    out: &mut Output<O>,
    faults: &mut Output<E>,
    generator: &mut Option<R>,
    make: &mut M,
    meter: &mut Meter,
    turns: u64,
) -> u8
    requires ready { IsReady turns input.old out.old faults.old meter.old }
    requires none_yet { generator.old ≡ None }
    requires make { M.pre make.old }
    ensures serves { (made : Option R) × Serves turns (M.step make.old made make.new) ((make.new ≡ make.old) × (made ≡ None))
        (is_some made) (map string_bytes arguments.now)
        (run_state input.old out.old faults.old (stream_in R.stream made) meter.old)
        (run_state input.new out.new faults.new (stream_in R.stream generator.new) meter.new) result }
    ensures whole { result ≡ 0 → (made : Option R)
        × EndsWhole (M.step make.old made make.new) ((make.new ≡ make.old) × (made ≡ None)) (map string_bytes arguments.now)
        (run_state input.old out.old faults.old (stream_in R.stream made) meter.old)
        (run_state input.new out.new faults.new (stream_in R.stream generator.new) meter.new) }
    ensures prints { (name salt password : List ℕ) → (method : Method) → method_named name ≡ Some method
        → IsNoOption salt → IsNoOption password → map string_bytes arguments.now ≡ hash_arguments name salt password → result ≡ 0
        → PrintsHash method salt password out.old out.new }
{
    match plan(alloc, arguments) {
        Ok(plan) => {
            *generator = generator_for(&plan, make);
            match run_plan(alloc, &plan, input, out, faults, generator, meter, turns) {
                Ok(tally) => tally.status(),
                Err(fault) => report_fault(&fault, faults),
            }
        }
        Err(fault) => show_refusal(alloc, fault, out, faults, turns),
    }
}

// Calls `make` for a generator if the plan needs one, and returns `None` otherwise.
fn generator_for<R: Rng, M: FnMut() -> Option<R>>(plan: &Plan, make: &mut M) -> Option<R>
    requires { M.pre make.old }
    ensures { IsAsked (M.step make.old result make.new) ((make.new ≡ make.old) × (result ≡ None)) (wants_generator plan.now) }
{
    match plan {
        Plan::Methods | Plan::Audit(_) => None,
        Plan::One(..) | Plan::Batch(_) | Plan::Check(_) => make(),
    }
}

// Runs a plan. If the plan needs a generator and there is none, the function does nothing and returns the error
// `Start`.
fn run_plan<I: Read, O: Write, E: Write, R: Rng>(
    alloc: Global,
    plan: &Plan,
    input: &mut Input<I>,
    out: &mut Output<O>,
    faults: &mut Output<E>,
    generator: &mut Option<R>,
    meter: &mut Meter,
    turns: u64,
) -> Result<Tally, Fault>
    requires ready { IsReady turns input.old out.old faults.old meter.old }
    requires unwanted { wants_generator plan.now ≡ false → generator.old ≡ None }
    ensures runs { RunsOrLacks turns (is_some generator.old) plan.now
        (run_state input.old out.old faults.old (stream_in R.stream generator.old) meter.old)
        (run_state input.new out.new faults.new (stream_in R.stream generator.new) meter.new) result }
    ensures fault_room { HasRoomWithinRun faults.new }
{
    match (plan, generator) {
        (Plan::Methods, _) => Ok(run_methods(out, turns)?),
        (Plan::Audit(job), _) => Ok(run_audit(alloc, job, input, out, faults, meter, turns)?),
        (_, None) => Err(Fault::Start),
        (Plan::One(job, from), Some(rng)) => {
            Ok(run_one(alloc, job, from, input, out, faults, rng, meter, turns)?)
        }
        (Plan::Batch(job), Some(rng)) => {
            Ok(run_batch(alloc, job, input, out, faults, rng, meter, turns)?)
        }
        (Plan::Check(job), Some(rng)) => {
            Ok(run_check(alloc, job, input, out, faults, rng, meter, turns)?)
        }
    }
}

// Reports why the arguments make no plan, with `clap`'s message or a line of ours, and returns the exit status.
fn show_refusal<O: Write, E: Write>(
    alloc: Global,
    fault: UsageFault,
    out: &mut Output<O>,
    faults: &mut Output<E>,
    turns: u64,
) -> u8
    requires turns { turns ≤ turns_limit }
    requires out_room { HasRoomWithinRun out.old }
    requires fault_room { HasRoomWithinRun faults.old }
    ensures { RefusalShown fault turns out.old faults.old out.new faults.new result }
{
    match fault {
        UsageFault::Parse(error) => show_error(alloc, &error, out, faults, turns),
        fault => report_fault(&Fault::Usage(fault), faults),
    }
}

// Writes the message of `clap`'s error to the output that `clap` intends for it, and returns the exit status. If a
// message about wrong arguments cannot be written, only the status reports the error.
fn show_error<O: Write, E: Write>(
    alloc: Global,
    error: &clap::Error,
    out: &mut Output<O>,
    faults: &mut Output<E>,
    turns: u64,
) -> u8
    requires turns { turns ≤ turns_limit }
    requires out_room { HasRoomWithinRun out.old }
    requires fault_room { HasRoomWithinRun faults.old }
    ensures { ErrorShown error.now turns out.old faults.old out.new faults.new result }
{
    let Ok(text) = text_of(alloc, error) else {
        return report_fault(&Fault::Usage(UsageFault::OutOfMemory), faults);
    };
    let message = text.as_bytes();
    if error.use_stderr() {
        let _ = show(faults, message, turns);
        return 2;
    }
    let shown = show(out, message, turns);
    match shown {
        Ok(()) => 0,
        Err(fault) => report_fault(&Fault::Run(fault), faults),
    }
}

// Returns the message of `clap`'s error, without the tip to pass an unknown option as a value. If a user followed that
// tip, the command would take a mistyped option for the password.
fn text_of(alloc: Global, error: &clap::Error) -> Result<String, AllocError> {
    let text = format!(in alloc; "{error}")?;
    match text.as_str().split_once("\n  tip: to pass ") {
        Some((front, tip)) => {
            // `clap` puts an empty line before the first tip, and none before the others.
            let front = front.strip_suffix("\n").unwrap_or(front);
            // The last `Usage: ` is `clap`'s own, even if the user's argument, which the tip quotes, contains one.
            let usage = tip
                .rsplit_once("\n\nUsage: ")
                .map_or("", |(_, usage)| usage);
            format!(in alloc; "{front}\n\nUsage: {usage}")
        }
        None => Ok(text),
    }
}

/// Writes the line that reports an error, `mkpasswd: MESSAGE`, to `faults`, flushes it, and returns the exit status.
///
/// The function makes at most as many writes as the line has bytes. If a call fails, only the status reports the error.
/// For `Parse` MESSAGE is empty, because `clap` has the message.
///
/// Precondition: each count of `faults` is at most 2^63, or 2^63 + 2^40 for its calls. Each run leaves its `faults`
/// within these limits.
pub fn report_fault<E: Write>(fault: &Fault, faults: &mut Output<E>) -> u8
    requires room { HasRoomWithinRun faults.old }
    ensures reported { IsReported fault.now faults.old faults.new }
    ensures status { result ≡ (fault_row fault.now).0 }
{
    let line = fault_line(fault);
    let _ = show(faults, line.as_slice(), line.len() as u64);
    fault.status()
}

// Returns the line that reports an error: `mkpasswd: MESSAGE` and a line feed.
fn fault_line(fault: &Fault) -> ArrayVec<u8, FAULT_LINE_ROOM>
    ensures { result.items ≡ fault_line fault.now }
{
    let mut line = ArrayVec::new();
    line.try_extend_from_slice(b"mkpasswd: ").unwrap();
    line.try_extend_from_slice(fault.text().as_bytes()).unwrap();
    line.push(b'\n');
    line
}
