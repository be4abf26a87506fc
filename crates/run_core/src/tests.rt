//! Tests runs on devices in memory: which calls they make, what they leave after each failure or when no I/O call is
//! left, and what they draw and count. What the built program shows too is tested in the repository's `tests`.
ghost use Rattle.std.specs.Prelude.{◌≡◌, ℕ, ◌^◌, ◌≤◌, List, ◌++◌, Some, OnOk};
ghost use Rattle.prims_core.specs.Work.{IsAtMost};
ghost use Rattle.run_core.specs.Answers.{Answer, fault_texts, texts};
ghost use Rattle.run_core.specs.LineAnswers.{AreAnswers};
ghost use Rattle.run_core.specs.LineRuns.{lines_of};
ghost use Rattle.run_core.specs.declared.line.Kind.TheVariants.{Batch};

mod calls;
mod pieces;

use crate::device::{Input, Output};
use crate::fault::RunFault;
use crate::job::{Job, Maker, PasswordFrom};
use crate::line::LINE_LIMIT;
use crate::lines::{run_audit, run_batch, run_check};
use crate::methods::run_methods;
use crate::one::run_one;
use crate::reader::buffer::LineBuffer;
use crate::tally::Tally;
use crate::test_devices::{ALL, ListedWords, MemoryReader, MemoryWriter};
use crypt_core::method::Method;
use prims_core::meter::Meter;
use rand_core::Rng;
use std::alloc::Global;
use std::mem::size_of;
use std::process::Abort;
use std::test::Fail;

// A run holds one line, in a buffer only slightly larger than the longest line.
const _: () = prove!(size_of::<LineBuffer>() <= LINE_LIMIT + 16);

const _: () = prove!(LINE_LIMIT == 2048);

#[derive(Clone, Copy)]
enum Run<'a> {
    Methods,
    Word(&'a [u8]),
    Input,
    Batch,
    Check,
    Audit,
}

// A kind of run, with the options of its job.
#[derive(Clone, Copy)]
struct Asked<'a> {
    run: Run<'a>,
    method: Method,
    cost: u32,
    salt: Option<&'a [u8]>,
    rehash: bool,
    work: bool,
    budget: Option<u64>,
}

const BATCH: Asked<'static> = Asked {
    run: Run::Batch,
    method: Method::Md5crypt,
    cost: 0,
    salt: Some(b"xxxxxxxx"),
    rehash: false,
    work: false,
    budget: None,
};

const CHECK: Asked<'static> = Asked {
    run: Run::Check,
    ..BATCH
};

const AUDIT: Asked<'static> = Asked {
    run: Run::Audit,
    ..BATCH
};

const BY_WORD: Asked<'static> = Asked {
    run: Run::Word(b"password"),
    ..BATCH
};

const BY_INPUT: Asked<'static> = Asked {
    run: Run::Input,
    ..BATCH
};

// The hash of "password" from openssl-passwd(1), and below it the lines in which answers show this hash.
const HASH: &str = "$1$xxxxxxxx$UYCIxa628.9qXjpQCjM4a.\n";

const ANN: &str = "ann:$1$xxxxxxxx$UYCIxa628.9qXjpQCjM4a.\n";

const HASHES: &str =
    "ann:$1$xxxxxxxx$UYCIxa628.9qXjpQCjM4a.\nbob:$1$xxxxxxxx$UYCIxa628.9qXjpQCjM4a.\n";

const NO_NAME: &str = "mkpasswd: line 2: no name\n";

// The counts of a tally (lines, refused lines, verdicts `no` and accounts that need care), or the message of the error.
type Outcome = Result<(u64, u64, u64), &'static str>;

const TURNS: Outcome = Err("too many turns");

const TOO_LONG: Outcome = Err("password too long");

const HAS_NUL: Outcome = Err("password has a zero byte");

// The devices of a run, and its limit on I/O calls.
#[derive(Drop)]
struct Given<'a> {
    reader: MemoryReader<'a>,
    out: MemoryWriter,
    faults: MemoryWriter,
    turns: u64,
}

// Returns devices that move at most `reads` bytes a read and `writes` bytes a write.
fn devices<'a>(
    rt: &impl Abort,
    alloc: Global,
    input: &'a [u8],
    (reads, writes): (usize, usize),
) -> Given<'a> {
    // The prover needs this bound, which `MemoryReader::new` requires.
    assert!(rt; reads > 0);
    Given {
        reader: MemoryReader::new(alloc, input, reads),
        out: MemoryWriter::new(alloc, writes),
        faults: MemoryWriter::new(alloc, writes),
        turns: 1 << 40,
    }
}

// The outcome of a run, and its devices: `out`, `faults` and the input.
type Ran<'a> = (
    Result<Tally, RunFault>,
    MemoryWriter,
    MemoryWriter,
    MemoryReader<'a>,
);

// Calls `run_batch`. If it returns a tally, and the reader does not repeat its bytes, the outputs have gained exactly
// the answers to all lines of the input. The prover derives that from the clauses of `run_batch` alone.
fn run_batch_on<'a, R: Rng>(
    alloc: Global,
    job: &Job,
    given: Given<'a>,
    rng: &mut R,
    meter: &mut Meter,
) -> Ran<'a>
    requires { (given.turns ≤ 2 ^ 40) × IsAtMost meter.old (2 ^ 100) }
    ensures { OnOk result.0 ((bytes : List ℕ) → given.entry.reader ≡ Some bytes
        → (answers : List Answer) × AreAnswers Batch job.now job.now.first_line (lines_of bytes) (R.stream rng.old) answers
        × (result.1.taken.items ≡ given.entry.out.taken.items ++ texts answers)
        × (result.2.taken.items ≡ given.entry.faults.taken.items ++ fault_texts answers)) }
{
    let mut input = Input::new(given.reader);
    let mut out = Output::new(given.out);
    let mut faults = Output::new(given.faults);
    let outcome = run_batch(
        alloc,
        job,
        &mut input,
        &mut out,
        &mut faults,
        rng,
        meter,
        given.turns,
    );
    (
        outcome,
        out.into_inner(),
        faults.into_inner(),
        input.into_inner(),
    )
}

fn run_on<'a>(
    alloc: Global,
    run: Run<'_>,
    job: &Job,
    given: Given<'a>,
    rng: &mut ListedWords<'_>,
    meter: &mut Meter,
) -> Result<Ran<'a>, Fail>
    requires { (given.turns ≤ 2 ^ 40) × IsAtMost meter.old (2 ^ 100) }
{
    let turns = given.turns;
    let from = match run {
        Run::Batch => return Ok(run_batch_on(alloc, job, given, rng, meter)),
        Run::Word(bytes) => PasswordFrom::Word(Vec::from_slice(alloc, bytes)?),
        _ => PasswordFrom::Input,
    };
    let mut input = Input::new(given.reader);
    let mut out = Output::new(given.out);
    let mut faults = Output::new(given.faults);
    let outcome = {
        let (input, out, faults) = (&mut input, &mut out, &mut faults);
        match run {
            Run::Methods => run_methods(out, turns),
            Run::Check => run_check(alloc, job, input, out, faults, rng, meter, turns),
            Run::Audit => run_audit(alloc, job, input, out, faults, meter, turns),
            _ => run_one(alloc, job, &from, input, out, faults, rng, meter, turns),
        }
    };
    Ok((
        outcome,
        out.into_inner(),
        faults.into_inner(),
        input.into_inner(),
    ))
}

// What a run leaves: its outcome, its devices, the next random number and the meter.
#[derive(Drop)]
struct Left<'a> {
    outcome: Outcome,
    out: MemoryWriter,
    faults: MemoryWriter,
    reader: MemoryReader<'a>,
    next_word: u64,
    meter: Meter,
}

// Runs with random numbers for two salts: 129, 0 and 0 give one that begins with `/0`, and 130, 0 and 0 one that begins
// with `00`. The next number is 7 once both salts have been made.
fn left_by<'a>(
    rt: &impl Abort,
    alloc: Global,
    asked: Asked<'_>,
    given: Given<'a>,
) -> Result<Left<'a>, Fail> {
    // The prover needs this bound, which `run_on` requires.
    assert!(rt; given.turns <= 1 << 40);
    let Ok(maker) = Maker::new(asked.method, asked.cost, asked.salt) else {
        panic!(rt; "no setting");
    };
    let job = Job {
        maker,
        rehash: asked.rehash,
        work: asked.work,
        budget: asked.budget,
        first_line: 1,
    };
    let mut rng = ListedWords::new(&[129, 0, 0, 130, 0, 0, 7]);
    let mut meter = Meter::new();
    let (outcome, out, faults, reader) = run_on(
        alloc, asked.run, &job, given, &mut rng, &mut meter,
    )?;
    let outcome = match outcome {
        Ok(tally) => Ok((tally.lines, tally.refused, tally.misfits)),
        Err(fault) => Err(fault.text()),
    };
    Ok(Left {
        outcome,
        out,
        faults,
        reader,
        next_word: rng.next_u64(),
        meter,
    })
}

impl Left<'_> {
    // Asserts the outcome and the contents of both outputs.
    fn want(&self, rt: &impl Abort, what: &str, outcome: Outcome, out: &[u8], faults: &[u8]) {
        assert_eq!(rt;
            (self.outcome, self.out.taken(), self.faults.taken()),
            (outcome, out, faults),
            "{what}"
        );
    }
}

// Returns the same run, with a new salt for each hash.
fn salting(asked: Asked<'_>) -> Asked<'_> {
    Asked {
        salt: None,
        ..asked
    }
}

// Returns the same run, with a budget.
fn within(asked: Asked<'_>, budget: u64) -> Asked<'_> {
    Asked {
        budget: Some(budget),
        ..asked
    }
}

// Random numbers are drawn and work is counted only for a password that is hashed. The expected hashes come from
// Drepper's specification and from libxcrypt.
#[test]
fn draws_and_counts(rt: HostRuntime) -> Result<(), Fail> {
    let rehash = Asked {
        rehash: true,
        ..CHECK
    };
    let default = Asked {
        method: Method::Sha512crypt,
        ..salting(rehash)
    };
    let anew = Asked {
        method: Method::Sha256crypt,
        cost: 1000,
        ..salting(rehash)
    };
    let audit = Asked {
        run: Run::Audit,
        ..within(salting(CHECK), 1927021)
    };
    let over = "mkpasswd: line 1: over budget\n";
    // In each row: the run, its input and outcome, both outputs, the next random number, and the number of digests. The
    // meter's counts of bytes, mixes and table must all be 0 exactly if no digest was computed. Each budget is one less
    // than the cost of its line or of its first field.
    let rows: [(Asked<'_>, &str, Outcome, &str, &str, u64, u128); 10] = [
        (
            salting(BATCH),
            "ann:password\n:x\nbob:password\n",
            Ok((3, 1, 0)),
            "ann:$1$/0......$2QlZKnFqVuhWmzlYGl.px0\nbob:$1$00......$rv7ToD.7n.3crvqZikurX.\n",
            NO_NAME,
            7,
            2004,
        ),
        (
            salting(BY_WORD),
            "",
            Ok((1, 0, 0)),
            "$1$/0......$2QlZKnFqVuhWmzlYGl.px0\n",
            "",
            130,
            1002,
        ),
        (salting(BY_INPUT), "a\0b\n", HAS_NUL, "", "", 129, 0),
        (
            Asked {
                run: Run::Word(&[b'a'; 1025]),
                ..salting(BY_WORD)
            },
            "",
            TOO_LONG,
            "",
            "",
            129,
            0,
        ),
        (
            within(salting(BATCH), 36238),
            "ann:password",
            Ok((1, 1, 0)),
            "",
            over,
            129,
            0,
        ),
        (
            within(CHECK, 36238),
            "ann:$1$xxxxxxxx$UYCIxa628.9qXjpQCjM4a.:password",
            Ok((1, 1, 0)),
            "",
            over,
            129,
            0,
        ),
        (
            within(rehash, 33693234),
            "z:$7$86....E....NaCl$xffjQo7Bm/.SKRS4B2EuynbOLjAmXU5AbDbRXhoBl64:password",
            Ok((1, 1, 0)),
            "",
            over,
            129,
            0,
        ),
        (
            audit,
            "ann:$1$xxxxxxxx$UYCIxa628.9qXjpQCjM4a.\nbob:$6$rounds=0$a:x\n",
            Ok((2, 0, 2)),
            "ann:md5crypt:1000:1927022:over budget\nbob:malformed:bad rounds\n",
            "",
            129,
            0,
        ),
        (
            default,
            "b:$6$rounds=5000$toolongsaltstrin$lQ8jolhgVRVhY4b5pZKaysCLi0QBxGoNeKQzQ3glMhwllF7oGDZxUhx1yxdYcz/e1JSbq3y6JMxxl8audkUEm0:This is just a test",
            Ok((1, 0, 0)),
            "b:ok\n",
            "",
            129,
            5004,
        ),
        (
            anew,
            "c::x\nann:$1$xxxxxxxx$UYCIxa628.9qXjpQCjM4a.:password\nd:$1$xxxxxxxx$UYCIxa628.9qXjpQCjM4a.:Password\nbob:$1$xxxxxxxx$UYCIxa628.9qXjpQCjM4a.:password\n:x\n",
            Ok((5, 1, 1)),
            "c:none\nann:ok:$5$rounds=1000$/0..............$LToiiOYiTjnU4dSWPuOjf.8kEA3t0/p3gbM3ILISlHA\nd:no\nbob:ok:$5$rounds=1000$00..............$fDADscrllT/QOBSafilgJDKecoOgUEoLn1.AWAn/bZ4\n",
            "mkpasswd: line 5: no name\n",
            7,
            5014,
        ),
    ];
    for (asked, input, outcome, out, faults, next_word, digests) in rows {
        let given = devices(&rt, rt.alloc(), input.as_bytes(), (ALL, ALL));
        let left = left_by(&rt, rt.alloc(), asked, given)?;
        left.want(&rt, input, outcome, out.as_bytes(), faults.as_bytes());
        let work = [left.meter.bytes(), left.meter.mixes(), left.meter.table()];
        assert_eq!(rt;
            (left.next_word, left.meter.digests(), work == [0; 3]),
            (next_word, digests, digests == 0),
            "{input}"
        );
    }
    Ok(())
}
