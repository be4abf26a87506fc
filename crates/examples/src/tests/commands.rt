//! Tests of whole commands, with their input and output in memory.

ghost use Rattle.std.specs.Prelude.{◌^◌, ◌≤◌};

use super::{padded, want};
use mkpasswd::command::run_command;
use mkpasswd::options::plan;
use mkpasswd::plan::{PasswordFrom, Plan};
use prims_core::meter::Meter;
use rand::SeedableRng;
use rand::rngs::StdRng;
use run_core::device::{Input, Output};
use std::alloc::Global;
use std::process::Abort;
use std::test::Fail;

// What a command left: its exit status, its output, its messages on standard error, and whether it hashed nothing.
#[derive(Drop)]
pub struct AfterRun {
    status: u8,
    out: Vec<u8>,
    faults: Vec<u8>,
    hashed_nothing: bool,
}

// Runs a command that may make at most `io_call_limit` I/O calls.
fn run_within(
    alloc: Global,
    words: &[&str],
    input: &[u8],
    io_call_limit: u64,
) -> Result<AfterRun, Fail>
    requires { io_call_limit ≤ 2 ^ 40 }
{
    let mut arguments = Vec::new(alloc);
    for word in words {
        arguments.push(String::from_str(alloc, word)?)?;
    }
    let mut out = Output::new(Vec::new(alloc));
    let mut faults = Output::new(Vec::new(alloc));
    let mut generator = None;
    let mut make = || Some(StdRng::seed_from_u64(1));
    let mut meter = Meter::new();
    let status = run_command(
        alloc,
        arguments.as_slice(),
        &mut Input::new(input),
        &mut out,
        &mut faults,
        &mut generator,
        &mut make,
        &mut meter,
        io_call_limit,
    );
    Ok(AfterRun {
        status,
        out: out.into_inner(),
        faults: faults.into_inner(),
        hashed_nothing: meter.digests() == 0 && meter.bytes() == 0 && meter.table() == 0,
    })
}

/// Runs a command with the greatest limit on its I/O calls.
pub fn run(alloc: Global, words: &[&str], input: &[u8]) -> Result<AfterRun, Fail> {
    run_within(alloc, words, input, 1 << 40)
}

impl AfterRun {
    /// Asserts the exit status, the output and the messages on standard error. `what` names the case.
    pub fn want(&self, rt: &impl Abort, what: &str, status: u8, out: &str, faults: &str) {
        let told = (self.status, self.out.as_slice(), self.faults.as_slice());
        want(rt, told, (status, out.as_bytes(), faults.as_bytes()), what);
    }

    /// Asserts that the first line of input was refused with this message, and that the command printed nothing else.
    pub fn want_refused(&self, rt: &impl Abort, alloc: Global, message: &str) -> Result<(), Fail> {
        let faults = format!(in alloc; "mkpasswd: line 1: {message}\n")?;
        self.want(rt, message, 1, "", faults.as_str());
        Ok(())
    }
}

// The arguments and the input of a command, and the status, the output and the messages that it should leave.
type Row<'a> = (&'a [&'a str], &'a str, u8, &'a str, &'a str);

// Asserts that the command of each row leaves what the row says.
fn want_all(rt: &impl Abort, alloc: Global, rows: &[Row]) -> Result<(), Fail> {
    for &(words, input, status, out, faults) in rows {
        let outcome = run(alloc, words, input.as_bytes())?;
        outcome.want(rt, input, status, out, faults);
    }
    Ok(())
}

const BATCH: &[&str] = &["--batch", "-m", "md5crypt", "-S", "xxxxxxxx"];

// The hash of "password", from openssl-passwd(1). `ANN` and `HASHES` are lines of output with this hash.
const HASH: &str = "$1$xxxxxxxx$UYCIxa628.9qXjpQCjM4a.\n";

const ANN: &str = "ann:$1$xxxxxxxx$UYCIxa628.9qXjpQCjM4a.\n";

const HASHES: &str =
    "ann:$1$xxxxxxxx$UYCIxa628.9qXjpQCjM4a.\nbob:$1$xxxxxxxx$UYCIxa628.9qXjpQCjM4a.\n";

// md5crypt's hash comes from openssl-passwd(1), and the others from Drepper's specification and libxcrypt.
#[test]
fn one_password(rt: HostRuntime) -> Result<(), Fail> {
    let rows: &[(&[&str], &str, &str)] = &[
        (&["-m", "md5crypt", "-S", "xxxxxxxx", "password"], "", HASH),
        (&["-m", "md5", "password", "xxxxxxxx"], "", HASH),
        (
            &["-m", "md5crypt", "-S", "xxxxxxxx", "-s"],
            "password\nmore",
            HASH,
        ),
        (
            &["-m", "sha256crypt", "-S", "saltstring", "Hello world!"],
            "",
            "$5$saltstring$5B8vYYiY.CVt1RlTTf8KbXBH3hsxY/GNooZaBBGWEc5\n",
        ),
        (
            &["-R", "10", "-S", "roundstoolow", "-s"],
            "the minimum number is still observed",
            "$6$rounds=1000$roundstoolow$kUMsbe306n21p9R.FRkW3IGn.S9NPN0x50YhH1xhLsPuWGsUSklZt58jaTfF4ZEQpyUNGc0dqbpBYYBaHHrsX.\n",
        ),
        (
            &["-m", "scrypt", "-S", "ab", "x"],
            "",
            "$7$CU..../....ab$TioQ/OazCAbGpb/E7e054xV/7lAamSWFPOGclTgvmt0\n",
        ),
        (
            &["-m", "md5crypt", "-S", "xxxxxxxx", "--work", "password"],
            "",
            "$1$xxxxxxxx$UYCIxa628.9qXjpQCjM4a.:1002:36239:0:0\n",
        ),
        (
            &["-m", "help", "-S", "ab", "x", "cd"],
            "",
            "Available methods:\nmd5crypt\nsha256crypt\nsha512crypt\nscrypt\n",
        ),
    ];
    for &(words, input, out) in rows {
        let outcome = run(rt.alloc(), words, input.as_bytes())?;
        outcome.want(&rt, out, 0, out, "");
    }
    Ok(())
}

// The arguments of a command that hashes one password become a plan for it.
#[test]
fn a_plan(rt: HostRuntime) -> Result<(), Fail> {
    let mut words = Vec::new(rt.alloc());
    for word in ["-m", "md5crypt", "-S", "xxxxxxxx", "password"] {
        words.push(String::from_str(rt.alloc(), word)?)?;
    }
    let planned = plan(rt.alloc(), words.as_slice())?;
    let Plan::One(job, PasswordFrom::Word(password)) = &planned else {
        panic!(rt; "another plan");
    };
    let setting = job.maker.setting([129, 0, 0]).text();
    want(&rt, job.maker.draws(), false, "a given salt");
    want(
        &rt,
        setting.as_slice(),
        b"$1$xxxxxxxx".as_slice(),
        "a setting",
    );
    want(
        &rt,
        password.as_slice(),
        b"password".as_slice(),
        "a password",
    );
    let options = (job.rehash, job.work, job.budget, job.first_line);
    want(&rt, options, (false, false, None, 1), "the other options");
    Ok(())
}

#[test]
fn refused_arguments(rt: HostRuntime) -> Result<(), Fail> {
    const UNKNOWN: &str = "mkpasswd: unknown method\n";
    let rows: &[(&[&str], &str)] = &[
        (&["-m", "sha1", "x"], UNKNOWN),
        (&["-m", "sha1", "-S", "ab", "x"], UNKNOWN),
        (&["-m", "sha1", "-S", "ab", "x", "cd"], UNKNOWN),
        (&["-S", "ab", "x", "cd"], "mkpasswd: two salts\n"),
        (&["--batch", "--check"], "mkpasswd: two modes\n"),
        (&["-s", "x"], "mkpasswd: two modes\n"),
        (
            &["-m", "md5", "-S", "123456789", "x"],
            "mkpasswd: salt length\n",
        ),
        (
            &["-m", "md5", "-S", "a-b", "x"],
            "mkpasswd: salt character\n",
        ),
        (&["-m", "scrypt", "-R", "12", "x"], "mkpasswd: cost\n"),
    ];
    for &(words, message) in rows {
        let outcome = run(rt.alloc(), words, b"")?;
        outcome.want(&rt, message, 2, "", message);
    }
    Ok(())
}

#[test]
fn lines_to_hash(rt: HostRuntime) -> Result<(), Fail> {
    const NO_NAME: &str = "mkpasswd: line 2: no name\n";
    const COUNTED: &[&str] = &["--batch", "--work", "-m", "md5crypt", "-S", "xxxxxxxx"];
    let rows: &[Row] = &[
        (BATCH, "ann:password\n:x\nbob:password", 1, HASHES, NO_NAME),
        (
            BATCH,
            "ann:password\n:x\nbob:password\n",
            1,
            HASHES,
            NO_NAME,
        ),
        (BATCH, "ann:password\n\n", 1, ANN, NO_NAME),
        (BATCH, "ann:password\n", 0, ANN, ""),
        (BATCH, "", 0, "", ""),
        (
            BATCH,
            "a\0b:password",
            0,
            "a\0b:$1$xxxxxxxx$UYCIxa628.9qXjpQCjM4a.\n",
            "",
        ),
        (
            COUNTED,
            "ann:password\nann:password\n",
            0,
            "ann:$1$xxxxxxxx$UYCIxa628.9qXjpQCjM4a.:1002:36239:0:0\nann:$1$xxxxxxxx$UYCIxa628.9qXjpQCjM4a.:1002:36239:0:0\n",
            "",
        ),
    ];
    want_all(&rt, rt.alloc(), rows)
}

#[test]
fn lines_to_check(rt: HostRuntime) -> Result<(), Fail> {
    const CHECK: &[&str] = &["--check"];
    const COUNTED: &[&str] = &["--check", "--work"];
    const REHASH: &[&str] = &["--check", "--rehash"];
    let rows: &[Row] = &[
        (
            COUNTED,
            "ann:$1$xxxxxxxx$UYCIxa628.9qXjpQCjM4a.:password",
            0,
            "ann:ok:1002:36239:0:0\n",
            "",
        ),
        (
            COUNTED,
            "s:$7$2/..../....$rNxJWVHNv/mCNcgE/f6/L4zO6Fos5c2uTzhyzoisI62:",
            0,
            "s:ok:10:948:32:2048\n",
            "",
        ),
        (
            CHECK,
            "b:!:x\nc::x\nd:$1$xxxxxxxx$UYCIxa628.9qXjpQCjM4a.:Password\ne\n",
            1,
            "b:locked\nc:none\nd:no\n",
            "mkpasswd: line 4: no password field\n",
        ),
        (CHECK, "b:!:x\nc::x\n", 0, "b:locked\nc:none\n", ""),
        (
            COUNTED,
            "b:!:x\nc::x\n",
            0,
            "b:locked:0:0:0:0\nc:none:0:0:0:0\n",
            "",
        ),
        (
            CHECK,
            "a:$6$rounds=10$roundstoolow$kUMsbe306n21p9R.FRkW3IGn.S9NPN0x50YhH1xhLsPuWGsUSklZt58jaTfF4ZEQpyUNGc0dqbpBYYBaHHrsX.:the minimum number is still observed",
            1,
            "a:no\n",
            "",
        ),
        (
            REHASH,
            "a:$6$rounds=5000$toolongsaltstrin$lQ8jolhgVRVhY4b5pZKaysCLi0QBxGoNeKQzQ3glMhwllF7oGDZxUhx1yxdYcz/e1JSbq3y6JMxxl8audkUEm0:This is just a test",
            0,
            "a:ok\n",
            "",
        ),
        (
            &[
                "--check",
                "--rehash",
                "-R",
                "10000",
                "-S",
                "saltstringsaltst",
            ],
            "a:$5$saltstring$5B8vYYiY.CVt1RlTTf8KbXBH3hsxY/GNooZaBBGWEc5:Hello world!",
            0,
            "a:ok:$6$rounds=10000$saltstringsaltst$OW1/O6BYHV6BcXZu8QVeXbDWra3Oeqh0sbHbbMCVNSnCM/UrjmM0Dp8vOuZeHBy/YTBmSK6H9qs/y3RnOaw5v.\n",
            "",
        ),
        (
            &[
                "--check",
                "--rehash",
                "--work",
                "-R",
                "10000",
                "-S",
                "saltstringsaltst",
            ],
            "a:$5$saltstring$5B8vYYiY.CVt1RlTTf8KbXBH3hsxY/GNooZaBBGWEc5:Hello world!",
            0,
            "a:ok:$6$rounds=10000$saltstringsaltst$OW1/O6BYHV6BcXZu8QVeXbDWra3Oeqh0sbHbbMCVNSnCM/UrjmM0Dp8vOuZeHBy/YTBmSK6H9qs/y3RnOaw5v.:15008:1279200:0:0\n",
            "",
        ),
        (
            &[
                "--check", "--rehash", "--work", "-m", "md5crypt", "-S", "xxxxxxxx",
            ],
            "z:$7$86....E....NaCl$xffjQo7Bm/.SKRS4B2EuynbOLjAmXU5AbDbRXhoBl64:password",
            0,
            "z:ok:$1$xxxxxxxx$UYCIxa628.9qXjpQCjM4a.:2028:138803:32768:1048576\n",
            "",
        ),
    ];
    want_all(&rt, rt.alloc(), rows)
}

// A line that can cost more than the budget is refused, and nothing is hashed. With `--rehash`, the budget must cover
// both the check and the new hash: here 33656996 and 36239, together 33693235.
#[test]
fn budgets(rt: HostRuntime) -> Result<(), Fail> {
    const ANN_LINE: &str = "ann:$1$xxxxxxxx$UYCIxa628.9qXjpQCjM4a.:password";
    const S: &str = "s:$7$2/..../....$rNxJWVHNv/mCNcgE/f6/L4zO6Fos5c2uTzhyzoisI62:";
    const Z: &str = "z:$7$86....E....NaCl$xffjQo7Bm/.SKRS4B2EuynbOLjAmXU5AbDbRXhoBl64:password";
    const WRONG: &str = "z:$7$86....E....NaCl$xffjQo7Bm/.SKRS4B2EuynbOLjAmXU5AbDbRXhoBl64:Password";
    const TOO_LITTLE: &[&str] = &[
        "--check", "--rehash", "--work", "-m", "md5crypt", "-S", "xxxxxxxx", "--budget", "33693234",
    ];
    const ENOUGH: &[&str] = &[
        "--check", "--rehash", "--work", "-m", "md5crypt", "-S", "xxxxxxxx", "--budget", "33693235",
    ];
    let rows: &[(&[&str], &str, u8, &str)] = &[
        (&["--check", "--budget", "36238"], ANN_LINE, 1, ""),
        (&["--check", "--budget", "36239"], ANN_LINE, 0, "ann:ok\n"),
        (&["--check", "--budget", "5043"], S, 1, ""),
        (&["--check", "--budget", "5044"], S, 0, "s:ok\n"),
        (&["--check", "--budget", "0"], "b:!:x", 0, "b:locked\n"),
        (
            &["--batch", "-m", "md5crypt", "--budget", "36238"],
            "ann:password",
            1,
            "",
        ),
        (TOO_LITTLE, Z, 1, ""),
        (
            ENOUGH,
            Z,
            0,
            "z:ok:$1$xxxxxxxx$UYCIxa628.9qXjpQCjM4a.:2028:138803:32768:1048576\n",
        ),
        (TOO_LITTLE, WRONG, 1, ""),
        (ENOUGH, WRONG, 1, "z:no:1026:102564:32768:1048576\n"),
    ];
    for &(words, input, status, out) in rows {
        let outcome = run(rt.alloc(), words, input.as_bytes())?;
        let faults = if out.is_empty() {
            "mkpasswd: line 1: over budget\n"
        } else {
            ""
        };
        outcome.want(&rt, input, status, out, faults);
        let hashed_nothing = out.is_empty() || out == "b:locked\n";
        want(&rt, outcome.hashed_nothing, hashed_nothing, input);
    }
    Ok(())
}

// Lines of the greatest length and longer ones, and a password of one byte too many. The lines have no colon, so each
// has a name that is too long, but the length of the line is checked first.
#[test]
fn long_inputs(rt: HostRuntime) -> Result<(), Fail> {
    const ONE: &[&str] = &["-s"];
    const LONG_LINE: &str = "mkpasswd: line 1: line too long\n";
    const LONG_NAME: &str = "mkpasswd: line 1: name too long\n";
    let rows: &[(&[&str], usize, &str, u8, &str, &str)] = &[
        (BATCH, 2048, "\nann:password", 1, ANN, LONG_NAME),
        (BATCH, 2049, "\nann:password", 1, ANN, LONG_LINE),
        (BATCH, 1_048_576, "\nann:password", 1, ANN, LONG_LINE),
        (ONE, 1025, "", 2, "", "mkpasswd: password too long\n"),
    ];
    for &(words, count, back, status, out, faults) in rows {
        let input = padded(rt.alloc(), b"", b'a', count, back.as_bytes())?;
        let outcome = run(rt.alloc(), words, input.as_slice())?;
        outcome.want(&rt, faults, status, out, faults);
    }
    Ok(())
}

// Passwords of up to 1,024 bytes are hashed. The salt is random, so only the form of the hash is known.
#[test]
fn a_long_password(rt: HostRuntime) -> Result<(), Fail> {
    for count in [512, 1024] {
        let input = padded(rt.alloc(), b"", b'a', count, b"\nb")?;
        let outcome = run(rt.alloc(), &["-s"], input.as_slice())?;
        let out = outcome.out.as_slice();
        assert_eq!(rt;
            (
                outcome.status,
                out.len(),
                out.starts_with(b"$6$"),
                out.ends_with(b"\n")
            ),
            (0, 107, true, true)
        );
        assert_eq!(rt; outcome.faults.as_slice(), b"".as_slice());
    }
    Ok(())
}

// A command that needs more I/O calls than it may make ends with status 3.
#[test]
fn io_call_limits(rt: HostRuntime) -> Result<(), Fail> {
    const ONE: &[&str] = &["-m", "md5crypt", "-S", "xxxxxxxx", "password"];
    const NONE: &str = "mkpasswd: too many turns\n";
    let rows: &[(&[&str], &str, u64, u8, &str, &str)] = &[
        (BATCH, "ann:password", 0, 3, "", NONE),
        (BATCH, "", 0, 3, "", NONE),
        (BATCH, "", 1, 0, "", ""),
        (ONE, "", 0, 3, "", NONE),
        (ONE, "", 1, 0, HASH, ""),
    ];
    for &(words, input, io_call_limit, status, out, faults) in rows {
        // The prover needs a bound: `run_within` requires at most 2^40 I/O calls.
        assert!(rt; io_call_limit <= 1);
        let outcome = run_within(rt.alloc(), words, input.as_bytes(), io_call_limit)?;
        outcome.want(&rt, input, status, out, faults);
    }
    Ok(())
}
