//! Tests each device call of a run with its number of bytes, and that a run makes no call after a failed one.

use super::*;
use crate::test_devices::Call;
use std::alloc::AllocError;

#[derive(Clone, Copy, PartialEq, Eq)]
enum Device {
    Input,
    Output,
    Faults,
}

type Step = (Device, Call);

// A run, with the device calls that it makes if none fails, in order.
#[derive(Clone, Copy)]
struct Listed<'a> {
    asked: Asked<'a>,
    input: &'a [u8],
    /// The greatest number of bytes that a read returns, and that a write takes.
    by: (usize, usize),
    steps: &'a [Step],
    outcome: Outcome,
    out: &'a str,
    faults: &'a str,
}

fn read(asked: usize, gave: usize) -> Step {
    (Device::Input, Call::Moved(asked, gave))
}

fn write(len: usize, took: usize) -> Step {
    (Device::Output, Call::Moved(len, took))
}

// A write of a message about a refused line.
fn tell(len: usize, took: usize) -> Step {
    (Device::Faults, Call::Moved(len, took))
}

const FLUSH: Step = (Device::Output, Call::Flushed);

const FLUSH_FAULTS: Step = (Device::Faults, Call::Flushed);

// Returns the calls of one device if the step after the first `whole` steps fails. If there is no such step, no call
// fails.
fn calls_of(
    alloc: Global,
    steps: &[Step],
    whole: usize,
    device: Device,
) -> Result<Vec<Call>, AllocError> {
    let mut calls = Vec::new(alloc);
    for (number, (of, call)) in steps.iter().enumerate() {
        if *of == device && number <= whole {
            calls.push(if number < whole { *call } else { Call::Failed })?;
        }
    }
    Ok(calls)
}

// Returns the front of the text that these calls have written.
fn taken_of<'a>(text: &'a str, calls: &[Call]) -> &'a [u8] {
    let mut taken = 0usize;
    for call in calls {
        if let Call::Moved(_, count) = call {
            taken = taken.saturating_add(*count);
        }
    }
    text.as_bytes().get(..taken).unwrap_or(text.as_bytes())
}

// Asserts what the run does if one of its steps fails, for each step, and if no step fails.
fn want_steps(rt: &impl Abort, alloc: Global, what: &str, listed: Listed<'_>) -> Result<(), Fail> {
    let steps = listed.steps;
    for whole in 0..steps.len() + 1 {
        let reads = calls_of(alloc, steps, whole, Device::Input)?;
        let writes = calls_of(alloc, steps, whole, Device::Output)?;
        let told = calls_of(alloc, steps, whole, Device::Faults)?;
        let mut given = devices(rt, alloc, listed.input, listed.by);
        let mut outcome = listed.outcome;
        if let Some((device, _)) = steps.get(whole) {
            outcome = Err("write fault");
            match device {
                Device::Input => {
                    outcome = Err("read fault");
                    given.reader = given.reader.failing_at(reads.len());
                }
                Device::Output => given.out = given.out.failing_at(writes.len()),
                Device::Faults => given.faults = given.faults.failing_at(told.len()),
            }
        }
        let left = left_by(rt, alloc, listed.asked, given)?;
        assert_eq!(rt;
            (left.reader.calls(), left.out.calls(), left.faults.calls()),
            (reads.as_slice(), writes.as_slice(), told.as_slice()),
            "{what}: the calls where step {whole} fails"
        );
        let out = taken_of(listed.out, writes.as_slice());
        left.want(
            rt,
            what,
            outcome,
            out,
            taken_of(listed.faults, told.as_slice()),
        );
    }
    Ok(())
}

#[test]
fn calls_in_order_over_lines(rt: HostRuntime) -> Result<(), Fail> {
    let batch = Listed {
        asked: BATCH,
        input: b"ann:password\n:x\nbob:password",
        by: (14, 20),
        steps: &[
            read(512, 14),
            write(39, 20),
            write(19, 19),
            read(512, 14),
            tell(26, 20),
            tell(6, 6),
            read(512, 0),
            write(39, 20),
            write(19, 19),
            FLUSH,
            FLUSH_FAULTS,
        ],
        outcome: Ok((3, 1, 0)),
        out: HASHES,
        faults: NO_NAME,
    };
    let check = Listed {
        asked: CHECK,
        input: b"b:!:x\nc::x\nd:$1$xxxxxxxx$UYCIxa628.9qXjpQCjM4a.:Password\ne\n",
        by: (ALL, ALL),
        steps: &[
            read(512, 59),
            write(9, 9),
            write(7, 7),
            write(5, 5),
            tell(36, 36),
            read(512, 0),
            FLUSH,
            FLUSH_FAULTS,
        ],
        outcome: Ok((4, 1, 1)),
        out: "b:locked\nc:none\nd:no\n",
        faults: "mkpasswd: line 4: no password field\n",
    };
    let audit = Listed {
        asked: AUDIT,
        input: b"b:!:x\nd:$1$xxxxxxxx$UYCIxa628.9qXjpQCjM4a.:19000\nc:\n:x\nu:$y$j9T$a$b",
        steps: &[
            read(512, 67),
            write(9, 9),
            write(32, 32),
            write(7, 7),
            tell(26, 26),
            read(512, 0),
            write(19, 19),
            FLUSH,
            FLUSH_FAULTS,
        ],
        outcome: Ok((5, 1, 1)),
        out: "b:locked\nd:md5crypt:1000:1927022:current\nc:none\nu:yescrypt:unknown\n",
        faults: "mkpasswd: line 4: no name\n",
        ..check
    };
    let rows = [("a batch", batch), ("a check", check), ("an audit", audit)];
    for (what, listed) in rows {
        want_steps(&rt, rt.alloc(), what, listed)?;
    }
    Ok(())
}

// A run whose password is an argument reads nothing. A run that reads its password asks each time for as many bytes as
// are missing from 1,025.
#[test]
fn calls_in_order_for_one_password(rt: HostRuntime) -> Result<(), Fail> {
    let by_word = Listed {
        asked: BY_WORD,
        input: b"",
        by: (ALL, ALL),
        steps: &[write(35, 35), FLUSH, FLUSH_FAULTS],
        outcome: Ok((1, 0, 0)),
        out: HASH,
        faults: "",
    };
    let by_input = Listed {
        asked: BY_INPUT,
        input: b"password\nmore",
        steps: &[read(1025, 13), write(35, 35), FLUSH, FLUSH_FAULTS],
        ..by_word
    };
    let rows = [
        ("a word", by_word),
        (
            "a word in parts",
            Listed {
                by: (ALL, 10),
                steps: &[
                    write(35, 10),
                    write(25, 10),
                    write(15, 10),
                    write(5, 5),
                    FLUSH,
                    FLUSH_FAULTS,
                ],
                ..by_word
            },
        ),
        ("a line", by_input),
        (
            "a line without a line feed",
            Listed {
                input: b"password",
                steps: &[
                    read(1025, 8),
                    read(1017, 0),
                    write(35, 35),
                    FLUSH,
                    FLUSH_FAULTS,
                ],
                ..by_input
            },
        ),
        (
            "a line in parts",
            Listed {
                by: (4, ALL),
                steps: &[
                    read(1025, 4),
                    read(1021, 4),
                    read(1017, 4),
                    write(35, 35),
                    FLUSH,
                    FLUSH_FAULTS,
                ],
                ..by_input
            },
        ),
        (
            "a long line",
            Listed {
                input: &[b'a'; 1025],
                by: (300, ALL),
                steps: &[
                    read(1025, 300),
                    read(725, 300),
                    read(425, 300),
                    read(125, 125),
                ],
                outcome: TOO_LONG,
                ..by_input
            },
        ),
        (
            "the methods",
            Listed {
                asked: Asked {
                    run: Run::Methods,
                    ..BATCH
                },
                by: (ALL, 25),
                steps: &[write(59, 25), write(34, 25), write(9, 9), FLUSH],
                outcome: Ok((0, 0, 0)),
                out: "Available methods:\nmd5crypt\nsha256crypt\nsha512crypt\nscrypt\n",
                ..by_word
            },
        ),
    ];
    for (what, listed) in rows {
        want_steps(&rt, rt.alloc(), what, listed)?;
    }
    Ok(())
}

const INPUT: &[u8] = b"ann:password\n:x\nbob:password\n";

// If each read returns one byte, every line that was read before a failure is answered. The lines of `INPUT` end after
// 13, 16 and 29 bytes. The run makes 30 reads, so none fails if the failure is set for read 31.
#[test]
fn answers_what_was_read(rt: HostRuntime) -> Result<(), Fail> {
    for call in 1..32 {
        let mut given = devices(&rt, rt.alloc(), INPUT, (1, ALL));
        given.reader = given.reader.failing_at(call);
        let (out, faults) = match call {
            0..=13 => ("", ""),
            14..=16 => (ANN, ""),
            17..=29 => (ANN, NO_NAME),
            _ => (HASHES, NO_NAME),
        };
        let outcome = if call < 31 {
            Err("read fault")
        } else {
            Ok((3, 1, 0))
        };
        let left = left_by(&rt, rt.alloc(), BATCH, given)?;
        left.want(&rt, "a read", outcome, out.as_bytes(), faults.as_bytes());
    }
    let mut given = devices(&rt, rt.alloc(), b"ann:password\nbob:pa", (ALL, ALL));
    given.reader = given.reader.failing_at(2);
    let left = left_by(&rt, rt.alloc(), BATCH, given)?;
    left.want(&rt, "a part", Err("read fault"), ANN.as_bytes(), b"");
    Ok(())
}

// If each write takes one byte, every byte before the failure is written. Each line of `HASHES` has 39 bytes.
#[test]
fn writes_up_to_the_failure(rt: HostRuntime) -> Result<(), Fail> {
    for taken in 0..78usize {
        let mut given = devices(&rt, rt.alloc(), INPUT, (ALL, 1));
        given.out = given.out.failing_at(taken + 1);
        let out = HASHES.as_bytes().get(..taken).unwrap_or(b"");
        let faults: &str = if taken < 39 { "" } else { NO_NAME };
        let left = left_by(&rt, rt.alloc(), BATCH, given)?;
        left.want(&rt, "a write", Err("write fault"), out, faults.as_bytes());
    }
    Ok(())
}
