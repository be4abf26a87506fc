//! Tests inputs that come in pieces, and the limit on I/O calls.

use super::*;

// The answers are the same, whatever pieces the input comes in.
#[test]
fn answers_any_pieces_alike(rt: HostRuntime) -> Result<(), Fail> {
    let counted = Asked {
        work: true,
        ..CHECK
    };
    let ann_and_bob = "ann:password\n:x\nbob:password";
    let ended = "ann:password\n:x\nbob:password\n";
    let checked = "b:!:x\nc::x\nd:$1$xxxxxxxx$UYCIxa628.9qXjpQCjM4a.:Password\ne\n";
    let verdicts = "b:locked:0:0:0:0\nc:none:0:0:0:0\nd:no:1002:36239:0:0\n";
    let no_password = "mkpasswd: line 4: no password field\n";
    let rows: [(Asked<'_>, &str, Outcome, &str, &str); 7] = [
        (BATCH, "", Ok((0, 0, 0)), "", ""),
        (BATCH, ann_and_bob, Ok((3, 1, 0)), HASHES, NO_NAME),
        (BATCH, ended, Ok((3, 1, 0)), HASHES, NO_NAME),
        (counted, checked, Ok((4, 1, 1)), verdicts, no_password),
        (BY_INPUT, "password", Ok((1, 0, 0)), HASH, ""),
        (BY_INPUT, "password\n", Ok((1, 0, 0)), HASH, ""),
        (BY_INPUT, "password\nmore\0", Ok((1, 0, 0)), HASH, ""),
    ];
    for (asked, input, outcome, out, faults) in rows {
        for most in [1, 7] {
            let given = devices(&rt, rt.alloc(), input.as_bytes(), (most, most));
            let left = left_by(&rt, rt.alloc(), asked, given)?;
            left.want(&rt, input, outcome, out.as_bytes(), faults.as_bytes());
        }
    }
    Ok(())
}

// Lines and passwords may be as long as their limits, but no byte longer. The input comes in pieces of three sizes, so
// a long line is cut at different places.
#[test]
fn measures_any_pieces_alike(rt: HostRuntime) -> Result<(), Fail> {
    let name = "mkpasswd: line 1: no password field\nmkpasswd: line 2: name too long\n";
    let line = "mkpasswd: line 1: no password field\nmkpasswd: line 2: line too long\n";
    let first = "mkpasswd: line 1: line too long\n";
    let hash = "$1$xxxxxxxx$K/D5CvaOI4iV5zX0cnQoW0\n";
    // In each row: the run, the first bytes of the input, the number of letters after them, the last bytes, the
    // outcome, and both outputs. The hash is passlib's.
    let rows: [(Asked<'_>, &[u8], usize, &[u8], Outcome, &str, &str); 6] = [
        (BATCH, b"b\n", 2048, b"", Ok((2, 2, 0)), "", name),
        (BATCH, b"b\n", 2049, b"\n", Ok((2, 2, 0)), "", line),
        (
            BATCH,
            b"",
            2049,
            b"\nann:password",
            Ok((2, 1, 0)),
            ANN,
            first,
        ),
        (BY_INPUT, b"", 1024, b"\nb", Ok((1, 0, 0)), hash, ""),
        (BY_INPUT, b"", 1025, b"", TOO_LONG, "", ""),
        (BY_INPUT, b"", 1025, b"\n", TOO_LONG, "", ""),
    ];
    for (asked, front, count, back, outcome, out, faults) in rows {
        let mut input = Vec::from_slice(rt.alloc(), front)?;
        for _ in 0..count {
            input.push(b'a')?;
        }
        input.extend_from_slice(back)?;
        for most in [1, 511, 4096] {
            let given = devices(&rt, rt.alloc(), input.as_slice(), (most, ALL));
            let left = left_by(&rt, rt.alloc(), asked, given)?;
            left.want(&rt, "a limit", outcome, out.as_bytes(), faults.as_bytes());
        }
    }
    Ok(())
}

// A run finishes if its limit on I/O calls is as high as the number of calls that it needs, and returns `Turns` if the
// limit is lower by one. Over an endless input, a batch uses all calls up to the limit.
#[test]
fn stops_with_its_turns(rt: HostRuntime) -> Result<(), Fail> {
    let begun = "Available methods:\nmd5crypt\nsha256crypt\nsha512cryp";
    let list = "Available methods:\nmd5crypt\nsha256crypt\nsha512crypt\nscrypt\n";
    let methods = Asked {
        run: Run::Methods,
        ..BATCH
    };
    let line = "ann:password\n";
    // In each row: the run, its input, whether the input is repeated forever, the most bytes of a read and of a write,
    // the limit on I/O calls, the outcome, and a text with the number of times that the output repeats it.
    let rows: [(Asked<'_>, &str, bool, [usize; 2], u64, Outcome, &str, usize); 15] = [
        (BATCH, "", false, [ALL, ALL], 0, TURNS, "", 0),
        (BATCH, "", false, [ALL, ALL], 1, Ok((0, 0, 0)), "", 0),
        (BATCH, line, false, [ALL, ALL], 1, TURNS, "", 0),
        (BATCH, line, false, [ALL, ALL], 2, TURNS, ANN, 1),
        (BATCH, line, false, [ALL, ALL], 3, Ok((1, 0, 0)), ANN, 1),
        (BATCH, line, true, [ALL, ALL], 100, TURNS, ANN, 50),
        (BATCH, "a", true, [1, ALL], 1000, TURNS, "", 0),
        (BY_INPUT, "", false, [ALL, ALL], 0, TURNS, "", 0),
        (BY_INPUT, "a", true, [1, ALL], 1024, TURNS, "", 0),
        (BY_INPUT, "a", true, [1, ALL], 1025, TOO_LONG, "", 0),
        (BY_WORD, "", false, [ALL, 1], 10, TURNS, "$1$xxxxxxx", 1),
        (BY_WORD, "", false, [ALL, 0], 10, Err("write fault"), "", 0),
        (methods, "", false, [ALL, ALL], 0, TURNS, "", 0),
        (methods, "", false, [ALL, 25], 2, TURNS, begun, 1),
        (methods, "", false, [ALL, 25], 3, Ok((0, 0, 0)), list, 1),
    ];
    for (asked, input, is_repeated, by, turns, outcome, text, times) in rows {
        let mut given = devices(&rt, rt.alloc(), input.as_bytes(), (by[0], by[1]));
        if is_repeated {
            given.reader = given.reader.repeated();
        }
        given.turns = turns;
        let left = left_by(&rt, rt.alloc(), asked, given)?;
        let mut out = Vec::new(rt.alloc());
        for _ in 0..times {
            out.extend_from_slice(text.as_bytes())?;
        }
        left.want(&rt, input, outcome, out.as_slice(), b"");
    }
    Ok(())
}
