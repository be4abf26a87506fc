//! Tests of the rules that a line of input can break, in the order in which the rules are checked.

use super::commands::run;
use super::{padded, want};
use run_core::line::{Kind, inspect};
use std::alloc::Global;
use std::process::Abort;
use std::test::Fail;

// Asserts which rule a line breaks: `inspect` returns its error, and a command prints the same message. The lines that
// break no rule are of locked accounts, so the command hashes nothing.
fn want_rule(
    rt: &impl Abort,
    alloc: Global,
    line: &[u8],
    wanted: Option<&str>,
) -> Result<(), Fail> {
    let fault = inspect(Kind::Check, line);
    want(rt, fault.map(|fault| fault.text()), wanted, "a rule");
    let outcome = run(alloc, &["--check"], line)?;
    match wanted {
        Some(message) => outcome.want_refused(rt, alloc, message),
        None => {
            outcome.want(rt, "no rule", 0, "a:locked\n", "");
            Ok(())
        }
    }
}

#[test]
fn rules_of_a_check(rt: HostRuntime) -> Result<(), Fail> {
    for &(front, letter, count, back, wanted) in &[
        (":", b'a', 2048, "", Some("line too long")),
        ("", b'a', 0, ":!:x", Some("no name")),
        ("", b'a', 65, "", Some("name too long")),
        ("a", b'a', 0, ":!", Some("no password field")),
        ("a::", b'x', 1025, "", Some("password too long")),
        ("a:!:", 0, 1, "", Some("password has a zero byte")),
        ("a:$2b$10$x:", 0, 1, "", Some("password has a zero byte")),
        ("a:!a b:x", b'a', 0, "", None),
        ("a:", b'$', 385, ":x", Some("setting too long")),
        ("a:", b'!', 385, ":x", None),
        ("a:$9$a b:x", b'a', 0, "", Some("bad character")),
        ("a:$5$rounds=0$a b:x", b'a', 0, "", Some("bad character")),
        ("a:$2b$10$x:x", b'a', 0, "", Some("unknown scheme")),
        ("a:$5$rounds=0$ab:x", b'a', 0, "", Some("bad rounds")),
        ("a:$7$A:x", b'a', 0, "", Some("bad cost")),
        ("a:$7$E/..../....a_b:x", b'a', 0, "", Some("scrypt range")),
        ("a:$7$J6..../....a_b:x", b'a', 0, "", Some("above ceiling")),
        ("a:$7$2/..../....a_b:x", b'a', 0, "", Some("bad salt")),
    ] {
        let line = padded(rt.alloc(), front.as_bytes(), letter, count, back.as_bytes())?;
        want_rule(&rt, rt.alloc(), line.as_slice(), wanted)?;
    }
    Ok(())
}

#[test]
fn rules_of_other_lines(rt: HostRuntime) {
    let rows: &[(Kind, &[u8], Option<&str>)] = &[
        (Kind::Batch, b"ann:a:b", None),
        (Kind::Batch, b"ann", Some("no password field")),
        (Kind::Batch, b":x", Some("no name")),
        (Kind::Batch, &[b'a'; 2049], Some("line too long")),
        (Kind::Check, b"a::x", None),
        (Kind::Audit, b"a:$7$J6..../....a_b", None),
        (Kind::Audit, b"a", Some("no password field")),
    ];
    for &(kind, line, wanted) in rows {
        let fault = inspect(kind, line);
        want(&rt, fault.map(|fault| fault.text()), wanted, "a line");
    }
}
