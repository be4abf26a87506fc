//! Tests of the errors: the message that `{}` prints, and the exit status of the errors that end the program.

use super::want;
use crypt_core::fits::FitFault;
use crypt_core::hash::HashFault;
use crypt_core::password::PasswordFault;
use crypt_core::setting::{MakeFault, SettingFault};
use kdf_core::params::ParamFault;
use mkpasswd::fault::{Fault, UsageFault};
use mkpasswd::options::plan;
use run_core::fault::RunFault;
use run_core::line::LineFault;
use std::alloc::Global;
use std::fmt::Display;
use std::process::Abort;
use std::test::Fail;

// Asserts that `{}` prints this message for an error, and that the error's `text` is the same.
fn want_shown<F: Display>(
    rt: &impl Abort,
    alloc: Global,
    fault: &F,
    text: &str,
    wanted: &str,
) -> Result<(), Fail> {
    let shown = format!(in alloc; "{fault}")?;
    want(rt, (shown.as_str(), text), (wanted, wanted), "an error");
    Ok(())
}

#[test]
fn errors_of_passwords_and_numbers(rt: HostRuntime) -> Result<(), Fail> {
    for (fault, wanted) in &[
        (ParamFault::Range, "scrypt range"),
        (ParamFault::AboveCeiling, "above ceiling"),
    ] {
        want_shown(&rt, rt.alloc(), fault, fault.text(), wanted)?;
    }
    for (fault, wanted) in &[
        (PasswordFault::TooLong, "password too long"),
        (PasswordFault::HasNul, "password has a zero byte"),
    ] {
        want_shown(&rt, rt.alloc(), fault, fault.text(), wanted)?;
    }
    Ok(())
}

#[test]
fn errors_of_settings(rt: HostRuntime) -> Result<(), Fail> {
    for (fault, wanted) in &[
        (SettingFault::TooLong, "setting too long"),
        (SettingFault::BadCharacter, "bad character"),
        (SettingFault::UnknownScheme, "unknown scheme"),
        (SettingFault::BadRounds, "bad rounds"),
        (SettingFault::BadCost, "bad cost"),
        (SettingFault::ScryptRange, "scrypt range"),
        (SettingFault::AboveCeiling, "above ceiling"),
        (SettingFault::BadSalt, "bad salt"),
    ] {
        want_shown(&rt, rt.alloc(), fault, fault.text(), wanted)?;
    }
    for (fault, wanted) in &[
        (MakeFault::SaltLength, "salt length"),
        (MakeFault::SaltCharacter, "salt character"),
        (MakeFault::Cost, "cost"),
    ] {
        want_shown(&rt, rt.alloc(), fault, fault.text(), wanted)?;
    }
    Ok(())
}

#[test]
fn errors_of_hashes(rt: HostRuntime) -> Result<(), Fail> {
    let fault = HashFault::OutOfMemory;
    want_shown(&rt, rt.alloc(), &fault, fault.text(), "out of memory")?;
    for (fault, wanted) in &[
        (FitFault::Setting(SettingFault::BadCost), "bad cost"),
        (FitFault::OutOfMemory, "out of memory"),
    ] {
        want_shown(&rt, rt.alloc(), fault, fault.text(), wanted)?;
    }
    Ok(())
}

#[test]
fn errors_of_lines(rt: HostRuntime) -> Result<(), Fail> {
    for (fault, wanted) in &[
        (LineFault::LineTooLong, "line too long"),
        (LineFault::NoName, "no name"),
        (LineFault::NameTooLong, "name too long"),
        (LineFault::NoPassword, "no password field"),
        (
            LineFault::Password(PasswordFault::HasNul),
            "password has a zero byte",
        ),
        (LineFault::Setting(SettingFault::BadSalt), "bad salt"),
        (LineFault::OverBudget, "over budget"),
    ] {
        want_shown(&rt, rt.alloc(), fault, fault.text(), wanted)?;
    }
    Ok(())
}

#[test]
fn errors_of_runs(rt: HostRuntime) -> Result<(), Fail> {
    for (fault, wanted, status) in &[
        (RunFault::Read, "read fault", 3),
        (RunFault::Write, "write fault", 3),
        (RunFault::OutOfMemory, "out of memory", 3),
        (RunFault::Turns, "too many turns", 3),
        (
            RunFault::Password(PasswordFault::TooLong),
            "password too long",
            2,
        ),
    ] {
        want_shown(&rt, rt.alloc(), fault, fault.text(), wanted)?;
        want(&rt, fault.status(), *status, wanted);
    }
    Ok(())
}

#[test]
fn errors_of_arguments(rt: HostRuntime) -> Result<(), Fail> {
    for (fault, wanted, status) in &[
        (UsageFault::Method, "unknown method", 2),
        (UsageFault::TwoSalts, "two salts", 2),
        (UsageFault::TwoModes, "two modes", 2),
        (UsageFault::Make(MakeFault::Cost), "cost", 2),
        (UsageFault::OutOfMemory, "out of memory", 3),
    ] {
        want_shown(&rt, rt.alloc(), fault, fault.text(), wanted)?;
        want(&rt, fault.status(), *status, wanted);
    }
    Ok(())
}

// Asserts how `clap`'s message for this argument begins, that it has more than 10 bytes, and the exit status. The
// error's `text` is empty, because the program prints `clap`'s message.
fn want_clap(
    rt: &impl Abort,
    alloc: Global,
    word: &str,
    front: &str,
    status: u8,
) -> Result<(), Fail> {
    let words = [String::from_str(alloc, word)?];
    let Err(fault) = plan(alloc, &words) else {
        panic!(rt; "a plan for {word}");
    };
    let shown = format!(in alloc; "{fault}")?;
    let is_message = shown.as_str().starts_with(front) && shown.len() > 10;
    want(rt, is_message, true, shown.as_str());
    want(rt, (fault.text(), fault.status()), ("", status), word);
    Ok(())
}

#[test]
fn errors_of_clap(rt: HostRuntime) -> Result<(), Fail> {
    let unexpected = "error: unexpected argument '--such' found";
    want_clap(&rt, rt.alloc(), "--such", unexpected, 2)?;
    want_clap(&rt, rt.alloc(), "-V", "mkpasswd ", 0)?;
    want_clap(&rt, rt.alloc(), "--help", "", 0)
}

#[test]
fn errors_that_end_the_program(rt: HostRuntime) {
    for (fault, text, status) in &[
        (Fault::Start, "start fault", 3),
        (Fault::Usage(UsageFault::TwoSalts), "two salts", 2),
        (Fault::Run(RunFault::Read), "read fault", 3),
    ] {
        want(&rt, (fault.text(), fault.status()), (*text, *status), text);
    }
}
