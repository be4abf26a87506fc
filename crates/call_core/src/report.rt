//! The report of a call, and the string that a call writes to the caller's `out`.
ghost use Rattle.std.specs.Prelude.{◌≡◌, ◌↔◌, if◌then◌else◌, pos, IsTrue};
ghost use Rattle.prims_core.specs.Work.{no_work};
ghost use Rattle.call_core.specs.Reports.{Answers, AnswersCurrent, AnswersOutdated, IsOneOrZero, Leaves, PutsWhole, failed, found, put, refused, succeeded, token};

use crate::reason::Reason;
use prims_core::meter::Work;
use std::mem::size_of;

/// The work of a call that hashed nothing.
pub const NO_WORK: Work = Work {
    digests: 0,
    bytes: 0,
    mixes: 0,
    table: 0,
    scratch: 0,
};

/// The report of a call, in the layout of a C struct.
#[repr(C)]
#[derive(Clone, Copy, Debug, PartialEq, Eq)]
pub struct Report {
    /// 0 if the call did what its name says, otherwise the number of the reason why it did not. An audit and the call
    /// that asks whether a stored hash is outdated report 0 for a current hash and for an outdated one.
    pub error: u32,
    /// 1 if the stored hash is outdated, so that a new hash by the policy would replace it, otherwise 0. Only a login,
    /// an audit and the call that asks whether a stored hash is outdated can report 1, and only if the error is 0. So a
    /// login reports 1 only if the password matches.
    pub outdated: u32,
    /// If the error is 0, the number of bytes written to `out`, without the zero byte. In the report of a limit, the
    /// length of the longest password whose new hash is within the limit.
    pub length: u32,
    /// In the report of an audit, the number of the stored hash's method, or of the other scheme that the field looks
    /// like. Otherwise 0.
    pub scheme: u32,
    /// In the report of a limit or of rounds, the rounds of new hashes, as
    /// [`Scheme::made`](crypt_core::scheme::Scheme::made) takes them: 0 for md5crypt. In the report of an audit, the
    /// rounds of the stored hash: 1000 for md5crypt and 0 for scrypt. Otherwise 0.
    pub rounds: u32,
    /// scrypt's N in the report of an audit, otherwise 0.
    pub n: u32,
    /// scrypt's r in the report of an audit, otherwise 0.
    pub r: u32,
    /// scrypt's p in the report of an audit, otherwise 0.
    pub p: u32,
    /// The greatest cost of a hash with this setting and a password of this length, in bytes digested and mixed, or 0
    /// if the call does not compute it. An audit takes the longest password. In the report of a limit, the limit.
    pub cost: u64,
    /// The work that the call did. In the report of a bound, the greatest work of the hash.
    pub work: Work,
}

// C and web pages read the fields at fixed offsets.
const _: () = prove!(size_of::<Report>() == 80);

impl Report {
    /// Returns the report of a call that did what its name says.
    pub fn succeeded(length: u32, cost: u64, work: Work) -> Report
        ensures { result ≡ succeeded length cost work }
    {
        Report {
            error: 0,
            outdated: 0,
            length,
            scheme: 0,
            rounds: 0,
            n: 0,
            r: 0,
            p: 0,
            cost,
            work,
        }
    }

    /// Returns the report of a call that failed.
    pub fn failed(reason: Reason, cost: u64, work: Work) -> Report
        ensures { result ≡ failed reason cost work }
    {
        Report {
            error: reason.number(),
            ..Report::succeeded(0, cost, work)
        }
    }

    /// Returns the report of a call that failed before any hashing.
    pub fn refused(reason: Reason, cost: u64) -> Report
        ensures { result ≡ refused reason cost }
    {
        Report::failed(reason, cost, NO_WORK)
    }

    /// Returns the report of a call that found a stored hash, or found that the password matches it. `is_outdated` is
    /// `false` in a check without a policy.
    pub fn found(is_outdated: bool, cost: u64, work: Work) -> Report
        ensures { result ≡ found (if is_outdated then 1 else 0) cost work }
    {
        Report {
            outdated: u32::from(is_outdated),
            ..Report::succeeded(0, cost, work)
        }
    }

    /// Returns the report of a call on the rounds of a policy, with a length and a cost. Such a call hashes nothing.
    pub fn of_rounds(rounds: u32, length: u32, cost: u64) -> Report
        ensures { result ≡ record (succeeded length cost no_work) { rounds = rounds } }
    {
        Report {
            rounds,
            ..Report::succeeded(length, cost, NO_WORK)
        }
    }
}

impl From<Reason> for Report {
    ghost from_gives = { λ reason report. report ≡ refused reason 0 };

    fn from(reason: Reason) -> Report {
        Report::refused(reason, 0)
    }
}

/// Writes `reported`, the report of a call, to `report`. Returns 1 if its error is 0, otherwise 0.
pub fn write_report(report: &mut Report, reported: Report) -> i32
    ensures reported { report.new ≡ reported }
    ensures answers { Answers result reported }
{
    answer(report, reported, reported.error == 0)
}

/// Writes `reported`, the report of a call, to `report`. Returns 1 if the stored hash is outdated, otherwise 0.
pub fn write_report_is_outdated(report: &mut Report, reported: Report) -> i32
    ensures reported { report.new ≡ reported }
    ensures answers { AnswersOutdated result reported }
{
    answer(report, reported, reported.outdated == 1)
}

/// Writes `reported`, the report of a call, to `report`. Returns 1 if the stored hash is current, otherwise 0.
pub fn write_report_is_current(report: &mut Report, reported: Report) -> i32
    ensures reported { report.new ≡ reported }
    ensures answers { AnswersCurrent result reported }
{
    answer(
        report,
        reported,
        reported.error == 0 && reported.outdated == 0,
    )
}

// Writes `reported`, the report of a call, to `report`. Returns 1 if `is_yes`, otherwise 0.
fn answer(report: &mut Report, reported: Report, is_yes: bool) -> i32
    ensures reported { report.new ≡ reported }
    ensures yes { result ≡ pos 1 ↔ IsTrue is_yes }
    ensures one_or_zero { IsOneOrZero result }
{
    *report = reported;
    i32::from(is_yes)
}

/// Returns the string that a call writes when it refuses, in place of a hash with this setting: `*0`, or `*1` if the
/// setting begins with `*0` (crypt(3)).
pub fn token(setting: &[u8]) -> &'static [u8]
    ensures { result.now ≡ token setting.now }
{
    if setting.starts_with(b"*0") {
        b"*1"
    } else {
        b"*0"
    }
}

/// Writes a string and a zero byte to `out`. A string that doesn't fit is cut, so that the zero byte fits. If `out` is
/// empty, nothing is written.
pub fn put(out: &mut [u8], text: &[u8])
    ensures { out.new ≡ put text.now out.old }
{
    if out.is_empty() {
        return;
    }
    let cut = text.len().min(out.len() - 1);
    out[..cut].copy_from_slice(&text[..cut]);
    out[cut] = 0;
}

/// Writes a string to `out` as [`put`] does. Returns 1, or 0 if the string was cut.
pub fn put_whole(out: &mut [u8], text: &[u8]) -> i32
    ensures { PutsWhole text.now out.old result out.new }
{
    put(out, text);
    if text.len() < out.len() { 1 } else { 0 }
}

/// Writes a string to `out` as [`put`] does, and returns the report.
pub fn leave(report: Report, out: &mut [u8], text: &[u8]) -> Report
    ensures { Leaves report text.now out.old result out.new }
{
    put(out, text);
    report
}
