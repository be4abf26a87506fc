//! A login, which checks a password against a stored hash. If it can't check the stored hash, it makes a dummy hash
//! instead: it hashes the password as for a new hash, so that the call does not return sooner.
ghost use Rattle.std.specs.Prelude.{◌≡◌, ◌≤◌, ◌⊎◌, ◌≢◌, length};
ghost use Rattle.prims_core.specs.Work.{no_work};
ghost use Rattle.crypt_core.specs.Needs.{AreEnough};
ghost use Rattle.crypt_core.specs.Settings.{SettingValue};
ghost use Rattle.crypt_core.specs.Work.{cost};
ghost use Rattle.crypt_core.specs.declared.scheme.Scheme.{Scheme as Made};
ghost use Rattle.call_core.specs.Arguments.{IsSchemeMade, TakesNewRounds};
ghost use Rattle.call_core.specs.Checks.{IsDead, NeedsNoMemory, Opens};
ghost use Rattle.call_core.specs.Limits.{limit_in};
ghost use Rattle.call_core.specs.Logins.{Declines, IsMiss, LogsIn, ReportsDead};
ghost use Rattle.call_core.specs.Needs.{LoginHashesWith};
ghost use Rattle.call_core.specs.Reasons.{reason_row};
ghost use Rattle.call_core.specs.Rehashes.{IsOutdated};

use crate::budget::cost_within;
use crate::limit::Limit;
use crate::reading::read_request;
use crate::reason::Reason;
use crate::report::Report;
use crate::verify::{checkable, compare};
use crypt_core::hash::hash_by;
use crypt_core::memory::Memory;
use crypt_core::password::Password;
use crypt_core::setting::Setting;
use crypt_core::stored::StoredHash;
use prims_core::meter::Meter;

/// Checks the password against the stored hash, and reports whether it matches. After a match, `outdated` in the report
/// says whether a new hash with the method and the rounds would replace the stored one.
///
/// A field can't be checked if it is empty, locked, of another scheme or without a valid setting, or if the check can
/// cost more than the limit. For each such field the call makes a dummy hash, which it drops: it hashes the password
/// with the method, the rounds and a fixed salt, unless that can cost more than the limit.
///
/// If the call refuses the password, the method or the rounds, it hashes nothing, whatever the field is. If scrypt gets
/// no memory for the hash, the error is `OutOfMemory`.
pub fn log_in<M: Memory>(
    memory: &mut M,
    password: &[u8],
    field: &[u8],
    method: u32,
    rounds: u32,
    limit: Limit,
    meter: &mut Meter,
) -> Report
    requires new { meter.old ≡ no_work }
    ensures logs_in { LogsIn password.now field.now method rounds (limit_in method rounds limit (length password.now)) result }
    ensures lets_in { result.error ≡ 0 → Opens password.now field.now (limit_in method rounds limit (length password.now)) }
    ensures opens { (scheme : Made) → IsSchemeMade TakesNewRounds method rounds scheme → Opens password.now field.now (limit_in method rounds limit (length password.now))
        → (result.error ≡ 0) ⊎ ((result.error ≡ (reason_row Reason.OutOfMemory).0) × ¬ NeedsNoMemory field.now) }
    ensures shut { IsDead field.now → result.error ≢ 0 }
    ensures dead { ReportsDead password.now field.now method rounds (limit_in method rounds limit (length password.now)) result }
    ensures outdated { result.outdated ≡ 1 → (result.error ≡ 0) × IsOutdated field.now method rounds }
    ensures replaced { result.error ≡ 0 → IsOutdated field.now method rounds → result.outdated ≡ 1 }
    ensures enough { ((kept : SettingValue) → LoginHashesWith password.now field.now method rounds (limit_in method rounds limit (length password.now)) kept
        → AreEnough (M.IsEnough memory.old) kept.scheme) → result.error ≢ (reason_row Reason.OutOfMemory).0 }
    ensures bytes { result.work.bytes ≤ limit_in method rounds limit (length password.now) }
    ensures counted { meter.new ≡ result.work }
{
    let request = match read_request(password, method, rounds, limit) {
        Ok(request) => request,
        Err(refused) => return refused,
    };
    match checkable(&request.password, field, request.limit) {
        Ok((stored, hash_cost)) => {
            let is_outdated = stored.setting().scheme().is_outdated_by(&request.scheme);
            compare(
                memory,
                &request.password,
                &stored,
                hash_cost,
                is_outdated,
                miss_of(&stored),
                meter,
            )
        }
        Err(refused) => {
            // The hash is dropped, so its salt need not be random.
            let dummy = Setting::salted(request.scheme, [0; 3]);
            decline(
                memory,
                &request.password,
                &dummy,
                request.limit,
                refused,
                meter,
            )
        }
    }
}

// Returns the reason to report if the password doesn't match: `Dead` if no password matches the stored hash, and
// otherwise `WrongPassword`.
fn miss_of(stored: &StoredHash<'_>) -> Reason
    ensures miss { IsMiss stored.now.text stored.now.setting result }
{
    if stored.is_whole() {
        Reason::WrongPassword
    } else {
        Reason::Dead
    }
}

// Makes and drops a dummy hash with the setting `dummy`, if the budget allows it, and returns the refusal with the work
// of that hash. If scrypt gets no memory for the dummy hash, the call takes less time than a check, and the field's
// error would hide that; so the error is `OutOfMemory` instead.
fn decline<M: Memory>(
    memory: &mut M,
    password: &Password,
    dummy: &Setting,
    budget: u64,
    refused: Report,
    meter: &mut Meter,
) -> Report
    requires new { meter.old ≡ no_work }
    requires refused { (refused.error ≢ 0) × (refused.work ≡ no_work) }
    requires other { refused.error ≢ (reason_row Reason.OutOfMemory).0 }
    ensures declines { Declines password.now dummy.now budget refused result }
    ensures enough { (cost dummy.now (length password.now) ≤ budget → AreEnough (M.IsEnough memory.old) dummy.now.scheme)
        → result.error ≢ (reason_row Reason.OutOfMemory).0 }
    ensures refuses { (result.error ≢ 0) × (result.outdated ≡ refused.outdated) }
    ensures bytes { result.work.bytes ≤ budget }
    ensures counted { meter.new ≡ result.work }
{
    if cost_within(password, dummy, budget).is_err() {
        return refused;
    }
    let error = match hash_by(memory, password, dummy, meter) {
        Ok(_) => refused.error,
        Err(_) => Reason::OutOfMemory.number(),
    };
    Report {
        error,
        work: meter.work(),
        ..refused
    }
}
