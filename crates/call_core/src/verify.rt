//! Checks a password against a stored hash.
ghost use Rattle.std.specs.Prelude.{◌≡◌, ◌≢◌, ◌⊎◌, ◌≤◌, if◌then◌else◌, length, true, IfOk, IfErr, IsOk};
ghost use Rattle.prims_core.specs.Work.{no_work};
ghost use Rattle.crypt_core.specs.Crypt.{allocates, crypt};
ghost use Rattle.crypt_core.specs.Needs.{AreEnough};
ghost use Rattle.crypt_core.specs.Settings.{SettingValue, Spells};
ghost use Rattle.crypt_core.specs.StoredFields.{IsHashOf};
ghost use Rattle.crypt_core.specs.Work.{cost, work};
ghost use Rattle.call_core.specs.Checks.{Compares, IsDead, NeedsNoMemory, Opens, Verifies};
ghost use Rattle.call_core.specs.Needs.{HashesWith};
ghost use Rattle.call_core.specs.Private.Checks.{IsCheckRefused};
ghost use Rattle.call_core.specs.Reasons.{reason_row};
ghost use Rattle.call_core.specs.Reports.{failed};

use crate::budget::cost_within;
use crate::reading::{read_password, stored_hash};
use crate::reason::Reason;
use crate::report::Report;
use crypt_core::memory::Memory;
use crypt_core::password::Password;
use crypt_core::stored::StoredHash;
use prims_core::meter::Meter;

/// Hashes the password with the setting of the stored hash, if the budget allows it, and compares the two hashes.
pub fn verify<M: Memory>(
    memory: &mut M,
    password: &[u8],
    stored: &[u8],
    budget: u64,
    meter: &mut Meter,
) -> Report
    requires new { meter.old ≡ no_work }
    ensures verifies { Verifies password.now stored.now budget result }
    ensures lets_in { result.error ≡ 0 → Opens password.now stored.now budget }
    ensures opens { Opens password.now stored.now budget → (result.error ≡ 0)
        ⊎ ((result.error ≡ (reason_row Reason.OutOfMemory).0) × ¬ NeedsNoMemory stored.now) }
    ensures shut { IsDead stored.now → result.error ≢ 0 }
    ensures enough { ((kept : SettingValue) → HashesWith password.now stored.now budget kept → AreEnough (M.IsEnough memory.old) kept.scheme)
        → result.error ≢ (reason_row Reason.OutOfMemory).0 }
    ensures bytes { result.work.bytes ≤ budget }
    ensures counted { meter.new ≡ result.work }
{
    let password = match read_password(password) {
        Ok(password) => password,
        Err(reason) => return Report::from(reason),
    };
    match checkable(&password, stored, budget) {
        Ok((stored, hash_cost)) => compare(
            memory,
            &password,
            &stored,
            hash_cost,
            false,
            Reason::WrongPassword,
            meter,
        ),
        Err(refused) => refused,
    }
}

/// Returns the stored hash in the field and the cost of checking the password against it, if the budget allows that
/// cost. Otherwise it returns the report of the first refusal.
pub(crate) fn checkable<'a>(
    password: &Password,
    field: &'a [u8],
    budget: u64,
) -> Result<(StoredHash<'a>, u64), Report>
    ensures found { IfOk result (λ check. IsHashOf field.now check.0) }
    ensures within { IfOk result (λ check. (check.1 ≡ cost check.0.setting (length password.now)) × (check.1 ≤ budget)) }
    ensures refused { IfErr result (IsCheckRefused password.now field.now budget) }
    ensures idle { IfErr result (λ report. (report.error ≢ 0) × (report.work ≡ no_work)) }
    ensures other { IfErr result (λ report. report.error ≢ (reason_row Reason.OutOfMemory).0) }
    ensures only { IfOk result (λ check. (kept : SettingValue) → Spells field.now kept → check.0.setting ≡ kept) }
    ensures admits { (kept : SettingValue) → Spells field.now kept → cost kept (length password.now) ≤ budget → IsOk result }
{
    let stored = stored_hash(field)?;
    let hash_cost = cost_within(password, stored.setting(), budget)?;
    Ok((stored, hash_cost))
}

/// Hashes the password with the setting of the stored hash and compares the two hashes. If they are equal, the report
/// has no error and says whether the stored hash is outdated (`is_outdated`). Otherwise its error is `mismatch_reason`.
/// If scrypt gets no memory, its error is `OutOfMemory`. `hash_cost` is the greatest cost of the hash.
pub(crate) fn compare<M: Memory>(
    memory: &mut M,
    password: &Password,
    stored: &StoredHash<'_>,
    hash_cost: u64,
    is_outdated: bool,
    mismatch_reason: Reason,
    meter: &mut Meter,
) -> Report
    requires new { meter.old ≡ no_work }
    requires hash_cost { hash_cost ≡ cost stored.now.setting (length password.now) }
    requires mismatch_reason { (mismatch_reason ≡ Reason.WrongPassword) ⊎ (mismatch_reason ≡ Reason.Dead) }
    ensures compares { Compares password.now stored.now.setting stored.now.text (if is_outdated then 1 else 0) mismatch_reason result }
    ensures same { result.error ≡ 0
        → (crypt password.now stored.now.setting ≡ stored.now.text) × (result.outdated ≡ (if is_outdated then 1 else 0)) }
    ensures only { result.outdated ≡ 1 → result.error ≡ 0 }
    ensures opens { crypt password.now stored.now.setting ≡ stored.now.text → (result.error ≡ 0)
        ⊎ ((result.error ≡ (reason_row Reason.OutOfMemory).0) × (allocates stored.now.setting.scheme ≡ true)) }
    ensures missed { crypt password.now stored.now.setting ≢ stored.now.text
        → (result ≡ failed mismatch_reason hash_cost (work password.now stored.now.setting))
        ⊎ ((result.error ≡ (reason_row Reason.OutOfMemory).0) × (allocates stored.now.setting.scheme ≡ true)) }
    ensures enough { AreEnough (M.IsEnough memory.old) stored.now.setting.scheme → result.error ≢ (reason_row Reason.OutOfMemory).0 }
    ensures bytes { result.work.bytes ≤ hash_cost }
    ensures counted { meter.new ≡ result.work }
{
    match stored.matches(memory, password, meter) {
        Ok(true) => Report::found(is_outdated, hash_cost, meter.work()),
        Ok(false) => Report::failed(mismatch_reason, hash_cost, meter.work()),
        Err(_) => Report::failed(Reason::OutOfMemory, hash_cost, meter.work()),
    }
}
