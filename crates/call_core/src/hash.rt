//! The hash of a password with a setting.
ghost use Rattle.std.specs.Prelude.{◌≡◌, ◌≢◌, ◌≤◌, length, take, IfErr, IfOk};
ghost use Rattle.prims_core.specs.Work.{no_work};
ghost use Rattle.crypt_core.specs.Crypt.{crypt};
ghost use Rattle.crypt_core.specs.Needs.{AreEnough};
ghost use Rattle.crypt_core.specs.Settings.{SettingValue, Spells};
ghost use Rattle.crypt_core.specs.Work.{cost};
ghost use Rattle.call_core.specs.Checks.{Opens};
ghost use Rattle.call_core.specs.Hashes.{Hashes};
ghost use Rattle.call_core.specs.Needs.{HashesWith};
ghost use Rattle.call_core.specs.Private.Hashes.{IsPut, IsReported, MakesHash, MakesHashOf};
ghost use Rattle.call_core.specs.Reasons.{reason_row};
ghost use Rattle.call_core.specs.Reports.{put, token};

use crate::budget::admit;
use crate::reading::{read_password, read_setting};
use crate::reason::Reason;
use crate::report::{Report, leave, token};
use crypt_core::hash::{Hashed, hash_by};
use crypt_core::memory::Memory;
use crypt_core::password::Password;
use crypt_core::setting::Setting;
use prims_core::meter::Meter;

/// Hashes the password with the setting in `text` and writes the hash to `out`. After an error it writes `*0` or `*1`
/// instead, which is no hash ([`token`]).
pub fn put_hash<M: Memory>(
    memory: &mut M,
    password: &[u8],
    text: &[u8],
    budget: u64,
    out: &mut [u8],
    meter: &mut Meter,
) -> Report
    requires new { meter.old ≡ no_work }
    ensures hashes { Hashes password.now text.now budget out.old result out.new }
    ensures locked { result.error ≢ 0 → out.new ≡ put (token text.now) out.old }
    ensures opens { result.error ≡ 0 → Opens password.now (take result.length out.new) budget }
    ensures within { result.error ≡ 0 → result.cost ≤ budget }
    ensures enough { ((kept : SettingValue) → HashesWith password.now text.now budget kept → AreEnough (M.IsEnough memory.old) kept.scheme)
        → result.error ≢ (reason_row Reason.OutOfMemory).0 }
    ensures bytes { result.work.bytes ≤ budget }
    ensures counted { meter.new ≡ result.work }
{
    let hashed = hash_of(memory, password, text, budget, out.len(), meter);
    put_hashed(hashed, token(text), out)
}

/// Writes the hash to `out`, or after an error `lock`, which is a [`token`], and returns the report.
pub(crate) fn put_hashed(
    hashed: Result<(Hashed, Report), Report>,
    lock: &[u8],
    out: &mut [u8],
) -> Report
    ensures puts { IsPut hashed lock.now out.old result out.new }
{
    match hashed {
        Ok((hashed, report)) => leave(report, out, hashed.text()),
        Err(refused) => leave(refused, out, lock),
    }
}

// Hashes the password with the setting in `text`, and returns the hash and the report, or the report of a refusal. A
// hash is refused if it and a zero byte need more than `room` bytes.
fn hash_of<M: Memory>(
    memory: &mut M,
    password: &[u8],
    text: &[u8],
    budget: u64,
    room: usize,
    meter: &mut Meter,
) -> Result<(Hashed, Report), Report>
    requires new { meter.old ≡ no_work }
    ensures makes { MakesHashOf password.now text.now budget room result }
    ensures reported { IsReported budget room meter.new result }
    ensures opens { IfOk result (λ made. Opens password.now made.0 budget) }
    ensures enough { ((kept : SettingValue) → HashesWith password.now text.now budget kept → AreEnough (M.IsEnough memory.old) kept.scheme)
        → IfErr result (λ report. report.error ≢ (reason_row Reason.OutOfMemory).0) }
    ensures bytes { meter.new.bytes ≤ budget }
{
    let password = read_password(password)?;
    let setting = read_setting(text)?;
    hash_within(memory, &password, &setting, budget, room, meter)
}

/// Hashes the password, and returns the hash and the report, or the report of the first of these refusals: the hash can
/// cost more than the budget, the hash and a zero byte need more than `room` bytes, or scrypt gets no memory.
pub(crate) fn hash_within<M: Memory>(
    memory: &mut M,
    password: &Password,
    setting: &Setting,
    budget: u64,
    room: usize,
    meter: &mut Meter,
) -> Result<(Hashed, Report), Report>
    requires new { meter.old ≡ no_work }
    ensures makes { MakesHash password.now setting.now budget room result }
    ensures reported { IsReported budget room meter.new result }
    ensures spells { IfOk result (λ made. Spells made.0 setting.now × (crypt password.now setting.now ≡ made.0)
        × (cost setting.now (length password.now) ≤ budget)) }
    ensures enough { (cost setting.now (length password.now) ≤ budget → AreEnough (M.IsEnough memory.old) setting.now.scheme)
        → IfErr result (λ report. report.error ≢ (reason_row Reason.OutOfMemory).0) }
    ensures bytes { meter.new.bytes ≤ budget }
{
    let hash_cost = admit(password, setting, budget, room)?;
    match hash_by(memory, password, setting, meter) {
        Ok(hashed) => {
            let length = hashed.text().len() as u32;
            let report = Report::succeeded(length, hash_cost, meter.work());
            Ok((hashed, report))
        }
        Err(_) => Err(Report::failed(Reason::OutOfMemory, hash_cost, meter.work())),
    }
}
