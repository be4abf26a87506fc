//! The hash of a password with a new salt.
ghost use Rattle.std.specs.Prelude.{◌≡◌, ◌≢◌, [], length, take, IfErr, IfOk};
ghost use Rattle.prims_core.specs.Work.{no_work};
ghost use Rattle.crypt_core.specs.Needs.{AreEnough};
ghost use Rattle.crypt_core.specs.declared.scheme.Scheme.{Scheme as Made};
ghost use Rattle.call_core.specs.Arguments.{IsSchemeMade, TakesNewRounds};
ghost use Rattle.call_core.specs.Checks.{Opens};
ghost use Rattle.call_core.specs.Hashes.{HashesAnew};
ghost use Rattle.call_core.specs.Limits.{limit_in};
ghost use Rattle.call_core.specs.Private.Hashes.{IsReported, MakesHashAnew};
ghost use Rattle.call_core.specs.Reasons.{reason_row};
ghost use Rattle.call_core.specs.Rehashes.{Rehashes};
ghost use Rattle.call_core.specs.Reports.{found, put, token};

use crate::budget::admit;
use crate::hash::{hash_within, put_hashed};
use crate::limit::Limit;
use crate::reading::read_request;
use crate::reason::Reason;
use crate::report::{Report, token};
use crypt_core::hash::Hashed;
use crypt_core::memory::Memory;
use crypt_core::setting::Setting;
use prims_core::meter::Meter;

/// Hashes the password with a new setting and writes the hash to `out`. After an error it writes `*0` instead, which
/// is no hash ([`token`]).
///
/// `numbers` has the three random numbers that make the salt. With any other count of numbers the call still makes all
/// other checks, and its error is `NoRandomNumbers` only if they pass. It does not find out then whether scrypt would
/// get its memory.
pub fn put_new_hash<M: Memory>(
    memory: &mut M,
    password: &[u8],
    method: u32,
    rounds: u32,
    numbers: &[u64],
    limit: Limit,
    out: &mut [u8],
    meter: &mut Meter,
) -> Report
    requires new { meter.old ≡ no_work }
    ensures hashes { HashesAnew password.now method rounds (limit_in method rounds limit (length password.now)) numbers.now out.old result out.new }
    ensures locked { result.error ≢ 0 → out.new ≡ put (token []) out.old }
    ensures opens { result.error ≡ 0 → Opens password.now (take result.length out.new) (limit_in method rounds limit (length password.now)) }
    ensures current { result.error ≡ 0
        → Rehashes (take result.length out.new) method rounds (found 0 0 no_work) }
    ensures enough { ((scheme : Made) → IsSchemeMade TakesNewRounds method rounds scheme → AreEnough (M.IsEnough memory.old) scheme)
        → result.error ≢ (reason_row Reason.OutOfMemory).0 }
    ensures counted { meter.new ≡ result.work }
{
    let room = out.len();
    let hashed = new_hash_of(
        memory, password, method, rounds, numbers, limit, room, meter,
    );
    put_hashed(hashed, token(b""), out)
}

// Hashes the password with a new setting, and returns the hash and the report, or the report of a refusal. A hash is
// refused if it and a zero byte need more than `room` bytes.
fn new_hash_of<M: Memory>(
    memory: &mut M,
    password: &[u8],
    method: u32,
    rounds: u32,
    numbers: &[u64],
    limit: Limit,
    room: usize,
    meter: &mut Meter,
) -> Result<(Hashed, Report), Report>
    requires new { meter.old ≡ no_work }
    ensures makes { MakesHashAnew password.now method rounds numbers.now (limit_in method rounds limit (length password.now)) room result }
    ensures reported { IsReported (limit_in method rounds limit (length password.now)) room meter.new result }
    ensures opens { IfOk result (λ made. Opens password.now made.0 (limit_in method rounds limit (length password.now))) }
    ensures current { IfOk result (λ made. Rehashes made.0 method rounds (found 0 0 no_work)) }
    ensures enough { ((scheme : Made) → IsSchemeMade TakesNewRounds method rounds scheme → AreEnough (M.IsEnough memory.old) scheme)
        → IfErr result (λ report. report.error ≢ (reason_row Reason.OutOfMemory).0) }
{
    let request = read_request(password, method, rounds, limit)?;
    if numbers.len() == 3 {
        let setting = Setting::salted(request.scheme, [numbers[0], numbers[1], numbers[2]]);
        return hash_within(
            memory,
            &request.password,
            &setting,
            request.limit,
            room,
            meter,
        );
    }
    // Any salt will do here: the cost and the length of a hash don't depend on the random numbers.
    let setting = Setting::salted(request.scheme, [0; 3]);
    let hash_cost = admit(&request.password, &setting, request.limit, room)?;
    Err(Report::refused(Reason::NoRandomNumbers, hash_cost))
}
