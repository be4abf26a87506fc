//! Whether a budget allows a hash. Nothing here hashes or allocates.
ghost use Rattle.std.specs.Prelude.{◌≡◌, ◌<◌, ◌≤◌, length, IfOk, IfErr};
ghost use Rattle.crypt_core.specs.Work.{cost};
ghost use Rattle.call_core.specs.Hashes.{admission};
ghost use Rattle.call_core.specs.Reports.{refused};

use crate::reason::Reason;
use crate::report::Report;
use crypt_core::hash::hash_len;
use crypt_core::password::Password;
use crypt_core::setting::Setting;
use crypt_core::work::cost;

/// Returns the cost of the hash if the budget allows it, and otherwise the report of the refusal, which is
/// `OverBudget`.
pub(crate) fn cost_within(
    password: &Password,
    setting: &Setting,
    budget: u64,
) -> Result<u64, Report>
    ensures within { IfOk result (λ hash_cost. (hash_cost ≡ cost setting.now (length password.now))
        × (cost setting.now (length password.now) ≤ budget)) }
    ensures above { IfErr result (λ report. (budget < cost setting.now (length password.now))
        × (report ≡ refused Reason.OverBudget (cost setting.now (length password.now)))) }
{
    let hash_cost = cost(setting, password.bytes().len());
    if hash_cost > budget {
        return Err(Report::refused(Reason::OverBudget, hash_cost));
    }
    Ok(hash_cost)
}

/// Returns the cost of the hash if the budget allows it, and `room` bytes hold the hash and a zero byte. Otherwise the
/// call returns the report of the refusal. The budget is tested first.
pub(crate) fn admit(
    password: &Password,
    setting: &Setting,
    budget: u64,
    room: usize,
) -> Result<u64, Report>
    ensures { result ≡ admission budget room password.now setting.now }
{
    let hash_cost = cost_within(password, setting, budget)?;
    if hash_len(setting) >= room {
        return Err(Report::refused(Reason::TooFewBytes, hash_cost));
    }
    Ok(hash_cost)
}
