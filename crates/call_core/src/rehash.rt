//! The call that says whether a stored hash is outdated, so that a new hash would replace it.
ghost use Rattle.std.specs.Prelude.{◌≡◌};
ghost use Rattle.call_core.specs.Rehashes.{IsOutdated, Rehashes};

use crate::reading::{read_setting, scheme_of};
use crate::report::{NO_WORK, Report};

/// Returns the report on whether the stored hash is outdated: whether a new hash with the method and the rounds would
/// replace it.
pub fn report_rehash(stored: &[u8], method: u32, rounds: u32) -> Report
    ensures rehashes { Rehashes stored.now method rounds result }
    ensures outdated { result.outdated ≡ 1 → IsOutdated stored.now method rounds }
    ensures replaced { IsOutdated stored.now method rounds → result.outdated ≡ 1 }
{
    let setting = match read_setting(stored) {
        Ok(setting) => setting,
        Err(reason) => return Report::from(reason),
    };
    match scheme_of(method, rounds) {
        Ok(scheme) => Report::found(setting.scheme().is_outdated_by(&scheme), 0, NO_WORK),
        Err(reason) => Report::from(reason),
    }
}
