//! The bound on the work of a hash.
ghost use Rattle.std.specs.Prelude.{◌≡◌};
ghost use Rattle.call_core.specs.Settings.{Bounds};

use crate::reading::read_setting;
use crate::reason::Reason;
use crate::report::Report;
use crypt_core::password::PASSWORD_LIMIT;
use crypt_core::work::{bound, cost};

/// Returns the report of the greatest cost and work of a hash with the setting in `text`, for any password of
/// `password_len` bytes.
pub fn report_bound(password_len: usize, text: &[u8]) -> Report
    ensures bounds { Bounds password_len text.now result }
{
    if password_len > PASSWORD_LIMIT {
        return Report::from(Reason::PasswordTooLong);
    }
    match read_setting(text) {
        Ok(setting) => {
            let hash_cost = cost(&setting, password_len);
            Report::succeeded(0, hash_cost, bound(&setting, password_len))
        }
        Err(reason) => Report::from(reason),
    }
}
