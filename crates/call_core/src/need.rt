//! How much memory a call needs for its hash, so that its caller can lend it. Nothing here hashes or allocates.
ghost use Rattle.std.specs.Prelude.{length};
ghost use Rattle.call_core.specs.Limits.{limit_in};
ghost use Rattle.call_core.specs.Needs.{HashesWith, IsNeed, LoginHashesWith};

use crate::budget::cost_within;
use crate::limit::Limit;
use crate::reading::{read_password, read_request};
use crate::verify::checkable;
use crypt_core::need::Need;
use crypt_core::setting::Setting;

/// The need of a call that makes no hash.
const NOTHING: Need = Need { words: 0, bytes: 0 };

/// Returns the memory that [`verify`](crate::verify::verify) needs for a password and a stored hash, or that
/// [`put_hash`](crate::hash::put_hash) needs for a password and a setting. If the call would refuse the hash, it needs
/// nothing.
pub fn hash_need(password: &[u8], text: &[u8], budget: u64) -> Need
    ensures { IsNeed (HashesWith password.now text.now budget) result }
{
    let Ok(password) = read_password(password) else {
        return NOTHING;
    };
    match checkable(&password, text, budget) {
        Ok((stored, _)) => stored.setting().scheme().need(),
        Err(_) => NOTHING,
    }
}

/// Returns the memory that [`log_in`](crate::login::log_in) needs with these arguments: that of the stored hash if it
/// can be checked within the limit, and otherwise that of the dummy hash if the limit admits it. A call that makes no
/// hash needs nothing.
pub fn login_need(password: &[u8], field: &[u8], method: u32, rounds: u32, limit: Limit) -> Need
    ensures { IsNeed (LoginHashesWith password.now field.now method rounds (limit_in method rounds limit (length password.now))) result }
{
    let Ok(request) = read_request(password, method, rounds, limit) else {
        return NOTHING;
    };
    if let Ok((stored, _)) = checkable(&request.password, field, request.limit) {
        return stored.setting().scheme().need();
    }
    // The setting of the dummy hash that `log_in` makes.
    let dummy = Setting::salted(request.scheme, [0; 3]);
    match cost_within(&request.password, &dummy, request.limit) {
        Ok(_) => dummy.scheme().need(),
        Err(_) => NOTHING,
    }
}
