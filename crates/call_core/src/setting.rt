//! The setting of a new hash.
ghost use Rattle.std.specs.Prelude.{◌≡◌, ◌≢◌, []};
ghost use Rattle.crypt_core.specs.Settings.{canonical_text};
ghost use Rattle.call_core.specs.Reports.{put, token};
ghost use Rattle.call_core.specs.Settings.{PutsGivenSetting, PutsSetting, PutsText};

use crate::reading::{given_setting, new_scheme_of};
use crate::reason::Reason;
use crate::report::{NO_WORK, Report, leave, token};
use crypt_core::setting::Setting;

/// Writes a new setting to `out` and returns the report. The three random numbers make the salt. After an error the
/// call writes `*0` instead, which is no setting ([`token`]).
pub fn put_setting(method: u32, rounds: u32, numbers: [u64; 3], out: &mut [u8]) -> Report
    ensures puts { PutsSetting method rounds numbers out.old result out.new }
    ensures locked { result.error ≢ 0 → out.new ≡ put (token []) out.old }
{
    match new_scheme_of(method, rounds) {
        Ok(scheme) => put_text(&Setting::salted(scheme, numbers), out),
        Err(reason) => leave(Report::from(reason), out, token(b"")),
    }
}

/// Writes the setting with the given salt to `out` and returns the report. After an error it writes `*0` instead,
/// which is no setting ([`token`]).
pub fn put_setting_with_salt(method: u32, rounds: u32, salt: &[u8], out: &mut [u8]) -> Report
    ensures puts { PutsGivenSetting method rounds salt.now out.old result out.new }
    ensures locked { result.error ≢ 0 → out.new ≡ put (token []) out.old }
{
    match given_setting(method, rounds, salt) {
        Ok(setting) => put_text(&setting, out),
        Err(reason) => leave(Report::from(reason), out, token(b"")),
    }
}

// Writes the setting to `out`, or `*0` if the setting and a zero byte don't fit, and returns the report.
fn put_text(setting: &Setting, out: &mut [u8]) -> Report
    ensures puts { PutsText (canonical_text setting.now) out.old result out.new }
    ensures locked { result.error ≢ 0 → out.new ≡ put (token []) out.old }
{
    let text = setting.text();
    if text.len() >= out.len() {
        return leave(Report::refused(Reason::TooFewBytes, 0), out, token(b""));
    }
    let report = Report::succeeded(text.len() as u32, 0, NO_WORK);
    leave(report, out, text.as_slice())
}
