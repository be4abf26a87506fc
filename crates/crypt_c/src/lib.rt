//! mkpasswd for C: the calls behind `c/mkpasswd.h`, which says how to use each of them.
//!
//! A list of bytes is a pointer and a number of bytes. All calls have a report except [`mkpasswd_message_bytes`],
//! [`mkpasswd_scheme_name_bytes`] and [`mkpasswd_version`]. A call with a report returns 1 for yes: it did what its
//! name says, the password matches, the stored hash is outdated, or for an audit the stored hash is current. Otherwise
//! it returns 0. It always writes the whole report. The report's `error` is 0, or the number of the reason why the call
//! failed. After an error, `out` holds the token `*0` or `*1`, which no password matches, and a zero byte. If `out` is
//! too small, the token is cut so that the zero byte fits.
//!
//! If several errors apply, the call reports the first in this order: password, setting, method, salt, rounds, budget,
//! capacity of `out`, random numbers, memory. A login and an audit check the method and the rounds before the field. A
//! login that can't check the stored hash computes another hash instead; if it lacks memory for that, it reports
//! `OutOfMemory` and not the field's error. [`mkpasswd_proved_verify`], [`mkpasswd_proved_login`] and
//! [`mkpasswd_audit_bytes`] take a stored field, and report `Locked` for a locked one and `NoHash` for an empty one.
//! The other calls take a setting, and report the first rule of a setting that such a field breaks. The method 0 is the
//! recommended one, sha512crypt, and rounds of 0 are the recommended ones: 656000 for SHA-crypt, and 7 for scrypt. The
//! calls share no state and start no threads, so many threads may call at once.
#![tactic(auto)]

ghost use Rattle.std.specs.Prelude.{◌≡◌, ◌≢◌, ◌⊎◌, ◌↔◌, ◌<◌, ◌≤◌, pos, [], length, take};
ghost use Rattle.prims_core.specs.Work.{no_work};
ghost use Rattle.crypt_core.specs.Crypt.{crypt};
ghost use Rattle.crypt_core.specs.MadeSettings.{salted};
ghost use Rattle.crypt_core.specs.Passwords.{IsPassword, password_limit};
ghost use Rattle.crypt_core.specs.Policies.{NeverFits};
ghost use Rattle.crypt_core.specs.Settings.{SettingValue, Spells};
ghost use Rattle.crypt_core.specs.declared.scheme.Scheme.{Scheme};
ghost use Rattle.call_core.specs.Arguments.{IsSchemeMade, TakesNewRounds};
ghost use Rattle.call_core.specs.Audits.{Audits, ForeseesLogins, IsCurrent};
ghost use Rattle.call_core.specs.Checks.{IsDead, Opens, Verifies};
ghost use Rattle.call_core.specs.Hashes.{Hashes, HashesAnew};
ghost use Rattle.call_core.specs.Limits.{AreFitted, ReportsRounds, Limits, default_budget, limit_bytes, limit_of, meant, new_cost, policy_limit};
ghost use Rattle.call_core.specs.Logins.{JudgesStoredHash, LogsIn, TreatsFieldsAlike};
ghost use Rattle.call_core.specs.Names.{PutsMessage, PutsSchemeName};
ghost use Rattle.call_core.specs.Reasons.{reason_row};
ghost use Rattle.call_core.specs.Rehashes.{IsOutdated, Rehashes};
ghost use Rattle.call_core.specs.Reports.{Answers, AnswersCurrent, AnswersOutdated, found, put, token};
ghost use Rattle.call_core.specs.Settings.{Bounds, PutsGivenSetting};
ghost use Rattle.call_core.specs.declared.reason.Reason.TheVariants.{OutOfMemory};

use call_core::audit::report_audit;
use call_core::bound::report_bound;
use call_core::hash::put_hash;
use call_core::limit::{Limit, report_limit, report_rounds};
use call_core::login::log_in;
use call_core::message::put_message;
use call_core::name::put_scheme_name;
use call_core::new_hash::put_new_hash;
use call_core::rehash::report_rehash;
use call_core::report::{Report, write_report, write_report_is_current, write_report_is_outdated};
use call_core::setting::put_setting_with_salt;
use call_core::verify::verify;
use crypt_core::version::VERSION_NUMBER;
use prims_core::meter::Meter;
use std::alloc::Global;

/// Checks a password against a stored hash. Returns 1 exactly if the password matches and its hash costs at most the
/// budget, unless scrypt could not allocate.
///
/// The call computes no hash that can cost more than the budget, so a budget of 0 lets nobody in. It allocates only for
/// scrypt. If the password and the stored hash are valid, the report has the cost of the hash. It also has the work
/// that the call did.
///
/// For example, `password` and `$1$xxxxxxxx$UYCIxa628.9qXjpQCjM4a.` with a budget of 1000000 give 1.
///
/// # Errors
///
/// - `PasswordTooLong`, `PasswordZeroByte`: the password is invalid.
/// - `Locked`, `NoHash`: the stored hash begins with `!` or `*`, or is empty.
/// - `SettingTooLong` to `BadSalt`: the stored hash is invalid in another way.
/// - `OverBudget`: the hash can cost more than the budget.
/// - `WrongPassword`: the password does not match.
/// - `OutOfMemory`: scrypt could not allocate.
#[unsafe(no_mangle)]
pub extern "C" fn mkpasswd_proved_verify(
    alloc: Global,
    password: &[u8],
    stored: &[u8],
    budget: u64,
    report: &mut Report,
) -> i32
    ensures answers { Answers result report.new }
    ensures lets_in { result ≡ pos 1 → Opens password.now stored.now budget }
    ensures opens { Opens password.now stored.now budget
        → (result ≡ pos 1) ⊎ (report.new.error ≡ (reason_row OutOfMemory).0) }
    ensures shut { IsDead stored.now → result ≡ pos 0 }
    ensures verifies { Verifies password.now stored.now budget report.new }
{
    let mut heap = alloc;
    write_report(
        report,
        verify(&mut heap, password, stored, budget, &mut Meter::new()),
    )
}

/// Checks the password of a login. Returns 1 exactly if a new hash can have the method and the rounds, the password
/// matches the stored hash, and that hash costs at most the limit, unless scrypt could not allocate. With a budget of
/// 0, a new hash of the password must be within the limit too. After a 1 the report's `outdated` says whether
/// [`mkpasswd_needs_rehash_bytes`] would return 1; after a 0 `outdated` is 0.
///
/// If the field has no valid setting, or one whose hash can cost more than the limit, the call returns 0, but first
/// hashes the password with the method, the rounds and a fixed salt, if the limit allows it, and drops the hash. So a
/// login with such a field takes the work of a new hash. For an unknown name, pass an empty field. Whatever the field
/// is, the call makes at most one hash, and digests and mixes no more bytes than the limit.
///
/// The limit is the budget, except that a budget of 0 stands for the limit of the policy: twice the cost of a new hash
/// with the method and the rounds for a password of 64 bytes, and at least 150000000. The policy's limit admits a new
/// hash of every password of up to 64 bytes. With it, the call refuses a password whose new hash would cost more,
/// without work and whatever the field is.
///
/// # Errors
///
/// - `PasswordTooLong`, `PasswordZeroByte`: the password is invalid, whatever the field is.
/// - `UnknownMethod`, `Rounds`: no method has the number, or a new hash cannot have the rounds, whatever the field is.
/// - `Locked`, `NoHash`: the field begins with `!` or `*`, or is empty.
/// - `SettingTooLong` to `BadSalt`, `OverBudget`: the field is invalid in another way, or its hash can cost more than
///   the limit. After these errors, and after `Locked` and `NoHash`, the work is that of the new hash, or none if the
///   new hash can cost more than the limit.
/// - `WrongPassword`: the password does not match.
/// - `Dead`: no password matches the stored hash, because it was cut or changed. The call still computes one hash, as
///   for `WrongPassword`.
/// - `OutOfMemory`: scrypt could not allocate, for the stored hash or, if that cannot be checked, for a new one. The
///   work is that of the allocations that succeeded.
#[unsafe(no_mangle)]
pub extern "C" fn mkpasswd_proved_login(
    alloc: Global,
    password: &[u8],
    field: &[u8],
    method: u32,
    rounds: u32,
    budget: u64,
    report: &mut Report,
) -> i32
    ensures answers { Answers result report.new }
    ensures lets_in { result ≡ pos 1 → Opens password.now field.now (limit_of method rounds budget (length password.now)) }
    ensures opens { (scheme : Scheme) → IsSchemeMade TakesNewRounds method rounds scheme → Opens password.now field.now (limit_of method rounds budget (length password.now))
        → (result ≡ pos 1) ⊎ (report.new.error ≡ (reason_row OutOfMemory).0) }
    ensures logs_in { LogsIn password.now field.now method rounds (limit_of method rounds budget (length password.now)) report.new }
    ensures judges { JudgesStoredHash password.now field.now method rounds (limit_of method rounds budget (length password.now))
        result report.new }
    ensures treats_alike { TreatsFieldsAlike password.now field.now method rounds budget result report.new }
{
    let mut heap = alloc;
    write_report(
        report,
        log_in(
            &mut heap,
            password,
            field,
            method,
            rounds,
            Limit::of(budget),
            &mut Meter::new(),
        ),
    )
}

/// Hashes a password with a new setting of the method and the rounds, and writes the hash and a zero byte to `out`.
///
/// Three random `numbers` make the salt. If `numbers` has any other length, the call hashes nothing and reports the
/// first error in the list below that applies, which is `NoRandomNumbers` at the latest. So C's `mkpasswd_new` first
/// makes this call without numbers. It draws three only after `NoRandomNumbers`, when only a lack of memory can make
/// the next call fail.
///
/// The method is 1 for md5crypt, 5 for sha256crypt, 6 for sha512crypt or 7 for scrypt, as in their hashes. The rounds
/// are those of `mkpasswd -R`, unless they are 0. A budget of 0 is the limit of the policy, as for
/// [`mkpasswd_proved_login`]. With the same method, rounds and budget, [`mkpasswd_proved_login`] accepts the hash for
/// its password, unless scrypt lacks memory, and [`mkpasswd_needs_rehash_bytes`] does not report it as outdated.
///
/// # Errors
///
/// - `PasswordTooLong`, `PasswordZeroByte`: the password is invalid.
/// - `UnknownMethod`, `Rounds`: no method has the number, or the method does not accept the rounds, or would clamp
///   them.
/// - `OverBudget`: the hash can cost more than the budget.
/// - `TooFewBytes`: the hash and the zero byte do not fit into `out`.
/// - `NoRandomNumbers`: `numbers` does not have three.
/// - `OutOfMemory`: scrypt could not allocate.
#[unsafe(no_mangle)]
pub extern "C" fn mkpasswd_proved_new_from(
    alloc: Global,
    password: &[u8],
    method: u32,
    rounds: u32,
    budget: u64,
    numbers: &[u64],
    out: &mut [u8],
    report: &mut Report,
) -> i32
    ensures answers { Answers result report.new }
    ensures hashes { HashesAnew password.now method rounds (limit_of method rounds budget (length password.now)) numbers.now out.old report.new out.new }
    ensures locked { result ≡ pos 0 → out.new ≡ put (token []) out.old }
    ensures writes { (scheme : Scheme) → IsSchemeMade TakesNewRounds method rounds scheme → budget ≡ default_budget → IsPassword password.now
        → new_cost scheme (length password.now) ≤ policy_limit scheme → length numbers.now ≡ 3
        → length (crypt password.now (salted scheme numbers.now)) < length out.old
        → (result ≡ pos 1) ⊎ (report.new.error ≡ (reason_row OutOfMemory).0) }
    ensures then_opens { result ≡ pos 1 → Opens password.now (take report.new.length out.new) (limit_of method rounds budget (length password.now)) }
    ensures then_current { result ≡ pos 1 → Rehashes (take report.new.length out.new) method rounds (found 0 0 no_work) }
{
    let mut heap = alloc;
    write_report(
        report,
        put_new_hash(
            &mut heap,
            password,
            method,
            rounds,
            numbers,
            Limit::of(budget),
            out,
            &mut Meter::new(),
        ),
    )
}

/// Returns 1 if a new hash with the method and the rounds would replace the stored one.
///
/// A new hash would replace a stored one that has another method, fewer rounds, or for scrypt a smaller `N * r * p`.
/// The report's `outdated` is the same 0 or 1. If the arguments are valid, the report's `error` is 0 whichever it is.
/// The call hashes and allocates nothing.
///
/// # Errors
///
/// - `SettingTooLong` to `BadSalt`: the stored hash is invalid.
/// - `UnknownMethod`, `Rounds`: no method has the number, or the method does not accept the rounds.
#[unsafe(no_mangle)]
pub extern "C" fn mkpasswd_needs_rehash_bytes(
    stored: &[u8],
    method: u32,
    rounds: u32,
    report: &mut Report,
) -> i32
    ensures answers { AnswersOutdated result report.new }
    ensures outdated { result ≡ pos 1 ↔ IsOutdated stored.now method rounds }
    ensures rehashes { Rehashes stored.now method rounds report.new }
{
    write_report_is_outdated(report, report_rehash(stored, method, rounds))
}

/// Audits the stored hash in a field. Returns 1 if it is current: it is whole, no hash with its setting costs more than
/// the budget, and a new hash with the method and the rounds would not replace it.
///
/// A budget of 0 is the greatest cost of a hash with the method and the rounds, and at least that of sha512crypt with
/// 656000 rounds. With a budget of 0, a hash is also over budget if with its setting even the empty password costs more
/// than the limit of the policy: then no login with the method, the rounds and a budget of 0 checks any password
/// against it.
///
/// For a valid hash the report has the scheme, its rounds, or scrypt's N, r and p, and the greatest cost of a hash with
/// its setting, for a password of 1,024 bytes. After `UnknownScheme` the report has the number of the scheme of
/// crypt(5) that the field looks like, or 0 if it looks like none that is known. The call hashes and allocates nothing.
///
/// # Errors
///
/// - `UnknownMethod`, `Rounds`: no method has the number, or a new hash cannot have the rounds.
/// - `Locked`, `NoHash`: the field begins with `!` or `*`, or is empty.
/// - `SettingTooLong` to `BadSalt`: the field begins with `$`, but not with a valid setting. `UnknownScheme` is also
///   the error for a field without `$` that looks like another scheme of crypt(5).
/// - `NoScheme`: the field does not look like a hash of any scheme: it is a password, say, or a damaged hash.
/// - `OverBudget`: a hash with its setting can cost more than the budget.
/// - `Dead`: no password matches the hash, because it was cut or changed: it is not a setting in canonical form, a `$`
///   and an encoded digest.
///
/// If a new hash would replace the stored one and none of these errors applies, the report's `error` is 0 and its
/// `outdated` is 1.
#[unsafe(no_mangle)]
pub extern "C" fn mkpasswd_audit_bytes(
    field: &[u8],
    method: u32,
    rounds: u32,
    budget: u64,
    report: &mut Report,
) -> i32
    ensures answers { AnswersCurrent result report.new }
    ensures current { result ≡ pos 1 ↔ IsCurrent field.now method rounds budget }
    ensures audits { Audits field.now method rounds budget report.new }
    ensures checked { ForeseesLogins field.now method rounds budget report.new }
    ensures idle { report.new.work ≡ no_work }
{
    write_report_is_current(report, report_audit(field, method, rounds, budget))
}

/// Reports the limit on the cost of a login and of a new hash for a method, rounds and a budget, and the length of the
/// longest password whose new hash is within it.
///
/// The cost in the report is the limit: the budget, or for a budget of 0 the limit of the policy. New hashes of
/// passwords of up to the reported length are within the limit, and those of longer ones are not. The rounds in the
/// report are those of new hashes; if `rounds` is 0, they are the recommended ones.
///
/// # Errors
///
/// - `UnknownMethod`, `Rounds`: no method has the number, or a new hash cannot have the rounds.
/// - `OverBudget`: no new hash is within the limit. The cost in the report is the limit.
#[unsafe(no_mangle)]
pub extern "C" fn mkpasswd_limit_bytes(
    method: u32,
    rounds: u32,
    budget: u64,
    report: &mut Report,
) -> i32
    ensures answers { Answers result report.new }
    ensures limits { Limits method rounds (meant budget) report.new }
{
    write_report(report, report_limit(method, rounds, Limit::of(budget)))
}

/// Reports rounds with which a new hash of any password of this length is within the limit for a method, rounds and a
/// budget, and the cost of that hash.
///
/// If a new hash with the method and the given rounds is within the limit, the reported rounds are those of that hash.
/// Otherwise they are fewer rounds of SHA-crypt: as many as are sure to be within the limit, but at least 1000. Pass
/// the reported rounds to [`mkpasswd_proved_new_from`], and pass the limit that [`mkpasswd_limit_bytes`] reports as the
/// budget to that call and to [`mkpasswd_proved_login`]: with a budget of 0, fewer rounds would have a lower limit.
///
/// # Errors
///
/// - `PasswordTooLong`: the length exceeds that of any password.
/// - `UnknownMethod`, `Rounds`: no method has the number, or a new hash cannot have the rounds.
/// - `OverBudget`: no new hash of a password of this length is within the limit: with any rounds for SHA-crypt, and
///   with the given ones for the other methods. This never happens with a budget of 0.
#[unsafe(no_mangle)]
pub extern "C" fn mkpasswd_rounds_bytes(
    password_len: usize,
    method: u32,
    rounds: u32,
    budget: u64,
    report: &mut Report,
) -> i32
    ensures answers { Answers result report.new }
    ensures rounds { ReportsRounds password_len method rounds (meant budget) report.new }
    ensures fitted { (scheme : Scheme) → IsSchemeMade TakesNewRounds method rounds scheme → result ≡ pos 1
        → AreFitted password_len method (limit_bytes (meant budget) scheme) scheme report.new }
    ensures none { (scheme : Scheme) → IsSchemeMade TakesNewRounds method rounds scheme → password_len ≤ password_limit
        → result ≡ pos 0 → NeverFits scheme (limit_bytes (meant budget) scheme) password_len }
    ensures policy { (scheme : Scheme) → IsSchemeMade TakesNewRounds method rounds scheme → password_len ≤ password_limit
        → budget ≡ default_budget → result ≡ pos 1 }
{
    let reported = report_rounds(password_len, method, rounds, Limit::of(budget));
    write_report(report, reported)
}

/// Reports the greatest cost and the greatest work of a hash with this setting, for any password of this length. The
/// call hashes and allocates nothing.
///
/// # Errors
///
/// - `PasswordTooLong`: the length exceeds that of any password.
/// - `SettingTooLong` to `BadSalt`: the setting is invalid.
#[unsafe(no_mangle)]
pub extern "C" fn mkpasswd_bound_bytes(
    stored: &[u8],
    password_len: usize,
    report: &mut Report,
) -> i32
    ensures answers { Answers result report.new }
    ensures bounds { Bounds password_len stored.now report.new }
{
    write_report(report, report_bound(password_len, stored))
}

/// Hashes a password with a setting, and writes the hash and a zero byte to `out`. With the same budget,
/// [`mkpasswd_proved_verify`] accepts the hash for the password, unless scrypt could not allocate.
///
/// After an error, `out` holds the token `*0`, or `*1` if the setting begins with `*0`.
///
/// # Errors
///
/// - `PasswordTooLong` to `BadSalt`: the password or the setting is invalid.
/// - `OverBudget`: the hash can cost more than the budget.
/// - `TooFewBytes`: the hash and the zero byte do not fit into `out`.
/// - `OutOfMemory`: scrypt could not allocate.
#[unsafe(no_mangle)]
pub extern "C" fn mkpasswd_proved_hash(
    alloc: Global,
    password: &[u8],
    setting: &[u8],
    budget: u64,
    out: &mut [u8],
    report: &mut Report,
) -> i32
    ensures answers { Answers result report.new }
    ensures hashes { Hashes password.now setting.now budget out.old report.new out.new }
    ensures then_opens { result ≡ pos 1 → Opens password.now (take report.new.length out.new) budget }
    ensures within { result ≡ pos 1 → report.new.cost ≤ budget }
    ensures locked { result ≡ pos 0 → out.new ≡ put (token setting.now) out.old }
    ensures apart { (token setting.now ≢ setting.now) × ((kept : SettingValue) → ¬ Spells (token setting.now) kept) }
{
    let mut heap = alloc;
    let reported = put_hash(&mut heap, password, setting, budget, out, &mut Meter::new());
    write_report(report, reported)
}

/// Makes a setting with a method, the rounds and a given salt, and writes it and a zero byte to `out`.
///
/// # Errors
///
/// - `UnknownMethod`: no method has the number.
/// - `SaltLength`, `SaltCharacter`: the salt is empty, is longer than the method allows, or has a character outside
///   crypt's alphabet.
/// - `Rounds`: the method does not accept the rounds, or would clamp them.
/// - `TooFewBytes`: the setting and the zero byte do not fit into `out`.
#[unsafe(no_mangle)]
pub extern "C" fn mkpasswd_setting_bytes(
    method: u32,
    rounds: u32,
    salt: &[u8],
    out: &mut [u8],
    report: &mut Report,
) -> i32
    ensures answers { Answers result report.new }
    ensures puts { PutsGivenSetting method rounds salt.now out.old report.new out.new }
    ensures locked { result ≡ pos 0 → out.new ≡ put (token []) out.old }
{
    let reported = put_setting_with_salt(method, rounds, salt, out);
    write_report(report, reported)
}

/// Writes the message for the reason with this number to `out`, followed by a zero byte. If `out` is too small, the
/// message is cut so that the zero byte fits. If no reason has the number, the message is `unknown reason`.
///
/// Returns 1, or 0 if the message was cut or no reason has the number.
#[unsafe(no_mangle)]
pub extern "C" fn mkpasswd_message_bytes(error: u32, out: &mut [u8]) -> i32
    ensures { PutsMessage error out.old result out.new }
{
    put_message(error, out)
}

/// Writes the crypt(5) name of the scheme with this number to `out`, followed by a zero byte. If `out` is too small,
/// the name is cut so that the zero byte fits. If no scheme has the number, the name is `unknown scheme`.
///
/// Returns 1, or 0 if the name was cut or no scheme has the number.
#[unsafe(no_mangle)]
pub extern "C" fn mkpasswd_scheme_name_bytes(scheme: u32, out: &mut [u8]) -> i32
    ensures { PutsSchemeName scheme out.old result out.new }
{
    put_scheme_name(scheme, out)
}

/// Returns the version as the number `10000 * major + 100 * minor + patch`.
#[unsafe(no_mangle)]
pub extern "C" fn mkpasswd_version() -> u32
    ensures { result ≡ VERSION_NUMBER }
{
    VERSION_NUMBER
}
