//! Reads the arguments of a call: a password, a setting, a method's number and rounds, a given salt, and the hash in a
//! stored field. Each function returns the value, or the reason why it refuses the argument.
ghost use Rattle.std.specs.Prelude.{◌≡◌, ◌≢◌, ◌↔◌, length, IfOk, IfErr, IsOk, IsOkAnd, IsTrue};
ghost use Rattle.prims_core.specs.Work.{no_work};
ghost use Rattle.crypt_core.specs.MadeSettings.{TakesRounds};
ghost use Rattle.crypt_core.specs.Passwords.{IsPassword, IsPasswordRefused};
ghost use Rattle.crypt_core.specs.Refusals.{IsRefused};
ghost use Rattle.crypt_core.specs.Settings.{SettingValue, Spells};
ghost use Rattle.crypt_core.specs.StoredFields.{IsHashOf};
ghost use Rattle.crypt_core.specs.declared.password.PasswordFault.{PasswordFault as Fault};
ghost use Rattle.crypt_core.specs.declared.scheme.Scheme.{Scheme as Made};
ghost use Rattle.crypt_core.specs.declared.setting.fault.SettingFault.{SettingFault as Broken};
ghost use Rattle.call_core.specs.Arguments.{IsFieldRefusal, IsGivenReading, IsSchemeMade, IsSchemeReading, TakesNewRounds, chosen_method};
ghost use Rattle.call_core.specs.Limits.{limit_in};
ghost use Rattle.call_core.specs.Private.Hashes.{IsRequestRefused};
ghost use Rattle.call_core.specs.Private.Settings.{IsClamped};
ghost use Rattle.call_core.specs.Reasons.{password_reason, setting_reason};

use crate::limit::Limit;
use crate::reason::Reason;
use crate::report::Report;
use crypt_core::method::Method;
use crypt_core::password::Password;
use crypt_core::scheme::Scheme;
use crypt_core::setting::Setting;
use crypt_core::stored::{StoredField, StoredHash};

/// Reads a password.
///
/// # Errors
///
/// The reason why [`Password::new`] refuses the bytes.
pub(crate) fn read_password(bytes: &[u8]) -> Result<Password, Reason>
    ensures ok { IfOk result (λ password. (password ≡ bytes.now) × IsPassword bytes.now) }
    ensures refused { IfErr result (λ reason. (fault : Fault) × IsPasswordRefused bytes.now fault × (reason ≡ password_reason fault)) }
    ensures admits { IsPassword bytes.now → IsOk result }
{
    Ok(Password::new(bytes)?)
}

/// Reads a setting.
///
/// # Errors
///
/// The reason why [`Setting::read`] refuses the text.
pub(crate) fn read_setting(text: &[u8]) -> Result<Setting, Reason>
    ensures spelled { IfOk result (λ setting. Spells text.now setting) }
    ensures refused { IfErr result (λ reason. (fault : Broken) × IsRefused text.now fault × (reason ≡ setting_reason fault)) }
    ensures each_setting { (kept : SettingValue) → Spells text.now kept → IsOkAnd result (λ setting. setting ≡ kept) }
{
    Ok(Setting::read(text)?)
}

// Returns the method with this number. The number 0 means the recommended method.
fn chosen_method(number: u32) -> Option<Method>
    ensures { result ≡ chosen_method number }
{
    if number == 0 {
        return Some(Method::Sha512crypt);
    }
    Method::numbered(number)
}

/// Returns the scheme that a method's number and the rounds ([`Method::chosen_rounds`]) make.
///
/// # Errors
///
/// - `UnknownMethod`: no method has the number.
/// - `Rounds`: the method does not take the rounds.
pub(crate) fn scheme_of(number: u32, rounds: u32) -> Result<Scheme, Reason>
    ensures { IsSchemeReading TakesRounds number rounds result }
{
    let Some(method) = chosen_method(number) else {
        return Err(Reason::UnknownMethod);
    };
    match Scheme::made(method, method.chosen_rounds(rounds)) {
        Ok(scheme) => Ok(scheme),
        Err(_) => Err(Reason::Rounds),
    }
}

/// Returns the scheme of new hashes that a method's number and the rounds make.
///
/// # Errors
///
/// - `UnknownMethod`: no method has the number.
/// - `Rounds`: the method does not take the rounds, or would clamp them.
pub(crate) fn new_scheme_of(number: u32, rounds: u32) -> Result<Scheme, Reason>
    ensures { IsSchemeReading TakesNewRounds number rounds result }
{
    let scheme = scheme_of(number, rounds)?;
    if is_clamped(&scheme, rounds) {
        return Err(Reason::Rounds);
    }
    Ok(scheme)
}

/// Returns the setting of a new hash that a method's number, the rounds and a given salt make.
///
/// # Errors
///
/// - `UnknownMethod`: no method has the number.
/// - `SaltLength`, `SaltCharacter`: the salt is empty, is longer than the method allows, or has a character outside
///   crypt's alphabet.
/// - `Rounds`: the method does not take the rounds, or would clamp them.
pub(crate) fn given_setting(number: u32, rounds: u32, salt: &[u8]) -> Result<Setting, Reason>
    ensures { IsGivenReading number rounds salt.now result }
{
    let Some(method) = chosen_method(number) else {
        return Err(Reason::UnknownMethod);
    };
    let setting = Setting::make(method, method.chosen_rounds(rounds), salt)?;
    if is_clamped(&setting.scheme(), rounds) {
        return Err(Reason::Rounds);
    }
    Ok(setting)
}

// Returns whether the scheme has other rounds than the caller asked for (`rounds`), because SHA-crypt clamped them. For
// 0, `Method::chosen_rounds` chooses rounds that are never clamped.
fn is_clamped(scheme: &Scheme, rounds: u32) -> bool
    ensures { IsTrue result ↔ IsClamped scheme.now rounds }
{
    match scheme {
        Scheme::Shacrypt(_, kept) => rounds != 0 && kept.count() != rounds,
        _ => false,
    }
}

/// The arguments that a login and a new hash have in common.
#[derive(Drop)]
pub(crate) struct Request {
    pub(crate) password: Password,
    /// The scheme of new hashes.
    pub(crate) scheme: Scheme,
    /// The most that a hash of the password may cost, in bytes digested and mixed.
    pub(crate) limit: u64,
}

/// Reads the arguments that a login and a new hash have in common: a password, a method's number and rounds, and a
/// limit.
///
/// # Errors
///
/// The report of the first refusal. The password is read first, and then the method and the rounds, by
/// [`new_scheme_of`].
pub(crate) fn read_request(
    password: &[u8],
    number: u32,
    rounds: u32,
    limit: Limit,
) -> Result<Request, Report>
    ensures password { IfOk result (λ request. (request.password ≡ password.now) × IsPassword password.now) }
    ensures scheme { IfOk result (λ request. IsSchemeMade TakesNewRounds number rounds request.scheme) }
    ensures limit { IfOk result (λ request. request.limit ≡ limit_in number rounds limit (length password.now)) }
    ensures refused { IfErr result (IsRequestRefused password.now number rounds) }
    ensures idle { IfErr result (λ report. (report.error ≢ 0) × (report.work ≡ no_work)) }
    ensures admits { (scheme : Made) → IsPassword password.now → IsSchemeMade TakesNewRounds number rounds scheme → IsOk result }
{
    let password = read_password(password)?;
    let scheme = new_scheme_of(number, rounds)?;
    let limit = limit.allowance(&scheme, password.bytes().len());
    Ok(Request {
        password,
        scheme,
        limit,
    })
}

/// Returns the stored hash in a field, as [`StoredField::read`] reads it.
///
/// # Errors
///
/// - `NoHash`: the field is empty.
/// - `Locked`: the field begins with `!` or `*`, whatever follows.
/// - For any other field that is not a stored hash: the reason for the first rule of settings that it breaks.
pub(crate) fn stored_hash(field: &[u8]) -> Result<StoredHash<'_>, Reason>
    ensures spelled { IfOk result (IsHashOf field.now) }
    ensures refused { IfErr result (IsFieldRefusal field.now) }
    ensures each_setting { (kept : SettingValue) → Spells field.now kept → IsOkAnd result (λ stored. stored.setting ≡ kept) }
{
    match StoredField::read(field) {
        Ok(StoredField::Empty) => Err(Reason::NoHash),
        Ok(StoredField::Locked) => Err(Reason::Locked),
        Ok(StoredField::Hash(stored)) => Ok(stored),
        Err(fault) => Err(Reason::from(fault)),
    }
}
