//! Parses a setting, or finds the first rule that it breaks.
//!
//! The parser takes the prefix, the cost part and the salt off the front, in this order. It allocates nothing and
//! digests nothing. A number of any length can't overflow, because the parser caps it after each digit.

ghost use Rattle.std.specs.Prelude.{◌≡◌, ◌≤◌, ◌↔◌, ℕ, List, length, ◌++◌, min, take, IsTrue, IfOk, IfErr, OnOk, OnSome, IfSome, IfNone};
ghost use Rattle.std.specs.Str.Parse.{digits_value};
ghost use Rattle.kdf_core.specs.Params.{scrypt_params, IsAccepted};
ghost use Rattle.crypt_core.specs.declared.setting.fault.SettingFault.{SettingFault as Refusal};
ghost use Rattle.crypt_core.specs.MethodLimits.{prefix};
ghost use Rattle.crypt_core.specs.Private.Parts.{AllRefused, HasField, HasNumber, HasNumbers, IsSettingText, LacksCharacters, LacksNumber, LacksSalt, SpellsSalt};
ghost use Rattle.crypt_core.specs.Readings.{IsReadOneWay};
ghost use Rattle.crypt_core.specs.Refusals.{IsRefused};
ghost use Rattle.crypt_core.specs.Schemes.{sha_method};
ghost use Rattle.crypt_core.specs.Settings.{BeginsWith, SettingValue, IsSettingByte, IsRoundsNumber, IsScryptSalt, SpellsScheme, Spells};
ghost use Rattle.crypt_core.specs.Rounds.{max_rounds};
ghost use Rattle.crypt_core.specs.TextLimits.{scrypt_part_len};

use super::fault::SettingFault;
use super::{ROUNDS_WORD, SCRYPT_PART_LEN, SETTING_LIMIT, Setting, in_alphabet};
use crate::method::{Method, SCRYPT_SALT_LIMIT};
use crate::scheme::{MAX_ROUNDS, Rounds, Scheme, Sha};
use arrayvec::ArrayVec;
use kdf_core::params::{ParamFault, Params};
use prims_core::alphabet::{read_30, value_of};

impl Setting {
    /// Returns the setting (crypt(5)) that a string spells. The string may also be a stored hash, which begins with its
    /// setting.
    ///
    /// Whatever comes after the `$` that ends the salt must obey the rules on length and bytes, and is otherwise
    /// ignored. For example, `$5$rounds=10$salt$x` is sha256crypt with 1000 rounds and the salt `salt`.
    ///
    /// # Errors
    ///
    /// The first rule that the string breaks, in the order of [`SettingFault`].
    #[tactic(auto, using(crate::proofs::Refusals::one_reading))]
    pub fn read(text: &[u8]) -> Result<Setting, SettingFault>
        ensures spelled { IfOk result (Spells text.now) }
        ensures each_setting { (kept : SettingValue) → Spells text.now kept → result ≡ Ok kept }

        ensures refused { IfErr result (IsRefused text.now) }
        ensures each_refusal { (fault : Refusal) → IsRefused text.now fault → result ≡ Err fault }

        ensures one_reading { IsReadOneWay text.now }
    {
        check_bytes(text)?;
        match scheme_at(text) {
            Ok((scheme, after)) => match salt_at(scheme.method(), after) {
                Some(salt) => Ok(Setting { scheme, salt }),
                None => Err(SettingFault::BadSalt),
            },
            Err(fault) => Err(fault),
        }
    }
}

// Checks that the string is no longer than a setting can be, and has only bytes that a setting can have.
fn check_bytes(text: &[u8]) -> Result<(), SettingFault>
    ensures ok { OnOk result (IsSettingText text.now) }
    ensures err { IfErr result (IsRefused text.now) }
{
    if text.len() > SETTING_LIMIT {
        return Err(SettingFault::TooLong);
    }
    if !text.iter().all(|byte| is_setting_byte(*byte)) {
        return Err(SettingFault::BadCharacter);
    }
    Ok(())
}

fn is_setting_byte(byte: u8) -> bool
    ensures { IsTrue result ↔ IsSettingByte byte }
{
    byte.is_ascii_graphic() && !b":;*!\\".contains(&byte)
}

// Returns the scheme at the front of the string, and what follows its prefix and cost part.
fn scheme_at(text: &[u8]) -> Result<(Scheme, &[u8]), SettingFault>
    requires { IsSettingText text.now }
    ensures ok { IfOk result (λ x. SpellsScheme text.now x.0 x.1.now) }
    ensures err { IfErr result (IsRefused text.now) }
{
    if let Some(after) = after_prefix(text, Method::Md5crypt) {
        return Ok((Scheme::Md5crypt, after));
    }
    if let Some(after) = after_prefix(text, Method::Sha256crypt) {
        return shacrypt_at(Sha::Sha256, after);
    }
    if let Some(after) = after_prefix(text, Method::Sha512crypt) {
        return shacrypt_at(Sha::Sha512, after);
    }
    if let Some(after) = after_prefix(text, Method::Scrypt) {
        let params = params_at(after)?;
        return Ok((Scheme::Scrypt(params), &after[SCRYPT_PART_LEN..]));
    }
    Err(SettingFault::UnknownScheme)
}

// Returns what follows the method's prefix, or `None` if the text doesn't begin with it.
fn after_prefix(text: &[u8], method: Method) -> Option<&[u8]>
    ensures found { IfSome result (λ after. text.now ≡ prefix method ++ after.now) }
    ensures lacks { IfNone result (¬ BeginsWith text.now (prefix method)) }
{
    text.strip_prefix(method.row().prefix)
}

// Returns SHA-crypt with the rounds of the `rounds=` field after the prefix, or the default rounds without such a
// field, and what follows the field.
fn shacrypt_at(sha: Sha, after: &[u8]) -> Result<(Scheme, &[u8]), SettingFault>
    ensures ok { IfOk result (λ x. (text : List ℕ) → text ≡ prefix (sha_method sha) ++ after.now
        → SpellsScheme text x.0 x.1.now) }
    ensures err { IfErr result (AllRefused (λ text. text ≡ prefix (sha_method sha) ++ after.now)) }
{
    let Some(field) = after.strip_prefix(ROUNDS_WORD) else {
        return Ok((Scheme::Shacrypt(sha, Rounds::unwritten()), after));
    };
    let Some((number, rest)) = number_at(field) else {
        return Err(SettingFault::BadRounds);
    };
    Ok((Scheme::Shacrypt(sha, Rounds::written(number)), rest))
}

// Returns the number at the front, capped at the most rounds, and what follows the `$` after it; or `None` if the front
// is not a number and a `$`.
fn number_at(field: &[u8]) -> Option<(u64, &[u8])>
    ensures none { IfNone result (LacksNumber field.now) }
    ensures some { IfSome result (λ x. HasNumber field.now x.0 x.1.now) }
{
    let end = field_len(field);
    let digits = &field[..end];
    if end == field.len() || !is_rounds_number(digits) {
        return None;
    }
    Some((capped_number(digits), &field[end + 1..]))
}

// Returns whether these are the digits of a number without a leading zero.
fn is_rounds_number(digits: &[u8]) -> bool
    ensures { IsTrue result ↔ IsRoundsNumber digits.now }
{
    match digits {
        [] => false,
        [first, others @ ..] => {
            matches!(first, b'1'..=b'9') && others.iter().all(|digit| matches!(digit, b'0'..=b'9'))
        }
    }
}

// Returns the number that the digits spell, but at most `MAX_ROUNDS`. Capping after each digit keeps a number of any
// length from overflowing.
fn capped_number(digits: &[u8]) -> u64
    requires { IsRoundsNumber digits.now }
    ensures { result ≡ min (digits_value 10 digits.now) max_rounds }
{
    let mut number = 0;
    for digit in digits {
        number = (number * 10 + u64::from(*digit - b'0')).min(MAX_ROUNDS);
    }
    number
}

// Returns the parameters that the characters after scrypt's prefix encode.
fn params_at(after: &[u8]) -> Result<Params, SettingFault>
    ensures ok { IfOk result (λ cost. HasNumbers after.now cost × IsAccepted cost) }
    ensures long { OnOk result (scrypt_part_len ≤ length after.now) }
    ensures err { IfErr result (AllRefused (λ text. text ≡ prefix Method.Scrypt ++ after.now)) }
{
    let Some((log_n, r, p)) = numbers_at(after) else {
        return Err(SettingFault::BadCost);
    };
    match Params::new(log_n, r, p) {
        Ok(params) => Ok(params),
        Err(ParamFault::Range) => Err(SettingFault::ScryptRange),
        Err(ParamFault::AboveCeiling) => Err(SettingFault::AboveCeiling),
    }
}

// Returns log2 N, r and p, which the first 11 characters encode (one, five and five of them), or `None` if these are
// not 11 characters of crypt's alphabet.
fn numbers_at(after: &[u8]) -> Option<(u8, u32, u32)>
    ensures none { IfNone result (LacksCharacters after.now) }
    ensures long { OnSome result (scrypt_part_len ≤ length after.now) }
    ensures some { IfSome result (λ x. HasNumbers after.now (scrypt_params x.0 x.1 x.2)) }
{
    if after.len() < SCRYPT_PART_LEN {
        return None;
    }
    let log_n = value_of(after[0])?;
    let r = read_30(&after[1..6])?;
    let p = read_30(&after[6..SCRYPT_PART_LEN])?;
    Some((log_n, r, p))
}

// Returns what the method keeps of the salt's field, or `None` if the method is scrypt and the field isn't a salt of
// scrypt.
fn salt_at(method: Method, after: &[u8]) -> Option<ArrayVec<u8, SCRYPT_SALT_LIMIT>>
    ensures none { IfNone result (LacksSalt method after.now) }
    ensures some { IfSome result (λ salt. SpellsSalt method after.now salt.items) }
{
    let field = &after[..field_len(after)];
    if method != Method::Scrypt {
        return Some(ArrayVec::try_from(
            &field[..field.len().min(method.row().salt_limit)],
        ).unwrap());
    }
    if !is_scrypt_salt(field) {
        return None;
    }
    Some(ArrayVec::try_from(field).unwrap())
}

// Returns the length of the field at the front, which ends before the first `$`.
fn field_len(after: &[u8]) -> usize
    ensures field { HasField after.now (take result after.now) }
    ensures within { result ≤ length after.now }
{
    after
        .iter()
        .position(|byte| *byte == b'$')
        .unwrap_or(after.len())
}

fn is_scrypt_salt(salt: &[u8]) -> bool
    ensures { IsTrue result ↔ IsScryptSalt salt.now }
{
    salt.len() <= SCRYPT_SALT_LIMIT && in_alphabet(salt)
}
