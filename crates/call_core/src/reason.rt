//! The reasons why a call did not do what its name says, with their numbers and messages. tools/reasons checks that
//! `c/mkpasswd.h` has the same list as the definition (specs/Reasons.antt), and makes the lists of other languages from
//! that header.
ghost use Rattle.std.specs.Prelude.{◌≡◌, IfSome};
ghost use Rattle.call_core.specs.Reasons.{reason_numbered, reason_row};

use crypt_core::hash::HashFault;
use crypt_core::password::PasswordFault;
use crypt_core::setting::{MakeFault, SettingFault};

/// Why a call did not do what its name says. The number is the `error` in the report; 0 means no error.
#[derive(Clone, Copy, Debug, PartialEq, Eq)]
pub enum Reason {
    /// The password has more than 1,024 bytes.
    PasswordTooLong = 1,
    /// The password has a zero byte.
    PasswordZeroByte = 2,
    /// The setting has more than 384 bytes.
    SettingTooLong = 3,
    /// The setting has a byte that no setting may have, such as a line end.
    BadCharacter = 4,
    /// The setting begins with none of `$1$`, `$5$`, `$6$` and `$7$`.
    UnknownScheme = 5,
    /// The setting has `rounds=` without a valid number.
    BadRounds = 6,
    /// The cost part of scrypt's setting is not eleven characters of `./0-9A-Za-z`.
    BadCost = 7,
    /// N, r or p in scrypt's setting is out of its range.
    ScryptRange = 8,
    /// The product of N, r and p in scrypt's setting is above 8388608.
    AboveCeiling = 9,
    /// The salt in scrypt's setting is too long, or has a character outside `./0-9A-Za-z`.
    BadSalt = 10,
    /// No method has the number.
    UnknownMethod = 11,
    /// The given salt is empty, or longer than the method allows.
    SaltLength = 12,
    /// The given salt has a character outside `./0-9A-Za-z`.
    SaltCharacter = 13,
    /// The method can't use the rounds for new hashes: SHA-crypt takes 0 and 1000 to 999999999, scrypt 0 and 6 to 11.
    Rounds = 14,
    /// The field begins with `!` or `*`.
    Locked = 15,
    /// The field is empty.
    NoHash = 16,
    /// The field has the form of no scheme: it is a password, say, or a damaged hash.
    NoScheme = 17,
    /// The hash can cost more than the budget.
    OverBudget = 18,
    /// `out` is too small for the result and a zero byte.
    TooFewBytes = 19,
    /// The system gave no random numbers for a salt.
    NoRandomNumbers = 20,
    /// scrypt did not get its memory. No other method needs any.
    OutOfMemory = 21,
    /// The password does not match the stored hash.
    WrongPassword = 22,
    /// No password matches the stored hash, because it was cut or changed.
    Dead = 23,
}

// All reasons, in the order of their numbers.
const REASONS: [Reason; 23] = [
    Reason::PasswordTooLong,
    Reason::PasswordZeroByte,
    Reason::SettingTooLong,
    Reason::BadCharacter,
    Reason::UnknownScheme,
    Reason::BadRounds,
    Reason::BadCost,
    Reason::ScryptRange,
    Reason::AboveCeiling,
    Reason::BadSalt,
    Reason::UnknownMethod,
    Reason::SaltLength,
    Reason::SaltCharacter,
    Reason::Rounds,
    Reason::Locked,
    Reason::NoHash,
    Reason::NoScheme,
    Reason::OverBudget,
    Reason::TooFewBytes,
    Reason::NoRandomNumbers,
    Reason::OutOfMemory,
    Reason::WrongPassword,
    Reason::Dead,
];

impl Reason {
    /// Returns the number of the reason.
    pub fn number(self) -> u32
        ensures { result ≡ (reason_row self).0 }
    {
        self as u32
    }

    /// Returns the reason with the number, or `None` if no reason has it.
    pub fn numbered(number: u32) -> Option<Reason>
        ensures numbered { result ≡ reason_numbered number }
        ensures known { IfSome result (λ reason. number ≡ (reason_row reason).0) }
    {
        REASONS
            .iter()
            .copied()
            .find(|reason| number == reason.number())
    }

    /// Returns the message for the reason.
    pub fn message(self) -> &'static str
        ensures { result.now ≡ (reason_row self).1 }
    {
        match self {
            Reason::PasswordTooLong => PasswordFault::TooLong.text(),
            Reason::PasswordZeroByte => PasswordFault::HasNul.text(),
            Reason::SettingTooLong => SettingFault::TooLong.text(),
            Reason::BadCharacter => SettingFault::BadCharacter.text(),
            Reason::UnknownScheme => SettingFault::UnknownScheme.text(),
            Reason::BadRounds => SettingFault::BadRounds.text(),
            Reason::BadCost => SettingFault::BadCost.text(),
            Reason::ScryptRange => SettingFault::ScryptRange.text(),
            Reason::AboveCeiling => SettingFault::AboveCeiling.text(),
            Reason::BadSalt => SettingFault::BadSalt.text(),
            Reason::UnknownMethod => "unknown method",
            Reason::SaltLength => MakeFault::SaltLength.text(),
            Reason::SaltCharacter => MakeFault::SaltCharacter.text(),
            Reason::Rounds => "rounds out of range",
            Reason::Locked => "locked",
            Reason::NoHash => "no hash",
            Reason::NoScheme => "no scheme",
            Reason::OverBudget => "over budget",
            Reason::TooFewBytes => "too few bytes",
            Reason::NoRandomNumbers => "no random numbers",
            Reason::OutOfMemory => HashFault::OutOfMemory.text(),
            Reason::WrongPassword => "wrong password",
            Reason::Dead => "dead",
        }
    }
}

impl From<PasswordFault> for Reason {
    ghost use Rattle.call_core.specs.Reasons.{password_reason};

    ghost from_gives = { λ fault reason. reason ≡ password_reason fault };

    fn from(fault: PasswordFault) -> Reason {
        match fault {
            PasswordFault::TooLong => Reason::PasswordTooLong,
            PasswordFault::HasNul => Reason::PasswordZeroByte,
        }
    }
}

impl From<SettingFault> for Reason {
    ghost use Rattle.call_core.specs.Reasons.{setting_reason};

    ghost from_gives = { λ fault reason. reason ≡ setting_reason fault };

    fn from(fault: SettingFault) -> Reason {
        match fault {
            SettingFault::TooLong => Reason::SettingTooLong,
            SettingFault::BadCharacter => Reason::BadCharacter,
            SettingFault::UnknownScheme => Reason::UnknownScheme,
            SettingFault::BadRounds => Reason::BadRounds,
            SettingFault::BadCost => Reason::BadCost,
            SettingFault::ScryptRange => Reason::ScryptRange,
            SettingFault::AboveCeiling => Reason::AboveCeiling,
            SettingFault::BadSalt => Reason::BadSalt,
        }
    }
}

impl From<MakeFault> for Reason {
    ghost use Rattle.call_core.specs.Reasons.{make_reason};

    ghost from_gives = { λ fault reason. reason ≡ make_reason fault };

    fn from(fault: MakeFault) -> Reason {
        match fault {
            MakeFault::SaltLength => Reason::SaltLength,
            MakeFault::SaltCharacter => Reason::SaltCharacter,
            MakeFault::Cost => Reason::Rounds,
        }
    }
}
