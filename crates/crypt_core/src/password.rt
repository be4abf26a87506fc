//! Passwords: which bytes are accepted, whatever the scheme.
ghost use Rattle.std.specs.Prelude.{◌≡◌, ℕ, ◌<◌, ◌≤◌, ◌↔◌, List, length, Contains, IfOk, IfErr, IsErrOf};
ghost use Rattle.crypt_core.specs.Passwords.{password_limit, IsPassword, IsPasswordRefused};

use arrayvec::ArrayVec;
use std::marker::Model;
use thiserror::Error;

/// The most bytes of a password.
pub const PASSWORD_LIMIT: usize = 1024;

/// Why bytes are not a password. If both of these errors apply, the first of them is reported.
#[derive(Clone, Copy, Debug, PartialEq, Eq, Drop, Error)]
#[error("{}", self.text())]
pub enum PasswordFault {
    /// The password has more than [`PASSWORD_LIMIT`] bytes.
    TooLong,
    /// The password has a zero byte, which would end it in C.
    HasNul,
}

impl PasswordFault {
    ghost use Rattle.crypt_core.specs.Faults.{password_fault_text};

    /// Returns the message of the error.
    pub fn text(&self) -> &'static str
        ensures { result.now ≡ password_fault_text self.now }
    {
        match self {
            PasswordFault::TooLong => "password too long",
            PasswordFault::HasNul => "password has a zero byte",
        }
    }
}

/// A password of at most [`PASSWORD_LIMIT`] bytes, none of them 0. In contracts it is the list of its bytes.
#[derive(Drop)]
pub struct Password {
    bytes: ArrayVec<u8, PASSWORD_LIMIT>,
}

impl Model for Password {
    ghost Value = { List ℕ };

    ghost view = { λ p. p.bytes.items };

    ghost invariant = { λ p. IsPassword p.bytes.items };
}

impl Password {
    /// Returns the password with these bytes.
    ///
    /// # Errors
    ///
    /// - `TooLong`: there are more than [`PASSWORD_LIMIT`] bytes.
    /// - `HasNul`: the length is fine, but one of the bytes is 0.
    pub fn new(bytes: &[u8]) -> Result<Password, PasswordFault>
        ensures ok { IfOk result (λ password. (password ≡ bytes.now) × IsPassword bytes.now) }
        ensures refused { IfErr result (IsPasswordRefused bytes.now) }
        ensures too_long { IsErrOf result PasswordFault.TooLong ↔ (password_limit < length bytes.now) }
        ensures has_nul { IsErrOf result PasswordFault.HasNul ↔ ((length bytes.now ≤ password_limit) × Contains bytes.now 0) }
    {
        let mut kept = ArrayVec::new();
        if kept.try_extend_from_slice(bytes).is_err() {
            return Err(PasswordFault::TooLong);
        }
        if bytes.contains(&0) {
            return Err(PasswordFault::HasNul);
        }
        Ok(Password { bytes: kept })
    }

    /// Returns the bytes of the password.
    pub fn bytes(&self) -> &[u8]
        ensures value { result.now ≡ self.now }
        ensures password { IsPassword self.now }
    {
        self.bytes.as_slice()
    }
}
