//! The parameters of scrypt: N, r and p of RFC 7914, section 2, with a ceiling on their product.
//!
//! The invariant of [`Params`] says that the numbers are in range and their product is within the ceiling, so scrypt's
//! memory is bounded.

ghost use Rattle.std.specs.Prelude.{◌≡◌, ◌↔◌, ◌≤◌, IfOk, IsOk, IsTrue};
ghost use Rattle.kdf_core.specs.Params.{scrypt_params, product, row_count, IsInRange, IsWithinCeiling, IsAccepted, IsBounded};

use std::marker::Model;
use thiserror::Error;

// The ceiling on `N * r * p`, which is 2^23. It keeps scrypt's table of `128 * N * r` bytes within 2^30 bytes.
const CEILING: u64 = 8_388_608;

/// Why log2 N, r and p are not parameters of scrypt. If both errors apply, `Range` is reported.
#[derive(Clone, Copy, Debug, PartialEq, Eq, Drop, Error)]
#[error("{}", self.text())]
pub enum ParamFault {
    /// log2 N, r or p is 0, or log2 N is 16r or more.
    Range,
    /// The product of N, r and p is above 8388608.
    AboveCeiling,
}

impl ParamFault {
    ghost use Rattle.kdf_core.specs.ParamFaults.{param_fault_text};

    /// Returns the message of the error.
    pub fn text(&self) -> &'static str
        ensures { result.now ≡ param_fault_text self.now }
    {
        match self {
            ParamFault::Range => "scrypt range",
            ParamFault::AboveCeiling => "above ceiling",
        }
    }
}

/// The parameters of scrypt: in the range of RFC 7914, section 2, and with `N * r * p` at most 8388608.
#[derive(Clone, Copy, Debug, PartialEq, Eq)]
pub struct Params {
    log_n: u8,
    r: u32,
    p: u32,
}

impl Model for Params {
    ghost use Rattle.kdf_core.specs.Params.{ScryptParams, IsAccepted};

    ghost Value = { ScryptParams };

    ghost view = { λ a. record { log_n = a.log_n; r = a.r; p = a.p } };

    ghost invariant = { λ a. IsAccepted (record { log_n = a.log_n; r = a.r; p = a.p }) };

    ghost inverse = { λ c. record { log_n = c.log_n; r = c.r; p = c.p } };
}

impl Params {
    /// Returns the parameters `N = 2^log_n`, block size `r` and parallelization `p` (RFC 7914, section 2).
    ///
    /// # Errors
    ///
    /// Returns the first of these errors that applies.
    ///
    /// - `Range`: `log_n`, `r` or `p` is 0, or `log_n` is `16 * r` or more.
    /// - `AboveCeiling`: `N * r * p` is above 8388608.
    pub fn new(log_n: u8, r: u32, p: u32) -> Result<Params, ParamFault>
        ensures numbers { IfOk result (λ params. params ≡ scrypt_params log_n r p) }

        ensures accepted { IsOk result ↔ IsAccepted (scrypt_params log_n r p) }
        ensures range { (result ≡ Err ParamFault.Range) ↔ ¬ IsInRange (scrypt_params log_n r p) }
        ensures ceiling { (result ≡ Err ParamFault.AboveCeiling)
            ↔ (IsInRange (scrypt_params log_n r p) × ¬ IsWithinCeiling (scrypt_params log_n r p)) }
    {
        if !is_in_range(log_n, r, p) {
            return Err(ParamFault::Range);
        }
        if !is_within_ceiling(log_n, r, p) {
            return Err(ParamFault::AboveCeiling);
        }
        Ok(Params { log_n, r, p })
    }

    /// Returns log2 N.
    pub fn log_n(&self) -> u8
        ensures number { result ≡ self.now.log_n }
        ensures accepted { IsAccepted self.now }
    {
        self.log_n
    }

    /// Returns N, the number of rows of scrypt's table. It is a power of two and at most 2^22.
    pub fn row_count(&self) -> u32
        ensures number { result ≡ row_count self.now }
        ensures bounded { IsBounded self.now }
    {
        1 << self.log_n()
    }

    /// Returns the block size r. A row of the table and a part have `128 * r` bytes.
    pub fn r(&self) -> u32
        ensures number { result ≡ self.now.r }
        ensures accepted { IsAccepted self.now }
    {
        self.r
    }

    /// Returns the parallelization p, which is the number of parts that are mixed.
    pub fn p(&self) -> u32
        ensures number { result ≡ self.now.p }
        ensures accepted { IsAccepted self.now }
    {
        self.p
    }

    /// Returns the product `N * r * p`, which is at most 2^23. scrypt's time grows with this product, and its memory is
    /// bounded by it.
    pub fn product(&self) -> u32
        ensures product { result ≡ product self.now }
        ensures within { result ≤ 8388608 }
    {
        self.row_count() * self.r() * self.p()
    }
}

// Returns whether log2 N, r and p are all above 0 and log2 N is below 16r.
fn is_in_range(log_n: u8, r: u32, p: u32) -> bool
    ensures { IsTrue result ↔ IsInRange (scrypt_params log_n r p) }
{
    log_n > 0 && r > 0 && p > 0 && u64::from(log_n) < 16 * u64::from(r)
}

// Returns whether `2^log_n * r * p` is at most 2^23. Instead of this product, which could overflow, `r * p` is
// computed, which fits into 64 bits, and compared with the ceiling divided by N.
fn is_within_ceiling(log_n: u8, r: u32, p: u32) -> bool
    requires in_range { IsInRange (scrypt_params log_n r p) }
    ensures { IsTrue result ↔ IsWithinCeiling (scrypt_params log_n r p) }
{
    // If N is 2^24 or more, N alone is above the ceiling.
    log_n < 24 && u64::from(r) * u64::from(p) <= CEILING >> log_n
}
