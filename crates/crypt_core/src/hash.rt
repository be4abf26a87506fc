//! Hashes a password with a setting, as crypt(3) does.
ghost use Rattle.std.specs.Prelude.{◌≡◌, ℕ, ◌≤◌, List, length, IfOk, IsOk};
ghost use Rattle.prims_core.specs.Meter.{HasRoom};
ghost use Rattle.kdf_core.specs.Params.{ScryptParams};
ghost use Rattle.crypt_core.specs.Crypt.{crypt, digest_by};
ghost use Rattle.crypt_core.specs.Metering.{IsMetered};
ghost use Rattle.crypt_core.specs.Needs.{AreEnough};
ghost use Rattle.crypt_core.specs.TextLimits.{hash_limit};
ghost use Rattle.crypt_core.specs.Packing.{packed};
ghost use Rattle.crypt_core.specs.Settings.{Spells, canonical_text, dollar};
ghost use Rattle.crypt_core.specs.Schemes.{method_of};
ghost use Rattle.crypt_core.specs.MethodLimits.{digest_len};

use crate::md5crypt::md5crypt;
use crate::memory::Memory;
use crate::method::SCRYPT_PACKED_LEN;
use crate::pack::append_packed;
use crate::password::Password;
use crate::scheme::{Scheme, Sha};
use crate::setting::{CANONICAL_LIMIT, Setting, TEXT_CAPACITY};
use crate::shacrypt::shacrypt;
use arrayvec::ArrayVec;
use prims_core::counted::{CountedSha256, CountedSha512};
use prims_core::meter::Meter;
use std::alloc::{AllocError, Global};
use std::marker::Model;
use thiserror::Error;

/// The greatest length of a hash in bytes: scrypt's longest setting in canonical form, a `$`, and the packed digest.
pub const HASH_LIMIT: usize = CANONICAL_LIMIT + 1 + SCRYPT_PACKED_LEN;

/// The hash of a password, as crypt(3) returns it, of at most [`HASH_LIMIT`] bytes. In contracts it is the list of its
/// bytes.
#[derive(Debug, Drop)]
pub struct Hashed {
    text: ArrayVec<u8, TEXT_CAPACITY>,
}

impl Model for Hashed {
    ghost use Rattle.std.specs.Prelude.{ℕ, List, length, ◌≤◌};
    ghost use Rattle.crypt_core.specs.Needs.{AreEnough};
    ghost use Rattle.crypt_core.specs.TextLimits.{hash_limit};

    ghost Value = { List ℕ };

    ghost view = { λ h. h.text.items };

    ghost invariant = { λ h. length h.text.items ≤ hash_limit };
}

impl Hashed {
    /// Returns the hash: the setting in canonical form, a `$`, and the packed digest.
    pub fn text(&self) -> &[u8]
        ensures text { result.now ≡ self.now }
        ensures short { length result.now ≤ hash_limit }
    {
        self.text.as_slice()
    }
}

/// Why a password could not be hashed.
#[derive(Clone, Copy, Debug, PartialEq, Eq, Drop, Error)]
#[error("{}", self.text())]
pub enum HashFault {
    /// scrypt lacked memory: an allocation failed, or the caller lent too little. No other method needs any.
    OutOfMemory,
}

impl HashFault {
    ghost use Rattle.crypt_core.specs.Faults.{hash_fault_text};

    /// Returns the message of the error.
    pub fn text(&self) -> &'static str
        ensures { result.now ≡ hash_fault_text self.now }
    {
        match self {
            HashFault::OutOfMemory => "out of memory",
        }
    }
}

impl From<AllocError> for HashFault {
    fn from(_error: AllocError) -> HashFault {
        HashFault::OutOfMemory
    }
}

/// Returns the hash of a password with a setting, as crypt(3) does.
///
/// For example, the password `password` with the setting `$1$xxxxxxxx` has the hash
/// `$1$xxxxxxxx$UYCIxa628.9qXjpQCjM4a.`. The meter counts all the work: each digested message, and for scrypt each
/// mixing and each byte of memory. Each count rises by less than 2^41.
///
/// Precondition: each count of the meter is at most 2^120.
///
/// # Errors
///
/// - `OutOfMemory`: scrypt could not allocate. Of its three allocations, the meter counts only those that succeeded. No
///   other method allocates.
pub fn hash(
    alloc: Global,
    password: &Password,
    setting: &Setting,
    meter: &mut Meter,
) -> Result<Hashed, HashFault>
    requires { HasRoom meter.old }
    ensures text { IfOk result (λ hashed. hashed ≡ crypt password.now setting.now) }
    ensures spells { IfOk result (λ hashed. Spells hashed setting.now) }
    ensures metered { IsMetered meter.old password.now setting.now meter.new result }
{
    let mut heap = alloc;
    hash_by(&mut heap, password, setting, meter)
}

/// Returns the hash of a password with a setting, as [`hash`] does, and lets scrypt work in `memory`.
///
/// Precondition: each count of the meter is at most 2^120.
///
/// # Errors
///
/// - `OutOfMemory`: scrypt could not allocate, or the caller lent less than the [`need`](Scheme::need) of the setting's
///   scheme. The meter counts only the allocations that succeeded. No other method needs memory.
pub fn hash_by<M: Memory>(
    memory: &mut M,
    password: &Password,
    setting: &Setting,
    meter: &mut Meter,
) -> Result<Hashed, HashFault>
    requires { HasRoom meter.old }
    ensures text { IfOk result (λ hashed. hashed ≡ crypt password.now setting.now) }
    ensures spells { IfOk result (λ hashed. Spells hashed setting.now) }
    ensures metered { IsMetered meter.old password.now setting.now meter.new result }
    ensures enough { AreEnough (M.IsEnough memory.old) setting.now.scheme → IsOk result }
    ensures kept { (other : ScryptParams) → M.IsEnough memory.old other → M.IsEnough memory.new other }
{
    let digest = digest_of(memory, password, setting, meter)?;
    let mut text = setting.text();
    text.push(b'$');
    append_packed(&mut text, setting.method(), digest.as_slice());
    Ok(Hashed { text })
}

/// Returns the length in bytes that every hash with this setting has, known before hashing. It is at most
/// [`HASH_LIMIT`].
pub fn hash_len(setting: &Setting) -> usize
    ensures each { (password : List ℕ) → length (crypt password setting.now) ≡ result }
    ensures short { result ≤ hash_limit }
    ensures limit { HASH_LIMIT ≡ hash_limit }
{
    setting.text().len() + 1 + setting.scheme().method().row().packed_len
}

// Returns the digest of the password with the setting's scheme and salt.
fn digest_of<M: Memory>(
    memory: &mut M,
    password: &Password,
    setting: &Setting,
    meter: &mut Meter,
) -> Result<ArrayVec<u8, 64>, AllocError>
    requires { HasRoom meter.old }
    ensures digest { IfOk result (λ digest. digest.items
        ≡ digest_by setting.now.scheme password.now setting.now.salt) }
    ensures length { IfOk result (λ digest. length digest.items ≡ digest_len (method_of setting.now.scheme)) }
    ensures metered { IsMetered meter.old password.now setting.now meter.new result }
    ensures enough { AreEnough (M.IsEnough memory.old) setting.now.scheme → IsOk result }
    ensures kept { (other : ScryptParams) → M.IsEnough memory.old other → M.IsEnough memory.new other }
{
    let salt = setting.salt();
    match setting.scheme() {
        Scheme::Md5crypt => Ok(ArrayVec::try_from(md5crypt(
            password, salt, meter,
        ).as_slice()).unwrap()),
        Scheme::Shacrypt(sha, rounds) => Ok(match sha {
            Sha::Sha256 => shacrypt::<CountedSha256>(password, salt, rounds.count(), meter),
            Sha::Sha512 => shacrypt::<CountedSha512>(password, salt, rounds.count(), meter),
        }),
        Scheme::Scrypt(params) => {
            // From `row_count` the prover learns that the parameters are bounded, and so that each count of the work is
            // below 2^41, as the clause `metered` says.
            prove!(params.row_count() > 1);
            memory.scrypt(password.bytes(), salt, &params, meter)
        }
    }
}
