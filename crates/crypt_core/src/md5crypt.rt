//! FreeBSD's md5crypt. It is defined by whole messages: two for the opening, then one for each of 1,000 rounds. The
//! code feeds each message to a running digest piece by piece, so it never builds one whole and allocates nothing. It
//! joins the strings of the rounds once, in a buffer of fixed capacity.
ghost use Rattle.std.specs.Prelude.{◌≡◌, ℕ, ◌+◌, ◌<◌, ◌≤◌, length};
ghost use Rattle.prims_core.specs.Digests.{md5};
ghost use Rattle.prims_core.specs.Meter.{with_work, HaveCountAndSum, HasDigestRoom};
ghost use Rattle.crypt_core.specs.declared.method.Method.TheVariants.{Md5crypt};
ghost use Rattle.crypt_core.specs.Md5crypt.{md5crypt_digest, md5crypt_opening, opening_message};
ghost use Rattle.crypt_core.specs.Messages.{AreMd5cryptMessages, md5crypt_message, md5crypt_messages, md5crypt_rounds};
ghost use Rattle.crypt_core.specs.MethodLimits.{digest_len, md5crypt_salt_limit};
ghost use Rattle.crypt_core.specs.Passwords.{password_limit};
ghost use Rattle.crypt_core.specs.RoundMessage.{alternate_message, digest_after};
ghost use Rattle.crypt_core.specs.Private.Messages.{with_digest};
ghost use Rattle.crypt_core.specs.Work.{work_limit, md5crypt_bytes};

use crate::messages::{RoundStrings, alternate_digest, feed_cycle, feed_digits, round};
use crate::method::Method;
use crate::password::Password;
use arrayvec::ArrayVec;
use prims_core::counted::{Counted, CountedMd5};
use prims_core::meter::Meter;

/// The number of rounds of md5crypt.
pub const ROUNDS: u32 = 1000;

// The number of rounds in one run of the inner loop, which divides `ROUNDS`. The rounds run in a nested loop because
// LLVM inlines the calls of MD5's padding in a loop within a loop, but not in a single loop.
const PART: u32 = 50;

/// Returns the digest of a password and a salt. The meter counts each of the 1,002 messages, and each of its counts
/// rises by less than 2^41.
///
/// Preconditions: the salt has at most [`MD5CRYPT_SALT_LIMIT`] bytes, and the meter has counted at most 2^120 digests
/// and at most 2^120 bytes so far.
///
/// [`MD5CRYPT_SALT_LIMIT`]: crate::method::MD5CRYPT_SALT_LIMIT
pub fn md5crypt(password: &Password, salt: &[u8], meter: &mut Meter) -> [u8; 16]
    requires salt { length salt.now ≤ md5crypt_salt_limit }
    requires room { HasDigestRoom meter.old }
    ensures digest { result ≡ md5crypt_digest password.now salt.now }
    ensures count { meter.new ≡ with_work meter.old (md5crypt_rounds + 2) (md5crypt_bytes (length password.now) (length salt.now)) }
    ensures below { md5crypt_bytes (length password.now) (length salt.now) < work_limit }
    ensures specified { HaveCountAndSum (md5crypt_messages password.now salt.now) (md5crypt_rounds + 2)
        (md5crypt_bytes (length password.now) (length salt.now)) }
    ensures messages { AreMd5cryptMessages password.now salt.now }
    ensures each_round { (i : ℕ) → digest_after md5 (md5crypt_opening password.now salt.now) password.now salt.now (i + 1)
        ≡ md5 (md5crypt_message password.now salt.now (i + 2)) }
{
    let password = password.bytes();
    let mut digest = [0; 16];
    digest.copy_from_slice(opening(password, salt, meter).as_slice());
    let strings = RoundStrings::new(password, salt);
    'parts: for part in 0..ROUNDS / PART {
        'rounds: for i in PART * part..PART * (part + 1) {
            round::<CountedMd5>(i, &mut digest, &strings, meter);
        }
    }
    digest
}

// Returns the digest of the second message, with which the rounds begin.
fn opening(password: &[u8], salt: &[u8], meter: &mut Meter) -> ArrayVec<u8, 64>
    requires password { length password.now ≤ password_limit }
    requires salt { length salt.now ≤ md5crypt_salt_limit }
    requires room { HasDigestRoom meter.old }
    ensures digest { result.items ≡ md5 (opening_message password.now salt.now) }
    ensures length { length result.items ≡ digest_len Md5crypt }
    ensures count { meter.new ≡ with_digest (with_digest meter.old (alternate_message password.now salt.now))
        (opening_message password.now salt.now) }
{
    let alternate = alternate_digest::<CountedMd5>(password, salt, meter);
    let mut running = CountedMd5::begin();
    running.feed(meter, password);
    running.feed(meter, Method::Md5crypt.row().prefix);
    running.feed(meter, salt);
    feed_cycle(&mut running, meter, alternate.as_slice(), password.len());
    // An empty password has no first byte, but its length 0 has no binary digits either.
    let first = &password[..password.len().min(1)];
    feed_digits(&mut running, meter, password.len(), &[0], first);
    running.finish(meter)
}
