//! SHA-crypt (Drepper, "Unix crypt using SHA-256 and SHA-512"), with the same code for both digest functions. The
//! specification defines it by whole messages; the code feeds each message to a running digest piece by piece. It
//! computes the strings P and S, which stand for the password and the salt in the rounds, once, in buffers of fixed
//! capacity.
ghost use Rattle.std.specs.Prelude.{◌≡◌, ℕ, ◌+◌, ◌*◌, ◌^◌, ◌<◌, ◌≤◌, length};
ghost use Rattle.std.specs.List.{repeat};
ghost use Rattle.prims_core.specs.Meter.{with_work, HaveCountAndSum, HasDigestRoom};
ghost use Rattle.crypt_core.specs.Cycle.{cycle};
ghost use Rattle.crypt_core.specs.Messages.{AreShacryptMessages, sha_digest_before, shacrypt_message, shacrypt_messages};
ghost use Rattle.crypt_core.specs.MethodLimits.{shacrypt_salt_limit};
ghost use Rattle.crypt_core.specs.Passwords.{password_limit};
ghost use Rattle.crypt_core.specs.RoundMessage.{alternate_message};
ghost use Rattle.crypt_core.specs.Rounds.{max_rounds, min_rounds};
ghost use Rattle.crypt_core.specs.ShaCrypt.{sha_opening, sha_opening_byte, sha_opening_message, shacrypt_digest};
ghost use Rattle.crypt_core.specs.Private.Messages.{with_digest};
ghost use Rattle.crypt_core.specs.Work.{work_limit, shacrypt_bytes};

use crate::messages::{
    RoundStrings, alternate_digest, cycle_of, feed_cycle, feed_digits, feed_repeated, round,
};
use crate::password::{PASSWORD_LIMIT, Password};
use arrayvec::ArrayVec;
use prims_core::counted::Counted;
use prims_core::meter::Meter;

/// Returns the SHA-crypt digest of a password over the digest function `H`, of `H::LEN` bytes. The meter counts each of
/// the `rounds + 4` messages, and each of its counts rises by less than 2^41.
///
/// Preconditions: the salt has at most [`SHACRYPT_SALT_LIMIT`] bytes, there are 1000 to 999999999 rounds, and the meter
/// has counted at most 2^120 digests and at most 2^120 bytes so far.
///
/// [`SHACRYPT_SALT_LIMIT`]: crate::method::SHACRYPT_SALT_LIMIT
pub fn shacrypt<H: Counted>(
    password: &Password,
    salt: &[u8],
    rounds: u32,
    meter: &mut Meter,
) -> ArrayVec<u8, 64>
    requires salt { length salt.now ≤ shacrypt_salt_limit }
    requires least_rounds { min_rounds ≤ rounds }
    requires most_rounds { rounds ≤ max_rounds }
    requires room { HasDigestRoom meter.old }
    ensures digest { result.items ≡ shacrypt_digest H.digest password.now salt.now rounds }
    ensures length { length result.items ≡ H.LEN }
    ensures count { meter.new ≡ with_work meter.old (rounds + 4) (shacrypt_bytes H.LEN
        (sha_opening_byte H.digest password.now salt.now) rounds (length password.now) (length salt.now)) }
    ensures below { shacrypt_bytes H.LEN (sha_opening_byte H.digest password.now salt.now) rounds (length password.now)
        (length salt.now) < work_limit }
    ensures specified { HaveCountAndSum (shacrypt_messages H.digest password.now salt.now rounds) (rounds + 4)
        (shacrypt_bytes H.LEN (sha_opening_byte H.digest password.now salt.now) rounds (length password.now) (length salt.now)) }
    ensures messages { AreShacryptMessages H.digest password.now salt.now rounds }
    ensures each_round { (i : ℕ) → sha_digest_before H.digest password.now salt.now (i + 1)
        ≡ H.digest (shacrypt_message H.digest password.now salt.now (i + 4)) }
{
    let password = password.bytes();
    let mut digest = opening::<H>(password, salt, meter);
    // The message of the digest DS has the salt 16 + A[0] times (step 18).
    let salt_times = 16 + usize::from(digest.as_slice()[0]);
    let password_string = string_of::<H>(password, password.len(), meter);
    let salt_string = string_of::<H>(salt, salt_times, meter);
    let p = password_string.as_slice();
    let s = salt_string.as_slice();
    let strings = RoundStrings::new(p, s);
    'rounds: for i in 0..rounds {
        round::<H>(i, digest.as_mut_slice(), &strings, meter);
    }
    digest
}

// Returns the digest A of the second message (steps 1 to 12).
fn opening<H: Counted>(password: &[u8], salt: &[u8], meter: &mut Meter) -> ArrayVec<u8, 64>
    requires password { length password.now ≤ password_limit }
    requires salt { length salt.now ≤ shacrypt_salt_limit }
    requires room { HasDigestRoom meter.old }
    ensures digest { result.items ≡ sha_opening H.digest password.now salt.now }
    ensures length { length result.items ≡ H.LEN }
    ensures count { meter.new ≡ with_digest (with_digest meter.old (alternate_message password.now salt.now))
        (sha_opening_message H.digest password.now salt.now) }
{
    let alternate = alternate_digest::<H>(password, salt, meter);
    let b = alternate.as_slice();
    let mut running = H::begin();
    running.feed(meter, password);
    running.feed(meter, salt);
    feed_cycle(&mut running, meter, b, password.len());
    feed_digits(&mut running, meter, password.len(), b, password);
    running.finish(meter)
}

// Returns the string P of the password (steps 13 to 16) or S of the salt (steps 17 to 20): the digest of `times` copies
// of `piece`, repeated to the length of `piece`.
fn string_of<H: Counted>(
    piece: &[u8],
    times: usize,
    meter: &mut Meter,
) -> ArrayVec<u8, PASSWORD_LIMIT>
    requires fits { length piece.now ≤ password_limit }
    requires bytes_room { meter.old.bytes + times * length piece.now < 2 ^ 128 }
    requires digests_room { meter.old.digests + 1 < 2 ^ 128 }
    ensures string { result.items ≡ cycle (H.digest (repeat times piece.now)) (length piece.now) }
    ensures count { meter.new ≡ with_digest meter.old (repeat times piece.now) }
{
    let mut running = H::begin();
    feed_repeated(&mut running, meter, piece, times);
    let digest = running.finish(meter);
    cycle_of(digest.as_slice(), piece.len())
}
