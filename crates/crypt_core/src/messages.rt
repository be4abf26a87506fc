//! What the messages of md5crypt and SHA-crypt have in common. Both methods feed each message to a running digest piece
//! by piece.
//!
//! - The first message is the same in both methods.
//! - The second message has a digest repeated to the password's length, and one string for each binary digit of that
//!   length.
//! - The rounds' messages differ between the two only in the strings that stand for the password and the salt. A round
//!   feeds two pieces: the digest of the round before, and a slice of one string that is joined once for all rounds.
ghost use Rattle.std.specs.Prelude.{◌≡◌, ℕ, ◌+◌, ◌*◌, ◌^◌, ◌<◌, ◌≤◌, List, ◌++◌, length};
ghost use Rattle.std.specs.List.{repeat};
ghost use Rattle.prims_core.specs.Meter.{HasDigestRoom};
ghost use Rattle.crypt_core.specs.Cycle.{cycle, digit_pieces};
ghost use Rattle.crypt_core.specs.MethodLimits.{shacrypt_salt_limit};
ghost use Rattle.crypt_core.specs.Passwords.{password_limit};
ghost use Rattle.crypt_core.specs.RoundMessage.{alternate_message, round_message};
ghost use Rattle.crypt_core.specs.Private.Messages.{Strings, with_digest};

use crate::method::SHACRYPT_SALT_LIMIT;
use crate::password::PASSWORD_LIMIT;
use arrayvec::ArrayVec;
use prims_core::counted::Counted;
use prims_core::meter::Meter;
use std::marker::Model;

/// The capacity in bytes for three passwords and a salt of the greatest lengths. SHA-crypt keeps longer salts than
/// md5crypt.
const JOINED_LIMIT: usize = 3 * PASSWORD_LIMIT + SHACRYPT_SALT_LIMIT;

/// Returns the digest of the first message: the password, the salt and the password again.
pub(crate) fn alternate_digest<C: Counted>(
    password: &[u8],
    salt: &[u8],
    meter: &mut Meter,
) -> ArrayVec<u8, 64>
    requires password { length password.now ≤ password_limit }
    requires salt { length salt.now ≤ shacrypt_salt_limit }
    requires room { HasDigestRoom meter.old }
    ensures digest { result.items ≡ C.digest (alternate_message password.now salt.now) }
    ensures length { length result.items ≡ C.LEN }
    ensures count { meter.new ≡ with_digest meter.old (alternate_message password.now salt.now) }
{
    let mut running = C::begin();
    running.feed(meter, password);
    running.feed(meter, salt);
    running.feed(meter, password);
    running.finish(meter)
}

/// Feeds `times` copies of a piece to the running digest.
pub(crate) fn feed_repeated<C: Counted>(
    running: &mut C,
    meter: &mut Meter,
    piece: &[u8],
    times: usize,
)
    requires { meter.old.bytes + times * length piece.now < 2 ^ 128 }
    ensures message { (m : List ℕ) → C.holds running.old m → C.holds running.new (m ++ repeat times piece.now) }
    ensures count { meter.new ≡ record meter.old { bytes = meter.old.bytes + times * length piece.now } }
{
    'turns: for _ in 0..times {
        running.feed(meter, piece);
    }
}

/// Feeds `len` bytes to the running digest: copies of `digest`, the last of them cut to the length.
///
/// Precondition: the digest is not empty.
pub(crate) fn feed_cycle<C: Counted>(running: &mut C, meter: &mut Meter, digest: &[u8], len: usize)
    requires some { 0 < length digest.now }
    requires room { meter.old.bytes + len < 2 ^ 128 }
    ensures message { (m : List ℕ) → C.holds running.old m → C.holds running.new (m ++ cycle digest.now len) }
    ensures count { meter.new ≡ record meter.old { bytes = meter.old.bytes + len } }
{
    feed_repeated(running, meter, digest, len / digest.len());
    running.feed(meter, &digest[..len % digest.len()]);
}

/// Returns the digest, repeated to a length of `len` bytes.
///
/// Preconditions: the digest is not empty, and `len` is at most [`PASSWORD_LIMIT`].
pub(crate) fn cycle_of(digest: &[u8], len: usize) -> ArrayVec<u8, PASSWORD_LIMIT>
    requires some { 0 < length digest.now }
    requires fits { len ≤ password_limit }
    ensures { result.items ≡ cycle digest.now len }
{
    let mut bytes = ArrayVec::new();
    for i in 0..len {
        bytes.push(digest[i % digest.len()]);
    }
    bytes
}

/// Feeds one string for each binary digit of `number`, lowest first: `one` for a 1, `other` for a 0.
pub(crate) fn feed_digits<C: Counted>(
    running: &mut C,
    meter: &mut Meter,
    number: usize,
    one: &[u8],
    other: &[u8],
)
    requires { meter.old.bytes + length (digit_pieces one.now other.now number) < 2 ^ 128 }
    ensures message { (m : List ℕ) → C.holds running.old m
        → C.holds running.new (m ++ digit_pieces one.now other.now number) }
    ensures count { meter.new
        ≡ record meter.old { bytes = meter.old.bytes + length (digit_pieces one.now other.now number) } }
{
    let mut rest = number;
    'digits: while rest > 0 {
        let piece = if rest % 2 == 1 { one } else { other };
        running.feed(meter, piece);
        rest /= 2;
    }
}

/// The two strings that stand for the password and the salt in the rounds. Contracts see only these two, and not the
/// joined copy of them.
#[derive(Drop)]
pub(crate) struct RoundStrings<'a> {
    password: &'a [u8],
    salt: &'a [u8],
    // The password, the salt, and the password two more times.
    joined: ArrayVec<u8, JOINED_LIMIT>,
}

impl<'a> Model for RoundStrings<'a> {
    ghost Value = { Strings };

    ghost view = { λ r. record { password = r.password.now; salt = r.salt.now } };

    ghost invariant = { λ r. r.joined.items ≡ r.password.now ++ r.salt.now ++ r.password.now ++ r.password.now };
}

impl<'a> RoundStrings<'a> {
    /// Returns the two strings for all rounds, and joins them once.
    ///
    /// Precondition: three copies of the password and one of the salt have at most [`JOINED_LIMIT`] bytes together.
    pub(crate) fn new(password: &'a [u8], salt: &'a [u8]) -> Self
        requires { 3 * length password.now + length salt.now ≤ JOINED_LIMIT }
        ensures { result ≡ record { password = password.now; salt = salt.now } }
    {
        let mut joined = ArrayVec::new();
        for piece in [password, salt, password, password] {
            joined.try_extend_from_slice(piece).unwrap();
        }
        RoundStrings {
            password,
            salt,
            joined,
        }
    }

    // Returns the message of round `i` in two pieces. One of them is `before`, the digest of the round before.
    fn pieces<'b>(&'b self, i: u32, before: &'b [u8]) -> (&'b [u8], &'b [u8])
        ensures { result.0.now ++ result.1.now ≡ round_message i before.now self.now.password self.now.salt }
    {
        let password_len = self.password.len();
        let salted_len = password_len + self.salt.len();
        let is_odd = i % 2 == 1;
        // A round without the salt takes its passwords from the two adjacent ones at the end of `joined`. With the
        // salt, an odd round starts at the first password, and an even round at the salt.
        let (start, once_len) = if i % 3 == 0 {
            (salted_len, password_len)
        } else if is_odd {
            (0, salted_len)
        } else {
            (password_len, salted_len)
        };
        let repeat_len = if i % 7 == 0 { 0 } else { password_len };
        let beside = &self.joined.as_slice()[start..start + once_len + repeat_len];
        if is_odd {
            (beside, before)
        } else {
            (before, beside)
        }
    }
}

/// Replaces `digest`, which holds the digest of the round before, with the digest of round `i`.
pub(crate) fn round<C: Counted>(
    i: u32,
    digest: &mut [u8],
    strings: &RoundStrings<'_>,
    meter: &mut Meter,
)
    requires length { length digest.old ≡ C.LEN }
    requires bytes_room { meter.old.bytes
        + (length digest.old + 2 * length strings.now.password + length strings.now.salt) < 2 ^ 128 }
    requires digests_room { meter.old.digests + 1 < 2 ^ 128 }
    ensures digest { digest.new ≡ C.digest (round_message i digest.old strings.now.password strings.now.salt) }
    ensures count { meter.new
        ≡ with_digest meter.old (round_message i digest.old strings.now.password strings.now.salt) }
{
    let (first, second) = strings.pieces(i, digest);
    let mut running = C::begin();
    running.feed(meter, first);
    running.feed(meter, second);
    running.finish_into(meter, digest);
}
