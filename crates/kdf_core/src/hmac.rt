//! HMAC over SHA-256 (RFC 2104).
//!
//! A key is prepared once and serves any number of tags. [`HmacKey`] holds two blocks: the key, padded to a block, XOR
//! the inner pad, and the same XOR the outer pad. Nothing here allocates.

ghost use Rattle.std.specs.Prelude.{◌≡◌, ℕ, ◌+◌, ◌^◌, ◌<◌, List, ◌++◌, length, replicate};
ghost use Rattle.prims_core.specs.Digests.{sha256};
ghost use Rattle.prims_core.specs.Meter.{with_work};
ghost use Rattle.prims_core.specs.Words.{xor_lists};
ghost use Rattle.kdf_core.specs.Hmac.{hmac_sha256, key_block, key_digests, tag_bytes};
ghost use Rattle.kdf_core.specs.HmacMessages.{key_bytes, IsKeyOf};

use prims_core::counted::{Counted, CountedSha256};
use prims_core::meter::Meter;
use std::marker::Model;

/// The number of bytes of a SHA-256 block, to which HMAC pads a key.
pub(crate) const SHA256_BLOCK: usize = 64;

/// The number of bytes of a SHA-256 digest.
pub(crate) const SHA256_LENGTH: usize = 32;

// The byte that the inner pad repeats.
const IPAD: u8 = 0x36;

// The byte that the outer pad repeats.
const OPAD: u8 = 0x5c;

/// A key of HMAC-SHA-256, prepared for tags. In contracts, `IsKeyOf` relates it to the original key.
#[derive(Drop)]
pub struct HmacKey {
    inner: [u8; 64],
    outer: [u8; 64],
}

impl Model for HmacKey {
    ghost use Rattle.kdf_core.specs.HmacMessages.{PaddedKey};

    ghost Value = { PaddedKey };

    ghost view = { λ k. record { inner = k.inner; outer = k.outer } };
}

impl HmacKey {
    /// Prepares a key of any length for tags (RFC 2104, section 2).
    ///
    /// A key of more than 64 bytes is digested once, and any other key is not digested. Precondition: the meter can
    /// count the digest and its bytes without overflow.
    pub fn new(key: &[u8], meter: &mut Meter) -> HmacKey
        requires digests_room { meter.old.digests + key_digests (length key.now) < 2 ^ 128 }
        requires bytes_room { meter.old.bytes + key_bytes (length key.now) < 2 ^ 128 }
        ensures key { IsKeyOf result key.now }
        ensures count { meter.new ≡ with_work meter.old (key_digests (length key.now)) (key_bytes (length key.now)) }
    {
        let block = block_of(key, meter);
        HmacKey {
            inner: padded(&block, IPAD),
            outer: padded(&block, OPAD),
        }
    }

    /// Returns the tag of the message `a || b`, without copying the two together (RFC 2104, section 2).
    ///
    /// A tag takes two digests, which together digest 160 bytes more than `a` and `b` have. Precondition: the meter can
    /// count these digests and bytes without overflow.
    pub fn tag(&self, a: &[u8], b: &[u8], meter: &mut Meter) -> [u8; 32]
        requires digests_room { meter.old.digests + 2 < 2 ^ 128 }
        requires bytes_room { meter.old.bytes + tag_bytes (length a.now + length b.now) < 2 ^ 128 }
        ensures tag { (key : List ℕ) → IsKeyOf self.now key → result ≡ hmac_sha256 key (a.now ++ b.now) }
        ensures count { meter.new ≡ with_work meter.old 2 (tag_bytes (length a.now + length b.now)) }
    {
        // H(K XOR ipad, a || b)
        let text = sha256_of(&self.inner, a, b, meter);
        // H(K XOR opad, H(K XOR ipad, a || b))
        sha256_of(&self.outer, &text, &[], meter)
    }
}

// Returns the key, or its digest if it is longer than a block, padded with zeros to a block.
fn block_of(key: &[u8], meter: &mut Meter) -> [u8; 64]
    requires digests_room { meter.old.digests + key_digests (length key.now) < 2 ^ 128 }
    requires bytes_room { meter.old.bytes + key_bytes (length key.now) < 2 ^ 128 }
    ensures block { result ≡ key_block key.now }
    ensures count { meter.new ≡ with_work meter.old (key_digests (length key.now)) (key_bytes (length key.now)) }
{
    let mut block = [0; 64];
    if key.len() > SHA256_BLOCK {
        let digest = sha256_of(key, &[], &[], meter);
        block[..SHA256_LENGTH].copy_from_slice(&digest);
    } else {
        block[..key.len()].copy_from_slice(key);
    }
    block
}

// Returns the block after each of its bytes is XORed with `pad`.
fn padded(block: &[u8; 64], pad: u8) -> [u8; 64]
    ensures { result ≡ xor_lists block.now (replicate 64 pad) }
{
    let mut padded = *block;
    xor_into(&mut padded, &[pad; 64]);
    padded
}

/// XORs `bytes` into `sum`, byte by byte. Precondition: `sum` and `bytes` have the same length.
pub(crate) fn xor_into(sum: &mut [u8], bytes: &[u8])
    requires { length sum.old ≡ length bytes.now }
    ensures { sum.new ≡ xor_lists sum.old bytes.now }
{
    'places: for i in 0..sum.len() {
        sum[i] ^= bytes[i];
    }
}

// Returns the SHA-256 digest of the message `first || second || third`.
fn sha256_of(first: &[u8], second: &[u8], third: &[u8], meter: &mut Meter) -> [u8; 32]
    requires digests_room { meter.old.digests + 1 < 2 ^ 128 }
    requires bytes_room { meter.old.bytes + (length first.now + length second.now + length third.now) < 2 ^ 128 }
    ensures digest { result ≡ sha256 (first.now ++ second.now ++ third.now) }
    ensures count { meter.new ≡ with_work meter.old 1 (length first.now + length second.now + length third.now) }
{
    let mut running = CountedSha256::begin();
    running.feed(meter, first);
    running.feed(meter, second);
    running.feed(meter, third);
    let digest = running.finish(meter);
    let mut bytes = [0; 32];
    bytes.copy_from_slice(digest.as_slice());
    bytes
}
