//! The memory that a hash needs. Only scrypt needs any.
ghost use Rattle.std.specs.Prelude.{◌≡◌, ◌≤◌, ◌^◌};
ghost use Rattle.crypt_core.specs.Needs.{bytes_by, words_by};

use crate::scheme::Scheme;
use kdf_core::lent::{needed_bytes, needed_words};
use std::mem::size_of;

/// The memory that a hash needs: words of 4 bytes, and bytes.
#[repr(C)]
#[derive(Clone, Copy, Debug, PartialEq, Eq)]
pub struct Need {
    /// The number of words of 4 bytes.
    pub words: usize,
    /// The number of bytes in addition to the words.
    pub bytes: usize,
}

// JavaScript reads the fields of `Need` at fixed offsets.
const _: () = prove!(size_of::<Need>() == 16);

impl Scheme {
    /// Returns the memory that a hash with this scheme needs, whatever the password and the salt: at most 2^29 words
    /// and 2^29 bytes for scrypt, none otherwise. Hashing can't fail when the caller lends this much
    /// ([`Lent::new`](crate::memory::Lent::new)).
    pub fn need(&self) -> Need
        ensures words { result.words ≡ words_by self.now }
        ensures bytes { result.bytes ≡ bytes_by self.now }
        ensures below { (result.words ≤ 2 ^ 29) × (result.bytes ≤ 2 ^ 29) }
    {
        match self {
            Scheme::Scrypt(params) => Need {
                words: needed_words(params),
                bytes: needed_bytes(params),
            },
            Scheme::Md5crypt | Scheme::Shacrypt(..) => Need { words: 0, bytes: 0 },
        }
    }
}
