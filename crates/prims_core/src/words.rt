//! Conversions between numbers and bytes, in the byte order of the standards.
//!
//! The number of a PBKDF2 block has its highest byte first (RFC 8018), and the words of scrypt have their lowest byte
//! first (RFC 7914).

ghost use Rattle.std.specs.Prelude.{◌≡◌, ◌*◌, length};
ghost use Rattle.prims_core.specs.Words.{big_bytes, bytes_of_words, words_of};

use byteorder::{BigEndian, ByteOrder, LittleEndian};

/// Returns the four bytes of a number, highest first. This is INT (i) of RFC 8018, section 5.2.
pub fn number_be(number: u32) -> [u8; 4]
    ensures { result ≡ big_bytes 4 number }
{
    let mut bytes = [0; 4];
    BigEndian::write_u32(&mut bytes, number);
    bytes
}

/// Fills `words` from `bytes`, four bytes for each word, lowest byte first (RFC 7914, section 3).
///
/// Precondition: `bytes` has four bytes for each word.
pub fn load_words(bytes: &[u8], words: &mut [u32])
    requires { length bytes.now ≡ 4 * length words.old }
    ensures { words.new ≡ words_of bytes.now }
{
    LittleEndian::read_u32_into(bytes, words);
}

/// Fills `bytes` from `words`, four bytes for each word, lowest byte first. This is the inverse of [`load_words`].
///
/// Precondition: `bytes` has four bytes for each word.
pub fn store_words(words: &[u32], bytes: &mut [u8])
    requires { length bytes.old ≡ 4 * length words.now }
    ensures { bytes.new ≡ bytes_of_words words.now }
{
    LittleEndian::write_u32_into(words, bytes);
}
