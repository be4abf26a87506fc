//! The memory that scrypt uses besides its table: bytes, and 32-bit words.
//!
//! The bytes are one allocation, and so are the words; or the caller lends them.

ghost use Rattle.std.specs.Prelude.{◌≡◌, ◌+◌, ◌*◌, ◌^◌, ◌<◌, ◌≤◌, length, replicate, IfOk, OnOk, OnErr};
ghost use Rattle.std.specs.Borrow.{sem};
ghost use Rattle.prims_core.specs.Memory.{LendsBytes, LendsWords};

use crate::meter::Meter;
use std::alloc::{AllocError, Global};
use std::marker::Model;
use std::mem::size_of;

/// Scratch memory that is read and written as bytes. Contracts see it as a list of bytes.
#[derive(Drop)]
pub struct ByteScratch {
    bytes: Vec<u8>,
}

impl Model for ByteScratch {
    ghost use Rattle.std.specs.Prelude.{ℕ, List};

    ghost Value = { List ℕ };

    ghost view = { λ s. s.bytes.items };
}

impl ByteScratch {
    /// Returns `len` zero bytes, which the meter counts as scratch memory.
    ///
    /// Preconditions: `len` is at most 2^30, and the meter can count `len` bytes without overflow.
    ///
    /// # Errors
    ///
    /// - `AllocError`: the allocation failed. The meter is unchanged.
    pub fn new(alloc: Global, len: usize, meter: &mut Meter) -> Result<ByteScratch, AllocError>
        requires fits { len ≤ 2 ^ 30 }
        requires room { meter.old.scratch + len < 2 ^ 128 }
        ensures zeros { IfOk result (λ scratch. scratch ≡ replicate len 0) }
        ensures count { OnOk result (meter.new ≡ record meter.old { scratch = meter.old.scratch + len }) }
        ensures refused { OnErr result (meter.new ≡ meter.old) }
    {
        let bytes = vec![in alloc; 0; len]?;
        meter.count_scratch(len);
        Ok(ByteScratch { bytes })
    }

    /// Returns all the bytes.
    pub fn bytes(&self) -> &[u8]
        ensures { result.now ≡ self.now }
    {
        &self.bytes
    }

    /// Returns all the bytes for writing.
    pub fn bytes_mut(&mut self) -> &mut [u8]
        ensures* writes_back { sem 𝓛 (LendsBytes self.entry result) }
        ensures value { result.now ≡ self.old }
    {
        self.bytes.as_mut_slice()
    }
}

/// Scratch memory that is read and written as words. Contracts see it as a list of words.
#[derive(Drop)]
pub struct WordScratch {
    words: Vec<u32>,
}

impl Model for WordScratch {
    ghost use Rattle.std.specs.Prelude.{ℕ, List};

    ghost Value = { List ℕ };

    ghost view = { λ s. s.words.items };
}

impl WordScratch {
    /// Returns `words` zero words. The meter counts their bytes, four for each word, as scratch memory.
    ///
    /// Preconditions: the words have at most 2^30 bytes, and the meter can count these without overflow.
    ///
    /// # Errors
    ///
    /// - `AllocError`: the allocation failed. The meter is unchanged.
    pub fn new(alloc: Global, words: usize, meter: &mut Meter) -> Result<WordScratch, AllocError>
        requires fits { 4 * words ≤ 2 ^ 30 }
        requires room { meter.old.scratch + 4 * words < 2 ^ 128 }
        ensures zeros { IfOk result (λ scratch. scratch ≡ replicate words 0) }
        ensures count { OnOk result (meter.new ≡ record meter.old { scratch = meter.old.scratch + 4 * words }) }
        ensures refused { OnErr result (meter.new ≡ meter.old) }
    {
        let zeros = vec![in alloc; 0; words]?;
        meter.count_scratch(words * size_of::<u32>());
        Ok(WordScratch { words: zeros })
    }

    /// Returns all the words.
    pub fn words(&self) -> &[u32]
        ensures { result.now ≡ self.now }
    {
        &self.words
    }

    /// Returns all the words for writing.
    pub fn words_mut(&mut self) -> &mut [u32]
        ensures* writes_back { sem 𝓛 (LendsWords self.entry result) }
        ensures value { result.now ≡ self.old }
    {
        self.words.as_mut_slice()
    }
}

/// Counts the bytes that a caller lends as scratch memory, and returns them.
///
/// Precondition: the meter can count the bytes without overflow.
pub fn lent_bytes<'a>(bytes: &'a mut [u8], meter: &mut Meter) -> &'a mut [u8]
    requires { meter.old.scratch + length bytes.old < 2 ^ 128 }
    ensures value { result.now ≡ bytes.old }
    ensures count { meter.new ≡ record meter.old { scratch = meter.old.scratch + length bytes.old } }
{
    meter.count_scratch(bytes.len());
    bytes
}

/// Counts the bytes of the words that a caller lends, four for each word, as scratch memory, and returns the words.
///
/// Preconditions: the words have at most 2^30 bytes, and the meter can count these without overflow.
pub fn lent_words<'a>(words: &'a mut [u32], meter: &mut Meter) -> &'a mut [u32]
    requires fits { 4 * length words.old ≤ 2 ^ 30 }
    requires room { meter.old.scratch + 4 * length words.old < 2 ^ 128 }
    ensures value { result.now ≡ words.old }
    ensures count { meter.new ≡ record meter.old { scratch = meter.old.scratch + 4 * length words.old } }
{
    meter.count_scratch(words.len() * size_of::<u32>());
    words
}
