//! A block of sixteen words in SIMD lanes, as the rounds of Salsa20/8 work on it.
//!
//! The words form a matrix of four rows of four. The quarter round of a column starts at the column's word on the main
//! diagonal and goes down. So the first words of the four quarter rounds are the main diagonal, their second words are
//! the diagonal below it, and so on. With one vector for each diagonal, a single quarter round of vectors does all four
//! columns.
//!
//! In memory a block's words are in one of two orders: in row order, as in the standard, or in diagonal order, which is
//! the order of the four vectors.
//!
//! Each function is always inlined: a call would pass a block through memory, and inlined code can keep its vectors in
//! registers from one step to the next.

ghost use Rattle.std.specs.Prelude.{◌≡◌, length};
ghost use Rattle.std.specs.Simd.Lanes.{zip2};
ghost use Rattle.prims_core.specs.Diagonals.{block_in_rows};
ghost use Rattle.prims_core.specs.Words.{xor_lists};
ghost use Rattle.prims_core.specs.Salsa.{sum_of_words};

use std::marker::Model;
use std::simd::prelude::*;

/// The sixteen words of a block. Contracts see them as a list in row order.
#[derive(Drop)]
pub(crate) struct Diagonals {
    /// The words 0, 5, 10 and 15.
    pub(crate) first: u32x4,
    /// The words 4, 9, 14 and 3.
    pub(crate) second: u32x4,
    /// The words 8, 13, 2 and 7.
    pub(crate) third: u32x4,
    /// The words 12, 1, 6 and 11.
    pub(crate) fourth: u32x4,
}

impl Model for Diagonals {
    ghost use Rattle.std.specs.Prelude.{ℕ, List};
    ghost use Rattle.prims_core.specs.Private.Diagonals.{HaveFourWords, words_on};

    ghost Value = { List ℕ };

    ghost view = { λ d. words_on d.first d.second d.third d.fourth };

    ghost invariant = { λ d. HaveFourWords d.first d.second d.third d.fourth };
}

impl Diagonals {
    /// Loads a block from its sixteen words in row order.
    #[inline(always)]
    pub(crate) fn of(words: &[u32]) -> Diagonals
        requires { length words.now ≡ 16 }
        ensures { result ≡ words.now }
    {
        let block = u32x16::from_slice(words);
        Diagonals {
            first: block.swizzle([0, 5, 10, 15]),
            second: block.swizzle([4, 9, 14, 3]),
            third: block.swizzle([8, 13, 2, 7]),
            fourth: block.swizzle([12, 1, 6, 11]),
        }
    }

    /// Writes the block to `words`, in row order.
    ///
    /// Precondition: `words` has sixteen words.
    #[inline(always)]
    pub(crate) fn store(&self, words: &mut [u32])
        requires { length words.old ≡ 16 }
        ensures { words.new ≡ self.now }
    {
        let upper: u32x8 = self.first.shuffle(self.second, [0, 1, 2, 3, 4, 5, 6, 7]);
        let lower: u32x8 = self.third.shuffle(self.fourth, [0, 1, 2, 3, 4, 5, 6, 7]);
        // Item k of the list is the place of word k in diagonal order. `upper` and `lower`, joined, are in this order.
        let block: u32x16 = upper.shuffle(
            lower,
            [0, 13, 10, 7, 4, 1, 14, 11, 8, 5, 2, 15, 12, 9, 6, 3],
        );
        block.copy_to_slice(words);
    }

    /// Loads a block from its sixteen words in diagonal order.
    #[inline(always)]
    pub(crate) fn of_diagonals(words: &[u32]) -> Diagonals
        requires { length words.now ≡ 16 }
        ensures { result ≡ block_in_rows words.now }
    {
        let block = u32x16::from_slice(words);
        Diagonals {
            first: block.swizzle([0, 1, 2, 3]),
            second: block.swizzle([4, 5, 6, 7]),
            third: block.swizzle([8, 9, 10, 11]),
            fourth: block.swizzle([12, 13, 14, 15]),
        }
    }

    /// Writes the block to `words`, in diagonal order.
    ///
    /// Precondition: `words` has sixteen words.
    #[inline(always)]
    pub(crate) fn store_diagonals(&self, words: &mut [u32])
        requires { length words.old ≡ 16 }
        ensures { block_in_rows words.new ≡ self.now }
    {
        let upper: u32x8 = self.first.shuffle(self.second, [0, 1, 2, 3, 4, 5, 6, 7]);
        let lower: u32x8 = self.third.shuffle(self.fourth, [0, 1, 2, 3, 4, 5, 6, 7]);
        let block: u32x16 = upper.shuffle(
            lower,
            [0, 1, 2, 3, 4, 5, 6, 7, 8, 9, 10, 11, 12, 13, 14, 15],
        );
        block.copy_to_slice(words);
    }

    /// Returns the XOR of two blocks.
    #[inline(always)]
    pub(crate) fn xor(&self, other: &Diagonals) -> Diagonals
        ensures { result ≡ xor_lists self.now other.now }
    {
        Diagonals {
            first: self.first ^ other.first,
            second: self.second ^ other.second,
            third: self.third ^ other.third,
            fourth: self.fourth ^ other.fourth,
        }
    }

    /// Returns the word-by-word sum of two blocks, modulo 2^32.
    #[inline(always)]
    pub(crate) fn sum(&self, other: &Diagonals) -> Diagonals
        ensures { result ≡ zip2 sum_of_words self.now other.now }
    {
        Diagonals {
            first: self.first + other.first,
            second: self.second + other.second,
            third: self.third + other.third,
            fourth: self.fourth + other.fourth,
        }
    }
}
