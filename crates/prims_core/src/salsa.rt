//! The Salsa20/8 core of scrypt (RFC 7914, section 3), following Bernstein's Salsa20 specification.
//!
//! The sixteen words of a block form a matrix of four rows. A column round is a quarter round of each column, and a row
//! round is a quarter round of each row. Each quarter round starts on the main diagonal. The eight rounds alternate
//! between column rounds and row rounds. The four quarter rounds of a round run at once, one in each lane of a vector.
//! All steps are always inlined, since a call would pass the block through memory between one step and the next.

ghost use Rattle.std.specs.Prelude.{◌≡◌, ℕ, ◌<◌, [], ◌∷◌, bit_xor, length, slice_index};
ghost use Rattle.std.specs.Fn.{iterate};
ghost use Rattle.prims_core.specs.Words.{chunks_exact};
ghost use Rattle.prims_core.specs.Salsa.{rotated_sum, quarter_round, column_round, row_round, double_round, salsa20_8};

use crate::diagonals::Diagonals;
use std::simd::u32x4;

/// Replaces the sixteen words of a block by their Salsa20/8 (RFC 7914, section 3): the words after eight rounds, added
/// to the original words.
pub fn salsa8(block: &mut [u32; 16])
    ensures { block.new ≡ salsa20_8 block.old }
{
    let mixed = salsa8_of(&Diagonals::of(block));
    mixed.store(block);
}

/// Returns the Salsa20/8 of a block that is held in lanes.
#[inline(always)]
pub(crate) fn salsa8_of(block: &Diagonals) -> Diagonals
    ensures { result ≡ salsa20_8 block.now }
{
    block.sum(&four_double_rounds(block))
}

// Returns the matrix `x` after four double rounds.
#[inline(always)]
fn four_double_rounds(x: &Diagonals) -> Diagonals
    ensures rows { chunks_exact result 4 ≡ iterate double_round 4 (chunks_exact x.now 4) }
    ensures words { length result ≡ 16 }
{
    double_round(&double_round(&double_round(&double_round(x))))
}

// Does a column round, and then a row round.
#[inline(always)]
fn double_round(x: &Diagonals) -> Diagonals
    ensures rows { chunks_exact result 4 ≡ double_round (chunks_exact x.now 4) }
    ensures words { length result ≡ 16 }
{
    row_round(&column_round(x))
}

// Does a quarter round of each column, starting on the main diagonal.
#[inline(always)]
fn column_round(x: &Diagonals) -> Diagonals
    ensures { chunks_exact result 4 ≡ column_round (chunks_exact x.now 4) }
{
    let (first, second, third, fourth) = quarter_rounds(x.first, x.second, x.third, x.fourth);
    Diagonals {
        first,
        second,
        third,
        fourth,
    }
}

// Does a quarter round of each row, starting on the main diagonal. The next three words of a row are on the fourth,
// third and second diagonals, but one, two and three lanes further on. So these diagonals are rotated to line up with
// the main diagonal, and rotated back afterwards.
#[inline(always)]
fn row_round(x: &Diagonals) -> Diagonals
    ensures rows { chunks_exact result 4 ≡ row_round (chunks_exact x.now 4) }
    ensures words { length result ≡ 16 }
{
    let (first, fourth, third, second) = quarter_rounds(
        x.first,
        x.fourth.rotate_elements_left::<1>(),
        x.third.rotate_elements_left::<2>(),
        x.second.rotate_elements_right::<1>(),
    );
    Diagonals {
        first,
        second: second.rotate_elements_left::<1>(),
        third: third.rotate_elements_left::<2>(),
        fourth: fourth.rotate_elements_right::<1>(),
    }
}

// Does four quarter rounds at once, one in each lane.
#[inline(always)]
fn quarter_rounds(a: u32x4, b: u32x4, c: u32x4, d: u32x4) -> (u32x4, u32x4, u32x4, u32x4)
    ensures { (j : ℕ) → j < 4
        → slice_index result.0 j ∷ slice_index result.1 j ∷ slice_index result.2 j ∷ slice_index result.3 j ∷ []
        ≡ quarter_round (slice_index a j ∷ slice_index b j ∷ slice_index c j ∷ slice_index d j ∷ []) }
{
    let b = xor_rotated_sum(b, a, d, 7);
    let c = xor_rotated_sum(c, b, a, 9);
    let d = xor_rotated_sum(d, c, b, 13);
    let a = xor_rotated_sum(a, d, c, 18);
    (a, b, c, d)
}

// Returns, in each lane, `word` XOR the sum of `x` and `y` rotated left by `bits`. The two shifted halves of the
// rotation are XORed in one after the other, which is faster than joining them first.
#[inline(always)]
fn xor_rotated_sum(word: u32x4, x: u32x4, y: u32x4, bits: u32) -> u32x4
    requires { (0 < bits) × (bits < 32) }
    ensures { (j : ℕ) → j < 4
        → slice_index result j ≡ bit_xor (slice_index word j) (rotated_sum (slice_index x j) (slice_index y j) bits) }
{
    let sum = x + y;
    word ^ (sum << u32x4::splat(bits)) ^ (sum >> u32x4::splat(32 - bits))
}
