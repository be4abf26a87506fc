//! The table of scrypt (the V of RFC 7914, section 5): rows of 32-bit words, all of the same length.
//!
//! All rows are in one vector, one after another, so a table is a single allocation of its full size. The vector always
//! ends after a whole row. Rows of at most 1,024 words are not written when the table is made: the vector ends after
//! the row with the highest number that was set, and later rows read as zeros. Writing these zeros would take as long
//! as wiping the memory.

ghost use Rattle.std.specs.Prelude.{◌≡◌, ℕ, ◌+◌, ◌-◌, ◌*◌, ◌^◌, ◌<◌, ◌≤◌, [], ◌++◌, length, replicate, slice_index_or, slice_set, vec_len, vec_capacity, IfOk, OnOk, OnErr};
ghost use Rattle.prims_core.specs.Memory.{HasShape};

use crate::meter::Meter;
use std::alloc::{AllocError, Global};
use std::marker::Model;
use std::mem::size_of;

// A row after the end of the vector reads as these zeros. A row of scrypt has 32r words, so they suffice for r up to
// 32.
const ZEROS: [u32; 1024] = [0; 1024];

/// Rows of words, all of the same length. Contracts see them as a list of rows.
#[derive(Drop)]
pub struct Table {
    words: Vec<u32>,
    rows: usize,
    row_words: usize,
}

impl Model for Table {
    ghost use Rattle.std.specs.Prelude.{ℕ, ◌*◌, List, vec_len, vec_capacity};
    ghost use Rattle.prims_core.specs.Memory.{rows_of, padded, IsLaidOut};

    ghost Value = { List (List ℕ) };

    ghost view = { λ t. rows_of t.rows t.row_words (padded (t.rows * t.row_words) t.words.items) };

    ghost invariant = { λ t. IsLaidOut t.rows t.row_words (vec_len t.words) (vec_capacity t.words) };
}

impl Table {
    /// Returns a table of `rows` rows of `row_words` zeros each. The meter counts the bytes of the table, four for each
    /// word.
    ///
    /// Preconditions: the table has at most 2^30 bytes, and the meter can count them without overflow.
    ///
    /// # Errors
    ///
    /// - `AllocError`: the allocation failed. The meter is unchanged.
    pub fn new(
        alloc: Global,
        rows: usize,
        row_words: usize,
        meter: &mut Meter,
    ) -> Result<Table, AllocError>
        requires fits { 4 * (rows * row_words) ≤ 2 ^ 30 }
        requires room { meter.old.table + 4 * (rows * row_words) < 2 ^ 128 }
        ensures zeros { IfOk result (λ table. table ≡ replicate rows (replicate row_words 0)) }
        ensures count { OnOk result (meter.new
            ≡ record meter.old { table = meter.old.table + 4 * (rows * row_words) }) }
        ensures refused { OnErr result (meter.new ≡ meter.old) }
    {
        let mut words = Vec::with_capacity(alloc, rows * row_words)?;
        meter.count_table(rows * row_words * size_of::<u32>());
        if row_words > ZEROS.len() {
            fill(&mut words, rows * row_words);
        }
        Ok(Table {
            words,
            rows,
            row_words,
        })
    }

    /// Returns row `i`.
    ///
    /// Precondition: `i` is below the number of rows.
    #[tactic(auto, using(crate::proofs::TableFacts::row_ends_within))]
    pub fn row(&self, i: usize) -> &[u32]
        requires { i < length self.now }
        ensures { result.now ≡ slice_index_or self.now i [] }
    {
        let start = i * self.row_words;
        let end = start + self.row_words;
        if end <= self.words.len() {
            &self.words[start..end]
        } else {
            &ZEROS[..self.row_words]
        }
    }

    /// Copies `row` to row `i`. The other rows keep their words.
    ///
    /// Preconditions: `i` is below the number of rows, and `row` is as long as a row of the table.
    #[tactic(auto, using(crate::proofs::TableFacts::row_ends_within))]
    pub fn set_row(&mut self, i: usize, row: &[u32])
        requires inside { i < length self.old }
        requires same_length { length row.now ≡ length (slice_index_or self.old i []) }
        ensures { self.new ≡ slice_set self.old i row.now }
    {
        let start = i * self.row_words;
        let end = start + self.row_words;
        fill(&mut self.words, end);
        self.words[start..end].copy_from_slice(row);
    }

    /// Returns the table's vector. It has capacity for the words of all rows.
    pub fn into_words(self) -> Vec<u32>
        ensures room { (rows row_words : ℕ) → HasShape self rows row_words → rows * row_words ≤ vec_capacity result }
    {
        let Table { words, .. } = self;
        words
    }
}

// Appends zeros until `words` has `len` words. If it has more already, it stays as it is.
//
// Precondition: the vector has capacity for `len` words.
fn fill(words: &mut Vec<u32>, len: usize)
    requires room { len ≤ vec_capacity words.old }
    ensures zeros { words.new.items ≡ words.old.items ++ replicate (len - length words.old.items) 0 }
    ensures len { vec_len words.new ≡ vec_len words.old + (len - vec_len words.old) }
    ensures room { vec_capacity words.old ≤ vec_capacity words.new }
{
    if words.len() < len {
        words.resize(len, 0).unwrap();
    }
}
