//! Splits an input into lines. A run asks for one line after another.
ghost use Rattle.std.specs.Prelude.{◌≡◌, ℕ, ◌+◌, ◌-◌, ◌<◌, ◌≤◌, [], List, false, length, IfOk, IsTrue, OnOk};
ghost use Rattle.run_core.specs.Devices.{Device};
ghost use Rattle.run_core.specs.Input.{Reads};
ghost use Rattle.run_core.specs.LineRuns.{piece_size};
ghost use Rattle.run_core.specs.Private.Headroom.{HasRoomFor, to_read};
ghost use Rattle.run_core.specs.Private.Readers.{FetchesPiece, GivesNext, HasGiven, TakesLine};

pub(crate) mod buffer;

use crate::device::Input;
use crate::fault::RunFault;
use crate::transfer::{fetch_piece, line_feed_at};
use buffer::LineBuffer;
use std::io::Read;
use std::marker::Model;

// The number of bytes that one read asks for.
const PIECE_SIZE: usize = 512;

/// The bytes of the last read that have not been used yet.
#[derive(Drop)]
struct Piece {
    bytes: [u8; PIECE_SIZE],
    start: usize,
    end: usize,
}

impl Model for Piece {
    ghost use Rattle.std.specs.Prelude.{ℕ, List, ◌≤◌};
    ghost use Rattle.std.specs.List.{slice_range};
    ghost use Rattle.run_core.specs.LineRuns.{piece_size};

    ghost Value = { List ℕ };

    ghost view = { λ p. slice_range p.bytes p.start p.end };

    ghost invariant = { λ p. (p.start ≤ p.end) × (p.end ≤ piece_size) };
}

impl Piece {
    // Moves the bytes before the first line feed into `buffer` and drops the line feed. If there is no line feed, moves
    // all bytes. Returns whether there was a line feed.
    fn take_line(&mut self, buffer: &mut LineBuffer) -> bool
        ensures takes { TakesLine self.old self.new buffer.old buffer.new result }
        ensures size { length self.old ≤ piece_size }
    {
        let unread = &self.bytes[self.start..self.end];
        match line_feed_at(unread) {
            Some(at) => {
                buffer.append(&unread[..at]);
                self.start += at + 1;
                true
            }
            None => {
                buffer.append(unread);
                self.start = self.end;
                false
            }
        }
    }

    // Reads once, and replaces the piece by the bytes that the read returned. Returns false at the end of the input.
    fn fetch<I: Read>(&mut self, input: &mut Input<I>, left: &mut u64) -> Result<bool, RunFault>
        requires room { HasRoomFor piece_size left.old input.old }
        ensures reads { Reads input.old input.new self.new }
        ensures fetches { FetchesPiece left.old input.old input.new self.new result }
        ensures size { length self.new ≤ piece_size }
        ensures some_left { OnOk result (0 < left.old) }
        ensures takes_turn { left.new ≡ left.old - 1 }
        ensures turns { input.new.calls + left.new ≡ input.old.calls + left.old }
    {
        self.start = 0;
        self.end = 0;
        let count = fetch_piece(input, &mut self.bytes, left)?;
        self.end = count;
        Ok(count > 0)
    }
}

/// A reader that returns one line after another.
#[derive(Drop)]
pub(crate) struct LineReader {
    piece: Piece,
    /// The line that was read last, once `next_line` has returned true.
    pub(crate) buffer: LineBuffer,
    /// Whether a read has found the end of the input.
    at_end: bool,
}

impl LineReader {
    /// Returns a reader that has read nothing.
    pub(crate) fn new() -> LineReader
        ensures unread { result.piece ≡ [] }
        ensures no_end { result.at_end ≡ false }
    {
        LineReader {
            piece: Piece {
                bytes: [0; PIECE_SIZE],
                start: 0,
                end: 0,
            },
            buffer: LineBuffer::new(),
            at_end: false,
        }
    }

    /// Reads the next line into `buffer`. Returns whether there is one.
    ///
    /// Each read uses one of the `left` I/O calls.
    ///
    /// # Errors
    ///
    /// - `Read`: a read failed.
    /// - `Turns`: another read is needed, and `left` is 0.
    pub(crate) fn next_line<I: Read>(
        &mut self,
        input: &mut Input<I>,
        left: &mut u64,
    ) -> Result<bool, RunFault>
        requires room { HasRoomFor piece_size left.old input.old }
        ensures gives { (start : Device I) → (lines : List (List ℕ)) → HasGiven start input.old self.old lines
            → GivesNext left.new start input.new self.new lines result }
        ensures room { OnOk result (HasRoomFor piece_size left.new input.new) }
        ensures turns { input.new.calls + left.new ≡ input.old.calls + left.old }
        ensures fewer { left.new ≤ left.old }
        ensures shorter { IfOk result (λ found. IsTrue found
            → to_read left.new self.new.piece < to_read left.old self.old.piece) }
    {
        if self.at_end {
            return Ok(false);
        }
        self.buffer.clear();
        'fetches: while !self.piece.take_line(&mut self.buffer) {
            if !self.piece.fetch(input, left)? {
                self.at_end = true;
                return Ok(!self.buffer.is_empty());
            }
        }
        Ok(true)
    }
}
