//! The buffer for the line that is being read.
ghost use Rattle.std.specs.Prelude.{◌≡◌, ℕ, ◌++◌, ◌↔◌, [], List, IsTrue};
ghost use Rattle.run_core.specs.Private.Lines.{Represents};

use crate::line::LINE_LIMIT;
use arrayvec::ArrayVec;

/// The bytes of a line that have been read so far, in memory of a fixed size.
#[derive(Drop)]
pub(crate) enum LineBuffer {
    /// The bytes, at most [`LINE_LIMIT`].
    Bytes(ArrayVec<u8, LINE_LIMIT>),
    /// The line has more than [`LINE_LIMIT`] bytes, which have been dropped.
    TooLong,
}

impl LineBuffer {
    /// Returns an empty buffer.
    pub(crate) fn new() -> LineBuffer
        ensures { Represents result [] }
    {
        LineBuffer::Bytes(ArrayVec::new())
    }

    /// Empties the buffer for the next line. The bytes of the last line are never read again.
    pub(crate) fn clear(&mut self)
        ensures { Represents self.new [] }
    {
        match self {
            LineBuffer::Bytes(bytes) => bytes.clear(),
            LineBuffer::TooLong => *self = LineBuffer::new(),
        }
    }

    /// Returns whether no byte of the line has been read yet.
    pub(crate) fn is_empty(&self) -> bool
        ensures { (line : List ℕ) → Represents self.now line → IsTrue result ↔ (line ≡ []) }
    {
        match self {
            LineBuffer::Bytes(bytes) => bytes.is_empty(),
            LineBuffer::TooLong => false,
        }
    }

    /// Adds bytes to the line. A line with more than [`LINE_LIMIT`] bytes becomes `TooLong`.
    pub(crate) fn append(&mut self, piece: &[u8])
        ensures { (line : List ℕ) → Represents self.old line → Represents self.new (line ++ piece.now) }
    {
        if let LineBuffer::Bytes(bytes) = self {
            if bytes.try_extend_from_slice(piece).is_err() {
                *self = LineBuffer::TooLong;
            }
        }
    }
}
