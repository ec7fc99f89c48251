//! The state of a decoder, which reads the frames of one client's stream as its pieces come
//! (`docs/formats.md`, "Frames").

ghost use Rattle.std.specs.Prelude.{◌≡◌, ◌+◌, ◌<◌, ◌≤◌, ◌++◌, false, length, take, option_to_list};
ghost use Rattle.fe_wire.specs.Stream.{length_field, fault_of, IsDecoderState, Consumes, held_of, decoding};

use crate::client_message::ClientMessage;
use crate::fed::BadFrame;
use crate::head::{Head, LENGTH_BYTES, head_of};
use crate::version::Version;
use fe_fields::u32_at;

/// The length of the longest frame from a client, in bytes.
pub const FRAME_BYTES: usize = 51;

/// What a decoder keeps between two pieces of its stream.
#[derive(Clone, Copy)]
pub struct DecoderState {
    /// The offset of the current frame's first byte, at most 2^64 - 1: offsets beyond that stay there.
    pub offset: u64,
    /// The first `len` of these are the bytes of the current frame that have come.
    pub cells: [u8; FRAME_BYTES],
    /// How many bytes of the current frame are stored, at most 50.
    pub len: usize,
    /// The current frame is bad, and none of its bytes are stored.
    pub is_bad: bool,
    /// The version of the stream's frames.
    pub version: Version,
}

impl DecoderState {
    /// Copies bytes of the piece, at most to the end of the frame's length field or, if that has come, of the
    /// frame. Returns how many.
    fn fill(&mut self, piece: &[u8]) -> usize
        requires state { IsDecoderState self.old }
        requires good { self.old.is_bad ≡ false }
        requires more { 0 < length piece.now }
        ensures some { 0 < result }
        ensures within { result ≤ length piece.now }
        ensures held { held_of self.new ≡ held_of self.old ++ take result piece.now }
        ensures frame { length (held_of self.new) ≤ 4 + length_field (held_of self.new) }
        ensures room { self.new.len ≤ 51 }
        ensures cells { length self.new.cells ≡ 51 }
        ensures offset { self.new.offset ≡ self.old.offset }
        ensures is_bad { self.new.is_bad ≡ self.old.is_bad }
        ensures version { self.new.version ≡ self.old.version }
    {
        let wanted = if self.len < LENGTH_BYTES {
            LENGTH_BYTES
        } else {
            LENGTH_BYTES + u32_at(&self.cells[..self.len], 0) as usize
        };
        let count = piece.len().min(wanted - self.len);
        self.cells[self.len..self.len + count].copy_from_slice(&piece[..count]);
        self.len += count;
        count
    }

    /// Reads one byte of the piece or more, and none beyond the current frame unless that is bad. Returns how
    /// many it read, and the message if the frame is now complete. A frame that is complete in the piece is
    /// read there, without a copy.
    pub fn step(&mut self, piece: &[u8]) -> (usize, Option<ClientMessage>)
        requires state { IsDecoderState self.old }
        requires good { self.old.is_bad ≡ false }
        requires more { 0 < length piece.now }
        ensures state { IsDecoderState self.new }
        ensures some { 0 < result.0 }
        ensures within { result.0 ≤ length piece.now }
        ensures reads { Consumes self.old self.new (take result.0 piece.now) (option_to_list result.1) }
    {
        if self.len > 0 {
            let count = self.fill(piece);
            return match head_of(self.version, &self.cells[..self.len]) {
                Head::Unfinished => (count, None),
                Head::Bad => {
                    self.is_bad = true;
                    self.len = 0;
                    (count, None)
                }
                Head::Whole(_, message) => {
                    self.offset = self.offset.saturating_add(self.len as u64);
                    self.len = 0;
                    (count, Some(message))
                }
            };
        }
        match head_of(self.version, piece) {
            Head::Unfinished => {
                self.cells[..piece.len()].copy_from_slice(piece);
                self.len = piece.len();
                (piece.len(), None)
            }
            Head::Bad => {
                self.is_bad = true;
                (piece.len(), None)
            }
            Head::Whole(count, message) => {
                self.offset = self.offset.saturating_add(count as u64);
                (count, Some(message))
            }
        }
    }

    /// The bad frame, if the decoder has come to one.
    pub fn fault(&self) -> Option<BadFrame>
        ensures { result ≡ fault_of (decoding self.now) }
    {
        if self.is_bad {
            Some(BadFrame {
                offset: self.offset,
            })
        } else {
            None
        }
    }
}
