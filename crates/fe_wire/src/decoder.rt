ghost use Rattle.std.specs.Prelude.{◌≡◌, ◌≤◌, ◌++◌, ℕ, List, [], true, length, IfOk, OnErr, IsOkAnd};
ghost use Rattle.fe_wire.specs.Stream.{HasRead, HasReadFrom, CompletesMessage, fault_of};
ghost use Rattle.fe_wire.specs.declared.client_message.ClientMessage.{ClientMessage as Message};

use crate::decoder_state::{DecoderState, FRAME_BYTES};
use crate::fed::Fed;
use crate::version::Version;
use fe_memory::OutOfMemory;
use fe_state::{Request, named};
use std::alloc::Global;
use std::marker::Model;

/// Decodes the stream of one connection, which may come in pieces of any size. It stores at most the first 50
/// bytes of one unfinished frame (`docs/formats.md`, "Frames").
#[derive(Drop)]
pub struct Decoder {
    state: DecoderState,
}

impl Model for Decoder {
    ghost use Rattle.fe_wire.specs.Stream.{Decoding, decoding, IsDecoderState};

    ghost Value = { Decoding };

    ghost view = { λ d. decoding d.state };

    ghost invariant = { λ d. IsDecoderState d.state };
}

impl Decoder {
    /// A decoder for version 1, at offset 0.
    pub fn new() -> Decoder
        ensures begins { HasRead result [] [] }
        ensures version { result.version ≡ Version.One }
    {
        Self::with_version(Version::One)
    }

    /// A decoder for this version, at offset 0.
    pub fn with_version(version: Version) -> Decoder
        ensures begins { HasRead result [] [] }
        ensures version { result.version ≡ version }
    {
        let state = DecoderState {
            offset: 0,
            cells: [0; FRAME_BYTES],
            len: 0,
            is_bad: false,
            version,
        };
        Decoder { state }
    }

    /// A decoder for version 1 that counts the stream's first byte as the one at `offset`.
    pub fn starting_at(offset: u64) -> Decoder
        ensures begins { HasReadFrom offset result [] [] }
        ensures version { result.version ≡ Version.One }
    {
        let state = DecoderState {
            offset,
            cells: [0; FRAME_BYTES],
            len: 0,
            is_bad: false,
            version: Version::One,
        };
        Decoder { state }
    }

    /// Decodes the next piece of the stream. Fails only if memory for the messages in it runs out; then the
    /// decoder is unchanged, as if the piece had not come.
    pub fn feed(&mut self, alloc: Global, piece: &[u8]) -> Result<Fed, OutOfMemory>
        // The decoder has now read this piece too, and the returned messages are those that the piece
        // completes.
        ensures reads { IfOk result (λ fed. (start : ℕ) (before : List ℕ) (earlier : List Message)
            → HasReadFrom start self.old before earlier
            → HasReadFrom start self.new (before ++ piece.now) (earlier ++ fed.messages.items)) }
        ensures version { self.new.version ≡ self.old.version }
        ensures fault { IfOk result (λ fed. fed.fault ≡ fault_of self.new) }
        // After a bad frame every call returns the same fault and no messages.
        ensures stopped { self.old.is_bad ≡ true → IsOkAnd result (λ fed. fed.messages.items ≡ []) }
        ensures still { self.old.is_bad ≡ true → self.new ≡ self.old }
        ensures err { OnErr result (self.new ≡ self.old) }
        // Memory can run out only if the piece completes a message.
        ensures memory { OnErr result (CompletesMessage self.old piece.now) }
        ensures held { length self.new.held ≤ 50 }
    {
        if self.state.is_bad {
            return Ok(Fed {
                messages: Vec::new(alloc),
                fault: self.state.fault(),
            });
        }
        named::<Request>();
        let mut messages = Vec::new(alloc);
        let mut state = self.state;
        let mut rest = piece;
        while !rest.is_empty() && !state.is_bad {
            let (count, message) = state.step(rest);
            rest = &rest[count..];
            if let Some(message) = message {
                messages.push(message)?;
            }
        }
        self.state = state;
        Ok(Fed {
            messages,
            fault: state.fault(),
        })
    }
}
