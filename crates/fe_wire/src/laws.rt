//! Laws of clients' streams of frames, of what decoders make of them, and of the server's replies
//! (`docs/model.md`, "Frames"). Each function states one, and does nothing.

ghost use Rattle.std.specs.Prelude.{◌≡◌, ◌+◌};
ghost use Rattle.fe_wire.specs.Stream.{longest, EachHasReading, HasOneReading, HasOneOutcome, HasOneSpelling};
ghost use Rattle.fe_wire.specs.Stream.{HasOneReplySpelling, HasOneReplyReading};
ghost use Rattle.fe_wire.specs.declared.version.Version.TheVariants.{Two};
ghost use Rattle.fe_wire.specs.declared.decoder_state.TheConstants.{FRAME_BYTES};
ghost use Rattle.fe_wire.specs.declared.head.TheConstants.{LENGTH_BYTES};
ghost use Rattle.fe_wire.specs.Examples.{ExampleMessages, ExampleReplies};

/// A stream has at most one reading in a version: its messages, and the rest after them.
pub fn one_reading()
    ensures { HasOneReading }
{}

/// Every list of bytes has a reading in each version. So its messages and its rest are a function of the
/// bytes.
pub fn has_reading()
    ensures { EachHasReading }
{}

/// Two decoders of one version that have read the same stream from the same offset have the same messages and
/// are in the same state, whatever the pieces.
pub fn one_outcome()
    ensures { HasOneOutcome }
{}

/// No message's frame is a prefix of another's, and no two messages have the same frame, whatever their
/// versions.
pub fn one_spelling()
    ensures { HasOneSpelling }
{}

/// No reply's frame is a prefix of another's, and no two replies have the same frame.
pub fn one_reply_spelling()
    ensures { HasOneReplySpelling }
{}

/// Bytes are the frames of at most one list of replies, so a client can read in only one way what was written
/// to it.
pub fn one_reply_reading()
    ensures { HasOneReplyReading }
{}

/// Worked frames have the bytes given. All frames of `docs/formats.md`, "Frames", are among them.
pub fn frames_are_spelled()
    ensures messages { ExampleMessages }
    ensures replies { ExampleReplies }
{}

/// The constants of the code are the bytes of a length field, and those of a client's longest frame: its
/// length field and the greatest value of that.
pub fn limits_are()
    ensures length { LENGTH_BYTES ≡ 4 }
    ensures frame { FRAME_BYTES ≡ 4 + longest Two }
{}
