//! The frames that clients and the server exchange, each a length, a kind and a body (`docs/formats.md`,
//! "Frames").
#![tactic(auto)]

mod client_message;
mod decoder;
mod decoder_state;
mod fed;
mod fields;
mod frame;
mod head;
mod kinds;
mod laws;
mod message_frames;
mod messages;
mod putting;
mod replies;
mod server_message;
mod version;

pub use client_message::ClientMessage;
pub use decoder::Decoder;
pub use fed::{BadFrame, Fed};
pub use head::LENGTH_BYTES;
pub use laws::{
    frames_are_spelled, has_reading, limits_are, one_outcome, one_reading, one_reply_reading,
    one_reply_spelling, one_spelling,
};
pub use message_frames::put_message;
pub use putting::put_reply;
pub use replies::read_reply;
pub use server_message::ServerMessage;
pub use version::Version;
