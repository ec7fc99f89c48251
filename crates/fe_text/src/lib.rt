//! The text that `femem` reads and prints: the lines of a schedule, which is an input of `femem run`, and
//! replies as text (`docs/schedules.md`). It also reads streams in pieces, and writes text to them.
#![tactic(auto)]

mod counted_reader;
mod counted_writer;
mod fault;
mod input;
mod laws;
mod line;
mod printing;
mod request;
mod stream;
mod stream_calls;
mod stream_errors;
mod streams;
mod word;

pub use counted_reader::CountedReader;
pub use counted_writer::CountedWriter;
pub use fault::StreamFault;
pub use input::first_line;
pub use laws::{limits_are, refusals_print_their_names};
pub use line::{LONGEST_LINE, Line, message_in, parse};
pub use printing::print_reply;
pub use stream::{PIECE, READS, WRITES, buffer};
pub use stream_calls::StreamCalls;
pub use stream_errors::StreamErrors;
pub use streams::{Sink, Source};
