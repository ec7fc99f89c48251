//! Calling a server: a conversation over its socket (`docs/commands.md`, "Commands").

ghost use Rattle.std.specs.Prelude.{IfErr, OnOk};
ghost use Rattle.fe_client.specs.Streams.{known, FlowsTo};
ghost use Rattle.fe_client.specs.Conversation.{TalksAll};
ghost use Rattle.fe_client.specs.Ends.{causes, unconnected, CallsUntil, TalksUntil, WithServer};

use crate::connection::Connection;
use crate::fault::CallFault;
use crate::input::Input;
use crate::separate::Separate;
use crate::server_connection::ServerConnection;
use crate::streams::Streams;
use crate::talk::Talk;
use fe_text::{Sink, Source};
use std::alloc::Global;
use std::net::Net;

/// Sends each line that the reader gives, as one message, to the server at the socket of that path, and
/// prints the reply before it takes the next line. An empty line asks nothing, and is counted.
///
/// `Line` at the first line, counted from 1, that has not the form of a schedule's line without `cN `
/// (`docs/schedules.md`, "Lines"). `Socket` if there is no server, the connection fails or ends before a
/// reply, or a frame is bad. `Input` if the reader or the writer fails, or after 2^40 reads of a stream, 2^40
/// writes of one text, or 2^64 - 1 lines. `Memory` if memory runs out.
pub fn call<C: ServerConnection + Drop, N: Net, R: Source, W: Sink>(
    rt: &N,
    alloc: Global,
    path: &str,
    reader: &mut R,
    writer: &mut W,
) -> Result<(), CallFault>
    // A whole conversation was held with the server at the path. What the reader gave is its input, to the
    // end, and the replies that it printed were appended to what the writer had, each if known; and each was
    // flushed.
    ensures ok { OnOk result (WithServer (C.is_to path.now)
        (λ made now. TalksAll (FlowsTo (W.is_handed_on writer.old) (W.is_handed_on writer.new))
        (known (R.remaining reader.old) (C.sent made) (C.received made) (W.contents writer.old))
        (known (R.remaining reader.new) (C.sent now) (C.received now) (W.contents writer.new)))) }
    // At a fault, there was no server, or the lines before the one at fault have had their exchanges with it.
    // The connection, the reader and the writer failed only if a call of them did, or the connection has
    // ended. The replies that were printed whole are flushed.
    ensures fault { IfErr result (λ end. CallsUntil (C.is_refused path.now) (C.is_to path.now)
        (λ made now. TalksUntil (FlowsTo (W.is_handed_on writer.old) (W.is_handed_on writer.new)) end
        (causes (C.is_over now) (R.has_failed reader.new) (W.has_failed writer.new) (R.was_read reader.new))
        (known (R.remaining reader.old) (C.sent made) (C.received made) (W.contents writer.old))
        (known (R.remaining reader.new) (C.sent now) (C.received now) (W.contents writer.new)))
        (FlowsTo (W.is_handed_on writer.old) (W.is_handed_on writer.new)) end
        (unconnected (R.remaining reader.old) (W.contents writer.old))
        (unconnected (R.remaining reader.new) (W.contents writer.new))) }
{
    match C::connect(rt, path) {
        Ok(connection) => {
            let mut connection = connection;
            call_over(alloc, &mut connection, reader, writer)
        }
        Err(_) => Err(CallFault::Socket),
    }
}

/// As `call`, over a connection. The reader, the connection and the writer are three objects, and no clause
/// can say in which order they were called, so the clauses say only what the conversation's events did to
/// each. Their order is that of `converse`.
pub fn call_over<C: Connection, R: Source, W: Sink>(
    alloc: Global,
    connection: &mut C,
    reader: &mut R,
    writer: &mut W,
) -> Result<(), CallFault>
    ensures ok { OnOk result (TalksAll (FlowsTo (W.is_handed_on writer.old) (W.is_handed_on writer.new))
        (known (R.remaining reader.old) (C.sent connection.old) (C.received connection.old)
        (W.contents writer.old))
        (known (R.remaining reader.new) (C.sent connection.new) (C.received connection.new)
        (W.contents writer.new))) }
    ensures fault { IfErr result (λ end. TalksUntil
        (FlowsTo (W.is_handed_on writer.old) (W.is_handed_on writer.new)) end
        (causes (C.is_over connection.new) (R.has_failed reader.new) (W.has_failed writer.new)
        (R.was_read reader.new))
        (known (R.remaining reader.old) (C.sent connection.old) (C.received connection.old)
        (W.contents writer.old))
        (known (R.remaining reader.new) (C.sent connection.new) (C.received connection.new)
        (W.contents writer.new))) }
{
    let mut streams = Separate {
        reader,
        connection,
        writer,
    };
    converse(alloc, &mut streams)
}

/// Holds a conversation over streams whose events have one order.
pub fn converse<E: Streams>(alloc: Global, streams: &mut E) -> Result<(), CallFault>
    // The input is read again only after each line that was read has had its exchange, and its reply was
    // written and flushed.
    ensures ok { OnOk result (TalksAll E.leads streams.old streams.new) }
    // At a fault, this holds for the lines before the one at fault, and the clause says how far that one
    // came, and why no further.
    ensures fault { IfErr result (λ end. TalksUntil E.leads end (E.because streams.new) streams.old
        streams.new) }
{
    let mut input = Input::new(alloc)?;
    let mut talk = Talk::new(alloc)?;
    while input.next_line(streams)? {
        talk.take_line(input.number(), input.line(), streams)?;
    }
    talk.take_line(input.number(), input.line(), streams)
}
