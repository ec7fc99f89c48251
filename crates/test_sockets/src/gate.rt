//! A server holds one connection at its gate, and serves another one at the same time.

use fe_client::{StreamConnection, call_over};
use fe_disk::{SyncHold, SystemFile};
use fe_hall::{Free, Gate};
use fe_options::read_settings;
use fe_server::{books_text, serve};
use fe_text::{CountedReader, CountedWriter};
use std::net::Net;
use std::os::unix::net::UnixStream;
use std::process::Abort;
use std::rt::{Clock, Env};
use std::sync::Wait;
use std::thread::Threads;
use std::time::Duration;
use std::{env, fs, process, thread};

/// How often to check at most for something that another thread does, at intervals of a millisecond.
const TURNS: usize = 100_000;

/// How many seconds a client waits for the server's reply: as long as a test may take.
const PATIENCE: u64 = 60;

/// The books of the server at its end: how many calls and mails there were.
const BOOKS: &str =
    "calls 3 completed 3 waiting 0 withdrawn 0 repeated 0 refused 0\nmails 5 taken 5 dropped 0 left 0\n";

/// The number of answers to the two clients.
const ANSWERS: usize = 3;

/// Makes the messages of connection 0, the first one, wait while the hold is on.
#[derive(Drop)]
struct Barrier {
    hold: SyncHold,
}

impl Gate for Barrier {
    fn pass<R: Wait>(&self, rt: &R, _free: &mut Free, conn: u64) {
        if conn == 0 {
            self.hold.pass(rt);
        }
    }
}

/// Returns once a message is held.
fn wait_until_held(rt: &(impl Wait + Clock + Abort), hold: &SyncHold) {
    for _ in 0..TURNS {
        if hold.is_holding(rt) {
            return;
        }
        thread::sleep(rt, Duration::from_millis(1));
    }
    assert!(rt; false, "nothing is held");
}

/// A connection to the server at this socket, made once the socket is there.
fn connected<R: Net + Clock + Abort>(rt: &R, socket: &str) -> UnixStream {
    for _ in 0..TURNS {
        if let Ok(stream) = UnixStream::connect(rt, socket) {
            let patience = Duration::from_secs(PATIENCE);
            assert!(rt; stream.set_read_timeout(Some(patience)).is_ok());
            return stream;
        }
        thread::sleep(rt, Duration::from_millis(1));
    }
    None.expect(rt, "there is a server")
}

/// Sends the lines, and checks that these answers are printed.
fn asks(rt: &(impl Abort + AllocGlobal), stream: &UnixStream, lines: &[u8], answers: &[u8]) {
    let mut connection = StreamConnection::new(stream, stream);
    let mut reader = CountedReader::new(lines);
    let mut printed = Vec::new(rt.alloc());
    let mut writer = CountedWriter::new(&mut printed);
    let ended = call_over(rt.alloc(), &mut connection, &mut reader, &mut writer);
    drop(writer);
    assert!(rt; ended.is_ok() && printed.as_slice() == answers);
}

/// The first client's call is held until the second client's call is answered.
fn two_calls<R: Net + Clock + Threads + Wait + Sync + Abort + AllocGlobal>(
    rt: &R,
    socket: &str,
    hold: &SyncHold,
) {
    let first = connected(rt, socket);
    asks(rt, &first, b"attach 7\n", b"welcome 7 1\n");
    hold.hold(rt);
    let (_, second) = thread::join(
        rt,
        || asks(rt, &first, b"1 create cells 2 empty\n", b"1 array 1 2\n"),
        || {
            wait_until_held(rt, hold);
            let second = connected(rt, socket);
            let answers = b"welcome 8 1\n1 no-array\n";
            asks(rt, &second, b"attach 8\n1 find cells\n", answers);
            hold.let_go(rt);
            second
        },
    );
    asks(rt, &second, b"2 find cells\n", b"2 array 1 2\n");
}

/// The path of a file that no other process uses.
fn path_of(rt: &(impl Env + AllocGlobal), id: u32, name: &str) -> Option<String> {
    let folder = env::temp_dir(rt).ok()?;
    format!(in rt.alloc(); "{}/fe_gate_{id}_{name}", folder.as_str()).ok()
}

#[test]
fn gate_holds_one(rt: HostRuntime) {
    let id = process::id(rt.process());
    let socket = path_of(&rt, id, "socket").expect(&rt, "a path");
    let store = path_of(&rt, id, "store").expect(&rt, "a path");
    // An earlier process with this number may have been killed in this test.
    let _ = (
        fs::remove_file(&rt, socket.as_str()),
        fs::remove_file(&rt, store.as_str()),
    );
    let text = format!(in rt.alloc();
        "socket = '{socket}'\nstore = '{store}'\naccepts = 2\nformat = true\n"
    );
    let text = text.ok().expect(&rt, "a text");
    let settings = read_settings(rt.alloc(), text.as_str())
        .ok()
        .expect(&rt, "settings");
    let gate = Barrier {
        hold: SyncHold::new(),
    };
    let (answer, _) = thread::join(
        &rt,
        || serve::<SystemFile, _, _>(&rt, rt.alloc(), &settings, &gate),
        || two_calls(&rt, socket.as_str(), &gate.hold),
    );
    let answer = answer.ok().expect(&rt, "the store was served");
    let served = answer.ok().expect(&rt, "the server ended by itself");
    let books = served.audit.books();
    let found = books_text(rt.alloc(), &books).ok().expect(&rt, "a text");
    assert!(&rt; found.as_str() == BOOKS && served.audit.receipts().len() == ANSWERS);
    assert!(&rt;
        fs::remove_file(&rt, socket.as_str()).is_ok()
            && fs::remove_file(&rt, store.as_str()).is_ok()
    );
}
