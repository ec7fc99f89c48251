//! Making the socket, first under another name, so that its file is there only once it listens
//! (`docs/DECISIONS.md`, "Server").

ghost use Rattle.std.specs.Prelude.{◌≡◌, ◌<◌, ◌++◌, codes, length, string_bytes, IfSome, IsSome};

use std::alloc::Global;
use std::fs;
use std::fs::Metadata;
use std::io::ErrorKind;
use std::net::Net;
use std::os::unix::fs::{FileTypeExt, MetadataExt};
use std::os::unix::net::{UnixListener, UnixStream};
use std::rt::Files;

/// What the other name has after the path.
const BESIDE: &str = ".new";

/// The most bytes in the path of a socket on Linux.
const LONGEST: usize = 107;

/// The most connections that are taken off a listener at a time. Only servers that start have a reason to
/// connect to the other name.
const VISITORS: u64 = 4096;

/// Binds a listener to a path that is not empty and does not exist, if the server may open as many files as
/// it needs to serve a client. The file appears there once clients can connect. If the other name can't be
/// used (it is too long or taken, the file system has no hard links, memory is short), the path itself is
/// bound, and the file appears a moment before it listens. `None` if that fails too.
pub(crate) fn bind<R: Files + Net>(rt: &R, alloc: Global, path: &str) -> Option<UnixListener>
    ensures named { IsSome result → 0 < length path.now }
{
    // To an empty path the system would bind a name of its own choice.
    if path.is_empty() || is_taken(rt, path) || !has_room(rt) {
        return None;
    }
    match bind_ready(rt, alloc, path) {
        Some(listener) => Some(listener),
        None => UnixListener::bind(rt, path).ok(),
    }
}

/// A listener that is bound to the other name, and then moved to its path. Another server that starts at the
/// same moment may take a socket that does not listen yet for one that a killed server left, and put its own
/// there. So this one is the listener only if what is at the path in the end is what was at the other name
/// when it was reached there.
fn bind_ready<R: Files + Net>(rt: &R, alloc: Global, path: &str) -> Option<UnixListener> {
    let beside = name_beside(alloc, path)?;
    let listener = bind_beside(rt, beside.as_str())?;
    let bound = fs::symlink_metadata(rt, beside.as_str()).ok()?;
    if !is_reached(rt, &listener, beside.as_str()) {
        return None;
    }
    let _ = fs::hard_link(rt, beside.as_str(), path);
    if is_at(rt, beside.as_str(), &bound) {
        let _ = fs::remove_file(rt, beside.as_str());
    }
    if is_at(rt, path, &bound) {
        Some(listener)
    } else {
        None
    }
}

/// Whether a client who connects at a path gets to the listener. All who came until then are sent away.
fn is_reached<R: Files + Net>(rt: &R, listener: &UnixListener, path: &str) -> bool {
    if listener.set_nonblocking(true).is_err() {
        return false;
    }
    let _before = visitors(listener);
    let came = match UnixStream::connect(rt, path) {
        Ok(_) => visitors(listener),
        Err(_) => 0,
    };
    listener.set_nonblocking(false).is_ok() && came > 0
}

/// How many connections wait at a listener that does not block, at most `VISITORS`. They are closed.
fn visitors(listener: &UnixListener) -> u64 {
    for count in 0..VISITORS {
        if listener.accept().is_err() {
            return count;
        }
    }
    VISITORS
}

/// Whether a path has this file.
fn is_at<R: Files>(rt: &R, path: &str, file: &Metadata) -> bool {
    match fs::symlink_metadata(rt, path) {
        Ok(found) => found.dev() == file.dev() && found.ino() == file.ino(),
        Err(_) => false,
    }
}

/// Whether three more files can be opened: the listener, another handle of it, and a connection.
fn has_room<R: Net>(rt: &R) -> bool {
    match UnixStream::pair(rt) {
        Ok((first, _second)) => first.try_clone().is_ok(),
        Err(_) => false,
    }
}

/// Whether something has a path.
fn is_taken<R: Files>(rt: &R, path: &str) -> bool {
    fs::symlink_metadata(rt, path).is_ok()
}

/// The other name of a path, if it is not too long and there is memory for it.
fn name_beside(alloc: Global, path: &str) -> Option<String>
    ensures name { IfSome result (λ name. string_bytes name ≡ path.now ++ codes ".new") }
{
    if path.len() > LONGEST - BESIDE.len() {
        return None;
    }
    format!(in alloc; "{path}{BESIDE}").ok()
}

/// A listener at the other name. A socket at which nobody listens, such as one that a killed server left, is
/// removed first.
fn bind_beside<R: Files + Net>(rt: &R, beside: &str) -> Option<UnixListener> {
    if is_left(rt, beside) {
        let _ = fs::remove_file(rt, beside);
    }
    UnixListener::bind(rt, beside).ok()
}

/// Whether a path has a socket at which nobody listens. One that this process may not connect to, or that is
/// of another kind, counts as somebody's.
fn is_left<R: Files + Net>(rt: &R, path: &str) -> bool {
    let is_socket = match fs::symlink_metadata(rt, path) {
        Ok(found) => found.file_type().is_socket(),
        Err(_) => false,
    };
    match UnixStream::connect(rt, path) {
        Ok(_) => false,
        Err(error) => is_socket && error.kind() == ErrorKind::ConnectionRefused,
    }
}
