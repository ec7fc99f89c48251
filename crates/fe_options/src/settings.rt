//! A server's settings.

/// A server's settings (`docs/settings.md`).
#[derive(Drop, PartialEq, Eq)]
pub struct Settings {
    /// The path of the Unix socket.
    pub socket: String,
    /// The path of the store's file.
    pub store: String,
    /// The maximum number of connections served at once, 1 to 256.
    pub connections: u64,
    /// Whether to make a store if the file is missing or holds none.
    pub format: bool,
    /// After this many connections, once all of them ended, the server ends; at most 65,536, and 0 means no
    /// limit.
    pub accepts: u64,
    /// The maximum number of reads of one connection, 1 to 2^40.
    pub turns: u64,
}
