//! The kinds of frames: the byte after a frame's length, which says what message it is (`docs/formats.md`,
//! "Frames").

ghost use Rattle.std.specs.Prelude.{◌≡◌};
ghost use Rattle.fe_wire.specs.Spelling.{create_kind, find_kind, access_kind};

// These are kinds of frames from a client.

pub const ATTACH: u8 = 1;

/// A create with a name of at most 16 bytes.
pub const CREATE: u8 = 2;

/// A find with a name of at most 16 bytes.
pub const FIND: u8 = 3;

pub const REMOVE: u8 = 4;

/// An access that may wait.
pub const ACCESS: u8 = 5;

pub const CANCEL: u8 = 6;

pub const SETTLE: u8 = 7;

pub const BYE: u8 = 8;

pub const ASK_REPORT: u8 = 9;

/// An access that must not wait, of version 2.
pub const ACCESS_NOW: u8 = 11;

/// A create with a longer name, of version 2.
pub const CREATE_LONG: u8 = 12;

/// A find with a longer name, of version 2.
pub const FIND_LONG: u8 = 13;

// These are kinds of frames from the server.

pub const WELCOME: u8 = 65;

pub const ANSWER: u8 = 66;

pub const WITHDRAWN: u8 = 67;

pub const SETTLED: u8 = 68;

pub const GOODBYE: u8 = 69;

pub const REFUSED: u8 = 70;

pub const REPORT: u8 = 71;

/// The kind of a create, by whether its name has more than 16 bytes.
pub fn create_kind(is_long: bool) -> u8
    ensures { result ≡ create_kind is_long }
{
    if is_long { CREATE_LONG } else { CREATE }
}

/// The kind of a find, by whether its name has more than 16 bytes.
pub fn find_kind(is_long: bool) -> u8
    ensures { result ≡ find_kind is_long }
{
    if is_long { FIND_LONG } else { FIND }
}

/// The kind of an access, by whether it must not wait.
pub fn access_kind(no_wait: bool) -> u8
    ensures { result ≡ access_kind no_wait }
{
    if no_wait { ACCESS_NOW } else { ACCESS }
}
