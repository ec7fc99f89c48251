//! The names in requests; only plain ones can be names of arrays (`docs/model.md`, "The state of the
//! server").

ghost use Rattle.std.specs.Prelude.{◌≡◌, ◌≤◌, ◌↔◌, length, IsSome, IfSome};
ghost use Rattle.std.specs.List.{list_all};
ghost use Rattle.fe_state.specs.Format.{name_fits_format_1};
ghost use Rattle.fe_state.specs.Name.{is_plain, is_plain_byte};
ghost use Rattle.fe_state.specs.Limits.{longest_name};

use crate::bounds::NAME_BYTES;
use std::marker::Model;

/// The name of an array as a client sent it: 0 to 32 bytes of any kind.
#[derive(Clone, Copy, PartialEq, Eq)]
pub struct Name {
    len: u8,
    cells: [u8; NAME_BYTES],
}

impl Model for Name {
    ghost use Rattle.std.specs.Prelude.{◌≡◌, ℕ, ◌≤◌, ◌-◌, List, length, take, drop, replicate};
    ghost use Rattle.fe_state.specs.Name.{padded, padded-take};
    ghost use Rattle.fe_state.specs.Limits.{longest_name};

    ghost Value = { List ℕ };

    ghost view = { λ a. take a.len a.cells };

    ghost invariant = { λ a. (a.len ≤ longest_name) × (length a.cells ≡ longest_name)
        × (drop a.len a.cells ≡ replicate (longest_name - a.len) 0) };

    ghost inverse = { λ bytes. record { len = length bytes; cells = padded longest_name bytes } };

    ghost inverse_ok = { λ a h i. record {
      len = (padded-take a.len a.cells h).0 i;
      cells = (padded-take a.len a.cells h).1 i;
    } };
}

impl Name {
    /// The name of these bytes, or `None` if they are more than 32.
    pub fn new(bytes: &[u8]) -> Option<Name>
        ensures fits { IsSome result ↔ (length bytes.now ≤ longest_name) }
        ensures value { IfSome result (λ name. name ≡ bytes.now) }
    {
        if bytes.len() > NAME_BYTES {
            return None;
        }
        let mut cells = [0; NAME_BYTES];
        cells[..bytes.len()].copy_from_slice(bytes);
        Some(Name {
            len: bytes.len() as u8,
            cells,
        })
    }

    /// The bytes as they were sent.
    pub fn bytes(&self) -> &[u8]
        ensures bytes { result.now ≡ self.now }
        ensures length { length result.now ≤ longest_name }
    {
        &self.cells[..usize::from(self.len)]
    }

    /// Whether store format 1 has room for the name: it has for up to 16 bytes.
    pub fn fits_format_1(&self) -> bool
        ensures { result ≡ name_fits_format_1 self.now }
    {
        self.bytes().len() <= 16
    }

    /// Whether an array may have this name: 1 to 32 bytes, each of `a` to `z`, `0` to `9` or `_`.
    pub fn is_plain(&self) -> bool
        ensures { result ≡ is_plain self.now }
    {
        !self.bytes().is_empty() && are_plain(self.bytes())
    }
}

fn are_plain(bytes: &[u8]) -> bool
    ensures { result ≡ list_all is_plain_byte bytes.now }
{
    bytes.iter().all(|byte| is_plain_byte(*byte))
}

fn is_plain_byte(byte: u8) -> bool
    ensures { result ≡ is_plain_byte byte }
{
    byte.is_ascii_lowercase() || byte.is_ascii_digit() || byte == b'_'
}
