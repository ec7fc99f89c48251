//! The journal of a store: two slots on a device, each with an image and the groups after it.
//!
//! It knows bytes, gates, generations and lengths, and not what a payload or an image says. `docs/store.md`
//! says what these are.
#![tactic(auto)]

mod begun;
mod buffer;
mod commit;
mod fault;
mod formatting;
mod groups;
mod header;
mod journal;
mod laws;
mod layout;
mod opening;
mod scan;
mod slot;
mod spelling;
mod store;

pub use begun::Begun;
pub use buffer::buffer_of;
pub use fault::{JournalFault, StoreFault};
pub use fe_format::Format;
pub use groups::Groups;
pub use journal::Journal;
pub use laws::{held_or_refused, layout_is, one_contents};
pub use layout::{
    AREA_BYTES, DEVICE_BYTES, HEADER_BYTES, LONGEST_PAYLOAD, SLICE_BYTES, area_of, header_of,
    image_of,
};
pub use opening::{Blank, Found, Unopened};
