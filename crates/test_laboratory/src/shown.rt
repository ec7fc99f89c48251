//! Faults and formats as a script writes them.

use fe_codec::Format;
use fe_keeper::Fault;
use std::alloc::{AllocError, Global};

/// A fault's name, with its place or offset in braces if it has one.
pub fn fault_text(alloc: Global, fault: &Fault) -> Result<String, AllocError> {
    match fault {
        Fault::Device => String::from_str(alloc, "Device"),
        Fault::Failed => String::from_str(alloc, "Failed"),
        Fault::NoMemory(_) => String::from_str(alloc, "NoMemory"),
        Fault::Mismatch { place } => format!(in alloc; "Mismatch {{ place: {place} }}"),
        Fault::Damaged { offset } => format!(in alloc; "Damaged {{ offset: {offset} }}"),
        Fault::Unformatted => String::from_str(alloc, "Unformatted"),
    }
}

/// A format's name.
pub fn format_name(format: Format) -> &'static str {
    match format {
        Format::One => "One",
        Format::Two => "Two",
    }
}
