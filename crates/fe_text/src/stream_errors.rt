//! The errors with which a stream's calls failed, as clauses name them (`docs/schedules.md`, "Lines"). Only
//! the error that a call returned sets a mark here.

ghost use Rattle.std.specs.Prelude.{◌≡◌, ◌↔◌, None, Some, true, IfSome};
ghost use Rattle.std.specs.IoError.{error_kind};
ghost use Rattle.fe_memory.specs.Memory.{out_of_memory};
ghost use Rattle.fe_text.specs.Counted.{HasErred, no_errors};
ghost use Rattle.fe_text.specs.declared.fault.StreamFault.{StreamFault as Fault};

use crate::fault::StreamFault;
use fe_memory::OutOfMemory;
use std::io::{Error, ErrorKind};

/// With which errors the calls of a stream failed.
#[derive(Clone, Copy)]
pub struct StreamErrors {
    /// A call failed, not for memory or a signal; or a signal interrupted a flush.
    input: bool,
    /// A call found no memory.
    memory: bool,
    /// A signal interrupted a read or a write.
    interrupted: bool,
}

impl StreamErrors {
    /// No call failed.
    pub(crate) fn none() -> StreamErrors
        ensures { result ≡ no_errors }
    {
        StreamErrors {
            input: false,
            memory: false,
            interrupted: false,
        }
    }

    /// Keeps the error of a read or a write. The fault for it, or `None` if a signal interrupted the call.
    pub(crate) fn keep(&mut self, error: Error) -> Option<StreamFault>
        ensures signal { (result ≡ None) ↔ (error_kind error ≡ ErrorKind.Interrupted) }
        ensures memory { (result ≡ Some (Fault.Memory out_of_memory))
            ↔ (error_kind error ≡ ErrorKind.OutOfMemory) }
        ensures interrupted { result ≡ None → self.new.interrupted ≡ true }
        ensures just { IfSome result (λ _. self.new.interrupted ≡ self.old.interrupted) }
        ensures fails { IfSome result (HasErred self.new) }
        ensures stays { (fault : Fault) → HasErred self.old fault → HasErred self.new fault }
    {
        if error.kind() == ErrorKind::Interrupted {
            self.interrupted = true;
            return None;
        }
        match OutOfMemory::of(&error) {
            Some(short) => {
                self.memory = true;
                Some(StreamFault::Memory(short))
            }
            None => {
                self.input = true;
                Some(StreamFault::Input)
            }
        }
    }

    /// Keeps the error of a flush, and returns the fault for it. It is `Input` also if a signal interrupted
    /// the flush.
    pub(crate) fn keep_of_flush(&mut self, error: Error) -> StreamFault
        ensures memory { (result ≡ Fault.Memory out_of_memory) ↔ (error_kind error ≡ ErrorKind.OutOfMemory) }
        ensures fails { HasErred self.new result }
        ensures just { self.new.interrupted ≡ self.old.interrupted }
    {
        match OutOfMemory::of(&error) {
            Some(short) => {
                self.memory = true;
                StreamFault::Memory(short)
            }
            None => {
                self.input = true;
                StreamFault::Input
            }
        }
    }
}
