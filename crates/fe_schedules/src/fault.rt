//! How a schedule ends at a fault (`docs/schedules.md`, "Lines"). Its machine is what it runs on: a desk over
//! a store in memory (`docs/model.md`, "The desk").

ghost use Rattle.std.specs.Prelude.{◌≡◌, ◌≢◌, None, Some};
ghost use Rattle.fe_schedules.specs.Schedule.{of_desk};

use fe_desk::DeskFault;
use fe_keeper::Fault as StoreFault;
use fe_memory::OutOfMemory;
use fe_text::StreamFault;

/// Why a schedule ended before its end.
#[derive(Clone, Copy, PartialEq, Eq)]
pub enum ScheduleFault {
    /// The line of that number, counted from 1, isn't in the syntax.
    Line(u64),
    /// The input can't be read to its end, or the output can't be written.
    Input,
    /// Memory ran out, but not in a call of the disk.
    Memory(OutOfMemory),
    /// A call of the store's disk failed. The disk in memory fails a call if it finds no memory.
    Device,
}

/// Why a machine did not do what a line says.
#[derive(Clone, Copy)]
pub(crate) enum MachineFault {
    Memory(OutOfMemory),
    Device,
}

impl MachineFault {
    /// The fault of a machine for a fault of its desk.
    pub fn of_desk(fault: DeskFault) -> MachineFault
        requires { of_desk fault ≢ None }
        ensures { of_desk fault ≡ Some result }
    {
        match fault {
            DeskFault::NoMemory { error, .. } | DeskFault::Unwritten(error) => MachineFault::Memory(
                error,
            ),
            DeskFault::Store(StoreFault::Device | StoreFault::Failed) => MachineFault::Device,
            DeskFault::Store(_) => unreachable!(),
        }
    }
}

impl From<OutOfMemory> for MachineFault {
    ghost use Rattle.std.specs.Prelude.{◌≡◌};
    ghost use Rattle.fe_schedules.specs.declared.fault.MachineFault.TheVariants as machine;

    ghost from_gives = { λ error fault. fault ≡ machine.Memory error };

    fn from(error: OutOfMemory) -> MachineFault {
        MachineFault::Memory(error)
    }
}

impl From<StreamFault> for ScheduleFault {
    ghost use Rattle.std.specs.Prelude.{◌≡◌};
    ghost use Rattle.fe_schedules.specs.Schedule.{of_stream};

    ghost from_gives = { λ before fault. fault ≡ of_stream before };

    fn from(before: StreamFault) -> ScheduleFault {
        match before {
            StreamFault::Input => ScheduleFault::Input,
            StreamFault::Memory(error) => ScheduleFault::Memory(error),
        }
    }
}

impl From<MachineFault> for ScheduleFault {
    ghost use Rattle.std.specs.Prelude.{◌≡◌};
    ghost use Rattle.fe_schedules.specs.Schedule.{of_machine};

    ghost from_gives = { λ before fault. fault ≡ of_machine before };

    fn from(before: MachineFault) -> ScheduleFault {
        match before {
            MachineFault::Memory(error) => ScheduleFault::Memory(error),
            MachineFault::Device => ScheduleFault::Device,
        }
    }
}
