//! Opening and formatting a store for a desk (`docs/model.md`, "The desk"; which state a disk stands for:
//! "The keeper").

ghost use Rattle.std.specs.Prelude.{◌≡◌, ◌≢◌, ◌⊎◌, ◌↔◌, ℕ, Bool, false, None, IfOk, IfErr, IsErrAnd};
ghost use Rattle.fe_memory.specs.Memory.{out_of_memory};
ghost use Rattle.fe_disk.specs.Disk.{Rises};
ghost use Rattle.fe_disk.specs.Runs.{without_disk as outcome};
ghost use Rattle.fe_state.specs.State.{ServerState, first_state};
ghost use Rattle.fe_journal.specs.Damage.{IsUnformatted};
ghost use Rattle.fe_journal.specs.Found.{AsksToOpen};
ghost use Rattle.fe_journal.specs.Journal.{OnlyReads};
ghost use Rattle.fe_journal.specs.Layout.{device_bytes};
ghost use Rattle.fe_keeper.specs.Keeper.{first_store};
ghost use Rattle.fe_keeper.specs.Stands.{StandsFor, EachStandsFor};
ghost use Rattle.fe_keeper.specs.declared.fault.Fault.TheVariants as keeper;
ghost use Rattle.fe_desk.specs.declared.fault.DeskFault.TheVariants.{Store, NoMemory};
ghost use Rattle.fe_desk.specs.DeskRunState.{IsFirstRunState};
ghost use Rattle.fe_desk.specs.Acknowledged.{IsAcknowledged};
ghost use Rattle.fe_desk.specs.Crash.{disk_of};
ghost use Rattle.fe_desk.specs.Runs.{disk_after, IsOpenFault, TellsOpening};

use crate::desk::Desk;
use crate::fault::DeskFault;
use crate::messages::desk_fault;
use fe_disk::Disk;
use fe_keeper::{Blank, Keeper};
use std::alloc::Global;

impl<D: Disk> Desk<D> {
    /// Opens a store: a sync, and then at most four reads. The desk begins with the state that the disk
    /// stands for: no request waits, and no connection is connected.
    pub fn open(alloc: Global, disk: D) -> Result<Desk<D>, (DeskFault, D)>
        ensures opened { D.honest disk → IfOk result (λ desk. StandsFor (D.seen disk) desk.keeper.state) }
        ensures stands { D.honest disk
            → IfOk result (λ desk. EachStandsFor D.Disk (disk_of desk) desk.keeper.state) }
        ensures first { IfOk result (λ desk. IsFirstRunState desk.keeper.state desk.run_state
            × (desk.synced ≡ 0)) }
        ensures acknowledged { (asked : ℕ → ℕ → Bool)
            → IfOk result (λ desk. IsAcknowledged desk.keeper.state asked desk) }
        // A valid store is refused only if the device fails or memory runs out.
        ensures refused { D.honest disk → (s : ServerState) → StandsFor (D.seen disk) s
            → IfErr result (λ e. (e.0 ≡ Store keeper.Device) ⊎ (e.0 ≡ NoMemory out_of_memory false)) }
        // What a fault says of the disk is true. An unformatted store is reported as such unless the device
        // fails, however little memory there is.
        ensures says { D.honest disk → IfErr result
            (λ e. TellsOpening e.0 (D.seen disk) (D.calls disk) (D.calls e.1)) }
        ensures unformatted { D.honest disk → IsUnformatted (D.seen disk)
            → IsErrAnd result (λ e. (e.0 ≡ Store keeper.Unformatted) ⊎ (e.0 ≡ Store keeper.Device)) }
        ensures reads { D.honest disk → OnlyReads D.Disk disk (disk_after result) }
        ensures works { IfOk result (λ desk. desk.keeper.store.has_failed ≡ false) }
        ensures none_under_way { IfOk result (λ desk. desk.keeper.store.checkpoint ≡ None) }
        ensures faults { IfErr result (λ e. IsOpenFault e.0) }
        ensures device { AsksToOpen D.Disk (Store keeper.Device) (outcome result) disk
            (disk_after result) }
        ensures sized { IfOk result (λ desk. D.size disk ≡ device_bytes) }
    {
        match Keeper::open(alloc, disk) {
            Ok(keeper) => Desk::over(alloc, keeper),
            Err((fault, disk)) => Err((desk_fault(fault, false), disk)),
        }
    }

    /// Makes a new store of format 2 on the device, which an opening found unformatted
    /// (`Keeper::open_or_blank`). A device of another size than a store's is refused as `Unformatted`. If
    /// memory is short, the device may be formatted already.
    pub fn format(alloc: Global, blank: Blank<D>) -> Result<Desk<D>, (DeskFault, D)>
        ensures formatted { D.honest blank → IfOk result
            (λ desk. EachStandsFor D.Disk (disk_of desk) first_state) }
        ensures first { IfOk result
            (λ desk. IsFirstRunState first_state desk.run_state × (desk.keeper.state ≡ first_state)
            × (desk.synced ≡ 0)) }
        ensures acknowledged { (asked : ℕ → ℕ → Bool)
            → IfOk result (λ desk. IsAcknowledged first_state asked desk) }
        ensures store { IfOk result (λ desk. desk.keeper.store ≡ first_store (disk_of desk)) }
        ensures sized { IfOk result (λ desk. D.size blank ≡ device_bytes) }
        ensures unformatted { IfErr result (λ e. (e.0 ≡ Store keeper.Unformatted)
            ↔ (D.size blank ≢ device_bytes)) }
        ensures works { IfOk result (λ desk. desk.keeper.store.has_failed ≡ false) }
        ensures device { IfErr result (λ e. e.0 ≡ Store keeper.Device
            → Rises (D.failures blank) (D.failures e.1)) }
        // Success, or another fault, means that no call of the device failed.
        ensures still { IfOk result (λ desk. D.failures (disk_of desk) ≡ D.failures blank) }
        ensures calm { IfErr result (λ e. e.0 ≢ Store keeper.Device → D.failures e.1 ≡ D.failures blank) }
        ensures faults { IfErr result
            (λ e. (e.0 ≡ Store keeper.Device) ⊎ ((e.0 ≡ Store keeper.Unformatted)
            ⊎ (e.0 ≡ NoMemory out_of_memory false))) }
        ensures honesty { D.honest (disk_after result) ↔ D.honest blank }
        ensures size { D.size (disk_after result) ≡ D.size blank }
    {
        match Keeper::format(alloc, blank) {
            Ok(keeper) => Desk::over(alloc, keeper),
            Err((fault, disk)) => Err((desk_fault(fault, false), disk)),
        }
    }
}
