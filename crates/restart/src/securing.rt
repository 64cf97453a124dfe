//! What an opening does for marks before it writes.
ghost use Rattle.std.specs.Prelude.{◌≡◌};
ghost use Rattle.unit_io.specs.Accounts.{Accounts};
ghost use Rattle.unit_io.specs.Leads.{IsStopped};
ghost use Rattle.restart.specs.Securing.{knows_logs, WaitsWhere};

use chip_trait::Chip;
use ipl_base::ChipFault;
use unit_directory::Directory;
use unit_io::barrier;

/// Whether something is known of the log sectors of a unit.
fn knows_logs(directory: &Directory) -> bool
    ensures { result ≡ knows_logs directory.now }
{
    for unit in 0..directory.units() {
        if directory.is_known(unit) {
            return true;
        }
    }
    false
}

/// Makes sure of what the chip holds, if something is known by a mark: only behind a barrier a marked
/// sector that is blank stays so, whatever a power cut leaves. Where nothing is known, the chip isn't
/// asked.
pub(crate) fn secure_marks<C: Chip>(chip: &mut C, directory: &Directory) -> Result<(), ChipFault>
    ensures waits { WaitsWhere (knows_logs directory.now) result
        (C.told chip.old) (C.told chip.new) }
    ensures accounts { Accounts IsStopped result (C.told chip.old) (C.told chip.new) }
{
    if knows_logs(directory) {
        return barrier(chip);
    }
    Ok(())
}
