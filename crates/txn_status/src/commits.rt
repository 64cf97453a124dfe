//! Commit sectors and close marks, encoded and programmed.
ghost use Rattle.std.specs.Prelude.{◌≡◌, ◌≤◌, ◌<◌, ◌+◌, ◌++◌, length, OnOk};
ghost use Rattle.ipl_base.specs.declared.limits.TheConstants.{PAYLOAD_LEN};
ghost use Rattle.ipl_format.specs.Numbers.{long};
ghost use Rattle.unit_io.specs.Costs.{Spends};
ghost use Rattle.unit_io.specs.Charts.{Charts, Gains};
ghost use Rattle.unit_io.specs.Spots.{AddsSector};
ghost use Rattle.txn_status.specs.Commits.{commit_bytes, commit_sector};
ghost use Rattle.txn_status.specs.Marking.{mark_sector};
ghost use Rattle.unit_io.specs.Writing.{LeadsMark};
ghost use Rattle.txn_status.specs.Writing.{WritesOneSector};

use arrayvec::ArrayVec;
use chip_trait::Chip;
use ipl_base::{ChipFault, PAYLOAD_LEN, Spot};
use sector_format::Head;
use std::marker::Model;
use unit_io::{Noted, add_mark};

/// Puts the eight bytes of a number behind others.
#[tactic(auto, unfolding(ipl_format::specs::Numbers::long))]
fn put(bytes: &mut ArrayVec<u8, PAYLOAD_LEN>, number: u64)
    requires { length bytes.old.items + 8 ≤ PAYLOAD_LEN }
    ensures bytes { bytes.new.items ≡ bytes.old.items ++ long number }
    ensures len { length bytes.new.items ≡ length bytes.old.items + 8 }
{
    let _ = bytes.try_extend_from_slice(&number.to_be_bytes());
}

/// The payload of a commit sector of these numbers, at most 60.
fn payload_of(numbers: &[u64]) -> ArrayVec<u8, PAYLOAD_LEN>
    requires { length numbers.now ≤ 60 }
    ensures bytes { result.items ≡ commit_bytes numbers.now }
    ensures fits { length result.items ≤ PAYLOAD_LEN }
{
    let mut bytes = ArrayVec::new();
    for number in numbers {
        put(&mut bytes, *number);
    }
    bytes
}

/// A commit sector that is to be programmed. A contract sees it as that sector.
#[derive(Drop)]
pub(crate) struct CommitSector {
    head: Head,
    payload: ArrayVec<u8, PAYLOAD_LEN>,
}

impl Model for CommitSector {
    ghost use Rattle.std.specs.Prelude.{◌≤◌, length};
    ghost use Rattle.ipl_base.specs.declared.limits.TheConstants.{PAYLOAD_LEN};
    ghost use Rattle.ipl_format.specs.Sector.{Sector};
    ghost use Rattle.sector_format.specs.Decode.{sector_of};

    ghost Value = { Sector };

    ghost view = { λ s. sector_of s.head s.payload.items };

    ghost invariant = { λ s. length s.payload.items ≤ PAYLOAD_LEN };
}

impl CommitSector {
    /// The commit sector of these numbers, at most 60.
    pub(crate) fn of(generation: u64, serial: u64, numbers: &[u64]) -> CommitSector
        requires { length numbers.now ≤ 60 }
        ensures { result ≡ commit_sector generation serial numbers.now }
    {
        CommitSector {
            head: Head::written(Head::COMMIT, 0, generation, serial),
            payload: payload_of(numbers),
        }
    }

    /// The same, as it is programmed.
    pub(crate) fn noted(&self) -> Noted<'_>
        ensures same { result ≡ self.now }
        ensures fits { length result.payload ≤ PAYLOAD_LEN }
    {
        Noted::of(&self.head, self.payload.as_slice())
    }
}

/// Programs a close mark of this payload where nothing is open, and makes sure of it.
pub fn write_mark<C: Chip>(
    chip: &mut C,
    spot: Spot,
    generation: u64,
    serial: u64,
    payload: &[u8],
) -> Result<(), ChipFault>
    requires place { spot.place < (C.told chip.old).places }
    requires sector { spot.sector < 256 }
    requires fits { length payload.now ≤ PAYLOAD_LEN }
    ensures leads { LeadsMark (C.told chip.old).places spot.place spot.sector
        (mark_sector generation serial payload.now) (C.told chip.old) result (C.told chip.new) }
    ensures adds { OnOk result (Spends (AddsSector spot.place spot.sector
        (mark_sector generation serial payload.now)) (C.told chip.old) (C.told chip.new)) }
    ensures tells { OnOk result (Charts
        (Gains spot.place spot.sector (mark_sector generation serial payload.now))
        (C.told chip.old) (C.told chip.new)) }
    ensures writes { WritesOneSector spot.place spot.sector 7 result
        (C.told chip.old) (C.told chip.new) }
{
    let head = Head::written(Head::MARK, 0, generation, serial);
    add_mark(chip, spot, &Noted::of(&head, payload))
}
