//! What is noted at a sector of a status place: a commit sector, a close mark or nothing.
ghost use Rattle.std.specs.Prelude.{◌≡◌, ◌≤◌, ◌+◌, true, length, Some, IfOk, IfErr, IfSome, IfNone};
ghost use Rattle.ipl_base.specs.declared.limits.TheConstants.{MOST_UNITS, PAYLOAD_LEN};
ghost use Rattle.ipl_base.specs.declared.fault.ChipFault.TheVariants.{Malformed};
ghost use Rattle.ipl_format.specs.Whole.{IsWhole};
ghost use Rattle.sector_format.specs.Decode.{sector_of};
ghost use Rattle.unit_io.specs.Kinds.{sector_named};
ghost use Rattle.ipl_meaning.specs.Live.{kept, is_commit_sector, is_noted_of};
ghost use Rattle.ipl_meaning.specs.Faults.{TellsImageFault, is_noted_payload, noted_test, noted_number};
ghost use Rattle.ipl_meaning.specs.LaidOut.{numbers_of};
ghost use Rattle.number_set.specs.Numbers.{with_numbers};
ghost use Rattle.txn_status.specs.ReadingIn.{of_image, GrowsBy, OnFull};
ghost use Rattle.txn_status.specs.Marks.{with_noted};
ghost use Rattle.txn_status.specs.TakingIn.{TakesIn, HasNoRoom};

use crate::last_mark::LastMark;
use crate::payloads::{add_numbers, greatest_number, is_commit};
use ipl_base::ChipFault;
use number_set::NumberSet;
use sector_format::Head;
use unit_layout::is_mark;

/// Whether the payload of a commit sector or close mark is in its grammar, where there are so many
/// units.
fn is_noted(head: &Head, payload: &[u8], units: u32) -> bool
    ensures { result ≡ is_noted_payload units (sector_of head.now payload.now) }
{
    if head.kind == Head::COMMIT {
        is_commit(payload)
    } else {
        is_mark(payload, units)
    }
}

/// Takes in a commit sector or close mark, and answers the greatest number in it; nothing where its
/// numbers have no room.
fn take_noted(
    head: &Head,
    payload: &[u8],
    units: u32,
    numbers: &mut NumberSet,
    mark: &mut LastMark,
) -> Option<u64>
    requires kind { (6 ≤ head.now.kind) × (head.now.kind ≤ 7) }
    requires units { units ≤ MOST_UNITS }
    requires well { is_noted_payload units (sector_of head.now payload.now) ≡ true }
    ensures takes { IfSome result (λ n. TakesIn (Some (sector_of head.now payload.now))
        n numbers.old.list numbers.new.list mark.old mark.new) }
    ensures full { IfNone result (HasNoRoom (Some (sector_of head.now payload.now)) numbers.old) }
    ensures grows { GrowsBy 60 numbers.old numbers.new }
{
    let own = head.generation.max(head.serial);
    if head.kind == Head::COMMIT {
        if !add_numbers(payload, numbers) {
            return None;
        }
        mark.take_commit(head.serial);
        Some(greatest_number(payload, own))
    } else {
        mark.take_mark(head, payload);
        Some(own)
    }
}

/// A status place that is read: the generation of its header, and how many units the chip has.
#[derive(Clone, Copy)]
pub(crate) struct StatusPlace {
    pub(crate) place: u32,
    pub(crate) generation: u64,
    pub(crate) units: u32,
}

/// Takes in a commit sector or close mark of a place where it has the place's generation, and answers
/// the greatest number in it; 0 where it hasn't, and nothing where its numbers have no room.
fn take_sector(
    from: StatusPlace,
    sector: u32,
    head: &Head,
    payload: &[u8],
    numbers: &mut NumberSet,
    mark: &mut LastMark,
) -> Result<Option<u64>, ChipFault>
    requires kind { (6 ≤ head.now.kind) × (head.now.kind ≤ 7) }
    requires units { from.units ≤ MOST_UNITS }
    ensures takes { IfOk (of_image result) (λ n. TakesIn
        (kept (is_noted_of from.generation) (Some (sector_of head.now payload.now)))
        n numbers.old.list numbers.new.list mark.old mark.new) }
    ensures full { OnFull result (HasNoRoom
        (kept (is_noted_of from.generation) (Some (sector_of head.now payload.now))) numbers.old) }
    ensures grows { GrowsBy 60 numbers.old numbers.new }
    ensures fault { TellsImageFault (noted_test from.units from.place sector
        (kept (is_noted_of from.generation) (Some (sector_of head.now payload.now))))
        (of_image result) }
    ensures cause { IfErr result (λ e. e ≡ Malformed from.place sector) }
{
    if head.generation != from.generation {
        return Ok(Some(0));
    }
    if !is_noted(head, payload, from.units) {
        return Err(ChipFault::Malformed {
            place: from.place,
            sector,
        });
    }
    Ok(take_noted(head, payload, from.units, numbers, mark))
}

/// Takes in what was found at a sector of a place, a commit sector, a close mark or nothing, and answers
/// the greatest number in it; nothing where its numbers have no room.
pub(crate) fn take_found(
    from: StatusPlace,
    sector: u32,
    found: Option<(Head, usize)>,
    bytes: &[u8; 512],
    numbers: &mut NumberSet,
    mark: &mut LastMark,
) -> Result<Option<u64>, ChipFault>
    requires kind { IfSome found (λ it. (6 ≤ it.0.kind) × (it.0.kind ≤ 7)) }
    requires fits { IfSome found (λ it. it.1 ≤ PAYLOAD_LEN) }
    requires units { from.units ≤ MOST_UNITS }
    ensures takes { IfOk (of_image result) (λ n. TakesIn
        (kept (is_noted_of from.generation) (sector_named bytes.now found))
        n numbers.old.list numbers.new.list mark.old mark.new) }
    ensures full { OnFull result (HasNoRoom
        (kept (is_noted_of from.generation) (sector_named bytes.now found)) numbers.old) }
    ensures grows { GrowsBy 60 numbers.old numbers.new }
    ensures fault { TellsImageFault (noted_test from.units from.place sector
        (kept (is_noted_of from.generation) (sector_named bytes.now found))) (of_image result) }
    ensures cause { IfErr result (λ e. e ≡ Malformed from.place sector) }
    ensures whole { IsWhole bytes.now }
{
    match found {
        None => Ok(Some(0)),
        Some((head, used)) => {
            let payload = &bytes[32..32 + used];
            take_sector(from, sector, &head, payload, numbers, mark)
        }
    }
}
