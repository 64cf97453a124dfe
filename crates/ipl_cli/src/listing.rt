//! The records of a chip are said, by who only reads it.
ghost use Rattle.std.specs.Prelude.{◌≡◌, ◌<◌, ◌≤◌, ◌+◌, ◌*◌, ◌/◌, ℕ, IfErr, OnErr, OnOk, Some};
ghost use Rattle.chip_trait.specs.declared.event.Event.TheVariants.{Said};
ghost use Rattle.chip_trait.specs.Told.{Appends, FailsToSay, Rose, SayCounts};
ghost use Rattle.ipl_base.specs.First.{first_below};
ghost use Rattle.ipl_base.specs.Places.{IsGeometry};
ghost use Rattle.ipl_base.specs.declared.limits.TheConstants.{SLOTS, STATUS_NUMBERS};
ghost use Rattle.ipl_model.specs.Text.{reply_text};
ghost use Rattle.store_trait.specs.Onward.{Further};
ghost use Rattle.record_reader.specs.Reading.{IsMadeFor, Reads, names_of, page_fault};
ghost use Rattle.command_line.specs.declared.asked.Request.TheVariants.{Records};
ghost use Rattle.command_line.specs.declared.end.End.TheVariants.{Output};
ghost use Rattle.ipl_cli.specs.Adds.{AddsLawful};
ghost use Rattle.ipl_cli.specs.Lists.{ListLeaves, ListedCause, ListsLooked, SaysName, SaysRange, passed_over};
ghost use Rattle.ipl_cli.specs.Top.{EndCause};

use chip_trait::Desk;
use command_line::End;
use ipl_base::{ChipFault, Geometry, ImageFault, SLOTS, STATUS_NUMBERS, Value};
use ipl_model::Reply;
use record_reader::Reader;
use script_text::{TextLine, print};
use std::alloc::Global;

/// Says a line.
fn say_line<D: Desk>(line: &Reply, desk: &mut D) -> Result<(), End>
    ensures said { OnOk result (Appends (Said (reply_text line.now)) (D.told desk.old) (D.told desk.new)) }
    ensures unsaid { OnErr result (FailsToSay (reply_text line.now) (D.told desk.old) (D.told desk.new)) }
    ensures end { IfErr result (λ end. end ≡ Output) }
    ensures cause { OnErr result (Rose (D.told desk.old).beside.say_faults
        (D.told desk.new).beside.say_faults) }
    ensures counts { SayCounts (D.told desk.old) (D.told desk.new) }
{
    let mut text = TextLine::empty();
    print(line, &mut text);
    match desk.say(text.bytes()) {
        Ok(()) => Ok(()),
        Err(_) => Err(End::Output),
    }
}

/// Says the line of a name, if it has a value.
fn say_name<D: Desk>(name: u32, value: Option<Value>, desk: &mut D) -> Result<(), End>
    ensures says { SaysName name value result (D.told desk.old) (D.told desk.new) }
    ensures cause { IfErr result (λ end. ListedCause end (D.told desk.old) (D.told desk.new)) }
{
    match value {
        Some(value) => say_line(&Reply::Row(name, value), desk),
        None => Ok(()),
    }
}

/// What a name's fault makes of a listing: a page that doesn't read is passed over, and a failed read
/// ends it.
fn pass_over(fault: ChipFault) -> Result<Option<ChipFault>, End>
    ensures { result ≡ passed_over fault }
{
    match fault {
        ChipFault::ReadFault => Err(End::Chip(ImageFault::Chip(ChipFault::ReadFault))),
        ChipFault::Stopped
        | ChipFault::Damaged { .. }
        | ChipFault::Malformed { .. }
        | ChipFault::WornOut(_) => Ok(Some(fault)),
    }
}

/// Says the line of a name, if it has a value, or answers what is wrong with its page.
fn list_name<D: Desk>(
    reader: &mut Reader,
    name: u32,
    desk: &mut D,
) -> Result<Option<ChipFault>, End>
    requires name { name < names_of reader.old }
    requires reads { Reads (D.told desk.old) reader.old }
    ensures says { SaysRange (λ x. page_fault x (D.told desk.old).places (name / SLOTS)) name 1 result
        (D.told desk.old) (D.told desk.new) }
    ensures reads { Reads (D.told desk.new) reader.new }
    ensures names { names_of reader.new ≡ names_of reader.old }
{
    match reader.get(desk, name) {
        Ok(value) => {
            say_name(name, value, desk)?;
            Ok(None)
        }
        Err(fault) => pass_over(fault),
    }
}

/// Says the lines of a page, 15 of a unit, or answers what is wrong with it.
fn list_page<D: Desk>(
    reader: &mut Reader,
    page: u32,
    desk: &mut D,
) -> Result<Option<ChipFault>, End>
    requires page { page * SLOTS + SLOTS ≤ names_of reader.old }
    requires range { names_of reader.old < 4294967296 }
    requires reads { Reads (D.told desk.old) reader.old }
    ensures says { SaysRange (λ x. page_fault x (D.told desk.old).places page) (page * SLOTS) SLOTS result
        (D.told desk.old) (D.told desk.new) }
    ensures reads { Reads (D.told desk.new) reader.new }
    ensures names { names_of reader.new ≡ names_of reader.old }
{
    for slot in 0..SLOTS {
        match list_name(reader, page * SLOTS + slot, desk)? {
            None => {}
            Some(fault) => return Ok(Some(fault)),
        }
    }
    Ok(None)
}

/// Says the lines of all pages that read, and answers what is wrong with the first that doesn't.
fn list_pages<D: Desk>(reader: &mut Reader, desk: &mut D) -> Result<Option<ChipFault>, End>
    requires reads { Reads (D.told desk.old) reader.old }
    ensures says { SaysRange (λ x. first_below (page_fault x (D.told desk.old).places) (names_of reader.old / SLOTS))
        0 (names_of reader.old) result (D.told desk.old) (D.told desk.new) }
{
    let mut first = None;
    for page in 0..reader.names() / SLOTS {
        let fault = list_page(reader, page, desk)?;
        first = first.or(fault);
    }
    Ok(first)
}

/// Says all lines of a chip that was looked over.
fn list_all<D: Desk>(reader: &mut Reader, desk: &mut D) -> Result<(), End>
    requires reads { Reads (D.told desk.old) reader.old }
    ensures leaves { ListsLooked (names_of reader.old) result (D.told desk.old) (D.told desk.new) }
{
    let first = list_pages(reader, desk)?;
    say_line(&Reply::End, desk)?;
    match first {
        None => Ok(()),
        Some(fault) => Err(End::Chip(ImageFault::Chip(fault))),
    }
}

/// Says the records of a chip with this memory.
fn list_with<D: Desk>(reader: &mut Reader, desk: &mut D) -> Result<(), End>
    requires fits { IsGeometry (D.told desk.old).places }
    requires made { IsMadeFor (D.told desk.old).places reader.old }
    requires room { reader.old.status.most ≡ STATUS_NUMBERS }
    ensures leaves { ListLeaves result (D.told desk.old) (D.told desk.new) }
    ensures cause { EndCause (Some Records) result (D.told desk.old) (D.told desk.new) }
    ensures further { Further (D.told desk.old) (D.told desk.new) }
    ensures lawful { AddsLawful (D.told desk.old) (D.told desk.new) }
{
    match reader.open(desk) {
        Ok(()) => list_all(reader, desk),
        Err(fault) => Err(End::Chip(fault)),
    }
}

/// Says the records of a chip, of all pages that read, and behind them that these are all. Memory is
/// taken before the chip is touched.
pub(crate) fn list_chip<D: Desk>(alloc: Global, desk: &mut D) -> Result<(), End>
    ensures leaves { ListLeaves result (D.told desk.old) (D.told desk.new) }
    ensures cause { EndCause (Some Records) result (D.told desk.old) (D.told desk.new) }
    ensures further { Further (D.told desk.old) (D.told desk.new) }
    ensures lawful { AddsLawful (D.told desk.old) (D.told desk.new) }
{
    let Some(geometry) = Geometry::of(desk.units()) else {
        return Err(End::Chip(ImageFault::Geometry));
    };
    match Reader::new(alloc, geometry, STATUS_NUMBERS as u32) {
        Ok(mut reader) => list_with(&mut reader, desk),
        Err(_) => Err(End::OutOfMemory),
    }
}
