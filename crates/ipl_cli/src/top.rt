//! The program, over a desk.
ghost use Rattle.std.specs.Prelude.{Bool, ◌≡◌, ◌≢◌, ◌<◌, ◌≤◌, ◌⊎◌, ◌+◌, ◌++◌, ◌==◌, true, false, map, List, length, ℕ, Some, None, Ok, IfOk, IfErr, OnOk};
ghost use Rattle.std.specs.String.{string_bytes};
ghost use Rattle.chip_trait.specs.Told.{Counts, Grew, Rose};
ghost use Rattle.ipl_base.specs.declared.limits.TheConstants.{LEAST_NUMBERS, SESSIONS, STATUS_NUMBERS, MOST_SPARES};
ghost use Rattle.ipl_base.specs.Places.{IsGeometry};
ghost use Rattle.store_trait.specs.Keeping.{FOUND_NUMBER};
ghost use Rattle.store_trait.specs.Onward.{Further};
ghost use Rattle.script_run.specs.Goes.{EndsReplied, ReadsAll};
ghost use Rattle.script_store.specs.Keeps.{IsRunning, next_number};
ghost use Rattle.ipl_store.specs.Calls.{numbers_of, IsSound};
ghost use Rattle.command_line.specs.Asked.{IsInBounds};
ghost use Rattle.command_line.specs.Choice.{requested};
ghost use Rattle.command_line.specs.declared.asked.Request.{Request};
ghost use Rattle.command_line.specs.declared.asked.Request.TheVariants.{Format, Run, Serial, Check, Trial, Records};
ghost use Rattle.ipl_cli.specs.Trials.{TrialLeaves};
ghost use Rattle.ipl_cli.specs.Adds.{AddsLawful, AddsLawfulByMark, AddsAsAsked};
ghost use Rattle.ipl_cli.specs.Ending.{AsksOpened, AsksOpenedBy, AsksOpenedWith, AsksFormatted, AsksFormattedBy, AsksAnew, AsksToLook, AtStatus, status_at, note_at, but_noted, format_end, IsLeftAlone};
ghost use Rattle.ipl_cli.specs.Checks.{CheckLeaves};
ghost use Rattle.ipl_cli.specs.Lists.{ListLeaves};
ghost use Rattle.ipl_cli.specs.Views.{ViewsTold, OnlyViews, OnlyHears, SerialLeaves, view_end};
ghost use Rattle.ipl_cli.specs.Top.{NoneFalls, EndCause, RequestCause, FormatLeaves, FormattedLeaves, OpenedLeaves, EndLeaves};
ghost use Rattle.ipl_cli.specs.Top.{RunsOpened, RunsFormatted, UntouchedOrRuns, RefusesFaults, IsLaidWell, LaysOut};
ghost use Rattle.ipl_cli.specs.Top.{EndsWithRecords, FromItsRecords, FromNoRecords};
ghost use Rattle.ipl_cli.specs.Top.{IsStray, StrayCause, SpentCause, AnewCause, LacksUnits, LacksRoom, EndsUnfit, IsCalm, Suffices, EndsInTime, Ends, WearsAsAsked};
ghost use Rattle.ipl_cli.specs.Survives.{Survives, SurvivesAnew};
ghost use Rattle.ipl_cli.specs.Frames.{DoesWith, DoesAsAsked, ClosesOpened, ClosesAsAsked};
ghost use Rattle.ipl_cli.specs.Runs.{slots_of, room_of, StartsFormatted, StartsOpened, MakesStore, FormatsFirst, OpensOver, IsNotStarted, ClosesBehind, EndsClosed, ClosesScript, RunsClosing, RunsOver, RunsAsAsked, TriesOver, end_of};

use crate::checking::check_chip;
use crate::listing::list_chip;
use chip_trait::Desk;
use command_line::{End, NoteLine, Request, request, status};
use ipl_base::{ChipFault, FormatFault, Geometry, ImageFault, MOST_UNITS};
use ipl_store::{Memory, Store};
use restart::format;
use script_run::{Stop, ViewStop, run_script, run_trial, say_serial_view};
use script_store::ScriptStore;
use std::alloc::Global;
use store_trait::Fault;

/// What a format says.
const OK_LINE: &[u8] = b"ok\n";

/// The end that a failed format is.
fn format_end(fault: FormatFault) -> End
    ensures { result ≡ format_end fault }
{
    match fault {
        FormatFault::Geometry => End::Chip(ImageFault::Geometry),
        FormatFault::Stopped => End::Chip(ImageFault::Chip(ChipFault::Stopped)),
        FormatFault::Worn(_) => End::Chip(ImageFault::Chip(ChipFault::WornOut(1))),
    }
}

/// Formats the chip, with at most 64 places to spare, and says so.
fn format_chip<D: Desk>(spares: u32, desk: &mut D) -> Result<(), End>
    requires few { spares ≤ MOST_SPARES }
    ensures leaves { FormatLeaves spares result (D.told desk.old) (D.told desk.new) }
    ensures cause { EndCause (Some (Format spares)) result (D.told desk.old) (D.told desk.new) }
    ensures further { Further (D.told desk.old) (D.told desk.new) }
    ensures lawful { AddsLawful (D.told desk.old) (D.told desk.new) }
{
    match format(desk, spares) {
        Ok(()) => match desk.say(OK_LINE) {
            Ok(()) => Ok(()),
            Err(_) => Err(End::Output),
        },
        Err(fault) => Err(format_end(fault)),
    }
}

/// The memory of a store with so many frames and sessions, and room for so many committed numbers, for a chip of so
/// many places, which isn't opened yet.
fn closed(
    alloc: Global,
    places: u32,
    frames: u32,
    sessions: u32,
    numbers: u32,
) -> Result<Store, End>
    requires two { 2 ≤ frames }
    requires few { frames ≤ 64 }
    requires sessions { sessions ≤ SESSIONS }
    requires least { LEAST_NUMBERS ≤ numbers }
    requires most { numbers ≤ STATUS_NUMBERS }
    ensures closes { MakesStore places result }
    ensures frames { IfOk result (λ store. store.frames ≡ frames) }
    ensures sessions { IfOk result (λ store. length store.transactions.sessions ≡ sessions) }
    ensures numbers { IfOk result (λ store. numbers_of store ≡ numbers) }
{
    let Some(geometry) = Geometry::of(places) else {
        return Err(End::Chip(ImageFault::Geometry));
    };
    match Memory::new(alloc, geometry, frames, sessions, numbers) {
        Ok(memory) => Ok(Store::closed(memory)),
        Err(_) => Err(End::OutOfMemory),
    }
}

/// Formats the chip with no place to spare, before it is opened.
fn format_first<D: Desk>(desk: &mut D) -> Result<(), End>
    requires fits { IsGeometry (D.told desk.old).places }
    ensures formats { FormatsFirst result (D.told desk.old) (D.told desk.new) }
{
    match format(desk, 0) {
        Ok(()) => Ok(()),
        Err(fault) => Err(format_end(fault)),
    }
}

/// Opens the chip, and makes the store of what it holds.
fn open_over<D: Desk>(mut store: Store, desk: &mut D, marks: bool) -> Result<ScriptStore, End>
    requires sound { IsSound (D.told desk.old).places store }
    ensures opens { OpensOver marks (numbers_of store) result (D.told desk.old) (D.told desk.new) }
    ensures frames { IfOk result (λ started. started.store.frames ≡ store.frames) }
    ensures sessions { IfOk result (λ started. slots_of started ≡ length store.transactions.sessions) }
    ensures numbers { IfOk result (λ started. room_of started ≡ numbers_of store) }
{
    match store.open_chip(desk, marks) {
        Ok(()) => Ok(ScriptStore::over(store)),
        Err(fault) => Err(End::Chip(fault)),
    }
}

/// Formats the chip, opens it, and makes the store of no record. Memory is taken before the chip is
/// touched.
fn start_formatted<D: Desk>(
    alloc: Global,
    frames: u32,
    sessions: u32,
    numbers: u32,
    desk: &mut D,
) -> Result<ScriptStore, End>
    requires two { 2 ≤ frames }
    requires few { frames ≤ 64 }
    requires sessions { sessions ≤ SESSIONS }
    requires least { LEAST_NUMBERS ≤ numbers }
    requires most { numbers ≤ STATUS_NUMBERS }
    ensures starts { IfOk result (λ store. StartsFormatted (D.told desk.old) store (D.told desk.new)) }
    ensures frames { IfOk result (λ store. store.store.frames ≡ frames) }
    ensures sessions { IfOk result (λ store. slots_of store ≡ sessions) }
    ensures numbers { IfOk result (λ store. room_of store ≡ numbers) }
    ensures stops { IfErr result (λ end. IsNotStarted end (D.told desk.old) (D.told desk.new)) }
    ensures counts { Counts (D.told desk.old) (D.told desk.new) }
{
    let store = closed(alloc, desk.units(), frames, sessions, numbers)?;
    format_first(desk)?;
    // What was just formatted has no mark.
    let started = open_over(store, desk, false)?;
    Ok(started)
}

/// Opens the chip, and makes the store of what it holds. Memory is taken before the chip is touched.
fn start_opened<D: Desk>(
    alloc: Global,
    frames: u32,
    sessions: u32,
    numbers: u32,
    desk: &mut D,
) -> Result<ScriptStore, End>
    requires two { 2 ≤ frames }
    requires few { frames ≤ 64 }
    requires sessions { sessions ≤ SESSIONS }
    requires least { LEAST_NUMBERS ≤ numbers }
    requires most { numbers ≤ STATUS_NUMBERS }
    ensures starts { IfOk result (λ store. StartsOpened true (D.told desk.old) store (D.told desk.new)) }
    ensures frames { IfOk result (λ store. store.store.frames ≡ frames) }
    ensures sessions { IfOk result (λ store. slots_of store ≡ sessions) }
    ensures numbers { IfOk result (λ store. room_of store ≡ numbers) }
    ensures leaves { IfErr result (λ end. OpenedLeaves sessions (Err end) (D.told desk.old) (D.told desk.new)) }
    ensures cause { IfErr result (λ end. (closes : Bool) → RequestCause (Run frames sessions numbers false closes) end (D.told desk.old) (D.told desk.new)) }
    ensures lawful { IfErr result (λ end. AddsLawfulByMark (D.told desk.old) (D.told desk.new)) }
    ensures counts { Counts (D.told desk.old) (D.told desk.new) }
{
    let store = closed(alloc, desk.units(), frames, sessions, numbers)?;
    let started = open_over(store, desk, true)?;
    Ok(started)
}

/// The end that a stop of a run is. Numbers last for any script.
fn end_of(stop: Stop) -> End
    requires lasting { stop ≢ Stop.Store Fault.Spent }
    ensures { result ≡ end_of stop }
{
    match stop {
        Stop::Store(Fault::Chip(fault)) => End::Chip(ImageFault::Chip(fault)),
        Stop::Store(Fault::Image(fault)) => End::Chip(fault),
        Stop::Store(Fault::Spent) => unreachable!("the numbers last for any script"),
        Stop::Script => End::Script,
        Stop::Output => End::Output,
        Stop::TooLong => End::TooLong,
    }
}

/// Closes the chip behind a script that was run to its end.
fn close_behind<D: Desk>(store: &mut ScriptStore, desk: &mut D) -> Result<(), Stop>
    requires running { IsRunning (D.told desk.old).places store.old }
    ensures closes { ClosesBehind result store.old (D.told desk.old) store.new (D.told desk.new) }
{
    match store.close(desk) {
        Ok(()) => Ok(()),
        Err(fault) => Err(Stop::Store(fault)),
    }
}

/// Runs the script, and closes the chip behind it where that is asked.
fn run_closing<D: Desk>(store: &mut ScriptStore, desk: &mut D, closes: bool) -> Result<(), Stop>
    requires running { IsRunning (D.told desk.old).places store.old }
    requires left { next_number store.old ≤ FOUND_NUMBER }
    ensures runs { RunsClosing closes result store.old (D.told desk.old) store.new (D.told desk.new) }
{
    run_script(store, desk)?;
    if closes {
        close_behind(store, desk)?;
    }
    Ok(())
}

/// Runs the script over a store whose numbers last for it, and closes the chip where that is asked.
fn run_over<D: Desk>(store: &mut ScriptStore, desk: &mut D, closes: bool) -> Result<(), End>
    requires running { IsRunning (D.told desk.old).places store.old }
    requires left { next_number store.old ≤ FOUND_NUMBER }
    ensures runs { RunsOver result store.old (D.told desk.old) store.new (D.told desk.new) }
    ensures closed { OnOk result (closes ≡ true → ClosesScript store.old (D.told desk.old) store.new (D.told desk.new)) }
    ensures last { OnOk result (closes ≡ false → EndsReplied (D.told desk.old) (D.told desk.new)) }
{
    match run_closing(store, desk, closes) {
        Ok(()) => Ok(()),
        Err(stop) => Err(end_of(stop)),
    }
}

/// Runs the script over a chip that is formatted first, and closes that where it is asked.
fn run_formatted<D: Desk>(
    alloc: Global,
    frames: u32,
    sessions: u32,
    numbers: u32,
    closes: bool,
    desk: &mut D,
) -> Result<(), End>
    requires two { 2 ≤ frames }
    requires few { frames ≤ 64 }
    requires sessions { sessions ≤ SESSIONS }
    requires least { LEAST_NUMBERS ≤ numbers }
    requires most { numbers ≤ STATUS_NUMBERS }
    ensures leaves { FormattedLeaves sessions result (D.told desk.old) (D.told desk.new) }
    ensures framed { OnOk result (DoesWith StartsFormatted (RunsAsAsked closes) frames sessions numbers
        (D.told desk.old) (D.told desk.new)) }
    ensures closed { OnOk result (closes ≡ true → EndsClosed (D.told desk.old) (D.told desk.new)) }
    ensures cause { EndCause (Some (Run frames sessions numbers true closes)) result (D.told desk.old) (D.told desk.new) }
    ensures further { Further (D.told desk.old) (D.told desk.new) }
    ensures lawful { AddsLawful (D.told desk.old) (D.told desk.new) }
{
    let mut store = start_formatted(alloc, frames, sessions, numbers, desk)?;
    run_over(&mut store, desk, closes)?;
    Ok(())
}

/// Runs the script over a chip that is opened, and closes that where it is asked.
fn run_opened<D: Desk>(
    alloc: Global,
    frames: u32,
    sessions: u32,
    numbers: u32,
    closes: bool,
    desk: &mut D,
) -> Result<(), End>
    requires two { 2 ≤ frames }
    requires few { frames ≤ 64 }
    requires sessions { sessions ≤ SESSIONS }
    requires least { LEAST_NUMBERS ≤ numbers }
    requires most { numbers ≤ STATUS_NUMBERS }
    ensures leaves { OpenedLeaves sessions result (D.told desk.old) (D.told desk.new) }
    ensures framed { OnOk result (DoesWith (StartsOpened true) (RunsAsAsked closes) frames sessions numbers
        (D.told desk.old) (D.told desk.new)) }
    ensures closed { OnOk result (closes ≡ true → ClosesOpened (D.told desk.old) (D.told desk.new)) }
    ensures cause { EndCause (Some (Run frames sessions numbers false closes)) result (D.told desk.old) (D.told desk.new) }
    ensures further { Further (D.told desk.old) (D.told desk.new) }
    ensures lawful { AddsLawfulByMark (D.told desk.old) (D.told desk.new) }
{
    let mut store = start_opened(alloc, frames, sessions, numbers, desk)?;
    run_over(&mut store, desk, closes)?;
    Ok(())
}

/// Does the commands of a seed, so many, over a store whose numbers last for them, and says the
/// summary.
fn trial_over<D: Desk>(
    store: &mut ScriptStore,
    desk: &mut D,
    seed: u32,
    count: u32,
) -> Result<(), End>
    requires running { IsRunning (D.told desk.old).places store.old }
    requires left { next_number store.old ≤ FOUND_NUMBER }
    ensures tries { TriesOver seed count result store.old (D.told desk.old) store.new (D.told desk.new) }
{
    let units = store.unit_count();
    prove!(units <= MOST_UNITS);
    match run_trial(store, desk, units, seed, count) {
        Ok(()) => Ok(()),
        Err(stop) => Err(end_of(stop)),
    }
}

/// Does a trial over a chip that is formatted first.
fn trial<D: Desk>(
    alloc: Global,
    frames: u32,
    sessions: u32,
    numbers: u32,
    seed: u32,
    count: u32,
    desk: &mut D,
) -> Result<(), End>
    requires two { 2 ≤ frames }
    requires few { frames ≤ 64 }
    requires sessions { sessions ≤ SESSIONS }
    requires least { LEAST_NUMBERS ≤ numbers }
    requires most { numbers ≤ STATUS_NUMBERS }
    ensures leaves { TrialLeaves sessions seed count result (D.told desk.old) (D.told desk.new) }
    ensures framed { OnOk result (DoesWith StartsFormatted (TriesOver seed count (Ok tt)) frames sessions numbers
        (D.told desk.old) (D.told desk.new)) }
    ensures cause { EndCause (Some (Trial seed count frames sessions numbers)) result (D.told desk.old) (D.told desk.new) }
    ensures further { Further (D.told desk.old) (D.told desk.new) }
    ensures lawful { AddsLawful (D.told desk.old) (D.told desk.new) }
{
    let mut store = start_formatted(alloc, frames, sessions, numbers, desk)?;
    trial_over(&mut store, desk, seed, count)?;
    Ok(())
}

/// The end that a view is which isn't said to its end.
fn view_end(stop: ViewStop) -> End
    ensures { result ≡ view_end stop }
{
    match stop {
        ViewStop::OutOfMemory => End::OutOfMemory,
        ViewStop::Script => End::Script,
        ViewStop::TooLong => End::TooLong,
        ViewStop::Output => End::Output,
    }
}

/// Says the serial view of the script, run by so many sessions from no records. Of the chip only its places are asked.
fn say_view<D: Desk>(alloc: Global, sessions: u32, desk: &mut D) -> Result<(), End>
    requires { sessions ≤ SESSIONS }
    ensures leaves { SerialLeaves sessions result (D.told desk.old) (D.told desk.new) }
    ensures cause { EndCause (Some (Serial sessions)) result (D.told desk.old) (D.told desk.new) }
    ensures further { Further (D.told desk.old) (D.told desk.new) }
    ensures lawful { AddsLawful (D.told desk.old) (D.told desk.new) }
{
    let Some(geometry) = Geometry::of(desk.units()) else {
        return Err(End::Chip(ImageFault::Geometry));
    };
    match say_serial_view(alloc, geometry, sessions, desk) {
        Ok(()) => Ok(()),
        Err(stop) => Err(view_end(stop)),
    }
}

/// Does what a request asks for.
fn run_request<D: Desk>(alloc: Global, request: Request, desk: &mut D) -> Result<(), End>
    requires bounds { IsInBounds request }
    ensures leaves { EndLeaves (Some request) result (D.told desk.old) (D.told desk.new) }
    ensures framed { OnOk result (DoesAsAsked (Some request) (D.told desk.old) (D.told desk.new)) }
    ensures closed { OnOk result (ClosesAsAsked (Some request) (D.told desk.old) (D.told desk.new)) }
    ensures cause { EndCause (Some request) result (D.told desk.old) (D.told desk.new) }
    ensures further { Further (D.told desk.old) (D.told desk.new) }
    ensures lawful { AddsAsAsked (Some request) (D.told desk.old) (D.told desk.new) }
{
    match request {
        Request::Format { spares } => format_chip(spares, desk),
        Request::Run {
            frames,
            sessions,
            numbers,
            format: true,
            close,
        } => run_formatted(alloc, frames, sessions, numbers, close, desk),
        Request::Run {
            frames,
            sessions,
            numbers,
            format: false,
            close,
        } => run_opened(alloc, frames, sessions, numbers, close, desk),
        Request::Serial { sessions } => say_view(alloc, sessions, desk),
        Request::Check => check_chip(alloc, desk),
        Request::Records => list_chip(alloc, desk),
        Request::Trial {
            seed,
            count,
            frames,
            sessions,
            numbers,
        } => trial(alloc, frames, sessions, numbers, seed, count, desk),
    }
}

/// Does what the words ask for.
fn run<D: Desk>(alloc: Global, words: &[String], desk: &mut D) -> Result<(), End>
    ensures leaves { EndLeaves (requested (map string_bytes words.now)) result (D.told desk.old) (D.told desk.new) }
    ensures framed { OnOk result (DoesAsAsked (requested (map string_bytes words.now)) (D.told desk.old) (D.told desk.new)) }
    ensures closed { OnOk result (ClosesAsAsked (requested (map string_bytes words.now)) (D.told desk.old) (D.told desk.new)) }
    ensures cause { EndCause (requested (map string_bytes words.now)) result (D.told desk.old) (D.told desk.new) }
    ensures further { Further (D.told desk.old) (D.told desk.new) }
    ensures lawful { AddsAsAsked (requested (map string_bytes words.now)) (D.told desk.old) (D.told desk.new) }
{
    let Ok(request) = request(alloc, words) else {
        return Err(End::OutOfMemory);
    };
    match request {
        None => Err(End::Words),
        Some(request) => run_request(alloc, request, desk),
    }
}

/// Notes the line of an end before the end, and answers the status of the process.
fn finish<D: Desk>(ending: Result<(), End>, desk: &mut D) -> u8
    ensures status { result ≡ status_at ending }
    ensures only { D.told desk.new ≡ but_noted (D.told desk.old) (D.told desk.new).beside.noted }
    ensures noted { (bytes : List ℕ) → (D.told desk.new).beside.noted ≡ Some bytes
        → (before : List ℕ) × ((D.told desk.old).beside.noted ≡ Some before) × (bytes ≡ before ++ note_at ending) }
{
    match ending {
        Ok(()) => 0,
        Err(end) => {
            desk.note(NoteLine::of(end).bytes());
            status(end)
        }
    }
}

/// Does what the words ask for, notes the text of a fault, and answers the status of the process.
pub fn top<D: Desk>(alloc: Global, words: &[String], desk: &mut D) -> u8
    // The program ends with a status and a line for it, each for its cause, and leaves what that end
    // leaves.
    ensures ends { Ends (requested (map string_bytes words.now)) (D.told desk.old) (D.told desk.new) result }

    // The chip has as many places as before, and no count falls.
    ensures counts { NoneFalls (D.told desk.old) (D.told desk.new) }

    // Whatever is asked and whatever the chip holds, also where that stands for no records: by the history
    // that the desk tells no sector is programmed twice between erases of its place. Of one that tells none
    // this says nothing. Where a chip is opened that was closed, it is so after events that leave clean what
    // a mark there says to be.
    ensures lawful { AddsAsAsked (requested (map string_bytes words.now)) (D.told desk.old) (D.told desk.new) }

    // The headline, over a chip that is opened, of as many sessions as the words ask for and on as many units as the
    // chip says: wherever the program ends.
    // At 0 the whole script was run, at 7 a line of a reply couldn't be said, and else it ended between
    // commands. A sector at fault that ended it was so on the chip at some moment.
    ensures opened { (sessions : ℕ) → AsksOpenedBy sessions (requested (map string_bytes words.now))
        → AtStatus (RunsOpened sessions (D.told desk.old) (D.told desk.new)) result }

    // In short, over a chip that tells what it holds: wherever the power is cut, what is left stands for
    // the records after the commands whose replies were said, or after one more. From its own records on;
    // or from none, from the format's last barrier on, where it was formatted first.
    ensures survives { (sessions : ℕ) → AsksOpenedBy sessions (requested (map string_bytes words.now))
        → Survives sessions (D.told desk.old) (D.told desk.new) }
    ensures survives_anew { (sessions : ℕ) → AsksFormattedBy sessions (requested (map string_bytes words.now))
        → SurvivesAnew sessions (D.told desk.old) (D.told desk.new) }

    // What is told of a chip that has a fault as it is laid out: it was only read, and the program
    // ended with that fault, or since more numbers are committed than have room. At 0, 6, 7 and 8 it had none.
    ensures refuses { (numbers : ℕ) → AsksOpenedWith numbers (requested (map string_bytes words.now))
        → RefusesFaults numbers (D.told desk.old) (D.told desk.new) result }
    ensures laid { AsksOpened (requested (map string_bytes words.now))
        → (result ≡ 0) ⊎ (result ≡ 6) ⊎ (result ≡ 7) ⊎ (result ≡ 8)
        → IsLaidWell (D.told desk.old) × IsGeometry (D.told desk.old).places }

    // At 0 it was done by a store of as many page frames and sessions as the words ask for, with room for as many committed
    // numbers. A run that isn't to close the chip did nothing behind its last reply.
    ensures framed { result ≡ 0
        → DoesAsAsked (requested (map string_bytes words.now)) (D.told desk.old) (D.told desk.new) }

    // And where they ask to close the chip, the last two events are the program of a mark and a barrier. What was
    // opened has each log sector marked then that was erased since and not programmed, if no command opened it again;
    // and what is marked is clean, after lawful events that leave clean what was marked before.
    ensures closed { result ≡ 0
        → ClosesAsAsked (requested (map string_bytes words.now)) (D.told desk.old) (D.told desk.new) }

    // At 0 the script was read to its end, whatever the chip tells.
    ensures read { AsksOpened (requested (map string_bytes words.now)) ⊎ AsksFormatted (requested (map string_bytes words.now))
        → result ≡ 0 → ReadsAll (D.told desk.old) (D.told desk.new) }

    // So at 0 a chip that tells what it holds, and maybe no story, holds the records after all
    // commands: from its own records on, or from none where it was formatted first.
    ensures records { (sessions : ℕ) → AsksOpenedBy sessions (requested (map string_bytes words.now)) → result ≡ 0
        → EndsWithRecords sessions FromItsRecords (D.told desk.old) (D.told desk.new) }
    ensures anew { (sessions : ℕ) → AsksFormattedBy sessions (requested (map string_bytes words.now)) → result ≡ 0
        → EndsWithRecords sessions FromNoRecords (D.told desk.old) (D.told desk.new) }

    // The same over a chip that is formatted first. At 6, 7 and 8 a part of the script was run; at 3,
    // 4, 9 and 10 too, or the format was stopped, or another number of places was left alone.
    ensures formatted { (sessions : ℕ) → AsksFormattedBy sessions (requested (map string_bytes words.now)) → result ≡ 0
        → RunsFormatted sessions (D.told desk.old) (D.told desk.new) (Ok tt) }
    ensures part { (sessions : ℕ) → AsksFormattedBy sessions (requested (map string_bytes words.now))
        → (result ≡ 6) ⊎ (result ≡ 7) ⊎ (result ≡ 8)
        → AtStatus (RunsFormatted sessions (D.told desk.old) (D.told desk.new)) result }
    ensures stops { (sessions : ℕ) → AsksFormattedBy sessions (requested (map string_bytes words.now))
        → (result ≡ 3) ⊎ (result ≡ 4) ⊎ (result ≡ 9) ⊎ (result ≡ 10)
        → AtStatus (UntouchedOrRuns sessions (D.told desk.old) (D.told desk.new)) result }

    // A format says its line at 0, and the chip has no record then, whatever moment the power is cut at,
    // and says that it has all units but those that are spare.
    ensures formats { (spares : ℕ) → requested (map string_bytes words.now) ≡ Some (Format spares)
        → result ≡ 0 → LaysOut spares (D.told desk.old) (D.told desk.new) true }

    // A trial says its summary at 0, a beginning of it wherever it ends, and the chip has the records
    // of the commands that are done.
    ensures trials { (seed count frames sessions numbers : ℕ)
        → requested (map string_bytes words.now) ≡ Some (Trial seed count frames sessions numbers)
        → AtStatus (λ ending. TrialLeaves sessions seed count ending (D.told desk.old) (D.told desk.new)) result }

    // A check only reads. At 0 it said how many records there are for which the chip stands; at 4 the chip
    // stands for none, and its first fault is the one that is noted.
    ensures checks { requested (map string_bytes words.now) ≡ Some Check
        → AtStatus (λ ending. CheckLeaves ending (D.told desk.old) (D.told desk.new)) result }

    // A listing only reads. It says a line for each record of the pages that read, and behind them that these are all. At 0
    // nothing is wrong with the chip; at 4 its first fault is the one that is noted, as of a check.
    ensures lists { requested (map string_bytes words.now) ≡ Some Records
        → AtStatus (λ ending. ListLeaves ending (D.told desk.old) (D.told desk.new)) result }

    // A view is said at 0, and a part of it wherever else the program ends; by the history that the desk
    // tells no sector is touched.
    ensures views { (sessions : ℕ) → requested (map string_bytes words.now) ≡ Some (Serial sessions)
        → ViewsTold sessions (D.told desk.old) (D.told desk.new) (result == 0) }
    ensures untouched { (sessions : ℕ) → requested (map string_bytes words.now) ≡ Some (Serial sessions)
        → OnlyViews (D.told desk.old) (D.told desk.new) }

    // At 2 nothing was asked of the chip, said or read, and so at 5, but that a view may have read its
    // script. At 4 a chip of another number of places was left alone, and one with no unit left by the
    // places that a format is to spare.
    ensures early { result ≡ 2 → IsLeftAlone (D.told desk.old) (D.told desk.new) }
    ensures wanting { result ≡ 5 → OnlyHears (D.told desk.old) (D.told desk.new)
        × (((sessions : ℕ) → requested (map string_bytes words.now) ≢ Some (Serial sessions))
        → IsLeftAlone (D.told desk.old) (D.told desk.new)) }
    ensures other { result ≡ 4 → ¬ IsGeometry (D.told desk.old).places
        ⊎ LacksUnits (requested (map string_bytes words.now)) (D.told desk.old)
        → IsLeftAlone (D.told desk.old) (D.told desk.new) }

    // Each status but 0 and 5 comes only for its cause.
    ensures words { result ≡ 2 → requested (map string_bytes words.now) ≡ None }
    ensures chip { result ≡ 3
        → Rose (D.told desk.old).read_faults (D.told desk.new).read_faults
        ⊎ Rose (D.told desk.old).write_faults (D.told desk.new).write_faults }
    ensures image { result ≡ 4
        → ¬ IsGeometry (D.told desk.old).places
        ⊎ LacksUnits (requested (map string_bytes words.now)) (D.told desk.old)
        ⊎ (AsksOpened (requested (map string_bytes words.now)) × StrayCause (D.told desk.old))
        ⊎ (AsksAnew (requested (map string_bytes words.now)) × AnewCause (D.told desk.old))
        ⊎ LacksRoom (requested (map string_bytes words.now)) (D.told desk.old)
        ⊎ (AsksToLook (requested (map string_bytes words.now)) × IsStray (D.told desk.old)) }
    // So over a chip of 5 to 1,028 places that tells what it holds: at 4 and 9 that stood for no records, or
    // a number of 2^62 or more was among it, or more numbers were committed there than have room, or a format
    // was to spare so many that no unit is left; and never where it was formatted first.
    ensures unfit { (result ≡ 4) ⊎ (result ≡ 9) → IsGeometry (D.told desk.old).places
        → EndsUnfit (requested (map string_bytes words.now)) (D.told desk.old) }
    ensures script { result ≡ 6 → Rose (D.told desk.old).beside.script_faults (D.told desk.new).beside.script_faults }
    ensures output { result ≡ 7 → Rose (D.told desk.old).beside.say_faults (D.told desk.new).beside.say_faults }
    ensures too_long { result ≡ 8
        → Grew (D.told desk.old).beside.script_bytes 4294967295 (D.told desk.new).beside.script_bytes }
    ensures spent { result ≡ 9
        → (AsksOpened (requested (map string_bytes words.now)) × SpentCause (D.told desk.old))
        ⊎ (AsksAnew (requested (map string_bytes words.now)) × AnewCause (D.told desk.old)) }
    ensures worn { result ≡ 10 → Rose (D.told desk.old).worn_erases (D.told desk.new).worn_erases }
    // And where the chip told what it held and a history, only where a place was found worn in a format, or
    // where more than are spare are those that the status header lists and those found worn since.
    ensures worn_out { result ≡ 10
        → WearsAsAsked (requested (map string_bytes words.now)) (D.told desk.old) (D.told desk.new) }

    // Words that aren't valid give 2, or 5. Where they are, the chip is such as they ask for, no call of the
    // chip, no read of the script and no reply fails and the script ends in time, the answer is 0, or 5; or
    // 10, where too many places are worn.
    ensures invalid { requested (map string_bytes words.now) ≡ None → (result ≡ 2) ⊎ (result ≡ 5) }
    ensures completes { (request : Request) → requested (map string_bytes words.now) ≡ Some request
        → Suffices request (D.told desk.old)
        → IsCalm (D.told desk.old) (D.told desk.new) → EndsInTime (D.told desk.old) (D.told desk.new)
        → (result ≡ 0) ⊎ (result ≡ 5) ⊎ (result ≡ 10) }
{
    let ending = run(alloc, words, desk);
    finish(ending, desk)
}
