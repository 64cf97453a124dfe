//! What `top` tells at the end of one run is what the next one asks for: shown from its clauses alone,
//! for every desk. Only where no write failed, and both ended with 0. A chip has as many units as it says,
//! and after a format all but the spare ones. From a format on the story that a chip tells stays lawful over all runs,
//! also where the chip was closed and what a mark says to be clean was programmed after it was opened again. From
//! any start at rest it is lawful over runs one after another, to whatever ends and whether they close the chip or
//! don't, after what left the marks clean.
ghost use Rattle.std.specs.Prelude.{◌≡◌, true, map, ℕ, List, [], Some};
ghost use Rattle.std.specs.String.{string_bytes};
ghost use Rattle.chip_trait.specs.Told.{Unrisen};
ghost use Rattle.ipl_base.specs.Places.{units_on};
ghost use Rattle.command_line.specs.Choice.{requested};
ghost use Rattle.command_line.specs.declared.asked.Request.TheVariants.{Format, Trial};
ghost use Rattle.ipl_meaning.specs.Legible.{Legible, of, whole};
ghost use Rattle.ipl_cli.specs.Ending.{AsksOpened, AsksOpenedBy, AsksFormatted, AsksFormattedBy, units_beside};
ghost use Rattle.store_laws.specs.Keeps.{limits_of};
ghost use Rattle.ipl_cli.specs.Frames.{AddsCleanly};
ghost use Rattle.ipl_cli.specs.Top.{records_after};
ghost use Rattle.ipl_cli.specs.Chains.{RestsOn, RestsLawfully, TellsHistory, IsFormattable, IsLawfullyFormattable, ViewKeepsRecords, AddsLawfully, AsksClosed, no_records, records_tried, units_kept};

use crate::top::top;
use chip_trait::Desk;
use std::alloc::Global;

/// Runs the script, and then what is left of it, over a chip that is opened each time. The second run
/// has its premise from what is told of the first.
pub fn run_twice<D: Desk>(alloc: Global, words: &[String], desk: &mut D) -> bool
    requires { AsksOpened (requested (map string_bytes words.now)) }
    ensures rests { (sessions : ℕ) → AsksOpenedBy sessions (requested (map string_bytes words.now))
        → (m : Legible) (script : List ℕ) (on : RestsOn m script (D.told desk.old))
        → Unrisen (D.told desk.old) (D.told desk.new) → result ≡ true
        → RestsOn (of m.pages (records_after (limits_of sessions (units_kept (D.told desk.old) on.history)) m.map script)) []
        (D.told desk.new) }
    ensures lawful { (sessions : ℕ) → AsksOpenedBy sessions (requested (map string_bytes words.now))
        → (m : Legible) (script : List ℕ) (before : RestsLawfully m script (D.told desk.old))
        → Unrisen (D.told desk.old) (D.told desk.new) → result ≡ true
        → RestsLawfully (of m.pages (records_after (limits_of sessions (units_kept (D.told desk.old) before.on.history)) m.map script)) []
        (D.told desk.new) }
{
    if top(alloc, words, desk) != 0 {
        return false;
    }
    top(alloc, words, desk) == 0
}

/// Runs the script, closes the chip, and opens it again with whatever words a run has, to whatever end. From any start
/// that rests on records what both runs add is lawful, after lawful events that leave clean what was marked at the start.
pub fn close_and_run<D: Desk>(
    alloc: Global,
    first: &[String],
    second: &[String],
    desk: &mut D,
) -> bool
    requires first { AsksClosed (requested (map string_bytes first.now)) }
    requires second { AsksOpened (requested (map string_bytes second.now)) }
    ensures { (m : Legible) (script : List ℕ) (on : RestsOn m script (D.told desk.old))
        → Unrisen (D.told desk.old) (D.told desk.new) → result ≡ true
        → AddsLawfully (D.told desk.old).places on.history (D.told desk.old) (D.told desk.new) }
{
    if top(alloc, first, desk) != 0 {
        return false;
    }
    top(alloc, second, desk);
    true
}

/// Runs the script over a chip that is opened, to whatever end, and then what is left of it, with other words. From any start
/// that rests on records, and where no write failed, what both runs add to the told history is lawful after lawful events
/// that leave clean what was marked at the start; and behind all of them what is marked then is clean. So any number of
/// runs is lawful, one after another.
pub fn run_and_run<D: Desk>(alloc: Global, first: &[String], second: &[String], desk: &mut D)
    requires first { AsksOpened (requested (map string_bytes first.now)) }
    requires second { AsksOpened (requested (map string_bytes second.now)) }
    ensures { (m : Legible) (script : List ℕ) (on : RestsOn m script (D.told desk.old)) → TellsHistory (D.told desk.old)
        → Unrisen (D.told desk.old) (D.told desk.new)
        → AddsCleanly (D.told desk.old).places on.history (D.told desk.old) (D.told desk.new) }
{
    top(alloc, first, desk);
    top(alloc, second, desk);
}

/// Formats the chip, with any number of places to spare, and then opens it and runs the script.
pub fn format_and_run<D: Desk>(
    alloc: Global,
    first: &[String],
    second: &[String],
    desk: &mut D,
) -> bool
    requires { AsksOpened (requested (map string_bytes second.now)) }
    ensures rests { (sessions spares : ℕ) (script : List ℕ)
        → AsksOpenedBy sessions (requested (map string_bytes second.now))
        → requested (map string_bytes first.now) ≡ Some (Format spares)
        → IsFormattable script (D.told desk.old)
        → Unrisen (D.told desk.old) (D.told desk.new) → result ≡ true
        → RestsOn (whole (records_after (limits_of sessions (units_beside (D.told desk.old).places spares)) no_records script)) []
        (D.told desk.new) }
    ensures lawful { (sessions spares : ℕ) (script : List ℕ)
        → AsksOpenedBy sessions (requested (map string_bytes second.now))
        → requested (map string_bytes first.now) ≡ Some (Format spares)
        → IsLawfullyFormattable script (D.told desk.old)
        → Unrisen (D.told desk.old) (D.told desk.new) → result ≡ true
        → RestsLawfully (whole (records_after (limits_of sessions (units_beside (D.told desk.old).places spares)) no_records script)) []
        (D.told desk.new) }
{
    if top(alloc, first, desk) != 0 {
        return false;
    }
    top(alloc, second, desk) == 0
}

/// Runs the script over a chip that is formatted first, and then opens that and runs what is left of the script.
pub fn run_anew_and_run<D: Desk>(
    alloc: Global,
    first: &[String],
    second: &[String],
    desk: &mut D,
) -> bool
    requires first { AsksFormatted (requested (map string_bytes first.now)) }
    requires second { AsksOpened (requested (map string_bytes second.now)) }
    ensures rests { (sessions : ℕ) → AsksFormattedBy sessions (requested (map string_bytes first.now))
        → (script : List ℕ) → IsFormattable script (D.told desk.old)
        → Unrisen (D.told desk.old) (D.told desk.new) → result ≡ true
        → RestsOn (whole (records_after (limits_of sessions (units_on (D.told desk.old).places)) no_records script)) []
        (D.told desk.new) }
    ensures lawful { (sessions : ℕ) → AsksFormattedBy sessions (requested (map string_bytes first.now))
        → (script : List ℕ) → IsLawfullyFormattable script (D.told desk.old)
        → Unrisen (D.told desk.old) (D.told desk.new) → result ≡ true
        → RestsLawfully (whole (records_after (limits_of sessions (units_on (D.told desk.old).places)) no_records script)) []
        (D.told desk.new) }
{
    if top(alloc, first, desk) != 0 {
        return false;
    }
    top(alloc, second, desk) == 0
}

/// Does a trial, which formats the chip and reads no script, and then opens the chip and runs the script.
pub fn trial_and_run<D: Desk>(
    alloc: Global,
    first: &[String],
    second: &[String],
    desk: &mut D,
) -> bool
    requires { AsksOpened (requested (map string_bytes second.now)) }
    ensures rests { (seed count frames tried sessions numbers : ℕ) (script : List ℕ)
        → requested (map string_bytes first.now) ≡ Some (Trial seed count frames tried numbers)
        → AsksOpenedBy sessions (requested (map string_bytes second.now))
        → IsFormattable script (D.told desk.old)
        → Unrisen (D.told desk.old) (D.told desk.new) → result ≡ true
        → RestsOn (whole (records_tried tried sessions (D.told desk.old).places seed count script)) [] (D.told desk.new) }
    ensures lawful { (seed count frames tried sessions numbers : ℕ) (script : List ℕ)
        → requested (map string_bytes first.now) ≡ Some (Trial seed count frames tried numbers)
        → AsksOpenedBy sessions (requested (map string_bytes second.now))
        → IsLawfullyFormattable script (D.told desk.old)
        → Unrisen (D.told desk.old) (D.told desk.new) → result ≡ true
        → RestsLawfully (whole (records_tried tried sessions (D.told desk.old).places seed count script)) [] (D.told desk.new) }
{
    if top(alloc, first, desk) != 0 {
        return false;
    }
    top(alloc, second, desk) == 0
}

/// The commands of the serial view of a script, run by themselves, leave the records that the script leaves.
pub fn view_law()
    ensures { ViewKeepsRecords }
{}
