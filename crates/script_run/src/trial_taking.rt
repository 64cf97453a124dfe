//! The records after a trial, looked up.
ghost use Rattle.std.specs.Prelude.{◌≡◌, ◌≤◌, ◌<◌, ◌+◌, ◌*◌, ℕ, IfErr};
ghost use Rattle.std.specs.FinMap.{get};
ghost use Rattle.ipl_model.specs.State.{Limits};
ghost use Rattle.store_trait.specs.Onward.{Onward};
ghost use Rattle.store_trait.specs.Keeping.{LOOK_UP_DRAWS};
ghost use Rattle.script_run.specs.Goes.{FitsDesk, Along, KeepsSome, Completes, CompletesOver, row_lines};
ghost use Rattle.script_run.specs.TrialSummary.{record_lines};
ghost use Rattle.script_run.specs.Trial.{TakesAll, IsStoreStop};

use crate::fault::Stop;
use crate::trial_records::Records;
use chip_trait::Desk;
use store_trait::Store;

/// Takes the record of a name, where there is one.
fn take_one<S: Store, D: Desk>(
    store: &mut S,
    desk: &mut D,
    records: &mut Records,
    n: u32,
) -> Result<(), Stop>
    ghost places: { ℕ }
    requires room { records.old.count < 4294967295 }
    requires suits { FitsDesk (S.keeping places S.all) places store.old (D.told desk.old) }
    ensures takes { (limits : Limits) → n < limits.names
        → TakesAll (S.keeping places S.all) limits (λ state. row_lines n (get state.map n)) records.old store.old
        (D.told desk.old) result records.new store.new (D.told desk.new) }
    ensures along { Along (S.keeping places S.all) Onward LOOK_UP_DRAWS store.old (D.told desk.old) result store.new
        (D.told desk.new) }
    ensures completes { (known : S.Known) (limits : Limits) → n < limits.names
        → KeepsSome (S.keeping places known) limits store.old (D.told desk.old)
        → Completes (S.keeping places known) limits LOOK_UP_DRAWS store.old (D.told desk.old) result store.new
        (D.told desk.new) }
    ensures stops { IfErr result IsStoreStop }
    ensures few { records.new.count ≤ records.old.count + 1 }
{
    if let Some(value) = store.look_up(desk, n)? {
        records.take(n, value);
    }
    Ok(())
}

/// Takes the records of the names below this, rising.
fn take_below<S: Store, D: Desk>(
    store: &mut S,
    desk: &mut D,
    records: &mut Records,
    names: u32,
) -> Result<(), Stop>
    ghost places: { ℕ }
    requires none { records.old.count ≡ 0 }
    requires suits { FitsDesk (S.keeping places S.all) places store.old (D.told desk.old) }
    ensures takes { (limits : Limits) → names ≤ limits.names
        → TakesAll (S.keeping places S.all) limits (λ state. record_lines state.map names) records.old store.old
        (D.told desk.old) result records.new store.new (D.told desk.new) }
    ensures along { Along (S.keeping places S.all) Onward (LOOK_UP_DRAWS * names) store.old (D.told desk.old) result
        store.new (D.told desk.new) }
    ensures completes { (known : S.Known) (limits : Limits) → names ≤ limits.names
        → KeepsSome (S.keeping places known) limits store.old (D.told desk.old)
        → Completes (S.keeping places known) limits (LOOK_UP_DRAWS * names) store.old (D.told desk.old) result store.new
        (D.told desk.new) }
    ensures stops { IfErr result IsStoreStop }
{
    for n in 0..names {
        take_one(store, desk, records, n)?;
    }
    Ok(())
}

/// Takes all records, by rising names.
pub(crate) fn take_all<S: Store, D: Desk>(
    store: &mut S,
    desk: &mut D,
    records: &mut Records,
) -> Result<(), Stop>
    ghost places: { ℕ }
    requires none { records.old.count ≡ 0 }
    requires suits { FitsDesk (S.keeping places S.all) places store.old (D.told desk.old) }
    ensures takes { (limits : Limits)
        → TakesAll (S.keeping places S.all) limits (λ state. record_lines state.map limits.names) records.old store.old
        (D.told desk.old) result records.new store.new (D.told desk.new) }
    ensures along { Along (S.keeping places S.all) Onward (LOOK_UP_DRAWS * 983040) store.old (D.told desk.old) result
        store.new (D.told desk.new) }
    ensures completes { (known : S.Known) → CompletesOver (S.keeping places known) (LOOK_UP_DRAWS * 983040) store.old (D.told desk.old)
        result store.new (D.told desk.new) }
    ensures stops { IfErr result IsStoreStop }
{
    let names = store.names();
    take_below(store, desk, records, names)
}
