ghost use Rattle.std.specs.Prelude.{◌≡◌, ◌≤◌, ◌<◌, [], List, length, map, Option, Some, IfSome, IfOk, OnOk, OnErr, IsErrOf, true, false, vec_capacity};
ghost use Rattle.es_model.specs.declared.snapshot.Snapshot.{Snapshot};
ghost use Rattle.es_model.specs.Causes.{CallHasCause, Rose};
ghost use Rattle.es_model.specs.History.{Histories};
ghost use Rattle.es_model.specs.Values.{Name};
ghost use Rattle.es_io.specs.Readings.{Readings};
ghost use Rattle.es_recorder.specs.Held.{put, SameElsewhere, ClosesTold};
ghost use Rattle.es_process.specs.Applications.{IsOpened, name_of, recorder_of};
ghost use Rattle.es_process.specs.Contents.{Contents};
ghost use Rattle.es_process.specs.SingleThread.{is_among};
ghost use Rattle.es_process.specs.Standing.{Holds, AreDistinct, names_in};
ghost use Rattle.es_process.specs.SystemRules.{app_names};
ghost use Rattle.es_top.specs.Limits.{limits};
ghost use Rattle.es_top.specs.Runs.{state_of};
ghost use Rattle.es_top.specs.Opened.{AreOpened, AreHandedOut, ClosesEach, ClosesFronts, GrowsBut, GrowsEach, IsFrontOfNames, marked, HoldElsewhere, TellEach, AreFresh, IsUnused, SomeFailed};
ghost use Rattle.es_top.specs.Top.{IsLeft, StoresTell};

use es_model::limits::{DEFAULT_TURNS, MOST_CAPACITY};
use es_model::{App, CallFault, Duplicate, NoMemory, System, Text};
use es_process::Application;
use es_recorder::{ProcessRecorder, Stores};
use std::alloc::Global;

// The application of a recorder that the stores handed out. Where memory is short they are given it back.
fn begin_application<M: Stores>(
    stores: &mut M,
    name: &Text,
    recorder: M::R,
) -> Result<Application<M::R>, NoMemory>
    ensures begun { IfOk result (IsOpened name.now recorder limits.turns) }
    ensures still { OnOk result (stores.new ≡ stores.old) }
    ensures closed { OnErr result (ClosesTold (M.out stores.old name.now) (M.held stores.old) name.now (M.R.history recorder) (M.held stores.new)) }
    ensures closed_snapshots { OnErr result (ClosesTold (M.out stores.old name.now) (M.snapshots stores.old) name.now (M.R.snapshots recorder) (M.snapshots stores.new)) }
    ensures closed_stable { OnErr result (ClosesTold (M.out stores.old name.now) (M.stable stores.old) name.now (M.R.stable recorder) (M.stable stores.new)) }
    ensures in_again { OnErr result ((other : Name) → M.out stores.new other ≡ put (M.out stores.old) name.now false other) }
    ensures later { M.faults stores.old ≤ M.faults stores.new }
{
    match Application::open(name, recorder, DEFAULT_TURNS) {
        Ok(app) => Ok(app),
        Err(unopened) => {
            stores.close(name, unopened.0);
            Err(unopened.1)
        }
    }
}

// Opens an application of the stores.
fn open_application<M: Stores>(stores: &mut M, name: &Text) -> Result<Application<M::R>, CallFault>
    ensures named { IfOk result (λ app. name_of app ≡ name.now) }
    ensures opened { IfSome (M.held stores.old) (λ h. IfOk result (λ app. M.R.history (recorder_of app) ≡ Some (h name.now))) }
    ensures opened_snapshots { IfSome (M.snapshots stores.old) (λ q. IfOk result (λ app. M.R.snapshots (recorder_of app) ≡ Some (q name.now))) }
    ensures limited { IfOk result (IsUnused M.R.settled M.R.capacity M.R.faults) }
    ensures out { OnOk result ((other : Name) → M.out stores.new other ≡ put (M.out stores.old) name.now true other) }
    ensures was_in { OnOk result (M.out stores.old name.now ≡ false) }
    ensures others { OnOk result (SameElsewhere name.now (M.held stores.old) (M.held stores.new)) }
    ensures other_snapshots { OnOk result (SameElsewhere name.now (M.snapshots stores.old) (M.snapshots stores.new)) }
    ensures other_stable { OnOk result (SameElsewhere name.now (M.stable stores.old) (M.stable stores.new)) }
    ensures refused { OnErr result (IsLeft (M.held stores.old) (M.held stores.new)) }
    ensures refused_snapshots { OnErr result (IsLeft (M.snapshots stores.old) (M.snapshots stores.new)) }
    ensures refused_stable { OnErr result (GrowsEach (M.held stores.old) (M.stable stores.old) (M.stable stores.new)) }
    ensures still { OnErr result ((other : Name) → M.out stores.new other ≡ M.out stores.old other) }
    ensures cause { CallHasCause (M.faults stores.old) (M.faults stores.new) result }
{
    match stores.open(None, name, MOST_CAPACITY) {
        Ok(recorder) => match begin_application(stores, name, recorder) {
            Ok(app) => Ok(app),
            Err(NoMemory) => Err(CallFault::NoMemory),
        },
        Err(fault) => Err(fault),
    }
}

// Puts the recorder of an application back into the stores, under the name by which it was opened.
fn close_application<M: Stores>(stores: &mut M, name: &Text, app: Application<M::R>)
    requires { name.now ≡ name_of app }
    ensures closed { ClosesTold (M.out stores.old (name_of app)) (M.held stores.old) (name_of app) (M.R.history (recorder_of app)) (M.held stores.new) }
    ensures closed_snapshots { ClosesTold (M.out stores.old (name_of app)) (M.snapshots stores.old) (name_of app) (M.R.snapshots (recorder_of app)) (M.snapshots stores.new) }
    ensures closed_stable { ClosesTold (M.out stores.old (name_of app)) (M.stable stores.old) (name_of app) (M.R.stable (recorder_of app)) (M.stable stores.new) }
    ensures in_again { (other : Name) → M.out stores.new other ≡ put (M.out stores.old) (name_of app) false other }
    ensures later { M.faults stores.old ≤ M.faults stores.new }
    ensures risen { 0 < M.R.faults (recorder_of app) → Rose (M.faults stores.old) (M.faults stores.new) }
{
    stores.close(name, app.close());
}

// Opens applications in order, into a vector with room for all. Where one can't be opened, it has those before.
fn open_each<M: Stores>(
    stores: &mut M,
    apps: &[App],
    opened: &mut Vec<Application<M::R>>,
) -> Result<(), CallFault>
    requires empty { opened.old.items ≡ [] }
    requires room { length apps.now ≤ vec_capacity opened.old }
    ensures opened { AreOpened M.R.settled M.R.capacity M.R.faults (M.out stores.old) (M.out stores.new) opened.new.items }
    ensures histories { AreHandedOut M.R.history (M.held stores.old) (M.held stores.new) opened.new.items }
    ensures snapshots { AreHandedOut M.R.snapshots (M.snapshots stores.old) (M.snapshots stores.new) opened.new.items }
    ensures stable { GrowsBut (names_in opened.new.items) (M.held stores.old) (M.stable stores.old) (M.stable stores.new) }
    ensures front { IsFrontOfNames (names_in opened.new.items) (map (λ a. a.name) apps.now) }
    ensures named { OnOk result (names_in opened.new.items ≡ map (λ a. a.name) apps.now) }
    ensures later { M.faults stores.old ≤ M.faults stores.new }
    ensures failed { IsErrOf result CallFault.Failed → Rose (M.faults stores.old) (M.faults stores.new) }
{
    for app in apps {
        let application = open_application(stores, &app.name)?;
        opened.push_reserved(application);
    }
    Ok(())
}

/// Opens all applications, in the order in which they are declared. Where one can't be opened, those that were are
/// closed again.
pub fn open_all<M: Stores>(
    alloc: Global,
    stores: &mut M,
    sys: &System,
) -> Result<Vec<Application<M::R>>, CallFault>
    requires { AreDistinct (app_names sys.now) }
    ensures opened { (readings : Option Readings) (r : Readings) (opening : Contents) → readings ≡ Some r → StoresTell opening (M.held stores.old) (M.snapshots stores.old) → IfOk result (λ apps. Holds M.R.history M.R.settled M.R.snapshots M.R.capacity opening limits apps.items readings (state_of opening r)) }
    ensures histories { (h : Histories) → M.held stores.old ≡ Some h → IfOk result (λ apps. TellEach M.R.history h apps.items) }
    ensures snapshots { (q : Name → List Snapshot) → M.snapshots stores.old ≡ Some q → IfOk result (λ apps. TellEach M.R.snapshots q apps.items) }
    ensures named { IfOk result (λ apps. names_in apps.items ≡ app_names sys.now) }
    ensures fresh { IfOk result (λ apps. AreFresh M.R.faults apps.items) }
    ensures out { OnOk result ((n : Name) → M.out stores.new n ≡ marked (M.out stores.old) (app_names sys.now) true n) }
    ensures were_in { OnOk result ((n : Name) → is_among n (app_names sys.now) ≡ true → M.out stores.old n ≡ false) }
    ensures elsewhere { OnOk result ((h : Histories) → M.held stores.old ≡ Some h → HoldElsewhere (app_names sys.now) h (M.held stores.new)) }
    ensures elsewhere_snapshots { OnOk result ((q : Name → List Snapshot) → M.snapshots stores.old ≡ Some q → HoldElsewhere (app_names sys.now) q (M.snapshots stores.new)) }
    ensures elsewhere_stable { OnOk result (GrowsBut (app_names sys.now) (M.held stores.old) (M.stable stores.old) (M.stable stores.new)) }
    ensures refused { OnErr result (IsLeft (M.held stores.old) (M.held stores.new)) }
    ensures refused_snapshots { OnErr result (IsLeft (M.snapshots stores.old) (M.snapshots stores.new)) }
    ensures refused_stable { OnErr result (GrowsEach (M.held stores.old) (M.stable stores.old) (M.stable stores.new)) }
    ensures still { OnErr result ((n : Name) → M.out stores.new n ≡ M.out stores.old n) }
    ensures cause { CallHasCause (M.faults stores.old) (M.faults stores.new) result }
{
    let Ok(mut apps) = Vec::with_capacity(alloc, sys.apps.len()) else {
        return Err(CallFault::NoMemory);
    };
    match open_each(stores, sys.apps.as_slice(), &mut apps) {
        Ok(()) => Ok(apps),
        Err(fault) => {
            close_all(stores, sys.apps.as_slice(), apps);
            Err(fault)
        }
    }
}

/// Closes applications, which are the first of those that are declared.
pub fn close_all<M: Stores>(stores: &mut M, declared: &[App], mut apps: Vec<Application<M::R>>)
    requires front { IsFrontOfNames (names_in apps.items) (map (λ a. a.name) declared.now) }
    ensures closed { ClosesEach M.R.history apps.items (M.out stores.old) (M.held stores.old) (M.held stores.new) }
    ensures closed_snapshots { ClosesEach M.R.snapshots apps.items (M.out stores.old) (M.snapshots stores.old) (M.snapshots stores.new) }
    ensures closed_stable { ClosesFronts M.R.stable apps.items (M.out stores.old) (M.stable stores.old) (M.stable stores.new) }
    ensures in_again { (n : Name) → M.out stores.new n ≡ marked (M.out stores.old) (names_in apps.items) false n }
    ensures later { M.faults stores.old ≤ M.faults stores.new }
    ensures risen { SomeFailed M.R.faults apps.items → Rose (M.faults stores.old) (M.faults stores.new) }
{
    while let Some(app) = apps.pop() {
        close_application(stores, &declared[apps.len()].name, app);
    }
    apps.destroy_empty();
}
