ghost use Rattle.std.specs.Prelude.{◌≡◌, ◌⊎◌, ◌≤◌, ◌<◌, ◌^◌, ◌+◌, ◌-◌, [], ◌∷◌, ◌++◌, ℕ, List, Option, Some, None, Ok, IfOk, IfErr, IsErrOf, OnOk, OnErr, length};
ghost use Rattle.es_model.specs.declared.event.Recording.{Recording};
ghost use Rattle.es_model.specs.Causes.{CallHasCause, Rose};
ghost use Rattle.es_model.specs.History.{Histories};
ghost use Rattle.es_model.specs.Rising.{with_item};
ghost use Rattle.es_io.specs.Readings.{Readings};
ghost use Rattle.es_process.specs.declared.ahead.Ahead.{Ahead as AheadOf};
ghost use Rattle.es_process.specs.Applications.{name_of, recorder_of};
ghost use Rattle.es_process.specs.Contents.{Contents};
ghost use Rattle.es_process.specs.Drains.{AreApps};
ghost use Rattle.es_process.specs.Faults.{end_of};
ghost use Rattle.es_process.specs.Reached.{ahead};
ghost use Rattle.es_process.specs.SingleThread.{ahead_end};
ghost use Rattle.es_process.specs.Standing.{Holds, HoldContents, HasStable, AllStay, SomeRose, names_in, AreDistinct, IsSame, MayFailToRead};
ghost use Rattle.es_process.specs.SystemRules.{in_order, rules_of};
ghost use Rattle.es_top.specs.inner.Begins.{AheadEnd, IsUnbegunEnd};
ghost use Rattle.es_top.specs.inner.Counts.{CountsTold, EndsBy, IsCounted, lengths, more_than};
ghost use Rattle.es_top.specs.Limits.{limits, terms_of, TakesLines};
ghost use Rattle.es_top.specs.Opened.{AreKept, TellEach};
ghost use Rattle.es_top.specs.Traced.{OfInput};
ghost use Rattle.es_top.specs.Runs.{IsRunning, Runs, state_of};

use crate::serve::{Stop, serve};
use es_io::{Clock, Lines, Piece, Sink, Source};
use es_lines::End;
use es_model::limits::{MOST_INPUT_BYTES, MOST_LINE_BYTES};
use es_model::{CallFault, Counts, Duplicate, Failed, NoMemory, System};
use es_process::{Ahead, Application, RunFault, find_ahead};
use es_recorder::ProcessRecorder;
use es_single::SingleRunner;
use std::alloc::Global;

// The end of a run whose recorder failed, or that had no memory.
fn call_end(fault: CallFault) -> End
    ensures unbegun { IsUnbegunEnd result }
    ensures silent { (found : Option AheadOf) → AheadEnd found result }
    ensures recorder { result ≡ End.Recorder → fault ≡ CallFault.Failed }
{
    match fault {
        CallFault::Failed => End::Recorder,
        CallFault::NoMemory => End::Memory,
    }
}

// The end of a run at whose opening a follower is ahead of its leader.
fn ahead_end(found: Ahead) -> End
    ensures { result ≡ ahead_end found }
{
    let Ahead {
        app,
        leader,
        tracked,
        last,
    } = found;
    End::Ahead {
        app,
        leader,
        tracked,
        last,
    }
}

// Puts the number of an application's recordings behind others.
fn push_count<R: ProcessRecorder>(
    app: &mut Application<R>,
    counts: &mut Vec<u64>,
) -> Result<(), CallFault>
    ensures counted { (h : List Recording) → R.history (recorder_of app.old) ≡ Some h → OnOk result (counts.new.items ≡ counts.old.items ++ length h ∷ []) }
    ensures one { OnOk result (length counts.new.items ≡ length counts.old.items + 1) }
    ensures same { IsSame R.history R.settled R.capacity R.snapshots R.faults app.old app.new }
    ensures cause { CallHasCause (R.faults (recorder_of app.old)) (R.faults (recorder_of app.new)) result }
{
    let number = app.recordings()?;
    match counts.push(number) {
        Ok(()) => Ok(()),
        Err(_) => Err(CallFault::NoMemory),
    }
}

// How many recordings each application has, in their order.
fn count_first<R: ProcessRecorder>(
    alloc: Global,
    apps: &mut [Application<R>],
) -> Result<Vec<u64>, End>
    ensures counted { (h : Histories) → TellEach R.history h apps.old → IfOk result (λ counts. counts.items ≡ lengths h (names_in apps.old)) }
    ensures each { IfOk result (λ counts. length counts.items ≡ length apps.old) }
    ensures silent { (found : Option AheadOf) → IfErr result (AheadEnd found) }
    ensures unbegun { IfErr result IsUnbegunEnd }
    ensures kept { AreKept R.history R.settled R.capacity R.snapshots R.faults apps.old apps.new }
    ensures recorder { IsErrOf result End.Recorder → SomeRose R.faults apps.old apps.new }
{
    let mut counts = Vec::new(alloc);
    for app in apps.iter_mut() {
        match push_count(app, &mut counts) {
            Ok(()) => {}
            Err(fault) => return Err(call_end(fault)),
        }
    }
    Ok(counts)
}

// What is to be known before the first step: that no follower is ahead of its leader, and how many recordings each application has. Else
// it is how the run ends.
fn begin<R: ProcessRecorder>(
    alloc: Global,
    sys: &System,
    apps: &mut [Application<R>],
) -> Result<Vec<u64>, End>
    requires { AreApps sys.now (names_in apps.old) }
    ensures begun { (opening : Contents) (r : Readings) → Holds R.history R.settled R.snapshots R.capacity opening limits apps.old (Some r) (state_of opening r)
        → IfOk result (λ counts. (ahead (rules_of sys.now).pairs opening.histories ≡ None) × (counts.items ≡ lengths opening.histories (names_in apps.old))) }
    ensures ended { (opening : Contents) (r : Readings) → Holds R.history R.settled R.snapshots R.capacity opening limits apps.old (Some r) (state_of opening r) → IfErr result (AheadEnd (ahead (rules_of sys.now).pairs opening.histories)) }
    ensures each { IfOk result (λ counts. length counts.items ≡ length apps.old) }
    ensures unbegun { IfErr result IsUnbegunEnd }
    ensures holds { (opening : Contents) (r : Readings) → Holds R.history R.settled R.snapshots R.capacity opening limits apps.old (Some r) (state_of opening r) → Holds R.history R.settled R.snapshots R.capacity opening limits apps.new (Some r) (state_of opening r) }
    ensures same { AllStay R.faults apps.old apps.new }
    ensures recorder { IsErrOf result End.Recorder → SomeRose R.faults apps.old apps.new }
{
    match find_ahead(alloc, sys, apps) {
        Ok(None) => count_first(alloc, apps),
        Ok(Some(found)) => Err(ahead_end(found)),
        Err(fault) => Err(call_end(fault)),
    }
}

// Gives an application's name the number of recordings that it has more than these.
fn count_one<R: ProcessRecorder>(
    app: &mut Application<R>,
    before: u64,
    counts: &mut Counts,
) -> Result<(), RunFault>
    ensures counted { (h : List Recording) → R.history (recorder_of app.old) ≡ Some h → OnOk result (counts.new ≡ with_item counts.old (name_of app.old) (length h - before)) }
    ensures faults { IfErr result MayFailToRead }
    ensures same { IsSame R.history R.settled R.capacity R.snapshots R.faults app.old app.new }
    ensures stable { (id : ℕ) → HasStable (R.stable (recorder_of app.old)) id → HasStable (R.stable (recorder_of app.new)) id }
    ensures recorder { IsErrOf result RunFault.Recorder → Rose (R.faults (recorder_of app.old)) (R.faults (recorder_of app.new)) }
{
    let number = match app.recordings() {
        Ok(number) => number,
        Err(CallFault::Failed) => return Err(RunFault::Recorder),
        Err(CallFault::NoMemory) => return Err(RunFault::NoMemory),
    };
    let Ok(name) = app.name().copy() else {
        return Err(RunFault::NoMemory);
    };
    match counts.put(name, number.saturating_sub(before)) {
        Ok(()) => Ok(()),
        Err(NoMemory) => Err(RunFault::NoMemory),
    }
}

// Gives each application's name the number of recordings that it has more than these, from the last application to the first.
fn count_each<R: ProcessRecorder>(
    apps: &mut [Application<R>],
    before: &[u64],
    counts: &mut Counts,
) -> Result<(), RunFault>
    requires distinct { AreDistinct (names_in apps.old) }
    requires each { length before.now ≡ length apps.old }
    requires empty { counts.old ≡ [] }
    ensures counted { (base c : Contents) → HoldContents R.history R.stable R.snapshots base apps.old c → before.now ≡ lengths base.histories (names_in apps.old) → OnOk result (counts.new ≡ in_order (more_than base.histories c.histories) (names_in apps.old)) }
    ensures holds { (base c : Contents) → HoldContents R.history R.stable R.snapshots base apps.old c → HoldContents R.history R.stable R.snapshots base apps.new c }
    ensures faults { IfErr result MayFailToRead }
    ensures same { AllStay R.faults apps.old apps.new }
    ensures recorder { IsErrOf result RunFault.Recorder → SomeRose R.faults apps.old apps.new }
{
    let mut place = apps.len();
    while place > 0 {
        place -= 1;
        match count_one(&mut apps[place], before[place], counts) {
            Ok(()) => {}
            Err(fault) => return Err(fault),
        }
    }
    Ok(())
}

// The end of a run whose lines were all answered, over applications that had so many recordings before.
fn counted<R: ProcessRecorder>(
    alloc: Global,
    apps: &mut [Application<R>],
    before: &[u64],
    lines: u64,
) -> End
    requires distinct { AreDistinct (names_in apps.old) }
    requires each { length before.now ≡ length apps.old }
    ensures counts { (base c : Contents) → HoldContents R.history R.stable R.snapshots base apps.old c → before.now ≡ lengths base.histories (names_in apps.old) → CountsTold (in_order (more_than base.histories c.histories) (names_in apps.old)) lines result }
    ensures counted { IsCounted result }
    ensures holds { (base c : Contents) → HoldContents R.history R.stable R.snapshots base apps.old c → HoldContents R.history R.stable R.snapshots base apps.new c }
    ensures same { AllStay R.faults apps.old apps.new }
    ensures recorder { result ≡ End.Recorder → SomeRose R.faults apps.old apps.new }
{
    let mut added = Counts::new(alloc);
    match count_each(apps, before, &mut added) {
        Ok(()) => End::Ok { added, lines },
        Err(fault) => fault_end(fault),
    }
}

// The end of a run that a fault ended.
fn fault_end(fault: RunFault) -> End
    ensures { result ≡ end_of fault }
{
    match fault {
        RunFault::Refused {
            app,
            leader,
            id,
            recordings,
            code,
            rule,
        } => End::Refused {
            app,
            leader,
            id,
            recordings,
            code,
            rule,
        },
        RunFault::Turns { app, turns } => End::Turns { app, turns },
        RunFault::Unreadable { app, id } => End::Unreadable { app, id },
        RunFault::Full {
            app,
            last,
            capacity,
        } => End::Full {
            app,
            last,
            capacity,
        },
        RunFault::Recorder => End::Recorder,
        RunFault::NoMemory => End::Memory,
    }
}

// How a run ends, by why its lines stopped. `Failed` is the sink's.
fn end_by<R: ProcessRecorder>(
    alloc: Global,
    apps: &mut [Application<R>],
    before: &[u64],
    stop: Stop,
    lines: u64,
) -> Result<End, Failed>
    requires distinct { AreDistinct (names_in apps.old) }
    requires each { length before.now ≡ length apps.old }
    requires lines { lines < 2 ^ 63 }
    ensures ends { (base c : Contents) → HoldContents R.history R.stable R.snapshots base apps.old c → before.now ≡ lengths base.histories (names_in apps.old) → EndsBy (in_order (more_than base.histories c.histories) (names_in apps.old)) stop lines result }
    ensures holds { (base c : Contents) → HoldContents R.history R.stable R.snapshots base apps.old c → HoldContents R.history R.stable R.snapshots base apps.new c }
    ensures running { IfOk result IsRunning }
    ensures none_ahead { IfOk result (AheadEnd None) }
    ensures same { AllStay R.faults apps.old apps.new }
    ensures input { result ≡ Ok End.Input → stop ≡ Stop.Read }
    ensures sink { OnErr result (stop ≡ Stop.Sink) }
    ensures recorder { result ≡ Ok End.Recorder → (stop ≡ Stop.Fault RunFault.Recorder) ⊎ SomeRose R.faults apps.old apps.new }
{
    match stop {
        Stop::End => Ok(counted(alloc, apps, before, lines)),
        Stop::Asked => Ok(counted(alloc, apps, before, lines + 1)),
        Stop::Over => Ok(End::Over),
        Stop::Fault(fault) => Ok(fault_end(fault)),
        Stop::Read => Ok(End::Input),
        Stop::Sink => Err(Failed),
    }
}

// Runs a system over the lines of a source, over its opened applications, which have so many recordings and of which no follower is ahead
// of its leader.
fn run_lines<S: Source, T: Sink, R: ProcessRecorder, C: Clock>(
    alloc: Global,
    sys: System,
    lines: &mut S,
    out: &mut T,
    apps: Vec<Application<R>>,
    before: &[u64],
    clock: &mut C,
) -> (System, Vec<Application<R>>, Result<End, Failed>)
    requires apps { AreApps sys (names_in apps.items) }
    requires each { length before.now ≡ length apps.items }
    ensures system { result.0 ≡ sys }
    ensures traced { OfInput (S.left lines.old) (S.left lines.new) (C.readings clock.old) (λ i rest r. (opening : Contents) → ahead (rules_of sys).pairs opening.histories ≡ None → before.now ≡ lengths opening.histories (names_in apps.items)
        → Holds R.history R.settled R.snapshots R.capacity opening limits apps.items (Some r) (state_of opening r)
        → Runs (terms_of sys) opening r i (Some rest) (HoldContents R.history R.stable R.snapshots opening result.1.items) (T.written out.old) (T.written out.new) result.2) }
    ensures none_ahead { IfOk result.2 (AheadEnd None) }
    ensures running { IfOk result.2 IsRunning }
    ensures same { AllStay R.faults apps.items result.1.items }
    ensures out_later { T.faults out.old ≤ T.faults out.new }
    ensures bound { TakesLines (S.left lines.old) (S.left lines.new) }
    ensures input { result.2 ≡ Ok End.Input → Rose (S.faults lines.old) (S.faults lines.new) }
    ensures sink { OnErr result.2 (Rose (T.faults out.old) (T.faults out.new)) }
    ensures recorder { result.2 ≡ Ok End.Recorder → SomeRose R.faults apps.items result.1.items }
{
    let Ok(piece) = Piece::new(alloc) else {
        return (sys, apps, Ok(End::Memory));
    };
    let mut runner = SingleRunner::new(alloc, sys, apps);
    let mut reader = Lines::new(alloc, piece, lines, MOST_LINE_BYTES, MOST_INPUT_BYTES);
    let (stop, count) = serve(alloc, &mut runner, &mut reader, out, clock);
    let _source = reader.into_source();
    let (sys, mut apps) = runner.finish();
    let result = end_by(alloc, apps.as_mut_slice(), before, stop, count);
    (sys, apps, result)
}

/// Runs a system over the lines of a source, over its opened applications, gives both back, and says how the run ends: where a follower
/// is ahead of its leader it ends at once; else all leaders are drained first, each line is answered before the next is read, and after
/// an accepted one its followers process what it added. The end line isn't written. `Failed` is the sink's.
pub fn run<S: Source, T: Sink, R: ProcessRecorder, C: Clock>(
    alloc: Global,
    sys: System,
    lines: &mut S,
    out: &mut T,
    mut apps: Vec<Application<R>>,
    clock: &mut C,
) -> (System, Vec<Application<R>>, Result<End, Failed>)
    requires { AreApps sys (names_in apps.items) }
    ensures system { result.0 ≡ sys }
    ensures traced { OfInput (S.left lines.old) (S.left lines.new) (C.readings clock.old) (λ i rest r. (opening : Contents) → Holds R.history R.settled R.snapshots R.capacity opening limits apps.items (Some r) (state_of opening r)
        → Runs (terms_of sys) opening r i (Some rest) (HoldContents R.history R.stable R.snapshots opening result.1.items) (T.written out.old) (T.written out.new) result.2) }

    // It ends so exactly where a follower is ahead, unless something failed.
    ensures ahead { (opening : Contents) (r : Readings) → Holds R.history R.settled R.snapshots R.capacity opening limits apps.items (Some r) (state_of opening r) → IfOk result.2 (AheadEnd (ahead (rules_of sys).pairs opening.histories)) }

    ensures running { IfOk result.2 IsRunning }
    ensures same { AllStay R.faults apps.items result.1.items }
    ensures out_later { T.faults out.old ≤ T.faults out.new }

    // At most one byte past the limit was taken from the lines.
    ensures bound { TakesLines (S.left lines.old) (S.left lines.new) }

    ensures input { result.2 ≡ Ok End.Input → Rose (S.faults lines.old) (S.faults lines.new) }
    ensures sink { OnErr result.2 (Rose (T.faults out.old) (T.faults out.new)) }
    ensures recorder { result.2 ≡ Ok End.Recorder → SomeRose R.faults apps.items result.1.items }
{
    match begin(alloc, &sys, apps.as_mut_slice()) {
        Ok(before) => run_lines(alloc, sys, lines, out, apps, before.as_slice(), clock),
        Err(end) => (sys, apps, Ok(end)),
    }
}
