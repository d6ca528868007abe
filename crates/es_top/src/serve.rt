ghost use Rattle.std.specs.Prelude.{◌≡◌, ◌<◌, ◌≤◌, ◌^◌, [], ℕ, List, Option, None, Some, false, OnOk, OnErr, IfErr, IsErrOf};
ghost use Rattle.std.specs.Io.KnownBytes.{Appends};
ghost use Rattle.es_model.specs.Causes.{HasCause, Rose};
ghost use Rattle.es_model.specs.Lines.{Line, text as text_line};
ghost use Rattle.es_model.specs.Values.{Name};
ghost use Rattle.es_io.specs.Front.{AppendsFront};
ghost use Rattle.es_io.specs.LinesLeft.{room_of, has_ended, source_of, fault_of, EndsRightly};
ghost use Rattle.es_io.specs.Remains.{MayHold, MayHaveLeft, lines_from};
ghost use Rattle.es_lines.specs.Requests.{asks, request_in};
ghost use Rattle.es_process.specs.Answer.{Options};
ghost use Rattle.es_process.specs.Contents.{Contents};
ghost use Rattle.es_process.specs.Drains.{AreApps};
ghost use Rattle.es_process.specs.Questions.{reply_to};
ghost use Rattle.es_process.specs.SingleThread.{is_stop};
ghost use Rattle.es_process.specs.Standing.{State, Holds, HoldContents, SomeRose};
ghost use Rattle.es_process.specs.SystemRules.{rules_of};
ghost use Rattle.es_process.specs.Terms.{terms};
ghost use Rattle.es_process.specs.Traced.{Traced};
ghost use Rattle.es_single.specs.Answers.{IsAsked};
ghost use Rattle.es_single.specs.Runner.{GoesOn, HoldsPrompted, IsNew, IsReady, apps_of, names_of, system_of};
ghost use Rattle.es_top.specs.inner.LinesTraced.{LinesTraced};
ghost use Rattle.es_top.specs.inner.Serves.{SaysIt, IsDraining, IsOnward, DrainsAfter, RepliesAndDrains, AnswersLine, TellsBy, TellsStop, TakesTurn, Begun, Serves, IsSaying, MayStop};
ghost use Rattle.es_top.specs.inner.Stays.{LinesStay};
ghost use Rattle.es_top.specs.inner.Taken.{UsesSome, LeavesUnended, Taken};

use es_io::{Clock, Lines, LinesFault, Sink, Source, Step, write_all};
use es_lines::{LineFault, Reply, Request, read_line, reply_text};
use es_model::{Failed, NoMemory};
use es_process::RunFault;
use es_recorder::ProcessRecorder;
use es_single::SingleRunner;
use std::alloc::Global;

/// Why no further line is answered.
#[derive(Debug, Drop)]
pub enum Stop {
    /// No line is left.
    End,
    /// A line asked for it.
    Asked,
    Over,
    Fault(RunFault),
    Read,
    Sink,
}

/// Writes a line, and hands it on.
pub fn write_line<T: Sink>(out: &mut T, line: &[u8]) -> Result<(), Failed>
    ensures all { OnOk result (Appends (T.written out.old) (T.written out.new) line.now) }
    ensures front { OnErr result (AppendsFront (T.written out.old) (T.written out.new) line.now) }
    ensures cause { HasCause (T.faults out.old) (T.faults out.new) result }
{
    write_all(out, line)?;
    out.flush()
}

// Replies to a line.
fn say<T: Sink>(alloc: Global, out: &mut T, reply: &Reply) -> Result<(), Stop>
    ensures said { SaysIt reply.now (T.written out.old) (T.written out.new) result }
    ensures later { T.faults out.old ≤ T.faults out.new }
    ensures sink { IsErrOf result Stop.Sink → Rose (T.faults out.old) (T.faults out.new) }
    ensures stops { IfErr result IsSaying }
{
    let Ok(mut text) = reply_text(alloc, reply) else {
        return Err(Stop::Fault(RunFault::NoMemory));
    };
    if text.push(b'\n').is_err() {
        return Err(Stop::Fault(RunFault::NoMemory));
    }
    match write_line(out, text.as_slice()) {
        Ok(()) => Ok(()),
        Err(Failed) => Err(Stop::Sink),
    }
}

// Whether the lines go on after one that was answered: not where it asked to stop.
fn go_on(request: &Request) -> Result<(), Stop>
    ensures tells { TellsBy (is_stop (asks request.now)) result }
    ensures onward { IsOnward result }
{
    match request {
        Request::Stop => Err(Stop::Asked),
        _ => Ok(()),
    }
}

// Lets the followers process what an answered line added.
fn drain_after<R: ProcessRecorder, C: Clock>(
    alloc: Global,
    runner: &mut SingleRunner<R>,
    clock: &mut C,
    request: &Request,
) -> Result<(), Stop>
    requires ready { IsReady runner.old }
    ensures drained { Traced (C.readings clock.old) (C.readings clock.new) (λ before after. (base : Contents) (options : Options) (s : State) (prompted : List Name) (u : Option (List ℕ)) → HoldsPrompted R.history R.settled R.snapshots R.capacity base options runner.old before s prompted
        → DrainsAfter (terms (rules_of (system_of runner.old)) options) s (λ next. HoldsPrompted R.history R.settled R.snapshots R.capacity base options runner.new after next []) prompted (HoldContents R.history R.stable R.snapshots base (apps_of runner.new)) u result) }
    ensures tells { TellsBy (is_stop (asks request.now)) result }
    ensures ready { OnOk result (IsReady runner.new) }
    ensures same { GoesOn R.faults runner.old runner.new }
    ensures recorder { IsErrOf result (Stop.Fault RunFault.Recorder) → SomeRose R.faults (apps_of runner.old) (apps_of runner.new) }
    ensures stops { IfErr result IsDraining }
{
    match runner.after(alloc, clock) {
        Ok(()) => go_on(request),
        Err(fault) => Err(Stop::Fault(fault)),
    }
}

// Replies to a line, and then lets the followers process what it added.
fn reply_and_drain<T: Sink, R: ProcessRecorder, C: Clock>(
    alloc: Global,
    runner: &mut SingleRunner<R>,
    out: &mut T,
    clock: &mut C,
    request: &Request,
    reply: &Reply,
) -> Result<(), Stop>
    requires ready { IsReady runner.old }
    ensures replied { Traced (C.readings clock.old) (C.readings clock.new) (λ before after. (base : Contents) (options : Options) (s : State) (prompted : List Name) → HoldsPrompted R.history R.settled R.snapshots R.capacity base options runner.old before s prompted
        → RepliesAndDrains (terms (rules_of (system_of runner.old)) options) s (λ next. HoldsPrompted R.history R.settled R.snapshots R.capacity base options runner.new after next []) prompted reply.now (HoldContents R.history R.stable R.snapshots base (apps_of runner.new))
        (T.written out.old) (T.written out.new) result) }
    ensures tells { TellsBy (is_stop (asks request.now)) result }
    ensures ready { OnOk result (IsReady runner.new) }
    ensures same { GoesOn R.faults runner.old runner.new }
    ensures out_later { T.faults out.old ≤ T.faults out.new }
    ensures sink { IsErrOf result Stop.Sink → Rose (T.faults out.old) (T.faults out.new) }
    ensures recorder { IsErrOf result (Stop.Fault RunFault.Recorder) → SomeRose R.faults (apps_of runner.old) (apps_of runner.new) }
    ensures stops { IfErr result MayStop }
{
    match say(alloc, out, reply) {
        Ok(()) => drain_after(alloc, runner, clock, request),
        Err(stop) => Err(stop),
    }
}

// Answers what a line asks.
fn answer_request<T: Sink, R: ProcessRecorder, C: Clock>(
    alloc: Global,
    runner: &mut SingleRunner<R>,
    out: &mut T,
    clock: &mut C,
    request: &Request,
) -> Result<(), Stop>
    requires ready { IsReady runner.old }
    requires asked { IsAsked (system_of runner.old) request.now }
    ensures answered { Traced (C.readings clock.old) (C.readings clock.new) (λ before after. (base : Contents) (options : Options) (s : State) (line : List ℕ) → request_in (system_of runner.old) line ≡ asks request.now → HoldsPrompted R.history R.settled R.snapshots R.capacity base options runner.old before s []
        → AnswersLine (terms (rules_of (system_of runner.old)) options) s (λ next. HoldsPrompted R.history R.settled R.snapshots R.capacity base options runner.new after next []) (text_line line) (HoldContents R.history R.stable R.snapshots base (apps_of runner.new))
        (T.written out.old) (T.written out.new) result) }
    ensures tells { TellsBy (is_stop (asks request.now)) result }
    ensures ready { OnOk result (IsReady runner.new) }
    ensures same { GoesOn R.faults runner.old runner.new }
    ensures out_later { T.faults out.old ≤ T.faults out.new }
    ensures sink { IsErrOf result Stop.Sink → Rose (T.faults out.old) (T.faults out.new) }
    ensures recorder { IsErrOf result (Stop.Fault RunFault.Recorder) → SomeRose R.faults (apps_of runner.old) (apps_of runner.new) }
    ensures stops { IfErr result MayStop }
{
    match runner.line(alloc, request, clock) {
        Ok(reply) => reply_and_drain(alloc, runner, out, clock, request, &reply),
        Err(fault) => Err(Stop::Fault(fault)),
    }
}

// Replies to a line that asks nothing.
fn refuse<T: Sink>(alloc: Global, out: &mut T, fault: LineFault) -> Result<(), Stop>
    ensures said { SaysIt (reply_to fault) (T.written out.old) (T.written out.new) result }
    ensures starved { fault ≡ LineFault.NoMemory → result ≡ Err (Stop.Fault RunFault.NoMemory) }
    ensures later { T.faults out.old ≤ T.faults out.new }
    ensures sink { IsErrOf result Stop.Sink → Rose (T.faults out.old) (T.faults out.new) }
    ensures stops { IfErr result IsSaying }
{
    match fault {
        LineFault::Syntax => say(alloc, out, &Reply::Syntax),
        LineFault::Unknown => say(alloc, out, &Reply::Unknown),
        LineFault::Kind => say(alloc, out, &Reply::Kind),
        LineFault::NoMemory => Err(Stop::Fault(RunFault::NoMemory)),
    }
}

// Answers a line that isn't too long.
fn answer_line<T: Sink, R: ProcessRecorder, C: Clock>(
    alloc: Global,
    runner: &mut SingleRunner<R>,
    out: &mut T,
    clock: &mut C,
    line: &[u8],
) -> Result<(), Stop>
    requires ready { IsReady runner.old }
    ensures answered { Traced (C.readings clock.old) (C.readings clock.new) (λ before after. (base : Contents) (options : Options) (s : State) → HoldsPrompted R.history R.settled R.snapshots R.capacity base options runner.old before s []
        → AnswersLine (terms (rules_of (system_of runner.old)) options) s (λ next. HoldsPrompted R.history R.settled R.snapshots R.capacity base options runner.new after next []) (text_line line.now) (HoldContents R.history R.stable R.snapshots base (apps_of runner.new))
        (T.written out.old) (T.written out.new) result) }
    ensures tells { TellsStop (rules_of (system_of runner.old)) (text_line line.now) result }
    ensures ready { OnOk result (IsReady runner.new) }
    ensures same { GoesOn R.faults runner.old runner.new }
    ensures out_later { T.faults out.old ≤ T.faults out.new }
    ensures sink { IsErrOf result Stop.Sink → Rose (T.faults out.old) (T.faults out.new) }
    ensures recorder { IsErrOf result (Stop.Fault RunFault.Recorder) → SomeRose R.faults (apps_of runner.old) (apps_of runner.new) }
    ensures stops { IfErr result MayStop }
{
    match read_line(alloc, runner.system(), line) {
        Ok(request) => answer_request(alloc, runner, out, clock, &request),
        Err(fault) => refuse(alloc, out, fault),
    }
}

// Answers the next line.
fn turn<S: Source, T: Sink, R: ProcessRecorder, C: Clock>(
    alloc: Global,
    runner: &mut SingleRunner<R>,
    lines: &mut Lines<'_, S>,
    out: &mut T,
    clock: &mut C,
) -> Result<(), Stop>
    requires clear { fault_of lines.old ≡ None }
    requires ends { EndsRightly S.left lines.old }
    requires ready { IsReady runner.old }
    ensures turned { LinesTraced S.left lines.old lines.new (C.readings clock.old) (C.readings clock.new) (λ a b before after. ((base : Contents) (options : Options) (s : State) → HoldsPrompted R.history R.settled R.snapshots R.capacity base options runner.old before s []
        → TakesTurn (terms (rules_of (system_of runner.old)) options) s (λ next. HoldsPrompted R.history R.settled R.snapshots R.capacity base options runner.new after next []) (lines_from lines.old a) (lines_from lines.new b) (HoldContents R.history R.stable R.snapshots base (apps_of runner.new))
        (T.written out.old) (T.written out.new) result)
        × OnOk result (UsesSome a b (has_ended lines.new))
        × (IsErrOf result Stop.Read → LeavesUnended a b)) }
    ensures not_ended { IsErrOf result Stop.Read → has_ended lines.old ≡ false }
    ensures left { IsErrOf result Stop.Read → (b : List ℕ) → MayHold (S.left (source_of lines.new).now) b → MayHaveLeft S.left lines.new b }
    ensures lines { LinesStay S.left S.faults lines.old lines.new }
    ensures room { OnOk result (room_of lines.new < room_of lines.old) }
    ensures clear { OnOk result (fault_of lines.new ≡ None) }
    ensures ready { OnOk result (IsReady runner.new) }
    ensures out_later { T.faults out.old ≤ T.faults out.new }
    ensures same { GoesOn R.faults runner.old runner.new }
    ensures read { IsErrOf result Stop.Read → Rose (S.faults (source_of lines.old).now) (S.faults (source_of lines.new).now) }
    ensures sink { IsErrOf result Stop.Sink → Rose (T.faults out.old) (T.faults out.new) }
    ensures recorder { IsErrOf result (Stop.Fault RunFault.Recorder) → SomeRose R.faults (apps_of runner.old) (apps_of runner.new) }
{
    match lines.next() {
        Ok(Step::Line(line)) => answer_line(alloc, runner, out, clock, line.as_slice()),
        Ok(Step::Long) => say(alloc, out, &Reply::Long),
        Ok(Step::End) => Err(Stop::End),
        Ok(Step::Over) => Err(Stop::Over),
        Err(LinesFault::Read) => Err(Stop::Read),
        Err(LinesFault::NoMemory) => Err(Stop::Fault(RunFault::NoMemory)),
    }
}

// Answers the lines one by one, and says why it stopped and how many were answered.
fn answer_all<S: Source, T: Sink, R: ProcessRecorder, C: Clock>(
    alloc: Global,
    runner: &mut SingleRunner<R>,
    lines: &mut Lines<'_, S>,
    out: &mut T,
    clock: &mut C,
) -> (Stop, u64)
    requires clear { fault_of lines.old ≡ None }
    requires ends { EndsRightly S.left lines.old }
    requires room { room_of lines.old < 2 ^ 63 }
    requires ready { IsReady runner.old }
    ensures answered { LinesTraced S.left lines.old lines.new (C.readings clock.old) (C.readings clock.new) (λ a b before after. ((base : Contents) (options : Options) (s n : State) (u : Option (List ℕ)) → Begun (terms (rules_of (system_of runner.old)) options) s n u (T.written out.old) → HoldsPrompted R.history R.settled R.snapshots R.capacity base options runner.old before n []
        → Serves (terms (rules_of (system_of runner.old)) options) s (λ next. HoldsPrompted R.history R.settled R.snapshots R.capacity base options runner.new after next []) (lines_from lines.old a) result.0 result.1 (HoldContents R.history R.stable R.snapshots base (apps_of runner.new)) u (T.written out.new))
        × (result.0 ≡ Stop.Read → Taken a result.1 b)) }
    ensures count { result.1 < 2 ^ 63 }
    ensures left { result.0 ≡ Stop.Read → (b : List ℕ) → MayHold (S.left (source_of lines.new).now) b → MayHaveLeft S.left lines.new b }
    ensures lines { LinesStay S.left S.faults lines.old lines.new }
    ensures out_later { T.faults out.old ≤ T.faults out.new }
    ensures same { GoesOn R.faults runner.old runner.new }
    ensures read { result.0 ≡ Stop.Read → Rose (S.faults (source_of lines.old).now) (S.faults (source_of lines.new).now) }
    ensures sink { result.0 ≡ Stop.Sink → Rose (T.faults out.old) (T.faults out.new) }
    ensures recorder { result.0 ≡ Stop.Fault RunFault.Recorder → SomeRose R.faults (apps_of runner.old) (apps_of runner.new) }
{
    let mut count: u64 = 0;
    loop {
        match turn(alloc, runner, lines, out, clock) {
            Ok(()) => count += 1,
            Err(stop) => return (stop, count),
        }
    }
}

/// Drains all leaders, answers the lines one by one, and says why it stopped and how many were
/// answered.
pub fn serve<S: Source, T: Sink, R: ProcessRecorder, C: Clock>(
    alloc: Global,
    runner: &mut SingleRunner<R>,
    lines: &mut Lines<'_, S>,
    out: &mut T,
    clock: &mut C,
) -> (Stop, u64)
    requires clear { fault_of lines.old ≡ None }
    requires ends { EndsRightly S.left lines.old }
    requires room { room_of lines.old < 2 ^ 63 }
    requires apps { AreApps (system_of runner.old) (names_of runner.old) }
    requires new { IsNew (system_of runner.old) (apps_of runner.old) runner.old }
    ensures served { LinesTraced S.left lines.old lines.new (C.readings clock.old) (C.readings clock.new) (λ a b before after. ((base : Contents) (options : Options) (s : State) → Holds R.history R.settled R.snapshots R.capacity base options (apps_of runner.old) before s
        → Serves (terms (rules_of (system_of runner.old)) options) s (λ next. HoldsPrompted R.history R.settled R.snapshots R.capacity base options runner.new after next []) (lines_from lines.old a) result.0 result.1 (HoldContents R.history R.stable R.snapshots base (apps_of runner.new))
        (T.written out.old) (T.written out.new))
        × (result.0 ≡ Stop.Read → Taken a result.1 b)) }
    ensures count { result.1 < 2 ^ 63 }
    ensures left { result.0 ≡ Stop.Read → (b : List ℕ) → MayHold (S.left (source_of lines.new).now) b → MayHaveLeft S.left lines.new b }
    ensures lines { LinesStay S.left S.faults lines.old lines.new }
    ensures out_later { T.faults out.old ≤ T.faults out.new }
    ensures same { GoesOn R.faults runner.old runner.new }
    ensures read { result.0 ≡ Stop.Read → Rose (S.faults (source_of lines.old).now) (S.faults (source_of lines.new).now) }
    ensures sink { result.0 ≡ Stop.Sink → Rose (T.faults out.old) (T.faults out.new) }
    ensures recorder { result.0 ≡ Stop.Fault RunFault.Recorder → SomeRose R.faults (apps_of runner.old) (apps_of runner.new) }
{
    match runner.first(alloc, clock) {
        Ok(()) => answer_all(alloc, runner, lines, out, clock),
        Err(fault) => (Stop::Fault(fault), 0),
    }
}
