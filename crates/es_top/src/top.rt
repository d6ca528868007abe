ghost use Rattle.std.specs.Prelude.{◌≡◌, ◌⊎◌, ◌≤◌, List, ℕ, Some, None, Ok, Err, IfOk, IfSome, OnErr};
ghost use Rattle.std.specs.Io.KnownBytes.{Appends};
ghost use Rattle.es_model.specs.Causes.{Rose};
ghost use Rattle.es_model.specs.declared.declaration.Code.{Code};
ghost use Rattle.es_model.specs.declared.declaration.System.{System as SystemOf};
ghost use Rattle.es_model.specs.Lines.{Line};
ghost use Rattle.es_model.specs.Values.{Name};
ghost use Rattle.es_expr.specs.Checked.{IsCheckedSystem};
ghost use Rattle.es_io.specs.Documents.{NamedDocuments};
ghost use Rattle.es_io.specs.Front.{AppendsFront};
ghost use Rattle.es_io.specs.Readings.{Readings};
ghost use Rattle.es_decl.specs.Readings.{Reading};
ghost use Rattle.es_lines.specs.declared.ends.End.{End as EndOf};
ghost use Rattle.es_lines.specs.Texts.{end_text as text_of_end};
ghost use Rattle.es_process.specs.Contents.{Contents};
ghost use Rattle.es_process.specs.Reached.{ahead};
ghost use Rattle.es_process.specs.SingleThread.{as_line, HasOneRunOver};
ghost use Rattle.es_process.specs.SystemRules.{rules_of};
ghost use Rattle.es_top.specs.Limits.{limits, TakesLines};
ghost use Rattle.es_top.specs.Traced.{OfInput};
ghost use Rattle.es_top.specs.Declares.{IsEndUnasked, declares, IsNotAsked};
ghost use Rattle.es_top.specs.Sorts.{sort_of, unbegun};
ghost use Rattle.es_top.specs.Ends.{end_of_load, ended, sorted, status_of_load, IsStopped, Writes};
ghost use Rattle.es_top.specs.Loads.{TakesDocument};
ghost use Rattle.es_top.specs.inner.Begins.{AheadEnd};
ghost use Rattle.es_top.specs.inner.Ran.{IsOfSystem, Stands};
ghost use Rattle.es_top.specs.Top.{AheadExactly, LeavesConsistent, Ran, Restarts, StoresTell, WhereDeclared};
ghost use Rattle.es_top.specs.Words.{system_in};

use crate::Status;
use crate::ending::finish;
use crate::loading::{LoadFault, load};
use crate::opening::{close_all, open_all};
use crate::running::run;
use crate::words::system_word;
use es_io::{Clock, Document, Sink, Source};
use es_lines::End;
use es_model::{CallFault, Failed, System};
use es_recorder::Stores;
use std::alloc::Global;

// Runs a system over the stores: opens the applications, runs over them, and closes them.
fn run_system<S: Source, T: Sink, M: Stores, C: Clock>(
    alloc: Global,
    sys: System,
    lines: &mut S,
    out: &mut T,
    stores: &mut M,
    clock: &mut C,
) -> Result<End, Failed>
    requires { IsCheckedSystem sys }
    ensures stands { OfInput (S.left lines.old) (S.left lines.new) (C.readings clock.old) (λ i rest r. (opening : Contents) → StoresTell opening (M.held stores.old) (M.snapshots stores.old)
        → Stands sys i rest r opening (λ c. StoresTell c (M.held stores.new) (M.snapshots stores.new)) (T.written out.old) (T.written out.new) result) }
    ensures ahead { (opening : Contents) → StoresTell opening (M.held stores.old) (M.snapshots stores.old) → IfOk result (AheadEnd (ahead (rules_of sys).pairs opening.histories)) }
    ensures of_system { IfOk result IsOfSystem }
    ensures restarts { Restarts (rules_of sys).pairs (M.held stores.old) (M.stable stores.old) (M.snapshots stores.old) (M.held stores.new) (M.stable stores.new) }
    ensures closed { (name : Name) → M.out stores.new name ≡ M.out stores.old name }
    ensures out_later { T.faults out.old ≤ T.faults out.new }
    ensures bound { TakesLines (S.left lines.old) (S.left lines.new) }
    ensures input { result ≡ Ok End.Input → Rose (S.faults lines.old) (S.faults lines.new) }
    ensures sink { OnErr result (Rose (T.faults out.old) (T.faults out.new)) }
    ensures recorder { result ≡ Ok End.Recorder → Rose (M.faults stores.old) (M.faults stores.new) }
{
    match open_all(alloc, stores, &sys) {
        Ok(apps) => {
            let (sys, apps, result) = run(alloc, sys, lines, out, apps, clock);
            close_all(stores, sys.apps.as_slice(), apps);
            result
        }
        Err(CallFault::Failed) => Ok(End::Recorder),
        Err(CallFault::NoMemory) => Ok(End::Memory),
    }
}

// Runs a system over the stores, and writes the end line.
fn run_to_end<S: Source, T: Sink, M: Stores, C: Clock>(
    alloc: Global,
    sys: System,
    lines: &mut S,
    out: &mut T,
    stores: &mut M,
    clock: &mut C,
) -> Status
    requires { IsCheckedSystem sys }
    ensures ran { (opening : Contents) → StoresTell opening (M.held stores.old) (M.snapshots stores.old) → OfInput (S.left lines.old) (S.left lines.new) (C.readings clock.old)
        (λ i rest r. Ran (Rose (S.faults lines.old) (S.faults lines.new)) (Rose (M.faults stores.old) (M.faults stores.new)) ⊥ sys i rest r opening (M.held stores.new) (M.snapshots stores.new) (T.written out.old) (T.written out.new) result) }
    ensures ahead { (opening : Contents) → StoresTell opening (M.held stores.old) (M.snapshots stores.old) → AheadExactly (ahead (rules_of sys).pairs opening.histories) result }
    ensures begun { sorted result ≡ Some unbegun → ⊥ }
    ensures restarts { Restarts (rules_of sys).pairs (M.held stores.old) (M.stable stores.old) (M.snapshots stores.old) (M.held stores.new) (M.stable stores.new) }
    ensures bound { TakesLines (S.left lines.old) (S.left lines.new) }
    ensures input { result ≡ Status.Input → Rose (S.faults lines.old) (S.faults lines.new) }
    ensures sink { result ≡ Status.Sink → Rose (T.faults out.old) (T.faults out.new) }
    ensures recorder { result ≡ Status.Recorder → Rose (M.faults stores.old) (M.faults stores.new) }
    ensures closed { (name : Name) → M.out stores.new name ≡ M.out stores.old name }
{
    match run_system(alloc, sys, lines, out, stores, clock) {
        Ok(end) => finish(alloc, out, end),
        Err(Failed) => Status::Sink,
    }
}

// The end of a run whose system couldn't be loaded.
fn load_end(fault: LoadFault) -> End
    ensures { result ≡ end_of_load fault }
{
    match fault {
        LoadFault::Declaration { code, path } => End::Declaration { code, path },
        LoadFault::Failed => End::System,
        LoadFault::NoMemory => End::Memory,
    }
}

// Ends a run whose words ask for no system.
fn end_usage<T: Sink>(alloc: Global, out: &mut T) -> Status
    ensures told { Writes End.Usage (T.written out.old) (T.written out.new) (ended result) }
    ensures ends { (result ≡ Status.Usage) ⊎ (result ≡ Status.Sink) }
    ensures sink { result ≡ Status.Sink → Rose (T.faults out.old) (T.faults out.new) }
{
    finish(alloc, out, End::Usage)
}

// Ends a run whose system couldn't be loaded.
fn end_unloaded<T: Sink>(alloc: Global, out: &mut T, fault: LoadFault) -> Status
    ensures told { Writes (end_of_load fault) (T.written out.old) (T.written out.new) (ended result) }
    ensures ends { (result ≡ status_of_load fault) ⊎ ((result ≡ Status.Sink) ⊎ (result ≡ Status.Memory)) }
    ensures sink { result ≡ Status.Sink → Rose (T.faults out.old) (T.faults out.new) }
{
    finish(alloc, out, load_end(fault))
}

/// Runs a system on one thread over the lines of a source and what the stores hold: where a follower is
/// ahead of its leader the run ends at once; else all leaders are drained first, each line is
/// answered on the sink before the next is read, after an accepted one its followers process what it
/// added, and the end line tells how the run ended. The words are those after the program's name: `run`
/// and the name of a system, which is `sample` or that of a document.
pub fn evsys_single<D: Document, S: Source, T: Sink, M: Stores, C: Clock>(
    alloc: Global,
    words: &[String],
    system: &mut D,
    lines: &mut S,
    out: &mut T,
    stores: &mut M,
    clock: &mut C,
) -> Status
    // There are an input, what is left of it and readings, those that are told where they are told, of which all this holds.
    // What the run records, which snapshots it puts, what it writes, and how it ends, is that of the plain run on one thread: of its first steps, all where it came to an end of its
    // own, with the end line after them, or after a failed sink a front of what would have come next. What is held is consistent over the openings, the
    // bytes are a session over it, and where it ended well each follower has reached its leaders, and all lines were answered and are counted.
    ensures ran { WhereDeclared (D.documents system.old) words.now (M.held stores.old) (M.snapshots stores.old) (λ sys opening. OfInput (S.left lines.old) (S.left lines.new) (C.readings clock.old)
        (λ i rest r. Ran (Rose (S.faults lines.old) (S.faults lines.new)) (Rose (M.faults stores.old) (M.faults stores.new)) (Rose (D.faults system.old) (D.faults system.new)) sys i rest r opening (M.held stores.new) (M.snapshots stores.new) (T.written out.old) (T.written out.new) result)) }

    // At every status the histories are consistent over the opening ones: each added recording is what its cause decides over
    // those before it, each notification is recorded once and in order, and no two recordings cause each other.
    ensures consistent { WhereDeclared (D.documents system.old) words.now (M.held stores.old) (M.snapshots stores.old) (λ sys opening. LeavesConsistent sys opening.histories (M.held stores.new)) }

    // Of any system, over any opening contents, clock readings and lines there is exactly one plain run.
    ensures one_run { (sys : SystemOf) (opening : Contents) (readings : Readings) (lines : List Line) → HasOneRunOver (rules_of sys) limits opening readings lines }

    // Status 2: exactly the wrong words, but for a failing sink.
    ensures usage { result ≡ Status.Usage → system_in words.now ≡ None }
    ensures words { system_in words.now ≡ None → (result ≡ Status.Usage) ⊎ (result ≡ Status.Sink) }
    ensures usage_front { result ≡ Status.Sink → system_in words.now ≡ None → AppendsFront (T.written out.old) (T.written out.new) (as_line (text_of_end End.Usage)) }

    // Status 3: exactly where the document is refused, with the code and the place of its first fault.
    ensures declaration { (documents : NamedDocuments) (code : Code) (path : List ℕ) → D.documents system.old ≡ Some documents → result ≡ Status.Declaration code path → declares (Some documents) words.now ≡ Some (Err (code, path)) }
    ensures declaration_of { (d : Reading SystemOf) (code : Code) (path : List ℕ) → declares (D.documents system.old) words.now ≡ Some d → result ≡ Status.Declaration code path → d ≡ Err (code, path) }
    ensures refused { (code : Code) (path : List ℕ) → declares (D.documents system.old) words.now ≡ Some (Err (code, path))
        → (result ≡ Status.Declaration code path) ⊎ IsStopped result }

    // Where the words ask for no system that is told, nothing is run.
    ensures not_run { (documents : NamedDocuments) → D.documents system.old ≡ Some documents → declares (Some documents) words.now ≡ None → (result ≡ Status.Usage) ⊎ IsStopped result }

    // Where the words ask for no system nothing else is touched at any status, and the bytes are the end line or a front of the one that would have come.
    ensures not_run_stores { IsNotAsked (D.documents system.old) words.now → stores.new ≡ stores.old }
    ensures not_run_lines { IsNotAsked (D.documents system.old) words.now → lines.new ≡ lines.old }
    ensures not_run_line { IsNotAsked (D.documents system.old) words.now → result ≡ Status.Memory → Appends (T.written out.old) (T.written out.new) (as_line (text_of_end End.Memory)) }
    ensures not_run_front { IsNotAsked (D.documents system.old) words.now → result ≡ Status.Sink → (e : EndOf) × IsEndUnasked (D.documents system.old) words.now (Rose (D.faults system.old) (D.faults system.new)) e × AppendsFront (T.written out.old) (T.written out.new) (as_line (text_of_end e)) }

    // At the statuses 2, 3 and 4 nothing else is touched, and the end line is written.
    ensures early_stores { sorted result ≡ Some unbegun → stores.new ≡ stores.old }
    ensures early_lines { sorted result ≡ Some unbegun → lines.new ≡ lines.old }
    ensures early_line { (end : EndOf) → ended result ≡ Some end → sort_of end ≡ unbegun → Appends (T.written out.old) (T.written out.new) (as_line (text_of_end end)) }

    // Statuses 4, 5, 6 and 7: only where that object has failed in this call.
    ensures system { result ≡ Status.System → Rose (D.faults system.old) (D.faults system.new) }
    ensures input { result ≡ Status.Input → Rose (S.faults lines.old) (S.faults lines.new) }
    ensures sink { result ≡ Status.Sink → Rose (T.faults out.old) (T.faults out.new) }
    ensures recorder { result ≡ Status.Recorder → Rose (M.faults stores.old) (M.faults stores.new) }

    // At every status no more than one byte past its limit is taken from the lines and from the document.
    ensures lines_bound { TakesLines (S.left lines.old) (S.left lines.new) }
    ensures document_bound { IfSome (system_in words.now) (λ name. TakesDocument (D.documents system.old) name (D.left system.old) (D.left system.new)) }

    // Status 10: exactly where a follower is ahead of its leader at the opening, unless something failed.
    ensures ahead { WhereDeclared (D.documents system.old) words.now (M.held stores.old) (M.snapshots stores.old) (λ sys opening. AheadExactly (ahead (rules_of sys).pairs opening.histories) result) }

    // At every status: where at the beginning no follower tracked more than what was stable of its leader, none does so now. So whatever a
    // stop leaves of the stores, the next run finds no follower ahead of its leader.
    ensures restarts { (sys : SystemOf) → declares (D.documents system.old) words.now ≡ Some (Ok sys) → Restarts (rules_of sys).pairs (M.held stores.old) (M.stable stores.old) (M.snapshots stores.old) (M.held stores.new) (M.stable stores.new) }

    // At every status each recorder that was opened is closed.
    ensures closed { (name : Name) → M.out stores.new name ≡ M.out stores.old name }
{
    let Some(name) = system_word(words) else {
        return end_usage(alloc, out);
    };
    match load(alloc, system, name) {
        Ok(sys) => run_to_end(alloc, sys, lines, out, stores, clock),
        Err(fault) => end_unloaded(alloc, out, fault),
    }
}
