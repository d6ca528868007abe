//! How the rules of a policy run, one after the other.
ghost use Rattle.std.specs.Prelude.{ℕ, ◌≡◌, ◌<◌, ◌≤◌, ◌^◌, ◌+◌, ◌-◌, ◌*◌, ◌++◌, All, Some, Ok, IfOk, IfSome, OnOk, length};
ghost use Rattle.std.specs.Option.{option_copied};
ghost use Rattle.es_model.specs.declared.declaration.System.{System};
ghost use Rattle.es_expr.specs.Checked.{IsCheckedSystem};
ghost use Rattle.es_domain.specs.inner.Asking.{MayBeAsked, AllMayBeAsked, IsAsked};
ghost use Rattle.es_domain.specs.Decision.{Decided, DecidesTold, AreNewEvents, IsNewEvent, IsOfCommand, after_asked, after_effect, asked, joined, notice, rules_from};
ghost use Rattle.es_domain.specs.Effect.{command_named};
ghost use Rattle.es_domain.specs.inner.Overlay.{AnswersTold, LeavesTold, AreBelow, IsBelow, IsEffectBelow, IsNewStep, after_some, after_step, effect_asked, effect_by, found_of, latest, overlaid};
ghost use Rattle.es_domain.specs.Readings.{Readings, TellsOnTold, FindHasCause, IsSameReader};
ghost use Rattle.es_domain.specs.declared.effect.Effect.TheVariants.{Refused};

use crate::effect::{Effect, effect_on};
use crate::policy::{Asked, ask};
use crate::{Aggregate, Aggregates, Command, Decision, FindFault};
use es_model::{
    DomainEvent, DomainEvents, Duplicate, List, Moment, NoMemory, Otherwise, Rule, System, Text,
};
use std::alloc::Global;
use uuid::Uuid;

/// What a rule leaves: the decision goes on with its new events, or it stops with a refusal.
#[derive(Debug, Drop)]
pub(crate) enum Step {
    Goes(DomainEvents),
    Stops(Text),
}

// The last one of an id.
fn latest(changed: &[Aggregate], id: Uuid) -> Option<&Aggregate>
    ensures { option_copied result ≡ latest changed.now id }
{
    match changed {
        [] => None,
        [first, rest @ ..] => match latest(rest, id) {
            Some(aggregate) => Some(aggregate),
            None => { if first.id == id { Some(first) } else { None } }
        },
    }
}

// The aggregate of an id: as an earlier rule left it, or else as it is read.
fn find<A: Aggregates>(
    reader: &mut A,
    changed: &[Aggregate],
    id: Uuid,
) -> Result<Option<Aggregate>, FindFault>
    requires checked { IsCheckedSystem (A.system reader.old) }
    requires changed { AreBelow (A.system reader.old) (2 ^ 63 - 9) changed.now }
    ensures answer { AnswersTold (A.system reader.old) (A.told reader.new) (λ readings. found_of (overlaid changed.now readings id)) result }
    ensures below { (limit : ℕ) → 2 ^ 62 ≤ limit → AreBelow (A.system reader.old) limit changed.now → IfOk result (λ found. IfSome found (IsBelow (A.system reader.old) limit)) }
    ensures tells { TellsOnTold (A.told reader.old) (A.told reader.new) }
    ensures same { IsSameReader A.system A.kept reader.old reader.new }
    ensures cause { FindHasCause (A.faults reader.old) (A.faults reader.new) result }
{
    match latest(changed, id) {
        Some(aggregate) => match aggregate.copy() {
            Ok(aggregate) => Ok(Some(aggregate)),
            Err(NoMemory) => Err(FindFault::NoMemory),
        },
        None => reader.find(id),
    }
}

// The effect of a command that a rule asks for.
fn effect_by<A: Aggregates>(
    alloc: Global,
    sys: &System,
    reader: &mut A,
    changed: &[Aggregate],
    command: &Command,
    at: Moment,
) -> Result<Option<Effect>, FindFault>
    requires checked { IsCheckedSystem sys.now }
    requires system { A.system reader.old ≡ sys.now }
    requires command { IsOfCommand (command_named sys.now command.now.class command.now.name) command.now.args }
    requires changed { AreBelow sys.now (2 ^ 63 - 9) changed.now }
    ensures answer { AnswersTold sys.now (A.told reader.new) (λ readings. effect_by sys.now command.now at (overlaid changed.now readings command.now.id)) result }
    ensures below { (limit : ℕ) → 2 ^ 62 ≤ limit → AreBelow sys.now limit changed.now → IfOk result (IsEffectBelow sys.now (limit + 8)) }
    ensures tells { TellsOnTold (A.told reader.old) (A.told reader.new) }
    ensures same { IsSameReader A.system A.kept reader.old reader.new }
    ensures cause { FindHasCause (A.faults reader.old) (A.faults reader.new) result }
{
    let found = match find(reader, changed, command.id) {
        Ok(found) => found,
        Err(fault) => return Err(fault),
    };
    match effect_on(alloc, sys, command, at, found) {
        Ok(effect) => Ok(Some(effect)),
        Err(NoMemory) => Err(FindFault::NoMemory),
    }
}

// The effect of what a rule asks, if it asks anything.
fn effect_asked<A: Aggregates>(
    alloc: Global,
    sys: &System,
    reader: &mut A,
    changed: &[Aggregate],
    asked: &Asked,
    at: Moment,
) -> Result<Option<Effect>, FindFault>
    requires checked { IsCheckedSystem sys.now }
    requires system { A.system reader.old ≡ sys.now }
    requires asked { IsAsked sys.now asked.now }
    requires changed { AreBelow sys.now (2 ^ 63 - 9) changed.now }
    ensures answer { AnswersTold sys.now (A.told reader.new) (λ readings. effect_asked sys.now at asked.now (overlaid changed.now readings)) result }
    ensures below { (limit : ℕ) → 2 ^ 62 ≤ limit → AreBelow sys.now limit changed.now → IfOk result (IsEffectBelow sys.now (limit + 8)) }
    ensures tells { TellsOnTold (A.told reader.old) (A.told reader.new) }
    ensures same { IsSameReader A.system A.kept reader.old reader.new }
    ensures cause { FindHasCause (A.faults reader.old) (A.faults reader.new) result }
{
    match asked {
        Asked::Nothing => Ok(None),
        Asked::Overflows => match Text::from_str(alloc, "overflow") {
            Ok(code) => Ok(Some(Effect::Refused(code))),
            Err(NoMemory) => Err(FindFault::NoMemory),
        },
        Asked::Asks(command) => effect_by(alloc, sys, reader, changed, command, at),
    }
}

// What a refused rule leaves.
fn refused(alloc: Global, otherwise: Otherwise, code: Text) -> Step
    ensures step { (rule : ℕ) (readings : Readings) (rest : Readings → Decided) → after_effect otherwise rule readings (Refused code) rest ≡ after_step rule result (rest readings) }
    ensures new { (sys : System) → IsNewStep sys result }
{
    match otherwise {
        Otherwise::Skip => Step::Goes(DomainEvents::new(alloc)),
        Otherwise::Refuse => Step::Stops(code),
    }
}

// What an effect leaves; a changed aggregate is kept.
fn after_effect(
    alloc: Global,
    otherwise: Otherwise,
    effect: Effect,
    changed: &mut List<Aggregate>,
) -> Result<Step, NoMemory>
    ensures step { (rule : ℕ) (readings : Readings) (rest : Readings → Decided) → IfOk result (λ s. after_effect otherwise rule (overlaid changed.old readings) effect rest ≡ after_step rule s (rest (overlaid changed.new readings))) }
    ensures below { (sys : System) (limit : ℕ) → AreBelow sys limit changed.old → IsEffectBelow sys limit (Some effect) → AreBelow sys limit changed.new }
    ensures new { (sys : System) (limit : ℕ) → IsEffectBelow sys limit (Some effect) → IfOk result (IsNewStep sys) }
{
    match effect {
        Effect::Changed(mut aggregate) => {
            let events = aggregate.collect_events();
            changed.push(aggregate)?;
            Ok(Step::Goes(events))
        }
        Effect::Refused(code) => Ok(refused(alloc, otherwise, code)),
    }
}

// What a rule leaves, by its effect.
fn after_some(
    alloc: Global,
    otherwise: Otherwise,
    effect: Option<Effect>,
    changed: &mut List<Aggregate>,
) -> Result<Step, NoMemory>
    ensures step { (rule : ℕ) (readings : Readings) (rest : Readings → Decided) → IfOk result (λ s. after_some otherwise rule (overlaid changed.old readings) effect rest ≡ after_step rule s (rest (overlaid changed.new readings))) }
    ensures below { (sys : System) (limit : ℕ) → AreBelow sys limit changed.old → IsEffectBelow sys limit effect → AreBelow sys limit changed.new }
    ensures new { (sys : System) (limit : ℕ) → IsEffectBelow sys limit effect → IfOk result (IsNewStep sys) }
{
    match effect {
        Some(effect) => after_effect(alloc, otherwise, effect, changed),
        None => Ok(Step::Goes(DomainEvents::new(alloc))),
    }
}

// Runs one rule.
fn run_rule<A: Aggregates>(
    alloc: Global,
    sys: &System,
    reader: &mut A,
    changed: &mut List<Aggregate>,
    leader: &Text,
    id: u64,
    event: &DomainEvent,
    at: Moment,
    rule: &Rule,
) -> Result<Step, FindFault>
    requires checked { IsCheckedSystem sys.now }
    requires system { A.system reader.old ≡ sys.now }
    requires id { id < 2 ^ 63 }
    requires version { event.now.originator_version < 2 ^ 63 }
    requires rule { MayBeAsked sys.now (notice leader.now id event.now) rule.now }
    requires changed { AreBelow sys.now (2 ^ 63 - 9) changed.old }
    ensures step { (number : ℕ) (rest : Readings → Decided) → LeavesTold sys.now (A.told reader.new) (λ readings. after_asked sys.now at rule.now.otherwise number (overlaid changed.old readings) (asked rule.now (notice leader.now id event.now)) rest) (λ s readings. after_step number s (rest (overlaid changed.new readings))) result }
    ensures below { (limit : ℕ) → 2 ^ 62 ≤ limit → AreBelow sys.now limit changed.old → OnOk result (AreBelow sys.now (limit + 8) changed.new) }
    ensures new { IfOk result (IsNewStep sys.now) }
    ensures tells { TellsOnTold (A.told reader.old) (A.told reader.new) }
    ensures same { IsSameReader A.system A.kept reader.old reader.new }
    ensures cause { FindHasCause (A.faults reader.old) (A.faults reader.new) result }
{
    let asked = match ask(alloc, sys, rule, leader, id, event) {
        Ok(asked) => asked,
        Err(NoMemory) => return Err(FindFault::NoMemory),
    };
    let effect = match effect_asked(alloc, sys, reader, changed.as_slice(), &asked, at) {
        Ok(effect) => effect,
        Err(fault) => return Err(fault),
    };
    match after_some(alloc, rule.otherwise, effect, changed) {
        Ok(step) => Ok(step),
        Err(NoMemory) => Err(FindFault::NoMemory),
    }
}

// Adds events behind others.
fn append(events: &mut DomainEvents, more: DomainEvents) -> Result<(), NoMemory>
    ensures { OnOk result (events.new ≡ events.old ++ more) }
{
    for event in more.into_vec() {
        events.push(event)?;
    }
    Ok(())
}

// A decision with events before its own.
fn joined(mut events: DomainEvents, decision: Decision) -> Result<Decision, NoMemory>
    ensures joined { IfOk result (λ d. joined events (Ok decision) ≡ Ok d) }
    ensures new { (sys : System) → All (IsNewEvent sys) events → AreNewEvents sys decision → IfOk result (AreNewEvents sys) }
{
    match decision {
        Decision::Events(more) => {
            append(&mut events, more)?;
            Ok(Decision::Events(events))
        }
        Decision::Refused { code, rule } => Ok(Decision::Refused { code, rule }),
    }
}

/// Runs rules one after the other, the first of which has this number, over what earlier ones changed.
pub(crate) fn run_rules<A: Aggregates>(
    alloc: Global,
    sys: &System,
    reader: &mut A,
    mut changed: List<Aggregate>,
    leader: &Text,
    id: u64,
    event: &DomainEvent,
    at: Moment,
    rules: &[Rule],
    number: u64,
) -> Result<Decision, FindFault>
    requires checked { IsCheckedSystem sys.now }
    requires system { A.system reader.old ≡ sys.now }
    requires id { id < 2 ^ 63 }
    requires version { event.now.originator_version < 2 ^ 63 }
    requires rules { AllMayBeAsked sys.now (notice leader.now id event.now) rules.now }
    requires few { number + length rules.now ≤ 65 }
    requires changed { AreBelow sys.now (2 ^ 62 + 8 * number) changed }
    ensures decision { DecidesTold sys.now (A.told reader.new) (λ readings. rules_from sys.now (notice leader.now id event.now) at number rules.now (overlaid changed readings)) result }
    ensures events { IfOk result (AreNewEvents sys.now) }
    ensures tells { TellsOnTold (A.told reader.old) (A.told reader.new) }
    ensures same { IsSameReader A.system A.kept reader.old reader.new }
    ensures cause { FindHasCause (A.faults reader.old) (A.faults reader.new) result }
{
    let (rule, rest) = match rules {
        [] => return Ok(Decision::Events(DomainEvents::new(alloc))),
        [rule, rest @ ..] => (rule, rest),
    };
    let step = match run_rule(
        alloc,
        sys,
        reader,
        &mut changed,
        leader,
        id,
        event,
        at,
        rule,
    ) {
        Ok(step) => step,
        Err(fault) => return Err(fault),
    };
    let events = match step {
        Step::Goes(events) => events,
        Step::Stops(code) => return Ok(Decision::Refused { code, rule: number }),
    };
    let after = run_rules(
        alloc,
        sys,
        reader,
        changed,
        leader,
        id,
        event,
        at,
        rest,
        number + 1,
    );
    let decision = match after {
        Ok(decision) => decision,
        Err(fault) => return Err(fault),
    };
    match joined(events, decision) {
        Ok(decision) => Ok(decision),
        Err(NoMemory) => Err(FindFault::NoMemory),
    }
}
