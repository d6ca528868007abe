//! What a command does to an aggregate.
ghost use Rattle.std.specs.Prelude.{ℕ, ◌≡◌, ◌<◌, ◌≤◌, ◌^◌, ◌+◌, None, Some, IfOk, IfSome, OnOk, length};
ghost use Rattle.es_model.specs.Declaration.{class_named, is_creating};
ghost use Rattle.es_expr.specs.Checked.{IsCheckedSystem};
ghost use Rattle.es_expr.specs.Meaning.{den};
ghost use Rattle.es_expr.specs.Sound.{IsTest};
ghost use Rattle.es_domain.specs.Decision.{IsOfCommand};
ghost use Rattle.es_domain.specs.Effect.{effect, effect_in, effect_of, command_named, misplaced, seen, refusal_of, guarded, opened, fired, all_fired, triggered};
ghost use Rattle.es_domain.specs.inner.Firing.{refused, AreTests, IsReady, IsCommandOf, IsKnown, IsEffect, IsNewEffect, CanOpen, CanFire, CanAllFire, CanRun, Makes, MakesOf};

use crate::environment::{command_env, creating_env};
use crate::fold::{id_value, moment_value, rises, version_value};
use crate::values::values_of;
use crate::{Aggregate, Command, TriggerFault};
use es_expr::{EvalFault, test};
use es_model::names::topic_of;
use es_model::{
    Class, CommandDef, Duplicate, Fields, Guard, Moment, NoMemory, System, Text, Trigger,
};
use std::alloc::Global;

/// What a command does: the aggregate with its new events pending, or a refusal by its code.
#[derive(Debug, Drop)]
pub(crate) enum Effect {
    Changed(Aggregate),
    Refused(Text),
}

// The refusal where there is an aggregate and there should be none, or the other way round.
fn misplaced(
    alloc: Global,
    creates: bool,
    class: &Class,
    found: &Option<Aggregate>,
) -> Result<Option<Text>, NoMemory>
    ensures { IfOk result (λ code. code ≡ misplaced creates class.now found.now) }
{
    match found {
        Some(aggregate) => {
            if creates {
                Ok(Some(Text::from_str(alloc, "exists")?))
            } else if aggregate.class.as_str() == class.name.as_str() {
                Ok(None)
            } else {
                Ok(Some(Text::from_str(alloc, "class")?))
            }
        }
        None => {
            if creates {
                Ok(None)
            } else {
                Ok(Some(Text::from_str(alloc, "missing")?))
            }
        }
    }
}

// What a command's guards and triggers see where there is no aggregate.
fn seen_first(alloc: Global, command: &Command, at: Moment) -> Result<Fields, NoMemory>
    ensures { IfOk result (λ env. env ≡ seen command.now at None) }
{
    creating_env(alloc, &command.args, id_value(command.id), moment_value(at))
}

// What they see of an aggregate.
fn seen_of(
    alloc: Global,
    command: &Command,
    at: Moment,
    aggregate: &Aggregate,
) -> Result<Fields, NoMemory>
    requires { aggregate.now.version < 2 ^ 63 }
    ensures { IfOk result (λ env. env ≡ seen command.now at (Some aggregate.now)) }
{
    let id = id_value(command.id);
    let version = version_value(aggregate.version);
    command_env(
        alloc,
        &command.args,
        id,
        moment_value(at),
        &aggregate.fields,
        version,
    )
}

fn seen(
    alloc: Global,
    command: &Command,
    at: Moment,
    found: &Option<Aggregate>,
) -> Result<Fields, NoMemory>
    requires { IfSome found.now (λ a. a.version < 2 ^ 63) }
    ensures { IfOk result (λ env. env ≡ seen command.now at found.now) }
{
    match found {
        Some(aggregate) => seen_of(alloc, command, at, aggregate),
        None => seen_first(alloc, command, at),
    }
}

// The refusal of a guard.
fn refusal_of(alloc: Global, guard: &Guard, env: &Fields) -> Result<Option<Text>, NoMemory>
    requires { IsTest guard.now.that env.now }
    ensures { IfOk result (λ code. code ≡ refusal_of guard.now.code (den guard.now.that env.now)) }
{
    match test(alloc, &guard.that, env) {
        Ok(holds) => {
            if holds {
                Ok(None)
            } else {
                Ok(Some(guard.code.copy()?))
            }
        }
        Err(EvalFault::Overflow) => Ok(Some(Text::from_str(alloc, "overflow")?)),
        Err(EvalFault::NoMemory) => Err(NoMemory),
    }
}

// The refusal of the first guard that has one.
fn guarded(alloc: Global, guards: &[Guard], env: &Fields) -> Result<Option<Text>, NoMemory>
    requires { AreTests guards.now env.now }
    ensures { IfOk result (λ code. code ≡ guarded guards.now env.now) }
{
    match guards {
        [] => Ok(None),
        [guard, rest @ ..] => match refusal_of(alloc, guard, env)? {
            Some(code) => Ok(Some(code)),
            None => guarded(alloc, rest, env),
        },
    }
}

// The aggregate that a Created event of a trigger begins.
fn open(
    alloc: Global,
    sys: &System,
    class: &Class,
    command: &Command,
    at: Moment,
    trigger: &Trigger,
) -> Result<Aggregate, TriggerFault>
    requires checked { IsCheckedSystem sys.now }
    requires class { class_named sys.now.classes command.now.class ≡ Some class.now }
    requires fields { CanOpen class.now command.now at trigger.now }
    ensures made { Makes (opened sys.now command.now at trigger.now) result }
    ensures ready { IfOk result (IsReady sys.now class.now 64) }
{
    rises(&class.created.fields);
    rises(&trigger.fields);
    let env = seen_first(alloc, command, at)?;
    let fields = values_of(alloc, &trigger.fields, &env)?;
    Aggregate::create(alloc, sys, &command.class, command.id, &fields, at)
}

// The next event of an aggregate, as a trigger gives it.
fn fire(
    sys: &System,
    class: &Class,
    command: &Command,
    at: Moment,
    trigger: &Trigger,
    aggregate: &mut Aggregate,
) -> Result<(), TriggerFault>
    requires checked { IsCheckedSystem sys.now }
    requires class { class_named sys.now.classes class.now.name ≡ Some class.now }
    requires ready { IsReady sys.now class.now 1 aggregate.old }
    requires fields { CanFire class.now command.now at trigger.now }
    ensures made { MakesOf (fired sys.now class.now command.now at trigger.now aggregate.old) aggregate.new result }
    ensures ready { (more : ℕ) → IsReady sys.now class.now (more + 1) aggregate.old → OnOk result (IsReady sys.now class.now more aggregate.new) }
{
    let alloc = aggregate.fields.allocator();
    let topic = topic_of(alloc, class.name.as_str(), trigger.event.as_str())?;
    let Some(event_class) = class.event(topic.as_str()) else {
        unreachable!()
    };
    rises(&event_class.fields);
    rises(&trigger.fields);
    let env = seen_of(alloc, command, at, aggregate)?;
    let fields = values_of(alloc, &trigger.fields, &env)?;
    aggregate.trigger(sys, &topic, &fields, at)
}

// Triggers one after the other.
fn fire_all(
    sys: &System,
    class: &Class,
    command: &Command,
    at: Moment,
    triggers: &[Trigger],
    aggregate: &mut Aggregate,
) -> Result<(), TriggerFault>
    requires checked { IsCheckedSystem sys.now }
    requires class { class_named sys.now.classes class.now.name ≡ Some class.now }
    requires ready { IsReady sys.now class.now (length triggers.now) aggregate.old }
    requires fields { CanAllFire class.now command.now at triggers.now }
    ensures made { MakesOf (all_fired sys.now class.now command.now at triggers.now (Some aggregate.old)) aggregate.new result }
    ensures ready { OnOk result (IsReady sys.now class.now 0 aggregate.new) }
{
    match triggers {
        [] => Ok(()),
        [trigger, rest @ ..] => {
            fire(sys, class, command, at, trigger, aggregate)?;
            fire_all(sys, class, command, at, rest, aggregate)
        }
    }
}

// The triggers of a command that creates: the first one begins the aggregate.
fn run_first(
    alloc: Global,
    sys: &System,
    class: &Class,
    command: &Command,
    at: Moment,
    triggers: &[Trigger],
) -> Result<Aggregate, TriggerFault>
    requires checked { IsCheckedSystem sys.now }
    requires class { class_named sys.now.classes command.now.class ≡ Some class.now }
    requires few { length triggers.now ≤ 8 }
    requires fields { CanRun class.now command.now at triggers.now None }
    ensures made { Makes (triggered sys.now class.now command.now at triggers.now None) result }
    ensures ready { IfOk result (IsReady sys.now class.now 0) }
{
    match triggers {
        [] => unreachable!(),
        [first, rest @ ..] => {
            let mut aggregate = open(alloc, sys, class, command, at, first)?;
            fire_all(sys, class, command, at, rest, &mut aggregate)?;
            Ok(aggregate)
        }
    }
}

// The triggers of a command: where there is no aggregate the first one begins it.
fn run(
    alloc: Global,
    sys: &System,
    class: &Class,
    command: &Command,
    at: Moment,
    triggers: &[Trigger],
    found: Option<Aggregate>,
) -> Result<Aggregate, TriggerFault>
    requires checked { IsCheckedSystem sys.now }
    requires class { class_named sys.now.classes command.now.class ≡ Some class.now }
    requires few { length triggers.now ≤ 8 }
    requires ready { IfSome found (IsReady sys.now class.now 8) }
    requires fields { CanRun class.now command.now at triggers.now found }
    ensures made { Makes (triggered sys.now class.now command.now at triggers.now found) result }
    ensures ready { IfOk result (IsReady sys.now class.now 0) }
{
    match found {
        Some(mut aggregate) => {
            fire_all(sys, class, command, at, triggers, &mut aggregate)?;
            Ok(aggregate)
        }
        None => run_first(alloc, sys, class, command, at, triggers),
    }
}

// The refusal of a declared command's guards.
fn stopped(
    alloc: Global,
    definition: &CommandDef,
    command: &Command,
    at: Moment,
    found: &Option<Aggregate>,
) -> Result<Option<Text>, NoMemory>
    requires version { IfSome found.now (λ a. a.version < 2 ^ 63) }
    requires tests { AreTests definition.now.guards (seen command.now at found.now) }
    ensures { IfOk result (λ code. code ≡ guarded definition.now.guards (seen command.now at found.now)) }
{
    let env = seen(alloc, command, at, found)?;
    guarded(alloc, definition.guards.as_slice(), &env)
}

// The refusal of a declared command before any trigger.
fn refused(
    alloc: Global,
    class: &Class,
    definition: &CommandDef,
    command: &Command,
    at: Moment,
    found: &Option<Aggregate>,
) -> Result<Option<Text>, NoMemory>
    requires version { IfSome found.now (λ a. a.version < 2 ^ 63) }
    requires tests { misplaced (is_creating class.now definition.now.triggers) class.now found.now ≡ None → AreTests definition.now.guards (seen command.now at found.now) }
    ensures { IfOk result (λ code. code ≡ refused class.now definition.now command.now at found.now) }
{
    let creates = class.is_creating(alloc, definition.triggers.as_slice())?;
    match misplaced(alloc, creates, class, found)? {
        Some(code) => Ok(Some(code)),
        None => stopped(alloc, definition, command, at, found),
    }
}

// What a declared command's triggers do.
fn triggered(
    alloc: Global,
    sys: &System,
    class: &Class,
    definition: &CommandDef,
    command: &Command,
    at: Moment,
    found: Option<Aggregate>,
) -> Result<Effect, NoMemory>
    requires checked { IsCheckedSystem sys.now }
    requires class { class_named sys.now.classes command.now.class ≡ Some class.now }
    requires few { length definition.now.triggers ≤ 8 }
    requires ready { IfSome found (IsReady sys.now class.now 8) }
    requires fields { CanRun class.now command.now at definition.now.triggers found }
    ensures effect { IfOk result (λ e. e ≡ effect_of (triggered sys.now class.now command.now at definition.now.triggers found)) }
    ensures ready { IfOk result (IsEffect sys.now class.now) }
{
    let triggers = definition.triggers.as_slice();
    match run(alloc, sys, class, command, at, triggers, found) {
        Ok(aggregate) => Ok(Effect::Changed(aggregate)),
        Err(TriggerFault::Overflow) => Ok(Effect::Refused(Text::from_str(alloc, "overflow")?)),
        Err(TriggerFault::NoMemory) => Err(NoMemory),
    }
}

// What a declared command does.
fn effect_in(
    alloc: Global,
    sys: &System,
    class: &Class,
    definition: &CommandDef,
    command: &Command,
    at: Moment,
    found: Option<Aggregate>,
) -> Result<Effect, NoMemory>
    requires checked { IsCheckedSystem sys.now }
    requires command { IsCommandOf sys.now class.now definition.now command.now }
    requires found { IfSome found (IsKnown sys.now) }
    ensures effect { IfOk result (λ e. e ≡ effect_in sys.now class.now definition.now command.now at found) }
    ensures ready { IfOk result (IsEffect sys.now class.now) }
{
    match refused(alloc, class, definition, command, at, &found)? {
        Some(code) => Ok(Effect::Refused(code)),
        None => triggered(alloc, sys, class, definition, command, at, found),
    }
}

/// What a command does to an aggregate, or to none.
pub(crate) fn effect_on(
    alloc: Global,
    sys: &System,
    command: &Command,
    at: Moment,
    found: Option<Aggregate>,
) -> Result<Effect, NoMemory>
    requires checked { IsCheckedSystem sys.now }
    requires command { IsOfCommand (command_named sys.now command.now.class command.now.name) command.now.args }
    requires found { IfSome found (IsKnown sys.now) }
    ensures effect { IfOk result (λ e. e ≡ effect sys.now command.now at found) }
    ensures ready { IfOk result (IsNewEffect sys.now) }
{
    let Some(class) = sys.class(command.class.as_str()) else {
        unreachable!()
    };
    let Some(definition) = class.command(command.name.as_str()) else {
        unreachable!()
    };
    effect_in(alloc, sys, class, definition, command, at, found)
}
