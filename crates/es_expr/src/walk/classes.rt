//! The faults of classes, with their events and commands.
ghost use Rattle.std.specs.Prelude.{◌≡◌, ◌∷◌, IfOk};
ghost use Rattle.std.specs.List.{list_any};
ghost use Rattle.std.specs.Option.{option_copied};
ghost use Rattle.std.specs.Str.{bytes_eq};
ghost use Rattle.es_expr.specs.inner.Walks.{Finds};
ghost use Rattle.es_expr.specs.Misfits as spec;
ghost use Rattle.es_expr.specs.Misfits.{each, item, is_new, first_env, class_misfits, named_class_misfits, class_member_misfits, class_part_misfits, created_misfits, event_misfits, command_misfits, command_part_misfits, guard_misfits, trigger_misfits, triggered_misfits};

use crate::environments::{assign_env, command_env, created_env, creating_env};
use crate::misfit::Halt;
use crate::walk::expressions::{all_members, expression, some_members};
use crate::walk::paths::{before, halt, halt_unless, item_path, joined};
use crate::walk::seen::see;
use es_model::names::topic_of;
use es_model::{
    AtomKind, Class, Code, CommandDef, EventClass, Guard, Kind, Kinds, NoMemory, System, Trigger,
};
use std::alloc::Global;
use std::collections::BTreeSet;

// What a later trigger sees.
fn later_env(alloc: Global, class: &Class, command: &CommandDef) -> Result<Kinds, NoMemory>
    ensures { IfOk result (λ e. e ≡ spec.trigger_env class.now command.now 1) }
{
    command_env(
        alloc,
        command.params.as_slice(),
        Kind::One(AtomKind::Uuid),
        Kind::One(AtomKind::Moment),
        class.fields.as_slice(),
        Kind::One(AtomKind::Int),
    )
}

// What the guards and the first trigger see.
fn first_env(alloc: Global, class: &Class, command: &CommandDef) -> Result<Kinds, NoMemory>
    ensures { IfOk result (λ e. e ≡ first_env class.now command.now) }
{
    if class.is_creating(alloc, command.triggers.as_slice())? {
        creating_env(
            alloc,
            command.params.as_slice(),
            Kind::One(AtomKind::Uuid),
            Kind::One(AtomKind::Moment),
        )
    } else {
        later_env(alloc, class, command)
    }
}

// What the trigger at a place sees.
fn trigger_env(
    alloc: Global,
    class: &Class,
    command: &CommandDef,
    place: usize,
) -> Result<Kinds, NoMemory>
    ensures { IfOk result (λ e. e ≡ spec.trigger_env class.now command.now place) }
{
    if place == 0 {
        first_env(alloc, class, command)
    } else {
        later_env(alloc, class, command)
    }
}

fn guard(alloc: Global, env: &Kinds, path: &str, place: usize, guard: &Guard) -> Result<(), Halt>
    ensures { Finds (guard_misfits env.now path.now place guard.now) result }
{
    let path = item_path(alloc, path, place)?;
    let path = joined(alloc, path.as_str(), "/that")?;
    expression(
        alloc,
        Kind::One(AtomKind::Bool),
        env,
        path.as_str(),
        &guard.that,
    )
}

fn guards(alloc: Global, env: &Kinds, path: &str, guards: &[Guard]) -> Result<(), Halt>
    ensures { Finds (each (guard_misfits env.now path.now) 0 guards.now) result }
{
    for (place, each) in guards.iter().enumerate() {
        guard(alloc, env, path, place, each)?;
    }
    Ok(())
}

// A trigger, by the event that its name declares.
fn triggered(
    alloc: Global,
    env: &Kinds,
    in_order: bool,
    path: &str,
    trigger: &Trigger,
    event: Option<&EventClass>,
) -> Result<(), Halt>
    ensures { Finds (triggered_misfits env.now in_order path.now trigger.now (option_copied event.entry)) result }
{
    match event {
        Some(event) => {
            halt_unless(alloc, in_order, Code::Order, path, "/event")?;
            let path = joined(alloc, path, "/fields")?;
            all_members(alloc, &event.fields, env, path.as_str(), &trigger.fields)
        }
        None => halt(alloc, Code::Unknown, path, "/event"),
    }
}

fn trigger(
    alloc: Global,
    class: &Class,
    command: &CommandDef,
    path: &str,
    place: usize,
    trigger: &Trigger,
) -> Result<(), Halt>
    ensures { Finds (trigger_misfits class.now command.now path.now place trigger.now) result }
{
    let path = item_path(alloc, path, place)?;
    let topic = topic_of(alloc, class.name.as_str(), trigger.event.as_str())?;
    let env = trigger_env(alloc, class, command, place)?;
    let in_order = place == 0 || !class.is_created(topic.as_str());
    let event = class.event(topic.as_str());
    triggered(alloc, &env, in_order, path.as_str(), trigger, event)
}

fn triggers(
    alloc: Global,
    class: &Class,
    command: &CommandDef,
    path: &str,
    triggers: &[Trigger],
) -> Result<(), Halt>
    ensures { Finds (each (trigger_misfits class.now command.now path.now) 0 triggers.now) result }
{
    for (place, each) in triggers.iter().enumerate() {
        trigger(alloc, class, command, path, place, each)?;
    }
    Ok(())
}

fn is_among_commands(commands: &[CommandDef], name: &str) -> bool
    ensures { result ≡ list_any (λ d. bytes_eq d.name name.now) commands.now }
{
    commands.iter().any(|command| command.name.as_str() == name)
}

// The guards and the triggers of a command.
fn command_parts(alloc: Global, class: &Class, path: &str, command: &CommandDef) -> Result<(), Halt>
    ensures { Finds (command_part_misfits class.now path.now command.now) result }
{
    let env = first_env(alloc, class, command)?;
    let require = joined(alloc, path, "/require")?;
    guards(alloc, &env, require.as_str(), command.guards.as_slice())?;
    let trigger = joined(alloc, path, "/trigger")?;
    triggers(
        alloc,
        class,
        command,
        trigger.as_str(),
        command.triggers.as_slice(),
    )
}

fn command(
    alloc: Global,
    class: &Class,
    path: &str,
    place: usize,
    command: &CommandDef,
) -> Result<(), Halt>
    ensures { Finds (command_misfits class.now path.now place command.now) result }
{
    let path = item_path(alloc, path, place)?;
    let is_new = !is_among_commands(
        before(class.commands.as_slice(), place),
        command.name.as_str(),
    );
    halt_unless(alloc, is_new, Code::Repeat, path.as_str(), "/name")?;
    command_parts(alloc, class, path.as_str(), command)
}

fn commands(alloc: Global, class: &Class, path: &str, commands: &[CommandDef]) -> Result<(), Halt>
    ensures { Finds (each (command_misfits class.now path.now) 0 commands.now) result }
{
    for (place, each) in commands.iter().enumerate() {
        command(alloc, class, path, place, each)?;
    }
    Ok(())
}

fn is_among_events(events: &[EventClass], topic: &str) -> bool
    ensures { result ≡ list_any (λ e. bytes_eq e.topic topic.now) events.now }
{
    events.iter().any(|event| event.topic.as_str() == topic)
}

// Whether neither the Created event nor some others have a topic.
fn is_new_event(created: &EventClass, events: &[EventClass], topic: &str) -> bool
    ensures { result ≡ is_new (λ f. f.topic) (created.now ∷ events.now) topic.now }
{
    created.topic.as_str() != topic && !is_among_events(events, topic)
}

fn event(
    alloc: Global,
    class: &Class,
    path: &str,
    place: usize,
    event: &EventClass,
) -> Result<(), Halt>
    ensures { Finds (event_misfits class.now path.now place event.now) result }
{
    let path = item_path(alloc, path, place)?;
    let is_new = is_new_event(
        &class.created,
        before(class.events.as_slice(), place),
        event.topic.as_str(),
    );
    halt_unless(alloc, is_new, Code::Repeat, path.as_str(), "/name")?;
    let env = assign_env(
        alloc,
        event.fields.as_slice(),
        Kind::One(AtomKind::Uuid),
        Kind::One(AtomKind::Moment),
        class.fields.as_slice(),
        Kind::One(AtomKind::Int),
    )?;
    let set = joined(alloc, path.as_str(), "/set")?;
    some_members(
        alloc,
        &class.fields,
        &env,
        set.as_str(),
        event.assigns.as_slice(),
    )
}

fn events(alloc: Global, class: &Class, path: &str, events: &[EventClass]) -> Result<(), Halt>
    ensures { Finds (each (event_misfits class.now path.now) 0 events.now) result }
{
    for (place, each) in events.iter().enumerate() {
        event(alloc, class, path, place, each)?;
    }
    Ok(())
}

fn created(alloc: Global, class: &Class, path: &str) -> Result<(), Halt>
    ensures { Finds (created_misfits class.now path.now) result }
{
    let created = &class.created;
    let env = created_env(
        alloc,
        created.fields.as_slice(),
        Kind::One(AtomKind::Uuid),
        Kind::One(AtomKind::Moment),
    )?;
    let set = joined(alloc, path, "/set")?;
    all_members(alloc, &class.fields, &env, set.as_str(), &created.assigns)
}

// The later events and the commands of a class.
fn class_parts(alloc: Global, path: &str, class: &Class) -> Result<(), Halt>
    ensures { Finds (class_part_misfits path.now class.now) result }
{
    let events_path = joined(alloc, path, "/events")?;
    events(alloc, class, events_path.as_str(), class.events.as_slice())?;
    let commands_path = joined(alloc, path, "/commands")?;
    commands(
        alloc,
        class,
        commands_path.as_str(),
        class.commands.as_slice(),
    )
}

// The events and the commands of a class.
fn class_members(alloc: Global, path: &str, class: &Class) -> Result<(), Halt>
    ensures { Finds (class_member_misfits path.now class.now) result }
{
    let created_path = joined(alloc, path, "/created")?;
    created(alloc, class, created_path.as_str())?;
    class_parts(alloc, path, class)
}

// A class, whose name is new or isn't.
fn class(alloc: Global, is_new: bool, path: &str, place: usize, class: &Class) -> Result<(), Halt>
    ensures { Finds (named_class_misfits is_new (item path.now place) class.now) result }
{
    let path = item_path(alloc, path, place)?;
    halt_unless(alloc, is_new, Code::Repeat, path.as_str(), "/name")?;
    class_members(alloc, path.as_str(), class)
}

pub(crate) fn classes(
    alloc: Global,
    sys: &System,
    path: &str,
    classes: &[Class],
) -> Result<(), Halt>
    requires { classes.now ≡ sys.now.classes }
    ensures { Finds (each (class_misfits sys.now path.now) 0 classes.now) result }
{
    let mut seen = BTreeSet::new(alloc);
    for (place, each) in classes.iter().enumerate() {
        let is_new = see(&mut seen, each.name.as_str())?;
        class(alloc, is_new, path, place, each)?;
    }
    Ok(())
}
