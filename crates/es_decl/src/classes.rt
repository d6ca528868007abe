ghost use Rattle.std.specs.Prelude.{Some, codes};
ghost use Rattle.serde_json.specs.View.{view};
ghost use Rattle.es_model.specs.declared.limits.TheConstants.{MOST_EVENTS};
ghost use Rattle.es_decl.specs.Readings.{Reads};
ghost use Rattle.es_decl.specs.Parts as parts;
ghost use Rattle.es_decl.specs.Declaration as spec;

use crate::DeclFault;
use crate::edits::EditObject;
use crate::expressions::Expression;
use crate::kinds::KindWord;
use crate::objects::{Object, test_shape};
use crate::parts::{NamedParts, Number, Part, Several, given_up, member, optional, or_else};
use es_model::limits::{
    MOST_CLASS_VERSION, MOST_COMMANDS, MOST_EDITS, MOST_EVENTS, MOST_FIELDS, MOST_GUARDS,
    MOST_INTERVAL, MOST_TRIGGERS, MOST_UPCASTS,
};
use es_model::names::{NameForm, topic_of};
use es_model::{Class, CommandDef, Duplicate, EventClass, Guard, List, Text, Trigger};
use serde_json::Value;
use std::alloc::Global;

/// Kinds of the names of fields or parameters.
#[derive(Drop)]
pub(crate) struct KindsOf(pub NameForm);

impl Part for KindsOf {
    type Read = es_model::Kinds;

    ghost meaning = { λ s. spec.kinds s.0 };

    fn read(&self, alloc: Global, tree: &Value) -> Result<es_model::Kinds, DeclFault> {
        let parts = NamedParts {
            form: self.0,
            most: Some(MOST_FIELDS),
            part: KindWord,
        };
        parts.read(alloc, tree)
    }
}

/// Expressions that are assigned to names.
#[derive(Drop)]
pub(crate) struct AssignsOf(pub NameForm);

impl Part for AssignsOf {
    type Read = es_model::Assigns;

    ghost meaning = { λ s. spec.assigns s.0 };

    fn read(&self, alloc: Global, tree: &Value) -> Result<es_model::Assigns, DeclFault> {
        let parts = NamedParts {
            form: self.0,
            most: None,
            part: Expression,
        };
        parts.read(alloc, tree)
    }
}

/// The edits from each class version of an event to the next.
#[derive(Drop)]
pub(crate) struct UpcastsArray;

impl Part for UpcastsArray {
    type Read = es_model::Upcasts;

    ghost meaning = { λ _. spec.upcasts };

    fn read(&self, alloc: Global, tree: &Value) -> Result<es_model::Upcasts, DeclFault> {
        let edits = Several {
            least: 0,
            most: Some(MOST_EDITS),
            part: EditObject,
        };
        let upcasts = Several {
            least: 0,
            most: Some(MOST_UPCASTS),
            part: edits,
        };
        upcasts.read(alloc, tree)
    }
}

/// An event of a class.
#[derive(Drop)]
pub(crate) struct EventOf {
    pub class: Text,
}

impl Part for EventOf {
    type Read = EventClass;

    ghost meaning = { λ s. spec.event s.class };

    fn read(&self, alloc: Global, tree: &Value) -> Result<EventClass, DeclFault> {
        test_shape(alloc, Object::Event, tree)?;
        let name = member(alloc, tree, "name", &NameForm::Class)?;
        let fields = member(alloc, tree, "fields", &KindsOf(NameForm::Field))?;
        let upcasts = optional(alloc, tree, "upcasts", &UpcastsArray)?;
        let assigns = member(alloc, tree, "set", &AssignsOf(NameForm::Field))?;
        Ok(EventClass {
            topic: topic_of(alloc, self.class.as_str(), name.as_str())?,
            fields,
            upcasts: or_else(List::new(alloc), upcasts),
            assigns,
        })
    }
}

/// A guard of a command.
#[derive(Drop)]
pub(crate) struct GuardObject;

impl Part for GuardObject {
    type Read = Guard;

    ghost meaning = { λ _. spec.guard };

    fn read(&self, alloc: Global, tree: &Value) -> Result<Guard, DeclFault> {
        test_shape(alloc, Object::Guard, tree)?;
        let that = member(alloc, tree, "that", &Expression)?;
        match member(alloc, tree, "code", &NameForm::Code) {
            Ok(code) => Ok(Guard { that, code }),
            Err(fault) => given_up(that, fault),
        }
    }
}

/// A trigger of a command.
#[derive(Drop)]
pub(crate) struct TriggerObject;

impl Part for TriggerObject {
    type Read = Trigger;

    ghost meaning = { λ _. spec.trigger };

    fn read(&self, alloc: Global, tree: &Value) -> Result<Trigger, DeclFault> {
        test_shape(alloc, Object::Trigger, tree)?;
        let event = member(alloc, tree, "event", &NameForm::Class)?;
        let fields = member(alloc, tree, "fields", &AssignsOf(NameForm::Field))?;
        Ok(Trigger { event, fields })
    }
}

/// A command of a class.
#[derive(Drop)]
pub(crate) struct CommandObject;

impl Part for CommandObject {
    type Read = CommandDef;

    ghost meaning = { λ _. spec.command };

    fn read(&self, alloc: Global, tree: &Value) -> Result<CommandDef, DeclFault> {
        let require = Several {
            least: 0,
            most: Some(MOST_GUARDS),
            part: GuardObject,
        };
        let trigger = Several {
            least: 1,
            most: Some(MOST_TRIGGERS),
            part: TriggerObject,
        };
        test_shape(alloc, Object::Command, tree)?;
        let name = member(alloc, tree, "name", &NameForm::Class)?;
        let params = member(alloc, tree, "params", &KindsOf(NameForm::Plain))?;
        let guards = optional(alloc, tree, "require", &require)?;
        let triggers = member(alloc, tree, "trigger", &trigger)?;
        Ok(CommandDef {
            name,
            params,
            guards: or_else(List::new(alloc), guards),
            triggers,
        })
    }
}

/// A class version.
const VERSION: Number = Number {
    least: 1,
    most: MOST_CLASS_VERSION,
};

/// An interval of snapshots.
const INTERVAL: Number = Number {
    least: 1,
    most: MOST_INTERVAL,
};

/// The commands of a class.
const COMMANDS: Several<CommandObject> = Several {
    least: 0,
    most: Some(MOST_COMMANDS),
    part: CommandObject,
};

// The first event of a class.
fn created(alloc: Global, tree: &Value, class: &Text) -> Result<EventClass, DeclFault>
    ensures { Reads (parts.member (codes "created") (spec.event class.now) (view tree.now)) result }
{
    let event = EventOf {
        class: class.copy()?,
    };
    member(alloc, tree, "created", &event)
}

// The later events of a class.
fn events(alloc: Global, tree: &Value, class: &Text) -> Result<Option<List<EventClass>>, DeclFault>
    ensures { Reads (parts.optional (codes "events") (parts.several 0 (Some MOST_EVENTS) (spec.event class.now)) (view tree.now)) result }
{
    let event = EventOf {
        class: class.copy()?,
    };
    let events = Several {
        least: 0,
        most: Some(MOST_EVENTS),
        part: event,
    };
    optional(alloc, tree, "events", &events)
}

/// A class.
#[derive(Drop)]
pub(crate) struct ClassObject;

impl Part for ClassObject {
    type Read = Class;

    ghost meaning = { λ _. spec.class };

    fn read(&self, alloc: Global, tree: &Value) -> Result<Class, DeclFault> {
        test_shape(alloc, Object::Class, tree)?;
        let name = member(alloc, tree, "name", &NameForm::Class)?;
        let version = optional(alloc, tree, "version", &VERSION)?;
        let interval = optional(alloc, tree, "interval", &INTERVAL)?;
        let fields = member(alloc, tree, "fields", &KindsOf(NameForm::Field))?;
        let created = created(alloc, tree, &name)?;
        let events = match events(alloc, tree, &name) {
            Ok(events) => events,
            Err(fault) => return given_up((name, fields, created), fault),
        };
        match optional(alloc, tree, "commands", &COMMANDS) {
            Ok(commands) => Ok(Class {
                name,
                version: or_else(1, version),
                interval,
                fields,
                created,
                events: or_else(List::new(alloc), events),
                commands: or_else(List::new(alloc), commands),
            }),
            Err(fault) => given_up(((name, fields), (created, events)), fault),
        }
    }
}
