ghost use Rattle.std.specs.Prelude.{◌≡◌, IfOk, option_map, find};
ghost use Rattle.std.specs.Option.{option_copied};
ghost use Rattle.std.specs.Str.{bytes_eq};
ghost use Rattle.es_model.specs.Declaration.{app_named, class_named, event_in, command_in, is_created, is_creating, event_named};

use crate::names::topic_of;
use crate::{App, Class, CommandDef, EventClass, NoMemory, System, Trigger};
use std::alloc::Global;

// The event with a topic.
fn event_with<'a>(events: &'a [EventClass], topic: &str) -> Option<&'a EventClass>
    ensures { option_copied result ≡ find (λ e. bytes_eq e.topic topic.now) events.now }
{
    events.iter().find(|event| event.topic.as_str() == topic)
}

impl Class {
    /// The event of this class with a topic.
    pub fn event(&self, topic: &str) -> Option<&EventClass>
        ensures { option_copied result ≡ event_in self.now topic.now }
    {
        if self.is_created(topic) {
            Some(&self.created)
        } else {
            event_with(self.events.as_slice(), topic)
        }
    }

    /// Whether a topic is that of the event which creates aggregates of this class.
    pub fn is_created(&self, topic: &str) -> bool
        ensures { result ≡ is_created self.now topic.now }
    {
        self.created.topic.as_str() == topic
    }

    /// Whether a command of this class with these triggers creates: its first trigger is the event which
    /// creates aggregates.
    pub fn is_creating(&self, alloc: Global, triggers: &[Trigger]) -> Result<bool, NoMemory>
        ensures { IfOk result (λ creates. creates ≡ is_creating self.now triggers.now) }
    {
        match triggers {
            [] => Ok(false),
            [first, ..] => {
                let topic = topic_of(alloc, self.name.as_str(), first.event.as_str())?;
                Ok(self.is_created(topic.as_str()))
            }
        }
    }

    /// The command of this class with a name.
    pub fn command(&self, name: &str) -> Option<&CommandDef>
        ensures { option_copied result ≡ command_in self.now name.now }
    {
        self.commands
            .as_slice()
            .iter()
            .find(|command| command.name.as_str() == name)
    }
}

// The event with a topic among the events of some classes, and its class.
fn event_among<'a>(classes: &'a [Class], topic: &str) -> Option<(&'a Class, &'a EventClass)>
    ensures { option_map (λ p. (p.0.now, p.1.now)) result ≡ event_named classes.now topic.now }
{
    for class in classes {
        if let Some(event) = class.event(topic) {
            return Some((class, event));
        }
    }
    None
}

impl System {
    /// The application of a name.
    pub fn app(&self, name: &str) -> Option<&App>
        ensures { option_copied result ≡ app_named self.now.apps name.now }
    {
        self.apps
            .as_slice()
            .iter()
            .find(|app| app.name.as_str() == name)
    }

    /// The class of a name.
    pub fn class(&self, name: &str) -> Option<&Class>
        ensures { option_copied result ≡ class_named self.now.classes name.now }
    {
        self.classes
            .as_slice()
            .iter()
            .find(|class| class.name.as_str() == name)
    }

    /// The event with a topic, and the class that declares it.
    pub fn event(&self, topic: &str) -> Option<(&Class, &EventClass)>
        ensures { option_map (λ p. (p.0.now, p.1.now)) result ≡ event_named self.now.classes topic.now }
    {
        event_among(self.classes.as_slice(), topic)
    }
}
