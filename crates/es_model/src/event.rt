ghost use Rattle.std.specs.Prelude.{◌≡◌, IfOk};

use crate::{Bytes, Duplicate, Moment, NoMemory, StoredEvents, Text};
use uuid::Uuid;

/// An event as it is stored: whose it is, which version of it, what kind, and its state.
#[derive(Debug, Drop)]
pub struct StoredEvent {
    pub originator_id: Uuid,
    pub originator_version: u64,
    pub topic: Text,
    pub state: Bytes,
}

/// A stored event with its id, its place in the application's log.
#[derive(Debug, Drop)]
pub struct Notification {
    pub id: u64,
    pub event: StoredEvent,
}

/// What a recording came from: a command, as its text, or a leader's notification.
#[derive(Debug, Drop)]
pub enum Cause {
    Command { text: Bytes },
    Notification { leader: Text, id: u64 },
}

/// New events together with their cause, and the moment of the decision.
#[derive(Debug, Drop)]
pub struct Recording {
    pub cause: Cause,
    pub at: Moment,
    pub events: StoredEvents,
}

impl Duplicate for StoredEvent {
    fn copy(&self) -> Result<StoredEvent, NoMemory> {
        Ok(StoredEvent {
            originator_id: self.originator_id,
            originator_version: self.originator_version,
            topic: self.topic.copy()?,
            state: self.state.copy()?,
        })
    }
}

impl Duplicate for Notification {
    fn copy(&self) -> Result<Notification, NoMemory> {
        Ok(Notification {
            id: self.id,
            event: self.event.copy()?,
        })
    }
}

impl Duplicate for Cause {
    fn copy(&self) -> Result<Cause, NoMemory> {
        match self {
            Cause::Command { text } => Ok(Cause::Command { text: text.copy()? }),
            Cause::Notification { leader, id } => Ok(Cause::Notification {
                leader: leader.copy()?,
                id: *id,
            }),
        }
    }
}

impl Duplicate for Recording {
    fn copy(&self) -> Result<Recording, NoMemory> {
        Ok(Recording {
            cause: self.cause.copy()?,
            at: self.at,
            events: self.events.copy()?,
        })
    }
}
