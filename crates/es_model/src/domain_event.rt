ghost use Rattle.std.specs.Prelude.{◌≡◌, IfOk};

use crate::{Duplicate, Fields, Moment, NoMemory, Text};
use uuid::Uuid;

/// An event as applications see it: with its moment and its fields in place of a state.
#[derive(Debug, Drop)]
pub struct DomainEvent {
    pub originator_id: Uuid,
    pub originator_version: u64,
    pub timestamp: Moment,
    pub topic: Text,
    pub fields: Fields,
}

impl Duplicate for DomainEvent {
    fn copy(&self) -> Result<DomainEvent, NoMemory> {
        Ok(DomainEvent {
            originator_id: self.originator_id,
            originator_version: self.originator_version,
            timestamp: self.timestamp,
            topic: self.topic.copy()?,
            fields: self.fields.copy()?,
        })
    }
}
