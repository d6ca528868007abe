use es_model::{DomainEvents, Duplicate, Fields, NoMemory, Text};
use uuid::Uuid;

/// A command of a class for one aggregate. Whoever asks may say at which version.
#[derive(Debug, Drop)]
pub struct Command {
    pub class: Text,
    pub name: Text,
    pub id: Uuid,
    pub args: Fields,
    pub expect: Option<u64>,
}

/// What is decided: new events, or a refusal by its code and the number of the policy's rule, counted
/// from 1. For a command it is 0.
#[derive(Debug, Drop)]
pub enum Decision {
    Events(DomainEvents),
    Refused { code: Text, rule: u64 },
}

impl Duplicate for Command {
    fn copy(&self) -> Result<Command, NoMemory> {
        Ok(Command {
            class: self.class.copy()?,
            name: self.name.copy()?,
            id: self.id,
            args: self.args.copy()?,
            expect: self.expect,
        })
    }
}
