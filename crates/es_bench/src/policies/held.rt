//! A reader of one aggregate that is at hand.
ghost use Rattle.std.specs.Prelude.{◌≡◌, true};
ghost use Rattle.es_domain.specs.Readings.{IsFound};

use es_domain::{Aggregate, Aggregates, FindFault};
use es_model::{Duplicate, NoMemory, System, are_of_kinds};
use uuid::Uuid;

#[derive(Drop)]
pub(crate) struct Held<'a> {
    pub(crate) system: &'a System,
    pub(crate) account: &'a Aggregate,
}

// Whether an aggregate is one that a reader may answer.
fn is_sound(system: &System, aggregate: &Aggregate) -> bool
    ensures { result ≡ true → IsFound system.now aggregate.now.id aggregate.now }
{
    match system.class(aggregate.class.as_str()) {
        Some(class) => {
            are_of_kinds(&aggregate.fields, &class.fields)
                && aggregate.version < 1 << 62
                && aggregate.pending.len() == 0
        }
        None => false,
    }
}

impl<'a> Aggregates for Held<'a> {
    ghost use Rattle.std.specs.Prelude.{None};

    ghost system = { λ r. r.system.now };

    ghost told = { λ _. None };

    ghost Kept = { Unit {0} };

    ghost kept = { λ _. tt };

    ghost faults = { λ _. 0 };

    fn find(&mut self, id: Uuid) -> Result<Option<Aggregate>, FindFault> {
        if self.account.id != id || !is_sound(self.system, self.account) {
            return Ok(None);
        }
        match self.account.copy() {
            Ok(account) => Ok(Some(account)),
            Err(NoMemory) => Err(FindFault::NoMemory),
        }
    }
}
