ghost use Rattle.std.specs.Prelude.{ℕ, ◌≡◌, Option, IfOk, IfSome};
ghost use Rattle.es_model.specs.declared.declaration.System.{System};
ghost use Rattle.es_expr.specs.Checked.{IsCheckedSystem};
ghost use Rattle.es_domain.specs.Readings.{Told, FindsTold, IsFound, FindHasCause, IsSameReader};

use crate::Aggregate;
use es_model::NoMemory;
use thiserror::Error;
use uuid::Uuid;

/// Why a reader gave no answer.
#[derive(Clone, Copy, Debug, PartialEq, Eq, Error)]
pub enum FindFault {
    /// The first event without a meaning, by its notification id.
    #[error("an event has no meaning")]
    Unreadable { id: u64 },
    #[error("the reader failed")]
    Failed,
    #[error("out of memory")]
    NoMemory,
}

impl From<NoMemory> for FindFault {
    ghost use Rattle.std.specs.Prelude.{◌≡◌};
    ghost use Rattle.es_domain.specs.declared.find.FindFault.TheVariants as faults;

    ghost from_gives = { λ _ e. e ≡ faults.NoMemory };

    fn from(_: NoMemory) -> FindFault {
        FindFault::NoMemory
    }
}

/// A reader of an application's aggregates.
pub trait Aggregates {
    /// The system under which it folds events.
    ghost system: { Self → System };

    /// The notifications of each id that it was asked for, where it tells them.
    ghost told: { Self → Option Told };

    /// What no call changes besides, and its type.
    ghost Kept: { Type 0 };

    ghost kept: { Self → Kept };

    /// How often it has failed.
    ghost faults: { Self → ℕ };

    /// The aggregate of an id, none where it has no event.
    fn find(&mut self, id: Uuid) -> Result<Option<Aggregate>, FindFault>
        requires { IsCheckedSystem (system self.old) }
        ensures answer { FindsTold (system self.old) (told self.old) id (told self.new) result }
        ensures found { IfOk result (λ found. IfSome found (IsFound (system self.old) id)) }
        ensures same { IsSameReader system kept self.old self.new }
        ensures cause { FindHasCause (faults self.old) (faults self.new) result };
}
