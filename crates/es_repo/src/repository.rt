ghost use Rattle.std.specs.Prelude.{◌≡◌, IfOk, IfSome};
ghost use Rattle.es_model.specs.History.{log};
ghost use Rattle.es_expr.specs.Checked.{IsCheckedSystem};
ghost use Rattle.es_domain.specs.Readings.{IsFound};
ghost use Rattle.es_repo.specs.Readings.{notifications_upto};
ghost use Rattle.es_repo.specs.Repository.{Gets, GetHasCause};
ghost use Rattle.es_repo.specs.Same.{IsSameRecorder};
ghost use Rattle.es_repo.specs.inner.Repository.{answer_of};

use crate::reader::read;
use es_domain::{Aggregate, FindFault};
use es_model::{NoMemory, System};
use es_recorder::ApplicationRecorder;
use std::alloc::Global;
use std::marker::Model;
use thiserror::Error;
use uuid::Uuid;

/// Why there is no aggregate.
#[derive(Clone, Copy, Debug, PartialEq, Eq, Error)]
pub enum RepoFault {
    /// No event of the id is at or below the version.
    #[error("there is no such aggregate")]
    NotFound,
    /// The first event without a meaning, by its notification id.
    #[error("an event has no meaning")]
    Unreadable { id: u64 },
    #[error("the recorder failed")]
    Failed,
    #[error("out of memory")]
    NoMemory,
}

/// What reads the aggregates that a recorder keeps, seen as how many of them it may cache.
///
/// **It caches none and uses no snapshots yet**: each aggregate is folded from its first event on, and what is
/// saved is let go.
#[derive(Drop)]
pub struct Repository {
    alloc: Global,
    cache: u64,
}

impl Model for Repository {
    ghost use Rattle.std.specs.Prelude.{ℕ};

    ghost Value = { ℕ };

    ghost view = { λ r. r.cache };
}

// What is answered by what was read.
fn answer_of(found: Result<Option<Aggregate>, FindFault>) -> Result<Aggregate, RepoFault>
    ensures { result ≡ answer_of found }
{
    match found {
        Ok(Some(aggregate)) => Ok(aggregate),
        Ok(None) => Err(RepoFault::NotFound),
        Err(FindFault::Unreadable { id }) => Err(RepoFault::Unreadable { id }),
        Err(FindFault::Failed) => Err(RepoFault::Failed),
        Err(FindFault::NoMemory) => Err(RepoFault::NoMemory),
    }
}

impl Repository {
    /// A repository that may cache so many aggregates; with 0 it has no cache.
    pub fn new(alloc: Global, cache: u64) -> Result<Repository, NoMemory>
        ensures { IfOk result (λ r. r ≡ cache) }
    {
        Ok(Repository { alloc, cache })
    }

    /// The aggregate of an id at a version; at its latest one where none is given.
    pub fn get<R: ApplicationRecorder>(
        &mut self,
        sys: &System,
        recorder: &mut R,
        id: Uuid,
        version: Option<u64>,
    ) -> Result<Aggregate, RepoFault>
        requires { IsCheckedSystem sys.now }
        ensures fold { IfSome (R.history recorder.old) (λ h. Gets sys.now (notifications_upto (log h) id version) result) }
        ensures found { IfOk result (IsFound sys.now id) }
        ensures same { IsSameRecorder R.history R.settled R.snapshots R.capacity recorder.old recorder.new }
        ensures cache { self.new ≡ self.old }
        ensures cause { GetHasCause (R.faults recorder.old) (R.faults recorder.new) result }
    {
        let found = read(self.alloc, sys, recorder, id, version);
        answer_of(found)
    }

    /// Takes an aggregate whose events were saved. It is let go, since nothing is cached yet.
    pub fn put_saved(&mut self, aggregate: Aggregate) -> Result<(), NoMemory>
        ensures { self.new ≡ self.old }
    {
        drop(aggregate);
        Ok(())
    }
}
