//! What an application answers to questions: what an aggregate is, a section of its log, how far it has come with a leader.
ghost use Rattle.std.specs.Prelude.{◌≡◌, IfOk, IfErr, IfSome, IsErrOf};
ghost use Rattle.es_model.specs.Causes.{Rose};
ghost use Rattle.es_expr.specs.Checked.{IsCheckedSystem};
ghost use Rattle.es_process.specs.Applications.{name_of, recorder_of};
ghost use Rattle.es_process.specs.Questions.{get_reply, log_reply, tracking_reply, reply_section, section_size};
ghost use Rattle.es_process.specs.Standing.{IsSame, MayFailToRead};
ghost use Rattle.es_process.specs.SystemRules.{rules_of};

use crate::Application;
use crate::faults::RunFault;
use es_lines::Reply;
use es_model::limits::DEFAULT_SECTION;
use es_model::{Duplicate, System, Text};
use es_recorder::ProcessRecorder;
use es_repo::{RepoFault, Repository};
use es_section::{Section, SectionFault, section};
use std::alloc::Global;
use uuid::Uuid;

// How many notifications a section of an application's log has at most.
fn section_size(sys: &System, app: &Text) -> u64
    ensures { result ≡ section_size sys.now app.now }
{
    match sys.app(app.as_str()) {
        Some(app) => app.section_size.unwrap_or(DEFAULT_SECTION),
        None => DEFAULT_SECTION,
    }
}

fn reply_section(section: Section) -> Reply
    ensures { result ≡ reply_section (Some section) }
{
    let Section { id, items, next } = section;
    Reply::Log { id, items, next }
}

impl<R: ProcessRecorder> Application<R> {
    // Tells an aggregate at a version, or at its latest.
    pub(crate) fn get(
        &mut self,
        alloc: Global,
        sys: &System,
        id: Uuid,
        version: Option<u64>,
    ) -> Result<Reply, RunFault>
        requires { IsCheckedSystem sys.now }
        ensures told { IfSome (R.history (recorder_of self.old)) (λ h. IfOk result (λ reply. reply ≡ get_reply (rules_of sys.now) (name_of self.old) id version h)) }
        ensures faults { IfErr result MayFailToRead }
        ensures same { IsSame R.history R.settled R.capacity R.snapshots R.faults self.old self.new }
        ensures failed { IsErrOf result RunFault.Recorder → Rose (R.faults (recorder_of self.old)) (R.faults (recorder_of self.new)) }
    {
        let mut repository = Repository::new(alloc, 0)?;
        match repository.get(sys, &mut self.recorder, id, version) {
            Ok(aggregate) => Ok(Reply::Got {
                id: aggregate.id,
                version: aggregate.version,
                class: aggregate.class,
                created_on: aggregate.created_on,
                modified_on: aggregate.modified_on,
                fields: aggregate.fields,
            }),
            Err(RepoFault::NotFound) => Ok(Reply::NotFound),
            Err(RepoFault::Unreadable { id }) => {
                let app = self.name.copy()?;
                Ok(Reply::Unreadable { app, id })
            }
            Err(RepoFault::Failed) => Err(RunFault::Recorder),
            Err(RepoFault::NoMemory) => Err(RunFault::NoMemory),
        }
    }

    // Tells the section of its log that a text asks for.
    pub(crate) fn log(&mut self, sys: &System, text: &Text) -> Result<Reply, RunFault>
        ensures told { IfSome (R.history (recorder_of self.old)) (λ h. IfOk result (λ reply. reply ≡ log_reply (rules_of sys.now) (name_of self.old) text.now h)) }
        ensures faults { IfErr result MayFailToRead }
        ensures same { IsSame R.history R.settled R.capacity R.snapshots R.faults self.old self.new }
        ensures failed { IsErrOf result RunFault.Recorder → Rose (R.faults (recorder_of self.old)) (R.faults (recorder_of self.new)) }
    {
        let size = section_size(sys, &self.name);
        match section(&mut self.recorder, text, size) {
            Ok(section) => Ok(reply_section(section)),
            Err(SectionFault::BadRequest) => Ok(Reply::Section),
            Err(SectionFault::Failed) => Err(RunFault::Recorder),
            Err(SectionFault::NoMemory) => Err(RunFault::NoMemory),
        }
    }

    // Tells how far it has come with a leader.
    pub(crate) fn position(&mut self, leader: &Text) -> Result<Reply, RunFault>
        ensures told { IfSome (R.history (recorder_of self.old)) (λ h. IfOk result (λ reply. reply ≡ tracking_reply leader.now h)) }
        ensures faults { IfErr result MayFailToRead }
        ensures same { IsSame R.history R.settled R.capacity R.snapshots R.faults self.old self.new }
        ensures failed { IsErrOf result RunFault.Recorder → Rose (R.faults (recorder_of self.old)) (R.faults (recorder_of self.new)) }
    {
        let position = self.tracked(leader)?;
        Ok(Reply::Tracking { position })
    }
}
