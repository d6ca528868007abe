ghost use Rattle.std.specs.Prelude.{◌≡◌, ◌≤◌, ◌<◌, ◌^◌, ◌↔◌, All, IfOk, IfSome, Some, None};
ghost use Rattle.es_model.specs.Causes.{CallHasCause};
ghost use Rattle.es_model.specs.History.{log};
ghost use Rattle.es_recorder.specs.HandedOut.{count_after};
ghost use Rattle.es_recorder.specs.Keeps.{KeepsHeld};
ghost use Rattle.es_recorder.specs.Selections.{notifications};
ghost use Rattle.es_section.specs.Section.{bounds_of, ids_of, next_of};
ghost use Rattle.es_section.specs.Answers.{section_with, section_asked, IsSection, call_of};

use crate::request::bounds_of;
use crate::{Section, SectionFault};
use es_model::{CallFault, Notification, Notifications, Text};
use es_recorder::ApplicationRecorder;

fn ids_of(items: &[Notification]) -> Option<(u64, u64)>
    ensures { result ≡ ids_of items.now }
{
    let first = items.first()?;
    let last = items.last()?;
    Some((first.id, last.id))
}

fn next_of(limit: u64, items: &[Notification]) -> Option<(u64, u64)>
    requires limit { limit < 2 ^ 62 }
    requires ids { All (λ n. n.id < 2 ^ 62) items.now }
    ensures { result ≡ next_of limit items.now }
{
    if items.len() as u64 != limit {
        return None;
    }
    let last = items.last()?;
    Some((last.id + 1, last.id + limit))
}

// The section with these notifications, where it may have so many.
fn section_with(limit: u64, items: Notifications) -> Section
    requires limit { limit < 2 ^ 62 }
    requires ids { All (λ n. n.id < 2 ^ 62) items }
    ensures { result ≡ section_with limit items }
{
    let id = ids_of(items.as_slice());
    let next = next_of(limit, items.as_slice());
    Section { id, items, next }
}

/// The section of at most `size` notifications that a text asks for. The text is two numbers with a comma between
/// them, the first and the last id, each of at most thirteen digits and at most `es_model::limits::MOST_ASKED`.
pub fn section<R: ApplicationRecorder>(
    recorder: &mut R,
    request: &Text,
    size: u64,
) -> Result<Section, SectionFault>
    ensures section { IfSome (R.history recorder.old) (λ h. IfOk result (λ s. section_asked (notifications (log h)) request.now size ≡ Some s)) }
    ensures is_section { IfOk result (λ s. IfSome (bounds_of request.now) (λ b. IsSection b.0 b.1 size s)) }
    ensures bad { (result ≡ Err SectionFault.BadRequest) ↔ (bounds_of request.now ≡ None) }
    ensures untouched { result ≡ Err SectionFault.BadRequest → recorder.new ≡ recorder.old }
    ensures same { KeepsHeld R.history R.stable R.settled R.snapshots R.capacity recorder.old recorder.new (call_of result) }
    ensures selected { IfOk result (λ s. R.selected recorder.new ≡ count_after (R.selected recorder.old) (call_of result)) }
    ensures cause { CallHasCause (R.faults recorder.old) (R.faults recorder.new) (call_of result) }
{
    let Some((first, last)) = bounds_of(request.as_str()) else {
        return Err(SectionFault::BadRequest);
    };
    let start = first.max(1);
    let limit = (last + 1).saturating_sub(start).min(size);
    match recorder.select_notifications(start, limit) {
        Ok(items) => Ok(section_with(limit, items)),
        Err(CallFault::Failed) => Err(SectionFault::Failed),
        Err(CallFault::NoMemory) => Err(SectionFault::NoMemory),
    }
}
