ghost use Rattle.std.specs.Prelude.{◌≡◌, ◌<◌, ◌≤◌, ◌+◌, ◌-◌, ◌^◌, ◌++◌, ◌∷◌, [], Some, All, OnOk, IfOk, IfSome, length, map, take, drop, slice_get, if◌then◌else◌, List};
ghost use Rattle.std.specs.Str.{bytes_eq};
ghost use Rattle.es_model.specs.declared.event.Recording.{Recording};
ghost use Rattle.es_model.specs.History.{log};
ghost use Rattle.es_recorder.specs.Selections.{numbered_from};
ghost use Rattle.es_memory.specs.inner.Index.{at_id, at_name, places_from, id_in, AddsPlaces, ArePlaces, Stands};

use es_model::{
    Cause, Duplicate, NoMemory, Notification, Notifications, Recording, StoredEvent, StoredEvents,
    Text,
};
use std::alloc::Global;
use std::collections::BTreeMap;
use uuid::Uuid;

/// Where a history has the events of each id, the notifications of each leader, and each event of
/// its log. A place in the log is counted from 0.
#[derive(Drop)]
pub struct Index {
    ids: BTreeMap<Uuid, Vec<u64>>,
    leaders: BTreeMap<String, Vec<u64>>,
    places: Vec<(usize, usize)>,
}

// Adds a place to those of an id.
fn add_place(ids: &mut BTreeMap<Uuid, Vec<u64>>, id: Uuid, place: u64) -> Result<(), NoMemory>
    ensures { OnOk result ((q : _) → at_id ids.new q ≡ (if bytes_eq id q then at_id ids.old q ++ place ∷ [] else at_id ids.old q)) }
{
    ids.entry(id)?.or_default().push(place)?;
    Ok(())
}

// Adds the places of events, of which the first has this one.
fn add_events(
    ids: &mut BTreeMap<Uuid, Vec<u64>>,
    first: u64,
    events: &[StoredEvent],
) -> Result<(), NoMemory>
    requires { first + length events.now < 2 ^ 62 }
    ensures { OnOk result ((id : _) → at_id ids.new id ≡ at_id ids.old id ++ places_from first events.now id) }
{
    for (i, event) in events.iter().enumerate() {
        add_place(ids, event.originator_id, first + i as u64)?;
    }
    Ok(())
}

// Adds a notification id to those of a leader.
fn add_id(
    leaders: &mut BTreeMap<String, Vec<u64>>,
    alloc: Global,
    leader: &Text,
    id: u64,
) -> Result<(), NoMemory>
    ensures { OnOk result ((q : _) → at_name leaders.new q ≡ (if bytes_eq leader.now q then at_name leaders.old q ++ id ∷ [] else at_name leaders.old q)) }
{
    let key = String::from_str(alloc, leader.as_str())?;
    leaders.entry(key)?.or_default().push(id)?;
    Ok(())
}

// Adds the notification id of a cause, where it has one.
fn add_cause(
    leaders: &mut BTreeMap<String, Vec<u64>>,
    alloc: Global,
    cause: &Cause,
) -> Result<(), NoMemory>
    ensures { OnOk result ((leader : _) → at_name leaders.new leader ≡ at_name leaders.old leader ++ id_in cause.now leader) }
{
    match cause {
        Cause::Command { text: _ } => Ok(()),
        Cause::Notification { leader, id } => add_id(leaders, alloc, leader, *id),
    }
}

// Adds the places of so many events of a recording.
fn add_places(
    places: &mut Vec<(usize, usize)>,
    recording: usize,
    count: usize,
) -> Result<(), NoMemory>
    ensures { OnOk result (AddsPlaces recording count places.old.items places.new.items) }
{
    for i in 0..count {
        places.push((recording, i))?;
    }
    Ok(())
}

impl Index {
    /// The index of a history without recordings.
    pub fn new(alloc: Global) -> Index
        ensures { Stands [] result }
    {
        Index {
            ids: BTreeMap::new(alloc),
            leaders: BTreeMap::new(alloc),
            places: Vec::new(alloc),
        }
    }

    // Adds a recording behind so many others, which have so many events.
    fn add(
        &mut self,
        alloc: Global,
        number: usize,
        before: u64,
        recording: &Recording,
    ) -> Result<(), NoMemory>
        requires { before + length recording.now.events < 2 ^ 62 }
        ensures { OnOk result ((h : List Recording) → length h ≡ number → length (log h) ≡ before → Stands h self.old → Stands (h ++ recording.now ∷ []) self.new) }
    {
        let events = recording.events.as_slice();
        add_events(&mut self.ids, before, events)?;
        add_cause(&mut self.leaders, alloc, &recording.cause)?;
        add_places(&mut self.places, number, events.len())?;
        Ok(())
    }

    /// How many events the log has.
    pub fn len(&self) -> u64
        ensures { result ≡ length self.now.places.items }
    {
        self.places.len() as u64
    }

    /// The places of an originator's events.
    pub fn places_of(&self, id: Uuid) -> &[u64]
        ensures { result.now ≡ at_id self.now.ids id }
    {
        match self.ids.get(&id) {
            Some(places) => places.as_slice(),
            None => &[],
        }
    }

    /// The notification ids of a leader.
    pub fn ids_of(&self, leader: &Text) -> &[u64]
        ensures { result.now ≡ at_name self.now.leaders leader.now }
    {
        match self.leaders.get(leader.as_str()) {
            Some(ids) => ids.as_slice(),
            None => &[],
        }
    }

    /// The event at a place of the log.
    pub fn event_at<'a>(&self, history: &'a [Recording], place: u64) -> &'a StoredEvent
        requires places { ArePlaces history.now self.now.places.items }
        requires within { place < length (log history.now) }
        ensures { slice_get (log history.now) place ≡ Some result.now }
    {
        let (recording, event) = self.places[place as usize];
        let events = history[recording].events.as_slice();
        &events[event]
    }

    /// Copies of the events at places of the log.
    pub fn events_at(
        &self,
        alloc: Global,
        history: &[Recording],
        places: &[u64],
    ) -> Result<StoredEvents, NoMemory>
        requires places { ArePlaces history.now self.now.places.items }
        requires within { All (λ place. place < length (log history.now)) places.now }
        ensures { IfOk result (λ es. map (slice_get (log history.now)) places.now ≡ map Some es) }
    {
        let mut found = StoredEvents::new(alloc);
        for place in places {
            found.push(self.event_at(history, *place).copy()?)?;
        }
        Ok(found)
    }

    /// The notifications of the events from one place up to another.
    pub fn notifications_at(
        &self,
        alloc: Global,
        history: &[Recording],
        from: u64,
        upto: u64,
    ) -> Result<Notifications, NoMemory>
        requires places { ArePlaces history.now self.now.places.items }
        requires within { upto ≤ length (log history.now) }
        requires few { upto < 2 ^ 62 }
        ensures { IfOk result (λ ns. ns ≡ take (upto - from) (numbered_from (from + 1) (drop from (log history.now)))) }
    {
        let mut found = Notifications::new(alloc);
        for place in from..upto {
            found.push(Notification {
                id: place + 1,
                event: self.event_at(history, place).copy()?,
            })?;
        }
        Ok(found)
    }
}

/// The index of a history with one recording more, unless memory is wanting or there was none.
pub fn grown(
    alloc: Global,
    index: Option<Index>,
    number: usize,
    before: u64,
    recording: &Recording,
) -> Option<Index>
    requires { before + length recording.now.events < 2 ^ 62 }
    ensures { (h : List Recording) → length h ≡ number → length (log h) ≡ before → IfSome index (Stands h) → IfSome result (Stands (h ++ recording.now ∷ [])) }
{
    let mut index = index?;
    match index.add(alloc, number, before, recording) {
        Ok(()) => Some(index),
        Err(NoMemory) => None,
    }
}

/// The index of a history, unless memory is wanting.
pub fn index_of(alloc: Global, history: &[Recording]) -> Option<Index>
    requires { length (log history.now) < 2 ^ 62 }
    ensures { IfSome result (Stands history.now) }
{
    let mut index = Some(Index::new(alloc));
    let mut before = 0u64;
    for (i, recording) in history.iter().enumerate() {
        index = grown(alloc, index, i, before, recording);
        before += recording.events.len() as u64;
    }
    index
}
