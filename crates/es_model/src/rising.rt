ghost use Rattle.std.specs.Prelude.{◌≡◌, ◌++◌, ◌∷◌, [], OnOk, OnErr, IsTrue, slice_get, count_by};
ghost use Rattle.std.specs.Option.{option_copied};
ghost use Rattle.es_model.specs.Rising.{comes_last, is_before, item_of, with_item, without, IsRising};
ghost use Rattle.es_model.specs.inner.Entries.{has_name};

use crate::list::copies;
use crate::{Duplicate, NoMemory, Text};
use std::alloc::Global;
use std::marker::Model;

/// Names in rising byte order, each with an item.
#[derive(Debug, Drop)]
pub struct Rising<T> {
    entries: Vec<(Text, T)>,
}

impl<T> Model for Rising<T> {
    ghost use Rattle.std.specs.Prelude.{List, ℕ};
    ghost use Rattle.std.specs.Coded.{coded_list, coded×, coded_ℕ};

    ghost Value = { List (List ℕ × T) };

    ghost coded = { coded_list (coded× (coded_list coded_ℕ) T.code) };

    ghost use Rattle.es_model.specs.Rising.{IsRising};

    ghost view = { λ r. r.entries.items };

    ghost invariant = { λ r. IsRising r.entries.items };
}

// How many names come before a name, which is its place.
fn place_of<T>(entries: &[(Text, T)], name: &str) -> usize
    ensures { result ≡ count_by (λ x. is_before x.0 name.now) entries.now }
{
    entries
        .iter()
        .filter(|entry| entry.0.as_str() < name)
        .count()
}

// Whether the entry at a place has a name.
fn is_at<T>(entries: &[(Text, T)], place: usize, name: &str) -> bool
    ensures { result ≡ has_name (slice_get entries.now place) name.now }
{
    match entries.get(place) {
        Some(entry) => entry.0.as_str() == name,
        None => false,
    }
}

impl<T> Rising<T> {
    pub fn new(alloc: Global) -> Rising<T>
        ensures { result ≡ [] }
    {
        Rising {
            entries: Vec::new(alloc),
        }
    }

    pub fn as_slice(&self) -> &[(Text, T)]
        ensures value { result.now ≡ self.now }
        ensures rising { IsRising self.now }
    {
        self.entries.as_slice()
    }

    /// The item of a name.
    pub fn get(&self, name: &str) -> Option<&T>
        ensures { option_copied result ≡ item_of self.now name.now }
    {
        let entry = self.entries.iter().find(|entry| entry.0.as_str() == name)?;
        Some(&entry.1)
    }

    /// The allocator that it was made with.
    pub fn allocator(&self) -> Global {
        *self.entries.allocator()
    }
}

impl<T: Drop> Rising<T> {
    /// Adds a name that comes after the last one, with its item.
    pub fn push(&mut self, entry: (Text, T)) -> Result<(), NoMemory>
        requires { IsTrue (comes_last self.old entry.0) }
        ensures ok { OnOk result (self.new ≡ self.old ++ entry ∷ []) }
        ensures err { OnErr result (self.new ≡ self.old) }
    {
        self.entries.push(entry)?;
        Ok(())
    }

    /// Gives a name an item, in place of the one that it has.
    pub fn put(&mut self, name: Text, item: T) -> Result<(), NoMemory>
        ensures ok { OnOk result (self.new ≡ with_item self.old name item) }
        ensures err { OnErr result (self.new ≡ self.old) }
    {
        let place = place_of(self.entries.as_slice(), name.as_str());
        if is_at(self.entries.as_slice(), place, name.as_str()) {
            self.entries[place] = (name, item);
        } else {
            self.entries.insert(place, (name, item))?;
        }
        Ok(())
    }

    /// Takes a name out.
    pub fn remove(&mut self, name: &str) -> Option<T>
        ensures item { result ≡ item_of self.old name.now }
        ensures rest { self.new ≡ without self.old name.now }
    {
        let place = place_of(self.entries.as_slice(), name);
        if is_at(self.entries.as_slice(), place, name) {
            let (_, item) = self.entries.remove(place);
            Some(item)
        } else {
            None
        }
    }
}

impl<T: Duplicate> Duplicate for Rising<T> {
    fn copy(&self) -> Result<Rising<T>, NoMemory> {
        let entries = copies(*self.entries.allocator(), self.entries.as_slice())?;
        Ok(Rising { entries })
    }
}
