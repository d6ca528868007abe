ghost use Rattle.std.specs.Prelude.{◌≡◌, ◌++◌, ◌∷◌, [], IfOk, OnOk, OnErr, length};

use crate::{Duplicate, NoMemory};
use std::alloc::Global;
use std::marker::Model;

/// A list of items, seen as the list of their values.
#[derive(Debug, Drop)]
pub struct List<T> {
    pub(crate) items: Vec<T>,
}

impl<T> Model for List<T> {
    ghost use Rattle.std.specs.Prelude.{List};
    ghost use Rattle.std.specs.Coded.{coded_list};

    ghost Value = { List T };

    ghost coded = { coded_list T.code };

    ghost view = { λ l. l.items.items };
}

impl<T> List<T> {
    pub fn new(alloc: Global) -> List<T>
        ensures { result ≡ [] }
    {
        List {
            items: Vec::new(alloc),
        }
    }

    /// The items of a vector, without a copy.
    pub fn from_vec(items: Vec<T>) -> List<T>
        ensures { result ≡ items.items }
    {
        List { items }
    }

    /// The vector of the items, without a copy.
    pub fn into_vec(self) -> Vec<T>
        ensures { result.items ≡ self }
    {
        let List { items } = self;
        items
    }

    pub fn as_slice(&self) -> &[T]
        ensures { result.now ≡ self.now }
    {
        self.items.as_slice()
    }

    pub fn len(&self) -> usize
        ensures { result ≡ length self.now }
    {
        self.items.len()
    }

    /// The allocator that it was made with.
    pub fn allocator(&self) -> Global {
        *self.items.allocator()
    }
}

impl<T: Drop> List<T> {
    pub fn push(&mut self, item: T) -> Result<(), NoMemory>
        ensures ok { OnOk result (self.new ≡ self.old ++ item ∷ []) }
        ensures err { OnErr result (self.new ≡ self.old) }
    {
        self.items.push(item)?;
        Ok(())
    }
}

// A copy of each item, in order.
pub(crate) fn copies<T: Duplicate>(alloc: Global, items: &[T]) -> Result<Vec<T>, NoMemory>
    ensures { IfOk result (λ v. v.items ≡ items.now) }
{
    let mut all = Vec::with_capacity(alloc, items.len())?;
    for item in items {
        all.push(item.copy()?)?;
    }
    Ok(all)
}

impl<T: Duplicate> Duplicate for List<T> {
    fn copy(&self) -> Result<List<T>, NoMemory> {
        let items = copies(*self.items.allocator(), self.items.as_slice())?;
        Ok(List { items })
    }
}
