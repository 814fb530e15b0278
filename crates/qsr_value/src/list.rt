ghost use Rattle.std.specs.Prelude.{◌≡◌, ◌<◌, [], ◌∷◌, ◌++◌, length, slice_get, IfOk, MatchOption, OnOk, OnErr, Some};
ghost use Rattle.std.specs.Borrow.{sem};

use crate::{Memory, TryCopy};
use std::alloc::Global;
use std::marker::Model;

/// A list that grows at its end, which contracts see as the list of its items. The list types of qsr are aliases
/// of it.
#[derive(Debug, Drop)]
pub struct ListOf<T> {
    items: Vec<T>,
}

/// A list of bytes.
pub type Bytes = ListOf<u8>;

impl<T> Model for ListOf<T> {
    ghost use Rattle.std.specs.Prelude.{List};
    ghost use Rattle.std.specs.Coded.{coded_list};

    ghost Value = { List T };

    ghost coded = { coded_list T.code };

    ghost view = { λ list. list.items.items };
}

impl<T> ListOf<T> {
    ghost use Rattle.qsr_value.specs.Lending.{LendsItem};

    /// The empty list, which takes no memory.
    pub fn new(alloc: Global) -> ListOf<T>
        ensures { result ≡ [] }
    {
        ListOf {
            items: Vec::new(alloc),
        }
    }

    /// The empty list with memory for so many items.
    pub fn with_room(alloc: Global, items: usize) -> Result<ListOf<T>, Memory>
        ensures { IfOk result (λ list. list ≡ []) }
    {
        let items = Vec::with_capacity(alloc, items)?;
        Ok(ListOf { items })
    }

    pub fn len(&self) -> usize
        ensures { result ≡ length self.now }
    {
        self.items.len()
    }

    pub fn as_slice(&self) -> &[T]
        ensures { result.now ≡ self.now }
    {
        self.items.as_slice()
    }

    pub fn get(&self, at: usize) -> &T
        requires { at < length self.now }
        ensures { slice_get self.now at ≡ Some result.now }
    {
        &self.items.as_slice()[at]
    }

    /// The item at this place, to be set or changed where it stands. It takes no memory.
    pub fn get_mut(&mut self, at: usize) -> &mut T
        requires { at < length self.old }
        ensures value { slice_get self.old at ≡ Some result.now }
        ensures* writes_back { sem 𝓛 (LendsItem T.row self.entry at result) }
    {
        &mut self.items[at]
    }

    /// Takes the last item away.
    pub fn pop(&mut self) -> Option<T>
        ensures { MatchOption result ((self.old ≡ []) × (self.new ≡ [])) (λ last. self.old ≡ self.new ++ last ∷ []) }
    {
        self.items.pop()
    }
}

impl<T: Drop> ListOf<T> {
    /// Adds an item at the end. A refused push leaves the list as it was.
    pub fn push(&mut self, item: T) -> Result<(), Memory>
        ensures ok { OnOk result (self.new ≡ self.old ++ item ∷ []) }
        ensures err { OnErr result (self.new ≡ self.old) }
    {
        self.items.push(item)?;
        Ok(())
    }
}

impl<T: Copy> ListOf<T> {
    pub fn from_slice(alloc: Global, items: &[T]) -> Result<ListOf<T>, Memory>
        ensures { IfOk result (λ list. list ≡ items.now) }
    {
        let items = Vec::from_slice(alloc, items)?;
        Ok(ListOf { items })
    }
}

impl<T: TryCopy + Drop> ListOf<T> {
    /// This list followed by the other.
    pub fn join(&self, alloc: Global, other: &ListOf<T>) -> Result<ListOf<T>, Memory>
        ensures { IfOk result (λ list. list ≡ self.now ++ other.now) }
    {
        // Where the sum is more than usize holds there is no memory for it either.
        let mut joined = ListOf::with_room(alloc, self.len().saturating_add(other.len()))?;
        joined.push_copies(alloc, self.as_slice())?;
        joined.push_copies(alloc, other.as_slice())?;
        Ok(joined)
    }

    /// Adds a copy of each of these items at the end.
    fn push_copies(&mut self, alloc: Global, items: &[T]) -> Result<(), Memory>
        ensures { OnOk result (self.new ≡ self.old ++ items.now) }
    {
        for item in items {
            self.push(item.copy(alloc)?)?;
        }
        Ok(())
    }
}

impl<T: TryCopy + Drop> TryCopy for ListOf<T> {
    fn copy(&self, alloc: Global) -> Result<ListOf<T>, Memory> {
        let mut list = ListOf::with_room(alloc, self.len())?;
        list.push_copies(alloc, self.as_slice())?;
        Ok(list)
    }
}
