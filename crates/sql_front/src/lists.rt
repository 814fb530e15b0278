ghost use Rattle.std.specs.Prelude.{◌≡◌, ◌<◌, ◌++◌, ◌∷◌, [], IfOk, OnOk, OnErr};

use crate::input::Input;
use sql_tokens::What;
use sqlite_items::Items;
use std::alloc::{AllocError, Global};
use std::marker::Model;

/// How many places a list of small items keeps, used or not.
pub(crate) const MOST_KEPT: usize = 256;

/// The fewest bytes that an item, a column or a key takes with its comma, as `a,`.
pub(crate) const LEAST_ITEM: usize = 2;

/// Items that are gathered in room that was taken at once. Contracts see them as their list.
#[derive(Drop)]
pub(crate) struct Gathered<T> {
    items: Vec<T>,
}

impl<T> Model for Gathered<T> {
    ghost use Rattle.std.specs.Prelude.{List};

    ghost Value = { List T };

    ghost view = { λ g. g.items.items };
}

impl<T: Drop> Gathered<T> {
    /// Adds an item at the end.
    pub(crate) fn push(&mut self, item: T) -> Result<(), AllocError>
        ensures ok { OnOk result (self.new ≡ self.old ++ item ∷ []) }
        ensures err { OnErr result (self.new ≡ self.old) }
    {
        self.items.push(item)?;
        Ok(())
    }

    /// All of them. Of a list with more than so many places those that are unused are given back.
    pub(crate) fn into_items(self, kept: usize) -> Items<T>
        ensures { result ≡ self }
    {
        let Gathered { mut items } = self;
        if items.capacity() > kept {
            items.shrink_to_fit();
        }
        Items::from_vec(items)
    }
}

/// An empty list with room for so many items.
pub(crate) fn with_room<T>(alloc: Global, room: usize) -> Result<Gathered<T>, AllocError>
    ensures { IfOk result (λ list. list ≡ []) }
{
    Ok(Gathered {
        items: Vec::with_capacity(alloc, room)?,
    })
}

/// An empty list for items that begin here, each of at least so many bytes with its separator.
pub(crate) fn list_here<T>(
    alloc: Global,
    input: &Input,
    least: usize,
) -> Result<Gathered<T>, AllocError>
    requires { 0 < least }
    ensures { IfOk result (λ list. list ≡ []) }
{
    let room = (input.bytes_left() / least).saturating_add(1);
    with_room(alloc, room)
}

/// An empty list for items that stand behind this separator, each of at least so many bytes with it. Where the separator doesn't
/// stand here, nothing is allocated.
pub(crate) fn list_behind<T>(
    alloc: Global,
    input: &Input,
    separator: What,
    least: usize,
) -> Result<Gathered<T>, AllocError>
    requires { 0 < least }
    ensures { IfOk result (λ list. list ≡ []) }
{
    let room = if input.peek().what == separator {
        // The last item may stand at the end of the text, with no blank behind it.
        input.bytes_left().saturating_add(1) / least
    } else {
        0
    };
    with_room(alloc, room)
}
