ghost use Rattle.std.specs.Prelude.{◌≡◌, ◌≤◌, length};
ghost use Rattle.qsr_value.specs.Columns.{width_of, width_of_kind};

use crate::{ColKind, ListOf, Memory, TryCopy, Txt};
use std::alloc::Global;

/// A column of a table.
#[derive(Debug, Drop)]
pub struct Column {
    pub name: Txt,
    pub kind: ColKind,
}

/// The columns of a table, in order.
pub type Schema = ListOf<Column>;

impl TryCopy for Column {
    fn copy(&self, alloc: Global) -> Result<Column, Memory> {
        Ok(Column {
            name: self.name.copy(alloc)?,
            kind: self.kind,
        })
    }
}

impl ListOf<Column> {
    /// How many bytes a row has at most: 8 for each Int, 16 for each Wide, and 2 and the greatest length for each Text.
    pub fn width(&self) -> u32
        requires { length self.now ≤ 65000 }
        ensures { result ≡ width_of self.now }
    {
        let mut width = 0;
        for place in 0..self.len() {
            width += kind_width(self.get(place).kind);
        }
        width
    }
}

/// How many bytes a value of this kind has at most.
fn kind_width(kind: ColKind) -> u32
    ensures value { result ≡ width_of_kind kind }
    ensures bound { result ≤ 65537 }
{
    match kind {
        ColKind::Int => 8,
        ColKind::Wide => 16,
        ColKind::Text { max } => 2 + max as u32,
    }
}
