//! The text of a tree while it is written.

use case_kit::push_shown;
use sql_front::{Column, NameAt, NumberAt};
use std::alloc::{AllocError, Global};
use std::fmt::Write;

/// Whether places are shown in a tree: `@` and the place, behind what stands there.
#[derive(Clone, Copy)]
pub(crate) enum Places {
    Shown,
    Hidden,
}

/// A tree's text so far.
#[derive(Drop)]
pub(crate) struct Line {
    text: String,
    places: Places,
}

impl Line {
    pub(crate) fn new(alloc: Global, places: Places) -> Line {
        Line {
            text: String::new(alloc),
            places,
        }
    }

    pub(crate) fn text(&self) -> &str {
        self.text.as_str()
    }

    pub(crate) fn put(&mut self, text: &str) -> Result<(), AllocError> {
        self.text.push_str(text)
    }

    /// Adds what stands before an item of a list, by its place in the list from 0.
    pub(crate) fn put_comma(&mut self, place: usize) -> Result<(), AllocError> {
        self.put(if place == 0 { "" } else { ", " })
    }

    /// Adds a place, where places are shown.
    fn put_place(&mut self, at: u32) -> Result<(), AllocError> {
        let text = &mut self.text;
        match self.places {
            Places::Shown => write!(text, "@{at}"),
            Places::Hidden => Ok(()),
        }
    }

    /// Adds a word that stands at a place.
    pub(crate) fn put_at(&mut self, word: &str, at: u32) -> Result<(), AllocError> {
        self.put(word)?;
        self.put_place(at)
    }

    /// Adds bytes between two `'`, as a line writes them.
    pub(crate) fn put_text(&mut self, bytes: &[u8]) -> Result<(), AllocError> {
        self.put("'")?;
        push_shown(&mut self.text, bytes)?;
        self.put("'")
    }

    pub(crate) fn put_name(&mut self, name: &NameAt) -> Result<(), AllocError> {
        push_shown(&mut self.text, name.name.letters())?;
        self.put_place(name.at)
    }

    pub(crate) fn put_number(&mut self, number: &NumberAt) -> Result<(), AllocError> {
        let value = number.value;
        let text = &mut self.text;
        write!(text, "{value}")?;
        self.put_place(number.at)
    }

    pub(crate) fn put_column(&mut self, column: &Column) -> Result<(), AllocError> {
        match column {
            Column::Plain(name) => self.put_name(name),
            Column::Dotted(table, name) => {
                self.put_name(table)?;
                self.put(".")?;
                self.put_name(name)
            }
        }
    }
}
