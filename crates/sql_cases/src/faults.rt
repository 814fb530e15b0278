//! Why a query isn't bound, as it is said.

use anyhow::{Result, bail};
use case_kit::push_shown;
use sql_bind::BindFault;
use sql_tokens::Name;
use std::fmt::Write;

/// Says what is wrong with a name at a place.
fn say_name(said: &mut String, what: &str, name: &Name, at: u32) -> Result<()> {
    write!(said, "{what} ")?;
    push_shown(said, name.letters())?;
    writeln!(said, " at {at}")?;
    Ok(())
}

/// Says what is wrong at a place.
fn say_place(said: &mut String, what: &str, at: u32) -> Result<()> {
    writeln!(said, "{what} at {at}")?;
    Ok(())
}

pub(crate) fn say_bind_fault(said: &mut String, fault: &BindFault) -> Result<()> {
    match fault {
        BindFault::NoTable { name, at } => say_name(said, "no table", name, *at),
        BindFault::NoColumn { name, at } => say_name(said, "no column", name, *at),
        BindFault::Ambiguous { name, at } => say_name(said, "ambiguous", name, *at),
        BindFault::TypeClash { at } => say_place(said, "type clash", *at),
        BindFault::NeedsGroup { at } => say_place(said, "needs group", *at),
        BindFault::NotSelected { at } => say_place(said, "not selected", *at),
        BindFault::UnionClash { at } => say_place(said, "union clash", *at),
        BindFault::Memory => bail!("no memory"),
    }
}
