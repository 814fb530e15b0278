ghost use Rattle.std.specs.Prelude.{◌≡◌, ◌<◌, ◌-◌, ◌^◌, IfOk, Some, length};
ghost use Rattle.qsr_top.specs.Explain.{AnswersQuery, AnswersText, IsQueryAnswer, answer_text, placed};
ghost use Rattle.sql_bind.specs.Checks as binder;
ghost use Rattle.sql_front.specs.Reads.{parse_tells};

use qsr_value::Memory;
use sql_bind::{BindFault, Names, bind};
use sql_front::{ParseFault, Query, parse};
use sql_tokens::Name;
use std::alloc::{AllocError, Global};

/// What is answered to a query. Places are counted in bytes of its text from 1.
#[derive(Clone, Copy)]
pub enum QueryAnswer {
    Syntax { at: u32 },
    WideLiteral { at: u32 },
    NoTable { name: Name, at: u32 },
    NoColumn { name: Name, at: u32 },
    Ambiguous { name: Name, at: u32 },
    TypeClash { at: u32 },
    NeedsGroup { at: u32 },
    NotSelected { at: u32 },
    UnionClash { at: u32 },
    /// It is a query over the tables. No plan is made of it yet.
    NotPlanned,
}

/// What is answered to the text of a query over these tables.
pub fn answer_to(alloc: Global, text: &str, tables: &Names) -> Result<QueryAnswer, Memory>
    requires { length text.now < 2 ^ 32 - 1 }
    ensures { IfOk result (AnswersText tables.now text.now) }
{
    match parse(alloc, text) {
        Ok(query) => answer_to_query(alloc, &query, tables),
        Err(fault) => answer_to_misread(fault),
    }
}

/// What is answered to a text that isn't read as a query.
fn answer_to_misread(fault: ParseFault) -> Result<QueryAnswer, Memory>
    ensures { IfOk result (IsQueryAnswer (λ refusal. parse_tells fault ≡ Some refusal) (λ refusal. ⊥) ⊥) }
{
    match fault {
        ParseFault::Syntax { at } => Ok(QueryAnswer::Syntax { at }),
        ParseFault::WideLiteral { at } => Ok(QueryAnswer::WideLiteral { at }),
        ParseFault::Memory => Err(Memory),
    }
}

/// What is answered to a query over these tables.
fn answer_to_query(alloc: Global, query: &Query, tables: &Names) -> Result<QueryAnswer, Memory>
    ensures { IfOk result (AnswersQuery tables.now query.now) }
{
    match bind(alloc, query, tables) {
        Ok(_) => Ok(QueryAnswer::NotPlanned),
        Err(fault) => answer_to_unbound(fault),
    }
}

/// What is answered to a query that isn't bound.
fn answer_to_unbound(fault: BindFault) -> Result<QueryAnswer, Memory>
    ensures { IfOk result (IsQueryAnswer (λ refusal. ⊥) (λ refusal. binder.bind_tells fault ≡ Some refusal) ⊥) }
{
    match fault {
        BindFault::NoTable { name, at } => Ok(QueryAnswer::NoTable { name, at }),
        BindFault::NoColumn { name, at } => Ok(QueryAnswer::NoColumn { name, at }),
        BindFault::Ambiguous { name, at } => Ok(QueryAnswer::Ambiguous { name, at }),
        BindFault::TypeClash { at } => Ok(QueryAnswer::TypeClash { at }),
        BindFault::NeedsGroup { at } => Ok(QueryAnswer::NeedsGroup { at }),
        BindFault::NotSelected { at } => Ok(QueryAnswer::NotSelected { at }),
        BindFault::UnionClash { at } => Ok(QueryAnswer::UnionClash { at }),
        BindFault::Memory => Err(Memory),
    }
}

impl QueryAnswer {
    /// Its line.
    pub fn line(&self, alloc: Global) -> Result<Vec<u8>, AllocError>
        ensures { IfOk result (λ line. line.items ≡ answer_text self.now) }
    {
        match self {
            QueryAnswer::Syntax { at } => placed(alloc, "syntax", b"", *at),
            QueryAnswer::WideLiteral { at } => placed(alloc, "wide literal", b"", *at),
            QueryAnswer::NoTable { name, at } => placed(alloc, "no table ", name.letters(), *at),
            QueryAnswer::NoColumn { name, at } => placed(alloc, "no column ", name.letters(), *at),
            QueryAnswer::Ambiguous { name, at } => placed(alloc, "ambiguous ", name.letters(), *at),
            QueryAnswer::TypeClash { at } => placed(alloc, "type clash", b"", *at),
            QueryAnswer::NeedsGroup { at } => placed(alloc, "needs group", b"", *at),
            QueryAnswer::NotSelected { at } => placed(alloc, "not selected", b"", *at),
            QueryAnswer::UnionClash { at } => placed(alloc, "union clash", b"", *at),
            QueryAnswer::NotPlanned => Vec::from_slice(alloc, b"not planned\n"),
        }
    }
}

/// The line of what is refused, the letters of a name behind it, and its place.
fn placed(alloc: Global, refused: &str, letters: &[u8], at: u32) -> Result<Vec<u8>, AllocError>
    ensures { IfOk result (λ line. line.items ≡ placed refused.now letters.now at) }
{
    let place = format!(in alloc; " at {at}\n")?;
    let mut line = Vec::new(alloc);
    line.extend_from_slice(refused.as_bytes())?;
    line.extend_from_slice(letters)?;
    line.extend_from_slice(place.as_bytes())?;
    Ok(line)
}
