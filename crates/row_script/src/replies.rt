ghost use Rattle.std.specs.Prelude.{◌≡◌, [], ◌++◌, length, nat_le, IfOk, OnOk, OnErr};
ghost use Rattle.std.specs.Io.KnownBytes.{Appends};
ghost use Rattle.qsr_io.specs.Given.{GivesFront};
ghost use Rattle.qsr_value.specs.Causes.{CountsFault};
ghost use Rattle.std.specs.String.{string_bytes};
ghost use Rattle.row_script.specs.Replies.{numbered, row_text, reply_text_of};
ghost use Rattle.row_script.specs.declared.replies.TheConstants.{LONG};

use crate::reply::Reply;
use itoa::Buffer;
use qsr_io::{Failed, Sink, put_all};
use qsr_value::Memory;
use std::alloc::{AllocError, Global};
use std::marker::Model;

/// How many bytes of text are long: a list of rows is sent in parts of about this length.
const LONG: usize = 65536;

/// As many bytes as the line of a row has at most, and some more.
const ROW_LINE: usize = 64;

/// The text of replies that the sink was not given yet, so that it is called once for many.
#[derive(Drop)]
pub struct Replies {
    text: String,
}

impl Model for Replies {
    ghost use Rattle.std.specs.Prelude.{List, ℕ};
    ghost use Rattle.std.specs.String.{string_bytes};

    ghost Value = { List ℕ };

    ghost view = { λ replies. string_bytes replies.text };
}

impl Replies {
    pub fn new(alloc: Global) -> Replies
        ensures { result ≡ [] }
    {
        Replies {
            text: String::new(alloc),
        }
    }

    /// Adds the text of a reply. Where memory is wanting, nothing is added.
    pub fn push(&mut self, alloc: Global, reply: Reply) -> Result<(), Memory>
        ensures ok { OnOk result (self.new ≡ self.old ++ reply_text_of reply) }
        ensures err { OnErr result (self.new ≡ self.old) }
    {
        match reply {
            Reply::Added => self.text.push_str("ok\n")?,
            Reply::TableFull => self.text.push_str("table full\n")?,
            Reply::Paused { rows } => self.push_numbered(alloc, "paused ", rows)?,
            Reply::Done { rows } => self.push_numbered(alloc, "done ", rows)?,
            Reply::Listed { rows } => self.push_numbered(alloc, "end ", rows)?,
            Reply::BadLine { number } => self.push_numbered(alloc, "bad line ", number)?,
        }
        Ok(())
    }

    /// Adds a line of a word and a number. Where memory is wanting, nothing is added.
    fn push_numbered(&mut self, alloc: Global, word: &str, number: u64) -> Result<(), AllocError>
        ensures ok { OnOk result (self.new ≡ self.old ++ numbered word.now number) }
        ensures err { OnErr result (self.new ≡ self.old) }
    {
        let line = numbered(alloc, word, number)?;
        self.text.push_str(line.as_str())
    }

    /// Adds the line of a row that is listed. Where memory is wanting, nothing is added.
    pub fn push_row(&mut self, value: i64) -> Result<(), Memory>
        ensures ok { OnOk result (self.new ≡ self.old ++ row_text value) }
        ensures err { OnErr result (self.new ≡ self.old) }
    {
        let mut digits = Buffer::new();
        // With room for the whole line none of it is refused behind its beginning.
        self.text.reserve(ROW_LINE)?;
        self.text.push_str("> ")?;
        self.text.push_str(digits.format(value))?;
        self.text.push_str("\n")?;
        Ok(())
    }

    /// Whether so much is held that it is to be sent.
    pub fn are_long(&self) -> bool
        ensures { result ≡ nat_le LONG (length self.now) }
    {
        self.text.len() >= LONG
    }

    /// Gives the sink all the text that is held. Where that fails, the text is still held.
    pub fn send<K: Sink>(&mut self, sink: &mut K) -> Result<(), Failed>
        ensures ok { OnOk result (Appends (K.given sink.old) (K.given sink.new) self.old) }
        ensures empty { OnOk result (self.new ≡ []) }
        ensures failed { OnErr result (GivesFront (K.given sink.old) (K.given sink.new) self.old) }
        ensures held { OnErr result (self.new ≡ self.old) }
        ensures cause { CountsFault result (K.faults_of sink.old) (K.faults_of sink.new) }
    {
        put_all(sink, self.text.as_bytes())?;
        self.text.clear();
        Ok(())
    }
}

fn numbered(alloc: Global, word: &str, number: u64) -> Result<String, AllocError>
    ensures { IfOk result (λ text. string_bytes text ≡ numbered word.now number) }
{
    format!(in alloc; "{word}{number}\n")
}
