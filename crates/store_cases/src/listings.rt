//! Rows of an output area, listed to a sink that keeps them.

ghost use Rattle.std.specs.Prelude.{◌≡◌, ◌++◌, ◌∷◌, ◌<◌, [], true, false};

use crate::heads::is_within;
use crate::rows::{columns_of, say_rows};
use anyhow::{Result, ensure};
use case_kit::Words;
use disk_kit::{Ended, job_of};
use disk_model::{Disk, MemDisk};
use job_store::{ImageSide, JobHead, Phase, head_of};
use out_file::{OutFault, rows_from};
use page_store::Store;
use qsr_value::{Failed, ListOf, Outside, Row, RowSink, Schema, TryCopy};
use std::alloc::{AllocError, Global};
use std::fmt::Write;

/// A sink that keeps its rows, and fails at the push of a number, counted from 0.
#[derive(Drop)]
struct Keeper {
    alloc: Global,
    rows: ListOf<Row>,
    pushes: u64,
    fails_at: u64,
    faults: u64,
}

impl Outside for Keeper {
    ghost use Rattle.std.specs.Prelude.{⊤};

    ghost calls = { λ _. 0 };

    ghost follows = { λ _ _. ⊤ };

    ghost follows_itself = { λ _. tt };

    ghost goes_on = { λ _ _ _ _ _. tt };
}

impl RowSink for Keeper {
    ghost use Rattle.std.specs.Prelude.{◌≡◌, ◌-◌, ◌^◌, ⊤, refl};

    ghost pushed = { λ s rows. s.rows ≡ rows };

    ghost takes = { λ _ _. ⊤ };

    ghost unbounded = { λ _. ⊤ };

    ghost row_faults_of = { λ s. s.faults };

    ghost free_of = { λ _. 2 ^ 32 - 1 };

    fn row_faults(&self) -> u64 {
        self.faults
    }

    fn free(&self) -> u32 {
        u32::MAX
    }

    fn push(&mut self, row: &Row) -> Result<(), Failed> {
        let number = self.pushes;
        self.pushes = self.pushes.saturating_add(1);
        if number == self.fails_at {
            self.faults = self.faults.saturating_add(1);
            return Err(Failed);
        }
        match keep(self.alloc, &mut self.rows, row) {
            true => Ok(()),
            false => {
                self.faults = self.faults.saturating_add(1);
                Err(Failed)
            }
        }
    }

    ghost takes_all = { λ _ _ _. tt };

    ghost has_room = { λ _ _. refl };
}

fn make_keeper(alloc: Global, fails_at: u64) -> Keeper {
    Keeper {
        alloc,
        rows: ListOf::new(alloc),
        pushes: 0,
        fails_at,
        faults: 0,
    }
}

/// Adds a copy of a row, where there is memory for it.
fn keep(alloc: Global, rows: &mut ListOf<Row>, row: &Row) -> bool
    ensures kept { result ≡ true → rows.new ≡ rows.old ++ row.now ∷ [] }
    ensures left { result ≡ false → rows.new ≡ rows.old }
{
    let Ok(copy) = row.copy(alloc) else {
        return false;
    };
    rows.push(copy).is_ok()
}

/// How a listing ended, and how many reads it made.
#[derive(Clone, Copy)]
struct Listed {
    end: Result<(), OutFault>,
    reads: u64,
}

/// Lists the rows that a head tells of, from one of them on.
fn list_rows(
    alloc: Global,
    store: &mut Store<'_, MemDisk>,
    schema: &Schema,
    job: u8,
    head: &JobHead,
    from: u64,
    out: &mut Keeper,
) -> Result<Listed>
    requires { job < 8 }
{
    let sizes = store.sizes();
    ensure!(is_within(head, &sizes), "rows behind the area");
    let before = store.disk.reads();
    let end = rows_from(alloc, store, schema, job, head, from, out);
    let reads = store.disk.reads().saturating_sub(before);
    Ok(Listed { end, reads })
}

/// Says how a listing ended, how many reads it made, how often its sink failed, and which rows that has.
fn say_listed(
    alloc: Global,
    said: &mut String,
    listed: &Listed,
    out: &Keeper,
) -> Result<Ended, AllocError> {
    let ended = match listed.end {
        Ok(()) => {
            said.push_str("all")?;
            Ended::Well
        }
        Err(fault) => {
            write!(said, "{fault:?}")?;
            Ended::Badly
        }
    };
    write!(said, ", reads {}, faults {}: ", listed.reads, out.faults)?;
    say_rows(alloc, said, out.rows.as_slice())?;
    Ok(ended)
}

/// What is asked for: the rows that a head tells of from one of them on, to a sink that fails at a push.
#[derive(Clone, Copy)]
struct Asked {
    head: JobHead,
    from: u64,
    fails_at: u64,
}

/// Lists what is asked for, and says what came of it.
fn say_listing(
    alloc: Global,
    store: &mut Store<'_, MemDisk>,
    said: &mut String,
    schema: &Schema,
    job: u8,
    asked: &Asked,
) -> Result<Ended>
    requires { job < 8 }
{
    let mut out = make_keeper(alloc, asked.fails_at);
    let listed = list_rows(alloc, store, schema, job, &asked.head, asked.from, &mut out)?;
    Ok(say_listed(alloc, said, &listed, &out)?)
}

/// A head whose rows take so many bytes.
fn head_to(end: u32) -> JobHead {
    JobHead {
        phase: Phase::Open,
        rows: 0,
        end,
        side: ImageSide::Neither,
        image_pages: 0,
        spill_used: 0,
    }
}

/// What `END FROM` or `END FROM FAILS` asks for.
fn asked_by(words: &mut Words<'_>) -> Result<Asked> {
    let head = head_to(words.number()?);
    let from = words.number()?;
    let fails_at = if words.is_empty() {
        u64::MAX
    } else {
        words.number()?
    };
    Ok(Asked {
        head,
        from,
        fails_at,
    })
}

/// Lists the rows in the first bytes of an output area, as `JOB KIND END FROM` or `JOB KIND END FROM FAILS`.
fn list(
    alloc: Global,
    store: &mut Store<'_, MemDisk>,
    said: &mut String,
    words: &mut Words<'_>,
) -> Result<Ended> {
    let job = job_of(words.word()?)?;
    let kind = words.word()?;
    let asked = asked_by(words)?;
    let schema = columns_of(alloc, kind)?;
    say_listing(alloc, store, said, &schema, job, &asked)
}

/// Lists the rows that a head of a job tells of, as `KIND FROM`.
fn list_by(
    alloc: Global,
    store: &mut Store<'_, MemDisk>,
    said: &mut String,
    job: u8,
    head: JobHead,
    words: &mut Words<'_>,
) -> Result<Ended>
    requires { job < 8 }
{
    let kind = words.word()?;
    let asked = Asked {
        head,
        from: words.number()?,
        fails_at: u64::MAX,
    };
    let schema = columns_of(alloc, kind)?;
    say_listing(alloc, store, said, &schema, job, &asked)
}

/// Lists the rows that the head of a job tells of, as `JOB KIND FROM`.
fn rows(
    alloc: Global,
    store: &mut Store<'_, MemDisk>,
    said: &mut String,
    words: &mut Words<'_>,
) -> Result<Ended> {
    let job = job_of(words.word()?)?;
    match head_of(store, job) {
        Ok(head) => list_by(alloc, store, said, job, head, words),
        Err(fault) => {
            writeln!(said, "{fault:?}")?;
            Ok(Ended::Badly)
        }
    }
}

/// Lists rows, if the word asks for that.
pub(crate) fn serve(
    alloc: Global,
    store: &mut Store<'_, MemDisk>,
    said: &mut String,
    word: &str,
    words: &mut Words<'_>,
) -> Result<Option<Ended>> {
    match word {
        "list" => Ok(Some(list(alloc, store, said, words)?)),
        "rows" => Ok(Some(rows(alloc, store, said, words)?)),
        _ => Ok(None),
    }
}
