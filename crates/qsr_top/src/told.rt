ghost use Rattle.std.specs.Prelude.{◌≡◌, [], IfOk, OnErr};
ghost use Rattle.std.specs.String.{string_bytes};
ghost use Rattle.row_script.specs.Ends.{end_text};
ghost use Rattle.qsr_top.specs.Told.{IsTold, IsToldOr, told_end, told_of_fault, told_of_line, told_of_opening, told_text};

use input_lines::LineFault;
use page_store::StoreFault;
use qsr_io::{Failed, Sink, put_all};
use qsr_value::Memory;
use row_script::End;
use std::alloc::{AllocError, Global};
use table_file::TableFault;

/// What is told of a command on tables.
#[derive(Clone, Copy)]
pub enum Told {
    Created,
    /// The table has so many rows now.
    Loaded { rows: u32 },
    Exists,
    RowTooWide { bytes: u32 },
    CatalogueFull,
    NoTable,
    BadField { line: u32, column: u8 },
    TableFull,
    BadLine { number: u64 },
    /// The store, or its catalogue, isn't of its form, which begins at this page.
    NotStore { page: u32 },
    DiskFault,
    SourceFault,
    NoMemory,
}

impl Told {
    /// Gives its line, of a command on the table of this name, to the sink. Where there is no memory for the line, that is told.
    pub fn tell<K: Sink>(self, alloc: Global, name: &str, sink: &mut K) -> End
        ensures { IsToldOr name.now self result (K.given sink.old) (K.given sink.new) (K.faults_of sink.old) (K.faults_of sink.new) }
    {
        match self {
            Told::Created => say(created(alloc, name), End::Finished, sink),
            Told::Loaded { rows } => say(loaded(alloc, name, rows), End::Finished, sink),
            Told::Exists => tell("exists\n", End::Refused, sink),
            Told::RowTooWide { bytes } => say(row_too_wide(alloc, bytes), End::Refused, sink),
            Told::CatalogueFull => tell("catalogue full\n", End::Refused, sink),
            Told::NoTable => tell("no table\n", End::Refused, sink),
            Told::BadField { line, column } => say(
                bad_field(alloc, line, column),
                End::Refused,
                sink,
            ),
            Told::TableFull => tell("table full\n", End::Refused, sink),
            Told::BadLine { number } => say(bad_line(alloc, number), End::BadLine, sink),
            Told::NotStore { page } => say(not_store(alloc, page), End::NotStore, sink),
            Told::DiskFault => tell(End::DiskFault.text(), End::DiskFault, sink),
            Told::SourceFault => tell(End::SourceFault.text(), End::SourceFault, sink),
            Told::NoMemory => tell(End::NoMemory.text(), End::NoMemory, sink),
        }
    }
}

impl From<Memory> for Told {
    ghost use Rattle.std.specs.Prelude.{◌≡◌};
    ghost use Rattle.qsr_top.specs.declared.told.Told.{Told};

    ghost from_gives = { λ _ told. told ≡ Told.NoMemory };

    fn from(_error: Memory) -> Told {
        Told::NoMemory
    }
}

/// What is told of a store that isn't opened.
pub fn told_of_opening(fault: StoreFault) -> Told
    ensures { result ≡ told_of_opening fault }
{
    match fault {
        StoreFault::NotStore { page } => Told::NotStore { page },
        StoreFault::Failed | StoreFault::TooSmall { .. } => Told::DiskFault,
    }
}

/// What is told of a fault of a call on tables.
pub fn told_of_fault(fault: TableFault) -> Told
    ensures { result ≡ told_of_fault fault }
{
    match fault {
        TableFault::Exists => Told::Exists,
        TableFault::CatalogFull => Told::CatalogueFull,
        TableFault::RowTooWide { bytes } => Told::RowTooWide { bytes },
        TableFault::NoTable => Told::NoTable,
        TableFault::BadField { line, column } => Told::BadField { line, column },
        TableFault::TableFull => Told::TableFull,
        TableFault::NotStore { page } => Told::NotStore { page },
        TableFault::Failed => Told::DiskFault,
        TableFault::Memory => Told::NoMemory,
    }
}

/// What is told of an input that isn't read as one line.
pub fn told_of_line(fault: LineFault) -> Told
    ensures { result ≡ told_of_line fault }
{
    match fault {
        LineFault::BadLine { number } => Told::BadLine { number },
        LineFault::Failed => Told::SourceFault,
        LineFault::Memory => Told::NoMemory,
    }
}

fn created(alloc: Global, name: &str) -> Result<String, AllocError>
    ensures { IfOk result (λ text. string_bytes text ≡ told_text name.now Told.Created) }
{
    format!(in alloc; "created {name}\n")
}

fn loaded(alloc: Global, name: &str, rows: u32) -> Result<String, AllocError>
    ensures { IfOk result (λ text. string_bytes text ≡ told_text name.now (Told.Loaded rows)) }
{
    format!(in alloc; "loaded {name} rows {rows}\n")
}

fn row_too_wide(alloc: Global, bytes: u32) -> Result<String, AllocError>
    ensures { IfOk result (λ text. string_bytes text ≡ told_text [] (Told.RowTooWide bytes)) }
{
    format!(in alloc; "row too wide {bytes}\n")
}

fn bad_field(alloc: Global, line: u32, column: u8) -> Result<String, AllocError>
    ensures { IfOk result (λ text. string_bytes text ≡ told_text [] (Told.BadField line column)) }
{
    format!(in alloc; "bad field {line} {column}\n")
}

fn bad_line(alloc: Global, number: u64) -> Result<String, AllocError>
    ensures { IfOk result (λ text. string_bytes text ≡ told_text [] (Told.BadLine number)) }
{
    format!(in alloc; "bad line {number}\n")
}

fn not_store(alloc: Global, page: u32) -> Result<String, AllocError>
    ensures { IfOk result (λ text. string_bytes text ≡ told_text [] (Told.NotStore page)) }
{
    format!(in alloc; "not a store, page {page}\n")
}

/// Tells a text and its end, or that there was no memory for the text.
pub fn say<K: Sink>(text: Result<String, AllocError>, told: End, sink: &mut K) -> End
    ensures ok { IfOk text (λ text. IsTold (string_bytes text) told result (K.given sink.old) (K.given sink.new) (K.faults_of sink.old) (K.faults_of sink.new)) }
    ensures err { OnErr text (IsTold (end_text End.NoMemory) End.NoMemory result (K.given sink.old) (K.given sink.new) (K.faults_of sink.old) (K.faults_of sink.new)) }
{
    match text {
        Ok(text) => tell(text.as_str(), told, sink),
        Err(AllocError) => tell(End::NoMemory.text(), End::NoMemory, sink),
    }
}

/// Tells a line and its end, or that there was no memory for the line.
pub fn say_line<K: Sink>(line: Result<Vec<u8>, AllocError>, told: End, sink: &mut K) -> End
    ensures ok { IfOk line (λ line. IsTold line.items told result (K.given sink.old) (K.given sink.new) (K.faults_of sink.old) (K.faults_of sink.new)) }
    ensures err { OnErr line (IsTold (end_text End.NoMemory) End.NoMemory result (K.given sink.old) (K.given sink.new) (K.faults_of sink.old) (K.faults_of sink.new)) }
{
    match line {
        Ok(line) => tell_line(&line, told, sink),
        Err(AllocError) => tell(End::NoMemory.text(), End::NoMemory, sink),
    }
}

/// Tells a text and its end.
pub fn tell<K: Sink>(text: &str, told: End, sink: &mut K) -> End
    ensures { IsTold text.now told result (K.given sink.old) (K.given sink.new) (K.faults_of sink.old) (K.faults_of sink.new) }
{
    tell_line(text.as_bytes(), told, sink)
}

/// Tells the bytes of a text and its end.
fn tell_line<K: Sink>(line: &[u8], told: End, sink: &mut K) -> End
    ensures { IsTold line.now told result (K.given sink.old) (K.given sink.new) (K.faults_of sink.old) (K.faults_of sink.new) }
{
    match put_all(sink, line) {
        Ok(()) => told,
        Err(Failed) => End::SinkFault,
    }
}
