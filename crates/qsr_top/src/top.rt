ghost use Rattle.std.specs.Prelude.{◌≡◌, ◌⊎◌, ◌<◌, ◌≤◌, ℕ, List, None, Some, map};
ghost use Rattle.std.specs.String.{string_bytes};
ghost use Rattle.qsr_value.specs.Causes.{RoseByOne};
ghost use Rattle.disk_model.specs.View.{After, EachImage, LeavesOnly, Stays};
ghost use Rattle.page_store.specs.Format.{IsOldNoneOrNew};
ghost use Rattle.page_store.specs.Store.{contents_view};
ghost use Rattle.page_store.specs.declared.pages.Sizes.{Sizes};
ghost use Rattle.qsr_value.specs.declared.schema.Column.{Column};
ghost use Rattle.table_file.specs.Tables.{AreTables, OnlyTables, Tables, with_table};
ghost use Rattle.qsr_top.specs.Create.{CreateRan};
ghost use Rattle.row_script.specs.Ends.{status_of};
ghost use Rattle.qsr_top.specs.Explain.{ExplainRan};
ghost use Rattle.qsr_top.specs.Format.{Formatted, bytes_needed};
ghost use Rattle.qsr_top.specs.Load.{LoadRan, StandsLoaded};
ghost use Rattle.row_script.specs.Run.{Ran};
ghost use Rattle.qsr_top.specs.Stored.{Stands, StandsFor};
ghost use Rattle.qsr_top.specs.Usage.{Says};
ghost use Rattle.qsr_top.specs.Words.{command_of, create, explain, format, load, script};

use crate::command::{Command, command_of};
use crate::{create, explain, format, load};
use disk_model::Disk;
use qsr_io::{Sink, Source, put_all};
use row_script::End;
use std::alloc::Global;

/// Writes what is said of an end, and answers the status.
pub fn say_end<K: Sink>(end: End, out: &mut K) -> u8
    ensures says { Says end result (K.given out.old) (K.given out.new) }
    ensures cause { ((result ≡ status_of end) × (K.faults_of out.new ≡ K.faults_of out.old))
        ⊎ ((result ≡ status_of End.SinkFault) × RoseByOne (K.faults_of out.old) (K.faults_of out.new)) }
{
    match put_all(out, end.text().as_bytes()) {
        Ok(()) => end.status(),
        Err(_) => End::SinkFault.status(),
    }
}

/// All that the program does: it reads the words, which are FILE, a command and what the command takes, serves the
/// command over the disk, the input and the output, and answers the status of the process. FILE is the word by which
/// the disk was opened, and is not read here.
pub fn qsr_run<D: Disk, S: Source, K: Sink>(
    alloc: Global,
    words: &[String],
    disk: &mut D,
    input: &mut S,
    out: &mut K,
) -> u8
    // Words that name no command are a usage fault, and no others are. Nothing is read or written then.
    ensures usage { command_of (map string_bytes words.now) ≡ None → Says End.Usage result (K.given out.old) (K.given out.new) }
    ensures untouched { command_of (map string_bytes words.now) ≡ None → (input.new ≡ input.old) × (disk.new ≡ disk.old) }
    ensures only_usage { result ≡ status_of End.Usage → command_of (map string_bytes words.now) ≡ None }

    // What `script` writes is the replies to the lines in order, and then what is said of the end. A crash at any
    // moment leaves the rows that are acknowledged after some of those lines, and one in the end those after all.
    ensures script { command_of (map string_bytes words.now) ≡ Some script
        → (end : End) × (result ≡ status_of end) × Ran (D.size_of disk.old) (S.left input.old) (S.left input.new) (K.given out.old) (K.given out.new)
        (D.view disk.old) (D.view disk.new) (D.reads_of disk.old) (D.reads_of disk.new) (D.writes_of disk.old) (D.writes_of disk.new) end }

    // What `format` says is how many pages the store has, or that the disk is too small, which it is then exactly. A
    // crash at any moment leaves what could be left before, no store, or the empty one; where it says that it has
    // formatted the disk, the empty one. The input isn't read.
    ensures format { (sizes : Sizes) → command_of (map string_bytes words.now) ≡ Some (format sizes)
        → (end : End) × (result ≡ status_of end) × Formatted sizes (D.size_of disk.old) (K.given out.old) (K.given out.new) (D.view disk.new)
        (D.faults_of disk.old) (D.faults_of disk.new) (K.faults_of out.old) (K.faults_of out.new) end }
    ensures format_crash { (sizes : Sizes) → command_of (map string_bytes words.now) ≡ Some (format sizes)
        → LeavesOnly (D.view disk.old) (D.view disk.new) (IsOldNoneOrNew (D.view disk.old) sizes) }
    ensures format_small { (sizes : Sizes) → command_of (map string_bytes words.now) ≡ Some (format sizes)
        → D.size_of disk.old < bytes_needed sizes → disk.new ≡ disk.old }
    ensures format_input { (sizes : Sizes) → command_of (map string_bytes words.now) ≡ Some (format sizes) → input.new ≡ input.old }

    // `create` on an honest disk that stands for some tables says whether they have the new one, and leaves them with it or as
    // they were: but for faults and want of memory it is refused exactly where there is a reason, the first of which is told. A
    // crash at any moment leaves the tables with it or without it, and all else of the store as it was. The input isn't read.
    ensures create { (name : List ℕ) (columns : List Column) → command_of (map string_bytes words.now) ≡ Some (create name columns)
        → (end : End) × (result ≡ status_of end) × CreateRan (D.size_of disk.old) name columns (D.view disk.old) (D.view disk.new)
        (K.given out.old) (K.given out.new) (D.faults_of disk.old) (D.faults_of disk.new) (K.faults_of out.old) (K.faults_of out.new) end }
    ensures create_crash { (name : List ℕ) (columns : List Column) (sizes : Sizes) (s : Tables) → command_of (map string_bytes words.now) ≡ Some (create name columns)
        → AreTables sizes s → StandsFor (D.size_of disk.old) sizes s (D.view disk.old) → (D.view disk.old).honest
        → LeavesOnly (contents_view sizes (D.view disk.old)) (contents_view sizes (D.view disk.new))
        (λ m. Stands (D.size_of disk.old) sizes s m ⊎ Stands (D.size_of disk.old) sizes (with_table s name columns) m) }
    ensures create_input { (name : List ℕ) (columns : List Column) → command_of (map string_bytes words.now) ≡ Some (create name columns) → input.new ≡ input.old }

    // `load` on an honest disk that stands for some tables says whether the rows of the input are behind those of the table, all
    // of them, and leaves the tables with them or as they were: but for faults and want of memory it is refused exactly where
    // there is no such table, where the input has a bad line or a bad field, the first of which is told, or where the table has
    // no room. A crash at any moment leaves the tables with all these rows or with none, and all else of the store as it was.
    ensures load { (name : List ℕ) → command_of (map string_bytes words.now) ≡ Some (load name)
        → (end : End) × (result ≡ status_of end) × LoadRan (D.size_of disk.old) name (S.left input.old) (S.left input.new)
        (D.view disk.old) (D.view disk.new) (K.given out.old) (K.given out.new)
        (D.faults_of disk.old) (D.faults_of disk.new) (S.faults_of input.old) (S.faults_of input.new) (K.faults_of out.old) (K.faults_of out.new) end }
    ensures load_crash { (name : List ℕ) (sizes : Sizes) (s : Tables) → command_of (map string_bytes words.now) ≡ Some (load name)
        → AreTables sizes s → StandsFor (D.size_of disk.old) sizes s (D.view disk.old) → (D.view disk.old).honest
        → LeavesOnly (contents_view sizes (D.view disk.old)) (contents_view sizes (D.view disk.new))
        (λ m. Stands (D.size_of disk.old) sizes s m ⊎ StandsLoaded (D.size_of disk.old) sizes s name (S.left input.old) m) }
    ensures tables_others { (name : List ℕ) (columns : List Column) (sizes : Sizes) (s : Tables)
        → (command_of (map string_bytes words.now) ≡ Some (create name columns)) ⊎ (command_of (map string_bytes words.now) ≡ Some (load name))
        → AreTables sizes s → StandsFor (D.size_of disk.old) sizes s (D.view disk.old) → (D.view disk.old).honest
        → LeavesOnly (contents_view sizes (D.view disk.old)) (contents_view sizes (D.view disk.new)) (After OnlyTables (contents_view sizes (D.view disk.old))) }

    // `explain` answers the one line of the input over some tables, whatever the disk is: that it is no query, in the way in
    // which it is none; that the query is refused over these tables, by the first refusal; or that it isn't, and no plan is
    // made. A bad line is told only where the input has it: a second line, or a first one that isn't UTF-8 or has more than 2,048
    // bytes; and an answer is told only where it has none. Else it is told that there is no store, a fault, or want of memory.
    // Over an honest disk that stands for tables, those of an answer are these, and it isn't told that there is no store; over
    // an honest disk on which no store with a catalogue stands, nothing is answered. No write is made, and no crash
    // leaves what it couldn't have left before.
    ensures explain { command_of (map string_bytes words.now) ≡ Some explain
        → (end : End) × (result ≡ status_of end) × ExplainRan (D.size_of disk.old) (S.left input.old) (S.left input.new) (D.view disk.old)
        (K.given out.old) (K.given out.new) (D.faults_of disk.old) (D.faults_of disk.new) (S.faults_of input.old) (S.faults_of input.new) (K.faults_of out.old) (K.faults_of out.new) end }
    ensures explain_disk { command_of (map string_bytes words.now) ≡ Some explain → Stays (D.view disk.old) (D.view disk.new) }
    ensures explain_writes { command_of (map string_bytes words.now) ≡ Some explain → D.writes_of disk.new ≡ D.writes_of disk.old }

    // A fault of the disk, the source or the sink is answered only where that count rose, by one. None is passed over:
    // where a count rose its status is answered, or that of the sink, where the sink has failed as well.
    ensures disk_fault { result ≡ status_of End.DiskFault → RoseByOne (D.faults_of disk.old) (D.faults_of disk.new) }
    ensures disk_told { (result ≡ status_of End.DiskFault) ⊎ (result ≡ status_of End.SinkFault) ⊎ (D.faults_of disk.new ≡ D.faults_of disk.old) }
    ensures source_fault { result ≡ status_of End.SourceFault → RoseByOne (S.faults_of input.old) (S.faults_of input.new) }
    ensures source_told { (result ≡ status_of End.SourceFault) ⊎ (result ≡ status_of End.SinkFault) ⊎ (S.faults_of input.new ≡ S.faults_of input.old) }
    ensures sink_fault { result ≡ status_of End.SinkFault → RoseByOne (K.faults_of out.old) (K.faults_of out.new) }
    ensures sink_told { (result ≡ status_of End.SinkFault) ⊎ (K.faults_of out.new ≡ K.faults_of out.old) }
    ensures statuses { (end : End) × (result ≡ status_of end) }

    // No count falls.
    ensures disk_count { D.faults_of disk.old ≤ D.faults_of disk.new }
    ensures source_count { S.faults_of input.old ≤ S.faults_of input.new }
    ensures sink_count { K.faults_of out.old ≤ K.faults_of out.new }
{
    match command_of(alloc, words) {
        Some(Command::Script) => row_script::run(alloc, disk, input, out).status(),
        Some(Command::Format { sizes }) => format::run(alloc, sizes, disk, out).status(),
        Some(Command::Create { name, columns }) => create::run(
            alloc, name, columns, disk, out,
        ).status(),
        Some(Command::Load { name }) => load::run(alloc, name, disk, input, out).status(),
        Some(Command::Explain) => explain::run(alloc, disk, input, out).status(),
        None => say_end(End::Usage, out),
    }
}
