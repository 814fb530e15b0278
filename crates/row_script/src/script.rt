ghost use Rattle.std.specs.Prelude.{◌≡◌, ◌≢◌, ◌⊎◌, ℕ, ◌+◌, ◌*◌, ◌<◌, ◌≤◌, ℤ, List, [], ◌∷◌, ◌++◌, Option, None, Some, length, take, drop, IfOk, IfErr, IfSome, OnOk, OnErr, OnSome};
ghost use Rattle.std.specs.Io.KnownBytes.{Appends, prepend_known};
ghost use Rattle.disk_model.specs.View.{EachImage, LeavesOnly, Stays};
ghost use Rattle.qsr_value.specs.Causes.{RoseByOne, count_after};
ghost use Rattle.row_script.specs.Answers.{Tells};
ghost use Rattle.row_script.specs.Ends.{EndCausedBy, CausedByLine, CutsTurn};
ghost use Rattle.input_lines.specs.Lines.{whole};
ghost use Rattle.row_script.specs.Machine.{no_numbers, serve};
ghost use Rattle.input_lines.specs.NextLine.{BeginsWholeTold, IsHeld, IsNextTold, IsPartial};
ghost use Rattle.row_script.specs.Progress.{Advances, Answers, Breaks, Closes, CutsOff, EndsBy, GoesOn, IsClosed, RunEnded, Sent, SentUpTo};
ghost use Rattle.row_script.specs.Replies.{row_text, rows_text, reply_text_of};
ghost use Rattle.row_script.specs.Rows.{HasNumbers, WritesRows};
ghost use Rattle.row_script.specs.Run.{HasRead, HasWritten, Ran};
ghost use Rattle.row_script.specs.Script.{BeginsBadTold, line_said};
ghost use Rattle.qsr_value.specs.declared.limits.TheConstants.{MAX_LINES};
ghost use Rattle.row_script.specs.declared.turns.TheConstants.{ROW_BYTES};

use crate::end::End;
use crate::numbers::Numbers;
use crate::replies::Replies;
use crate::reply::Reply;
use crate::script_line::{ScriptLine, line_of};
use crate::turns::{ROW_BYTES, read_row, turn};
use disk_model::Disk;
use input_lines::{LineBuffer, NextLine, without_cr};
use qsr_io::{Failed, Sink, Source, put_all};
use qsr_value::{ListOf, MAX_LINE, MAX_LINES, Memory};
use std::alloc::Global;

/// A script that is being served.
#[derive(Drop)]
pub struct Script {
    alloc: Global,
    /// How many bytes the disk has.
    size: u64,
    numbers: Numbers,
    /// How many lines were served.
    served: u32,
    input: LineBuffer,
    replies: Replies,
    ghost counted: { served ≤ MAX_LINES },
    ghost within: { numbers.acknowledged ≤ length numbers.rows },
    ghost fits: { ROW_BYTES * length numbers.rows ≤ size },
}

impl Script {
    pub fn new(alloc: Global, size: u64) -> Result<Script, Memory>
        ensures size { IfOk result (λ script. script.size ≡ size) }
        ensures numbers { IfOk result (λ script. script.numbers ≡ no_numbers) }
        ensures empty { IfOk result (λ script. (script.served ≡ 0) × (script.input ≡ []) × (script.replies ≡ [])) }
    {
        Ok(Script {
            alloc,
            size,
            numbers: Numbers {
                rows: ListOf::new(alloc),
                acknowledged: 0,
            },
            served: 0,
            input: LineBuffer::new(alloc)?,
            replies: Replies::new(alloc),
        })
    }

    /// Adds a row, and holds the reply.
    fn add_row(&mut self, value: i64) -> Result<(), Memory>
        ensures numbers { OnOk result (self.new.numbers ≡ (serve self.old.size self.old.numbers (ScriptLine.Row value)).numbers) }
        ensures reply { OnOk result (self.new.replies ≡ self.old.replies ++ reply_text_of (serve self.old.size self.old.numbers (ScriptLine.Row value)).reply) }
        ensures err { OnErr result (self.new.replies ≡ self.old.replies) }
        ensures same { (self.new.size ≡ self.old.size) × (self.new.served ≡ self.old.served) × (self.new.input ≡ self.old.input) }
    {
        if self.numbers.rows.len() as u64 >= self.size / ROW_BYTES {
            return self.replies.push(self.alloc, Reply::TableFull);
        }
        self.numbers.rows.push(value)?;
        self.replies.push(self.alloc, Reply::Added)
    }

    /// Writes the next rows to the disk, and holds the reply.
    fn take_turn<D: Disk>(&mut self, count: u64, disk: &mut D) -> Result<(), End>
        requires { self.old.size ≤ D.size_of disk.old }
        ensures numbers { OnOk result (self.new.numbers ≡ (serve self.old.size self.old.numbers (ScriptLine.Turn count)).numbers) }
        ensures reply { OnOk result (self.new.replies ≡ self.old.replies ++ reply_text_of (serve self.old.size self.old.numbers (ScriptLine.Turn count)).reply) }
        ensures err { OnErr result (self.new.replies ≡ self.old.replies) }
        ensures cause { IfErr result (λ end. CutsTurn end (D.faults_of disk.old) (D.faults_of disk.new)) }
        ensures crash { EachImage (D.view disk.old) (HasNumbers self.old.numbers) → LeavesOnly (D.view disk.old) (D.view disk.new) (HasNumbers self.old.numbers) }
        ensures last { OnOk result (EachImage (D.view disk.old) (HasNumbers self.old.numbers) → EachImage (D.view disk.new) (HasNumbers self.new.numbers)) }
        ensures unfailed { OnOk result (D.faults_of disk.new ≡ D.faults_of disk.old) }
        ensures reads { D.reads_of disk.new ≡ D.reads_of disk.old }
        ensures writes { OnOk result (WritesRows self.old.numbers.acknowledged self.new.numbers.acknowledged (D.writes_of disk.old) (D.writes_of disk.new)) }
        ensures size { D.size_of disk.new ≡ D.size_of disk.old }
        ensures same { (self.new.size ≡ self.old.size) × (self.new.served ≡ self.old.served) × (self.new.input ≡ self.old.input) }
    {
        let rows = self.numbers.rows.as_slice();
        let all = rows.len() as u64;
        let now = match turn(disk, rows, self.numbers.acknowledged, count) {
            Ok(now) => now,
            Err(Failed) => return Err(End::DiskFault),
        };
        self.numbers.acknowledged = now;
        let rows = now as u64;
        let reply = if rows == all {
            Reply::Done { rows }
        } else {
            Reply::Paused { rows }
        };
        match self.replies.push(self.alloc, reply) {
            Ok(()) => Ok(()),
            Err(Memory) => Err(End::NoMemory),
        }
    }

    /// Holds the line of a row that is listed. What is held goes to the sink where it has become long.
    fn list_row<K: Sink>(&mut self, value: i64, sink: &mut K) -> Result<(), End>
        ensures ok { OnOk result (Sent (K.given sink.old) (K.given sink.new) self.new.replies (self.old.replies ++ row_text value)) }
        ensures err { IfErr result (λ end. (rows : List ℤ) × ((rows ≡ []) ⊎ (rows ≡ value ∷ [])) × SentUpTo end (K.given sink.old) (K.given sink.new) self.new.replies (self.old.replies ++ rows_text rows)) }
        ensures cause { IfErr result (λ end. (disk : ℕ) → CausedByLine end disk disk (K.faults_of sink.old) (K.faults_of sink.new)) }
        ensures unfailed { OnOk result (K.faults_of sink.new ≡ K.faults_of sink.old) }
        ensures same { (self.new.size ≡ self.old.size) × (self.new.numbers ≡ self.old.numbers) × (self.new.served ≡ self.old.served) × (self.new.input ≡ self.old.input) }
    {
        let Ok(()) = self.replies.push_row(value) else {
            return Err(End::NoMemory);
        };
        if !self.replies.are_long() {
            return Ok(());
        }
        match self.replies.send(sink) {
            Ok(()) => Ok(()),
            Err(Failed) => Err(End::SinkFault),
        }
    }

    /// Lists the acknowledged rows as the disk has them, and then says how many they are.
    fn list_rows<D: Disk, K: Sink>(&mut self, disk: &mut D, sink: &mut K) -> Result<(), End>
        requires { self.old.size ≤ D.size_of disk.old }
        ensures ok { OnOk result (Answers (Tells (D.view disk.old) self.old.numbers) self.old.size self.old.numbers ScriptLine.Rows
            (K.given sink.old) (K.given sink.new) self.old.replies self.new.replies) }
        ensures err { IfErr result (λ end. CutsOff (Tells (D.view disk.old) self.old.numbers) self.old.size self.old.numbers ScriptLine.Rows end
            (K.given sink.old) (K.given sink.new) self.old.replies self.new.replies) }
        ensures cause { IfErr result (λ end. CausedByLine end (D.faults_of disk.old) (D.faults_of disk.new) (K.faults_of sink.old) (K.faults_of sink.new)) }
        ensures stays { Stays (D.view disk.old) (D.view disk.new) }
        ensures unfailed { OnOk result ((D.faults_of disk.new ≡ D.faults_of disk.old) × (K.faults_of sink.new ≡ K.faults_of sink.old)) }
        ensures reads { OnOk result (D.reads_of disk.new ≡ count_after self.old.numbers.acknowledged (D.reads_of disk.old)) }
        ensures writes { D.writes_of disk.new ≡ D.writes_of disk.old }
        ensures syncs { D.syncs_of disk.new ≡ D.syncs_of disk.old }
        ensures size { D.size_of disk.new ≡ D.size_of disk.old }
        ensures same { (self.new.size ≡ self.old.size) × (self.new.numbers ≡ self.old.numbers) × (self.new.served ≡ self.old.served) × (self.new.input ≡ self.old.input) }
    {
        let rows = self.numbers.acknowledged;
        for place in 0..rows {
            // For the proof: that what is read is the row asks for the row to be within 64 bits, which is known of what is taken out.
            let _row = *self.numbers.rows.get(place);
            let Ok(value) = read_row(disk, place) else {
                return Err(End::DiskFault);
            };
            if let Err(end) = self.list_row(value, sink) {
                return Err(end);
            }
        }
        match self
            .replies
            .push(self.alloc, Reply::Listed { rows: rows as u64 })
        {
            Ok(()) => Ok(()),
            Err(Memory) => Err(End::NoMemory),
        }
    }

    /// Does what a line says, and holds the answer to it. This layer is there for the three kinds of lines.
    fn serve<D: Disk, K: Sink>(
        &mut self,
        line: ScriptLine,
        disk: &mut D,
        sink: &mut K,
    ) -> Result<(), End>
        requires { self.old.size ≤ D.size_of disk.old }
        ensures ok { OnOk result (Answers (Tells (D.view disk.old) self.old.numbers) self.old.size self.old.numbers line
            (K.given sink.old) (K.given sink.new) self.old.replies self.new.replies) }
        ensures numbers { OnOk result (self.new.numbers ≡ (serve self.old.size self.old.numbers line).numbers) }
        ensures err { IfErr result (λ end. CutsOff (Tells (D.view disk.old) self.old.numbers) self.old.size self.old.numbers line end
            (K.given sink.old) (K.given sink.new) self.old.replies self.new.replies) }
        ensures cause { IfErr result (λ end. CausedByLine end (D.faults_of disk.old) (D.faults_of disk.new) (K.faults_of sink.old) (K.faults_of sink.new)) }
        ensures crash { EachImage (D.view disk.old) (HasNumbers self.old.numbers) → LeavesOnly (D.view disk.old) (D.view disk.new) (HasNumbers self.old.numbers) }
        ensures last { OnOk result (EachImage (D.view disk.old) (HasNumbers self.old.numbers) → EachImage (D.view disk.new) (HasNumbers self.new.numbers)) }
        ensures unfailed { OnOk result ((D.faults_of disk.new ≡ D.faults_of disk.old) × (K.faults_of sink.new ≡ K.faults_of sink.old)) }
        ensures reads { OnOk result (D.reads_of disk.new ≡ count_after (length (serve self.old.size self.old.numbers line).listed) (D.reads_of disk.old)) }
        ensures writes { OnOk result (WritesRows self.old.numbers.acknowledged self.new.numbers.acknowledged (D.writes_of disk.old) (D.writes_of disk.new)) }
        ensures cut_reads { OnErr result (HasRead (Some line) 0 (D.reads_of disk.old) (D.reads_of disk.new)) }
        ensures cut_writes { OnErr result (HasWritten (Some line) 0 (D.writes_of disk.old) (D.writes_of disk.new)) }
        ensures size { D.size_of disk.new ≡ D.size_of disk.old }
        ensures same { (self.new.size ≡ self.old.size) × (self.new.served ≡ self.old.served) × (self.new.input ≡ self.old.input) }
    {
        match line {
            ScriptLine::Row { value } => match self.add_row(value) {
                Ok(()) => Ok(()),
                Err(Memory) => Err(End::NoMemory),
            },
            ScriptLine::Turn { count } => match self.take_turn(count, disk) {
                Ok(()) => Ok(()),
                Err(end) => Err(end),
            },
            ScriptLine::Rows => self.list_rows(disk, sink),
        }
    }

    /// What the next line says, whose text is the first `len` bytes of the held input. None where it is bad.
    fn read_line(&self, len: usize) -> Option<ScriptLine>
        requires within { len < length self.now.input }
        requires short { len ≤ MAX_LINE }
        ensures says { result ≡ line_said (self.now.served + 1) (whole (take len self.now.input)) }
        ensures count { OnSome result (self.now.served < MAX_LINES) }
    {
        if self.served >= MAX_LINES {
            return None;
        }
        line_of(without_cr(&self.input.as_slice()[..len]))
    }

    /// Serves the line of `len` bytes that the held input begins with. This layer is there to take the line off and to count it.
    fn take_line<D: Disk, K: Sink>(
        &mut self,
        len: usize,
        line: ScriptLine,
        disk: &mut D,
        sink: &mut K,
    ) -> Result<(), End>
        requires within { len < length self.old.input }
        requires short { len ≤ MAX_LINE }
        requires count { self.old.served < MAX_LINES }
        requires size { self.old.size ≤ D.size_of disk.old }
        ensures ok { OnOk result ((left : _) → BeginsWholeTold len self.old.input left
            → line_said (self.old.served + 1) (whole (take len self.old.input)) ≡ Some line
            → Advances (Tells (D.view disk.old) self.old.numbers) self.old.size
            (prepend_known self.old.input left) (K.given sink.old) self.old.replies self.old.served self.old.numbers
            (prepend_known self.new.input left) (K.given sink.new) self.new.replies self.new.served self.new.numbers
            (D.reads_of disk.old) (D.reads_of disk.new) (D.writes_of disk.old) (D.writes_of disk.new)) }
        ensures err { IfErr result (λ end. (left : _) → BeginsWholeTold len self.old.input left
            → line_said (self.old.served + 1) (whole (take len self.old.input)) ≡ Some line
            → Breaks (Tells (D.view disk.old) self.old.numbers) self.old.size
            (prepend_known self.old.input left) (K.given sink.old) self.old.replies self.old.served self.old.numbers
            left end (K.given sink.new) self.new.replies
            (D.reads_of disk.old) (D.reads_of disk.new) (D.writes_of disk.old) (D.writes_of disk.new)) }
        ensures cause { IfErr result (λ end. CausedByLine end (D.faults_of disk.old) (D.faults_of disk.new) (K.faults_of sink.old) (K.faults_of sink.new)) }
        ensures crash { EachImage (D.view disk.old) (HasNumbers self.old.numbers) → LeavesOnly (D.view disk.old) (D.view disk.new) (HasNumbers self.old.numbers) }
        ensures last { OnOk result (EachImage (D.view disk.old) (HasNumbers self.old.numbers) → EachImage (D.view disk.new) (HasNumbers self.new.numbers)) }
        ensures unfailed { OnOk result ((D.faults_of disk.new ≡ D.faults_of disk.old) × (K.faults_of sink.new ≡ K.faults_of sink.old)) }
        ensures served { OnOk result (self.new.served ≡ self.old.served + 1) }
        ensures size { D.size_of disk.new ≡ D.size_of disk.old }
        ensures same { self.new.size ≡ self.old.size }
    {
        match self.serve(line, disk, sink) {
            Ok(()) => {
                self.input.consume(len + 1);
                self.served += 1;
                Ok(())
            }
            Err(end) => Err(end),
        }
    }

    /// Says that the next line is bad.
    fn refuse_line(&mut self) -> End
        ensures ends { (left given : _) → BeginsBadTold self.old.served (prepend_known self.old.input left)
            → EndsBy self.old.size (prepend_known self.old.input left) given self.old.replies self.old.served self.old.numbers left None [] result given self.new.replies }
        ensures cause { (disk sink : ℕ) → CausedByLine result disk disk sink sink }
        ensures same { self.new.size ≡ self.old.size }
    {
        let number = u64::from(self.served) + 1;
        match self.replies.push(self.alloc, Reply::BadLine { number }) {
            Ok(()) => End::BadLine,
            Err(Memory) => End::NoMemory,
        }
    }

    /// Serves the next line, of which the held input tells what it is. This layer is there for the lines that are bad or none.
    fn serve_next<D: Disk, K: Sink>(
        &mut self,
        next: NextLine,
        disk: &mut D,
        sink: &mut K,
    ) -> Result<(), End>
        requires held { IsHeld next self.old.input }
        requires size { self.old.size ≤ D.size_of disk.old }
        ensures ok { OnOk result ((left : _) → IsNextTold next self.old.input left
            → Advances (Tells (D.view disk.old) self.old.numbers) self.old.size
            (prepend_known self.old.input left) (K.given sink.old) self.old.replies self.old.served self.old.numbers
            (prepend_known self.new.input left) (K.given sink.new) self.new.replies self.new.served self.new.numbers
            (D.reads_of disk.old) (D.reads_of disk.new) (D.writes_of disk.old) (D.writes_of disk.new)) }
        ensures err { IfErr result (λ end. (left : _) → IsNextTold next self.old.input left
            → Breaks (Tells (D.view disk.old) self.old.numbers) self.old.size
            (prepend_known self.old.input left) (K.given sink.old) self.old.replies self.old.served self.old.numbers
            left end (K.given sink.new) self.new.replies
            (D.reads_of disk.old) (D.reads_of disk.new) (D.writes_of disk.old) (D.writes_of disk.new)) }
        ensures cause { IfErr result (λ end. CausedByLine end (D.faults_of disk.old) (D.faults_of disk.new) (K.faults_of sink.old) (K.faults_of sink.new)) }
        ensures crash { EachImage (D.view disk.old) (HasNumbers self.old.numbers) → LeavesOnly (D.view disk.old) (D.view disk.new) (HasNumbers self.old.numbers) }
        ensures last { OnOk result (EachImage (D.view disk.old) (HasNumbers self.old.numbers) → EachImage (D.view disk.new) (HasNumbers self.new.numbers)) }
        ensures unfailed { OnOk result ((D.faults_of disk.new ≡ D.faults_of disk.old) × (K.faults_of sink.new ≡ K.faults_of sink.old)) }
        ensures served { OnOk result (self.new.served ≡ self.old.served + 1) }
        ensures size { D.size_of disk.new ≡ D.size_of disk.old }
        ensures same { self.new.size ≡ self.old.size }
    {
        match next {
            NextLine::Whole { len } => match self.read_line(len) {
                Some(line) => self.take_line(len, line, disk, sink),
                None => Err(self.refuse_line()),
            },
            NextLine::TooLong => Err(self.refuse_line()),
            NextLine::Unended => Err(self.refuse_line()),
            NextLine::End => Err(End::Finished),
        }
    }

    /// Reads on up to the end of the next line. What is held of the replies goes to the sink before the source is
    /// waited for.
    fn read_on<S: Source, K: Sink>(&mut self, source: &mut S, sink: &mut K) -> Result<NextLine, End>
        requires { IsPartial self.old.input }
        ensures held { IfOk result (λ next. IsHeld next self.new.input) }
        ensures found { IfOk result (λ next. IsNextTold next self.new.input (S.left source.new)) }
        ensures ok { OnOk result (GoesOn self.old.size
            (prepend_known self.old.input (S.left source.old)) (K.given sink.old) self.old.replies self.old.served self.old.numbers
            (prepend_known self.new.input (S.left source.new)) (K.given sink.new) self.new.replies self.new.served self.new.numbers) }
        ensures err { IfErr result (λ end. EndsBy self.old.size
            (prepend_known self.old.input (S.left source.old)) (K.given sink.old) self.old.replies self.old.served self.old.numbers
            (S.left source.new) None [] end (K.given sink.new) self.new.replies) }
        ensures cause { IfErr result (λ end. (disk : ℕ) → EndCausedBy end disk disk (S.faults_of source.old) (S.faults_of source.new) (K.faults_of sink.old) (K.faults_of sink.new)) }
        ensures unfailed { OnOk result ((S.faults_of source.new ≡ S.faults_of source.old) × (K.faults_of sink.new ≡ K.faults_of sink.old)) }
        ensures same { (self.new.size ≡ self.old.size) × (self.new.served ≡ self.old.served) × (self.new.numbers ≡ self.old.numbers) }
    {
        let Ok(()) = self.replies.send(sink) else {
            return Err(End::SinkFault);
        };
        match self.input.read_on(source) {
            Ok(next) => Ok(next),
            Err(Failed) => Err(End::SourceFault),
        }
    }

    /// What comes next: what the held input tells, or else what is read.
    fn await_line<S: Source, K: Sink>(
        &mut self,
        source: &mut S,
        sink: &mut K,
    ) -> Result<NextLine, End>
        ensures held { IfOk result (λ next. IsHeld next self.new.input) }
        ensures found { IfOk result (λ next. IsNextTold next self.new.input (S.left source.new)) }
        ensures ok { OnOk result (GoesOn self.old.size
            (prepend_known self.old.input (S.left source.old)) (K.given sink.old) self.old.replies self.old.served self.old.numbers
            (prepend_known self.new.input (S.left source.new)) (K.given sink.new) self.new.replies self.new.served self.new.numbers) }
        ensures err { IfErr result (λ end. EndsBy self.old.size
            (prepend_known self.old.input (S.left source.old)) (K.given sink.old) self.old.replies self.old.served self.old.numbers
            (S.left source.new) None [] end (K.given sink.new) self.new.replies) }
        ensures cause { IfErr result (λ end. (disk : ℕ) → EndCausedBy end disk disk (S.faults_of source.old) (S.faults_of source.new) (K.faults_of sink.old) (K.faults_of sink.new)) }
        ensures unfailed { OnOk result ((S.faults_of source.new ≡ S.faults_of source.old) × (K.faults_of sink.new ≡ K.faults_of sink.old)) }
        ensures same { (self.new.size ≡ self.old.size) × (self.new.served ≡ self.old.served) × (self.new.numbers ≡ self.old.numbers) }
    {
        match self.input.held_line() {
            Some(next) => Ok(next),
            None => self.read_on(source, sink),
        }
    }

    /// Serves the next line of the source. This layer is one round of the loop: it reads, and then serves.
    fn step<D: Disk, S: Source, K: Sink>(
        &mut self,
        disk: &mut D,
        source: &mut S,
        sink: &mut K,
    ) -> Result<(), End>
        requires { self.old.size ≤ D.size_of disk.old }
        ensures ok { OnOk result (Advances (Tells (D.view disk.old) self.old.numbers) self.old.size
            (prepend_known self.old.input (S.left source.old)) (K.given sink.old) self.old.replies self.old.served self.old.numbers
            (prepend_known self.new.input (S.left source.new)) (K.given sink.new) self.new.replies self.new.served self.new.numbers
            (D.reads_of disk.old) (D.reads_of disk.new) (D.writes_of disk.old) (D.writes_of disk.new)) }
        ensures err { IfErr result (λ end. Breaks (Tells (D.view disk.old) self.old.numbers) self.old.size
            (prepend_known self.old.input (S.left source.old)) (K.given sink.old) self.old.replies self.old.served self.old.numbers
            (S.left source.new) end (K.given sink.new) self.new.replies
            (D.reads_of disk.old) (D.reads_of disk.new) (D.writes_of disk.old) (D.writes_of disk.new)) }
        ensures cause { IfErr result (λ end. EndCausedBy end (D.faults_of disk.old) (D.faults_of disk.new)
            (S.faults_of source.old) (S.faults_of source.new) (K.faults_of sink.old) (K.faults_of sink.new)) }
        ensures crash { EachImage (D.view disk.old) (HasNumbers self.old.numbers) → LeavesOnly (D.view disk.old) (D.view disk.new) (HasNumbers self.old.numbers) }
        ensures last { OnOk result (EachImage (D.view disk.old) (HasNumbers self.old.numbers) → EachImage (D.view disk.new) (HasNumbers self.new.numbers)) }
        ensures unfailed { OnOk result ((D.faults_of disk.new ≡ D.faults_of disk.old) × (S.faults_of source.new ≡ S.faults_of source.old) × (K.faults_of sink.new ≡ K.faults_of sink.old)) }
        ensures served { OnOk result (self.new.served ≡ self.old.served + 1) }
        ensures size { D.size_of disk.new ≡ D.size_of disk.old }
        ensures same { self.new.size ≡ self.old.size }
    {
        match self.await_line(source, sink) {
            Ok(next) => self.serve_next(next, disk, sink),
            Err(end) => Err(end),
        }
    }

    /// Serves the lines of the source up to its end or to the first bad line.
    fn serve_all<D: Disk, S: Source, K: Sink>(
        &mut self,
        disk: &mut D,
        source: &mut S,
        sink: &mut K,
    ) -> End
        requires size { self.old.size ≤ D.size_of disk.old }
        requires numbers { self.old.numbers ≡ no_numbers }
        requires fresh { (self.old.served ≡ 0) × (self.old.input ≡ []) × (self.old.replies ≡ []) }
        ensures ends { RunEnded self.old.size (S.left source.old) (S.left source.new) result
            (K.given sink.old) (K.given sink.new) self.new.replies (D.view disk.old) (D.view disk.new)
            (D.reads_of disk.old) (D.reads_of disk.new) (D.writes_of disk.old) (D.writes_of disk.new) }
        ensures cause { EndCausedBy result (D.faults_of disk.old) (D.faults_of disk.new)
            (S.faults_of source.old) (S.faults_of source.new) (K.faults_of sink.old) (K.faults_of sink.new) }
    {
        'lines: loop {
            match self.step(disk, source, sink) {
                Ok(()) => {}
                Err(end) => return end,
            }
        }
    }

    /// Gives the sink what is held of the replies and what is said of the end. A sink that failed is called no more.
    fn close<K: Sink>(&mut self, end: End, sink: &mut K) -> End
        ensures closed { (left left' first : Option (List ℕ)) (done : List ScriptLine) (cut : Option ScriptLine) (line_said : List ℕ)
            → Closes left left' end first (K.given sink.old) self.old.replies done cut line_said
            → IsClosed left left' result first (K.given sink.new) done cut line_said }
        ensures cause { ((result ≡ end) × (K.faults_of sink.new ≡ K.faults_of sink.old))
            ⊎ ((result ≡ End.SinkFault) × (end ≢ End.SinkFault) × RoseByOne (K.faults_of sink.old) (K.faults_of sink.new)) }
    {
        if end == End::SinkFault {
            return end;
        }
        let Ok(()) = self.replies.send(sink) else {
            return End::SinkFault;
        };
        let Ok(()) = put_all(sink, end.text().as_bytes()) else {
            return End::SinkFault;
        };
        end
    }
}

/// Serves the script that the source gives, over the disk, and gives the sink the replies and what is said of the end.
pub fn run<D: Disk, S: Source, K: Sink>(
    alloc: Global,
    disk: &mut D,
    source: &mut S,
    sink: &mut K,
) -> End
    ensures ran { Ran (D.size_of disk.old) (S.left source.old) (S.left source.new) (K.given sink.old) (K.given sink.new)
        (D.view disk.old) (D.view disk.new) (D.reads_of disk.old) (D.reads_of disk.new) (D.writes_of disk.old) (D.writes_of disk.new) result }
    ensures cause { EndCausedBy result (D.faults_of disk.old) (D.faults_of disk.new)
        (S.faults_of source.old) (S.faults_of source.new) (K.faults_of sink.old) (K.faults_of sink.new) }
{
    match Script::new(alloc, disk.size()) {
        Ok(mut script) => {
            let end = script.serve_all(disk, source, sink);
            script.close(end, sink)
        }
        Err(Memory) => match put_all(sink, End::NoMemory.text().as_bytes()) {
            Ok(()) => End::NoMemory,
            Err(Failed) => End::SinkFault,
        },
    }
}
