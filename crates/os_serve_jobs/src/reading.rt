ghost use Rattle.std.specs.Prelude.{◌≡◌, ◌<◌, ◌≤◌, ◌+◌, ◌⊎◌, ◌∷◌, ◌++◌, [], All, IsTrue, OnErr, OnOk, false, max, vec_len};
ghost use Rattle.std.specs.List.{flat_map};
ghost use Rattle.os_serve_jobs.specs.Cutting.{HasMore, TookPiece, left_to_do};
ghost use Rattle.os_io.specs.Lines.{ended_line};
ghost use Rattle.os_serve_jobs.specs.Lines.{IsLine, jobs_limit, last_line};
ghost use Rattle.os_serve_jobs.specs.Reading.{CutsOn, HasRead, IsDone, IsFresh, IsReading, ReadsOn, uncut, waiting_lines};

use crate::cutting::{cut, end_line};
use crate::input_state::InputState;
use os_io::{Files, Memory};
use std::alloc::Global;

/// How many bytes a file of jobs may have.
const JOBS_LIMIT: u32 = 4_194_304;
/// How many bytes are asked for at once.
const PIECE: usize = 8192;

/// A file of jobs that is read by lines: the line that has begun, and a piece of the file, of which a part is not cut into lines
/// yet.
#[derive(Drop)]
pub struct Reading {
    pub(crate) piece: Vec<u8>,
    /// Where the part of the piece begins that is not cut yet.
    pub(crate) next: usize,
    /// Where the part of the piece ends that was read and is not cut yet.
    pub(crate) filled: usize,
    pub(crate) line: Vec<u8>,
    /// How many bytes were given, at most one more than the limit.
    pub(crate) total: u32,
    /// Whether more may come.
    pub source: InputState,
}

impl Reading {
    /// A file of which nothing was read yet. It takes no memory.
    pub fn new(alloc: Global) -> Reading
        ensures { IsFresh result }
    {
        Reading {
            piece: Vec::new(alloc),
            next: 0,
            filled: 0,
            line: Vec::new(alloc),
            total: 0,
            source: InputState::Open,
        }
    }

    /// Opens the file.
    pub fn open<J: Files>(&mut self, jobs: &mut J, name: &str)
        requires fresh { IsFresh self.old }
        requires may { IsTrue (J.may jobs.old (J.opens jobs.old) name.now) }
        ensures is_reading { IsReading self.new }
        ensures given { J.given jobs.new ≡ self.new.total }
        ensures begun { HasRead J.Files (J.holds jobs.old name.now) (J.faults jobs.old) jobs.new self.new [] }
    {
        if jobs.open(name).is_err() {
            self.source = InputState::Failed;
        }
    }

    /// Reads on until `most` lines wait, or none can come any more. Where `Memory` comes, nothing is lost of what was read.
    pub fn read_on<J: Files>(
        &mut self,
        alloc: Global,
        jobs: &mut J,
        waiting: &mut Vec<Vec<u8>>,
        most: usize,
    ) -> Result<(), Memory>
        requires is_reading { IsReading self.old }
        requires given { J.given jobs.old ≡ self.old.total }
        ensures is_reading { IsReading self.new }
        ensures given { J.given jobs.new ≡ self.new.total }
        ensures reads { ReadsOn J.Files jobs.old jobs.new self.old self.new (waiting_lines waiting.old.items) (waiting_lines waiting.new.items) }
        ensures enough { OnOk result ((most ≤ vec_len waiting.new) ⊎ IsDone self.new) }
        ensures few { vec_len waiting.new ≤ max most (vec_len waiting.old) }
    {
        'reading: while waiting.len() < most && !self.is_done() {
            self.step(alloc, jobs, waiting)?;
        }
        Ok(())
    }

    /// Cuts lines off what was read already, until `most` wait or all of it is cut. It reads nothing. Where `Memory` comes, nothing is
    /// lost of what was read.
    pub fn cut_on(
        &mut self,
        alloc: Global,
        waiting: &mut Vec<Vec<u8>>,
        most: usize,
    ) -> Result<(), Memory>
        requires { IsReading self.old }
        ensures is_reading { IsReading self.new }
        ensures cuts { CutsOn self.old self.new (waiting_lines waiting.old.items) (waiting_lines waiting.new.items) }
        ensures enough { OnOk result ((most ≤ vec_len waiting.new) ⊎ (self.new.next ≡ self.new.filled)) }
        ensures few { vec_len waiting.new ≤ max most (vec_len waiting.old) }
    {
        'cutting: while waiting.len() < most && self.next < self.filled {
            self.cut_next(alloc, waiting)?;
        }
        Ok(())
    }

    /// Whether no line can come any more.
    pub fn is_done(&self) -> bool
        requires { IsReading self.now }
        ensures done { IsTrue result → IsDone self.now }
        ensures more { result ≡ false → HasMore self.now }
    {
        self.next == self.filled && self.source != InputState::Open
    }

    /// Cuts the next line off the piece, or reads the next piece.
    fn step<J: Files>(
        &mut self,
        alloc: Global,
        jobs: &mut J,
        waiting: &mut Vec<Vec<u8>>,
    ) -> Result<(), Memory>
        requires is_reading { IsReading self.old }
        requires given { J.given jobs.old ≡ self.old.total }
        requires more { HasMore self.old }
        ensures is_reading { IsReading self.new }
        ensures given { J.given jobs.new ≡ self.new.total }
        ensures reads { ReadsOn J.Files jobs.old jobs.new self.old self.new (waiting_lines waiting.old.items) (waiting_lines waiting.new.items) }
        ensures one { vec_len waiting.new ≤ vec_len waiting.old + 1 }
        ensures smaller { OnOk result (left_to_do self.new < left_to_do self.old) }
    {
        if self.next < self.filled {
            return self.cut_next(alloc, waiting);
        }
        self.read_piece(alloc, jobs, waiting)
    }

    /// Cuts the next line off the piece.
    fn cut_next(&mut self, alloc: Global, waiting: &mut Vec<Vec<u8>>) -> Result<(), Memory>
        requires is_reading { IsReading self.old }
        requires some { self.old.next < self.old.filled }
        ensures is_reading { IsReading self.new }
        ensures same { flat_map ended_line (waiting_lines waiting.new.items) ++ uncut self.new
            ≡ flat_map ended_line (waiting_lines waiting.old.items) ++ uncut self.old }
        ensures each { All IsLine (waiting_lines waiting.old.items) → All IsLine (waiting_lines waiting.new.items) }
        ensures total { self.new.total ≡ self.old.total }
        ensures source { self.new.source ≡ self.old.source }
        ensures one { vec_len waiting.new ≤ vec_len waiting.old + 1 }
        ensures smaller { OnOk result (left_to_do self.new < left_to_do self.old) }
    {
        let count = cut(
            alloc,
            &self.piece[self.next..self.filled],
            &mut self.line,
            waiting,
        )?;
        self.next += count;
        Ok(())
    }

    /// Reads the next piece, where the one before is cut whole.
    fn read_piece<J: Files>(
        &mut self,
        alloc: Global,
        jobs: &mut J,
        waiting: &mut Vec<Vec<u8>>,
    ) -> Result<(), Memory>
        requires is_reading { IsReading self.old }
        requires given { J.given jobs.old ≡ self.old.total }
        requires all_cut { self.old.next ≡ self.old.filled }
        requires is_open { self.old.source ≡ InputState.Open }
        ensures is_reading { IsReading self.new }
        ensures given { J.given jobs.new ≡ self.new.total }
        ensures reads { ReadsOn J.Files jobs.old jobs.new self.old self.new (waiting_lines waiting.old.items) (waiting_lines waiting.new.items) }
        ensures one { vec_len waiting.new ≤ vec_len waiting.old + 1 }
        ensures smaller { OnOk result (left_to_do self.new < left_to_do self.old) }
    {
        self.make_room()?;
        match jobs.read(&mut self.piece) {
            Ok(0) => self.end(alloc, waiting),
            Ok(count) => {
                self.take(count);
                Ok(())
            }
            Err(_) => {
                self.source = InputState::Failed;
                Ok(())
            }
        }
    }

    /// Makes the piece as long as what may be read at once.
    fn make_room(&mut self) -> Result<(), Memory>
        requires is_reading { IsReading self.old }
        requires all_cut { self.old.next ≡ self.old.filled }
        requires is_open { self.old.source ≡ InputState.Open }
        ensures is_reading { IsReading self.new }
        ensures all_cut { self.new.next ≡ self.new.filled }
        ensures line { self.new.line ≡ self.old.line }
        ensures total { self.new.total ≡ self.old.total }
        ensures source { self.new.source ≡ self.old.source }
        ensures some { OnOk result (0 < vec_len self.new.piece) }
        ensures limited { OnOk result (self.new.total + vec_len self.new.piece ≤ jobs_limit + 1) }
    {
        self.next = 0;
        self.filled = 0;
        let most = PIECE.min((JOBS_LIMIT + 1 - self.total) as usize);
        self.piece.resize(most, 0)?;
        Ok(())
    }

    /// Takes what was read at the front of the piece. One byte past the limit is left out, and ends the reading.
    fn take(&mut self, count: usize)
        requires is_reading { IsReading self.old }
        requires is_open { self.old.source ≡ InputState.Open }
        requires some { 0 < count }
        requires within { count ≤ vec_len self.old.piece }
        requires limited { self.old.total + count ≤ jobs_limit + 1 }
        ensures is_reading { IsReading self.new }
        ensures total { self.new.total ≡ self.old.total + count }
        ensures line { self.new.line.items ≡ self.old.line.items }
        ensures took { TookPiece self.old.piece.items count self.new }
        ensures smaller { left_to_do self.new < left_to_do self.old }
    {
        self.total += count as u32;
        self.next = 0;
        if self.total > JOBS_LIMIT {
            self.filled = count - 1;
            self.source = InputState::TooLong;
        } else {
            self.filled = count;
        }
    }

    /// Ends the reading at the end of the file: where a line has begun, it is the last one.
    fn end(&mut self, alloc: Global, waiting: &mut Vec<Vec<u8>>) -> Result<(), Memory>
        requires is_reading { IsReading self.old }
        requires all_cut { self.old.next ≡ self.old.filled }
        requires is_open { self.old.source ≡ InputState.Open }
        ensures is_reading { IsReading self.new }
        ensures total { self.new.total ≡ self.old.total }
        ensures waits { OnOk result (waiting_lines waiting.new.items ≡ waiting_lines waiting.old.items ++ last_line self.old.line.items) }
        ensures none_left { OnOk result (uncut self.new ≡ []) }
        ensures ended { OnOk result (self.new.source ≡ InputState.AtEnd) }
        ensures left { OnErr result (uncut self.new ≡ uncut self.old) }
        ensures waiting { OnErr result (waiting.new.items ≡ waiting.old.items) }
        ensures source { OnErr result (self.new.source ≡ self.old.source) }
        ensures one { vec_len waiting.new ≤ vec_len waiting.old + 1 }
        ensures smaller { OnOk result (left_to_do self.new < left_to_do self.old) }
    {
        if !self.line.is_empty() {
            end_line(alloc, &[], &mut self.line, waiting)?;
        }
        self.source = InputState::AtEnd;
        Ok(())
    }
}

/// Takes the first of the lines that wait.
pub fn take_first(waiting: &mut Vec<Vec<u8>>) -> Vec<u8>
    requires { 0 < vec_len waiting.old }
    ensures taken { waiting_lines waiting.old.items ≡ result.items ∷ waiting_lines waiting.new.items }
    ensures len { vec_len waiting.new + 1 ≡ vec_len waiting.old }
{
    waiting.remove(0)
}
