// One turn on the parts of its own job, so that the block stays where it is.
ghost use Rattle.std.specs.Prelude.{◌≡◌, ◌-◌, ◌≤◌, ◌<◌, nat_eq, nat_le, find, option_map};
ghost use Rattle.std.specs.List.{list_all};
ghost use Rattle.theory.specs.Engine.{last_value, or_else};
ghost use Rattle.rules.specs.View.{empty_reads, journal_of};
ghost use Rattle.rules.specs.Moves.{Adds};
ghost use Rattle.rules.specs.Turn.{listed_in, outside, reading, writing, stepping, moving};
ghost use Rattle.rules.specs.Own.{still, publishing, stepped, ended, settled_own, Wrote, Lists, Goes, InCells, Asks, Moves, AtWrite, AtRead, AtStep, AtTurn, Ready, slot_at, parts_at, shows_of, around_of};

use crate::block::{Block, Checkpoint, Entry, Journal, Read, Reads, Versions, pushed};
use crate::marks::Shows;
use machine::counts::{Cell, Ticket};
use machine::job::{Job, State};
use machine::step::{Act, Stepped};
use words::word::Word;

// A job's own parts; the slot holds the checkpoint of its next listed read.
#[derive(Clone, Copy)]
pub struct Own {
    pub state: State,
    pub status: u8,
    pub journal: Journal,
    pub versions: Versions,
    pub list: Reads,
    pub slot: Checkpoint,
}

// What a job sees of all.
#[derive(Clone, Copy)]
pub struct Around {
    pub status: [u8; Job::MOST as usize],
    pub journals: [Journal; Job::MOST as usize],
    pub versions: [Versions; Job::MOST as usize],
}

impl Around {
    pub fn of(b: &Block) -> Around
        ensures { result ≡ around_of b.now }
    {
        Around {
            status: b.status,
            journals: b.journals,
            versions: b.versions,
        }
    }
}

// What a turn makes of a job's parts, and whether it may change what is public, so that the higher jobs are to be marked.
#[derive(Clone, Copy)]
pub struct Move {
    pub own: Own,
    pub word: Word,
    pub marks: bool,
}

impl Own {
    // The parts of the job at index i, read where the block stands, with the checkpoint in a slot.
    pub fn of(b: &Block, i: usize, slot: usize) -> Own
        requires { (i < 16) × (slot < 128) }
        ensures { result ≡ parts_at b.now i slot }
    {
        Own {
            state: b.states[i],
            status: b.status[i],
            journal: b.journals[i],
            versions: b.versions[i],
            list: b.reads[i],
            slot: b.checkpoints[slot],
        }
    }

    // From where the job shows each cell.
    pub fn shows(&self) -> Shows
        ensures { result ≡ shows_of self.now }
    {
        Shows {
            journal: self.journal,
            versions: self.versions,
        }
    }

    // What the job holds of a cell itself: its own last entry, failing that its own listed read.
    fn value_for(&self, c: Cell) -> Option<u64>
        requires { (self.now.journal.size ≤ 8) × (self.now.list.size ≤ 8) }
        ensures { result ≡ or_else (last_value (journal_of self.now.journal) c.0) (listed_in self.now.list c.0) }
    {
        self.journal
            .last_value(c)
            .or_else(|| self.list.value_for(c))
    }

    // A turn after which nobody is marked.
    pub fn stay(&self, word: Word) -> Move
        ensures { result ≡ still word self.now }
    {
        Move {
            own: *self,
            word,
            marks: false,
        }
    }

    // A turn that may change what is public.
    fn then_mark(&self, word: Word) -> Move
        ensures { result ≡ publishing word self.now }
    {
        Move {
            own: *self,
            word,
            marks: true,
        }
    }

    fn step_to(&self, state: State) -> Move
        ensures { result ≡ stepped self.now state }
    {
        Own { state, ..*self }.stay(Word::Step)
    }

    fn write_to(&self, state: State, e: Entry) -> Move
        requires { self.now.journal.size < 8 }
        ensures { Wrote self.now state e result }
    {
        let journal = self.journal.with_entry(e);
        Own {
            state,
            journal,
            ..*self
        }
        .stay(Word::Step)
    }

    // The read is listed, with its checkpoint: the state before it, the journal's length and the number of listed reads.
    fn list_to(&self, state: State, x: Read) -> Move
        requires { self.now.list.size < 8 }
        ensures { Lists self.now state x result }
    {
        let slot = Checkpoint {
            state: self.state,
            writes: self.journal.size,
            listed: self.list.size,
        };
        let list = self.list.with_read(x);
        Own {
            state,
            list,
            slot,
            ..*self
        }
        .stay(Word::Step)
    }

    fn end_with(&self, versions: Versions) -> Move
        ensures { result ≡ ended self.now versions }
    {
        Own {
            status: Block::ENDED,
            versions,
            ..*self
        }
        .then_mark(Word::End)
    }

    fn settle(&self) -> Move
        ensures { result ≡ settled_own self.now }
    {
        Own {
            status: Block::FINAL,
            ..*self
        }
        .stay(Word::Final)
    }

    // A marked job goes back to the checkpoint of its earliest marked read.
    fn back_to(&self, c: Checkpoint) -> Move
        requires { self.now.versions.size ≤ 8 }
        ensures { Goes self.now c result }
    {
        let journal = Journal {
            size: c.writes,
            ..self.journal
        };
        let list = Reads {
            size: c.listed,
            mark: Reads::UNMARKED,
            ..self.list
        };
        Own {
            state: c.state,
            status: Block::RUNNING,
            journal,
            versions: self.versions.withdraw(c.writes),
            list,
            ..*self
        }
        .then_mark(Word::Back)
    }

    fn write_cell(&self, next: State, e: Entry) -> Move
        ensures { Moves self.now AtWrite (λ b i. writing b i next e) result }
    {
        if Job::FEW <= self.journal.size {
            self.stay(Word::Stuck)
        } else {
            self.write_to(next, e)
        }
    }
}

impl Reads {
    pub fn empty() -> Reads
        ensures { result ≡ empty_reads }
    {
        let none = Read {
            cell: Cell(0),
            source: Ticket(0),
            value: 0,
        };
        Reads {
            reads: [none; Job::FEW as usize],
            size: 0,
            mark: Reads::UNMARKED,
        }
    }

    // The value of the listed read of a cell.
    fn value_for(self, c: Cell) -> Option<u64>
        requires { self.size ≤ 8 }
        ensures { result ≡ listed_in self c.0 }
    {
        value_in(&self.reads[..usize::from(self.size)], c)
    }

    // One read more.
    fn with_read(self, x: Read) -> Reads
        requires { self.size < 8 }
        ensures { Adds self x result }
    {
        Reads {
            reads: pushed(self.reads, self.size, x),
            size: self.size + 1,
            ..self
        }
    }
}

// Where the last checkpoint of a job stands among its own.
const LAST: usize = Block::SLOTS - 1;

// Where the checkpoint of the n-th read of the job at index i stands; past its last, the last.
pub fn slot_of(i: usize, n: u8) -> usize
    requires { i < 16 }
    ensures { (result ≡ slot_at i n) × (result < 128) }
{
    Block::SLOTS * i + usize::from(n).min(LAST)
}

// The value of the first of these reads that is of the cell.
fn value_in(reads: &[Read], c: Cell) -> Option<u64>
    ensures { result ≡ option_map (λ x. x.value) (find (λ x. nat_eq x.cell.0 c.0) reads.now) }
{
    reads.iter().find(|x| x.cell == c).map(|x| x.value)
}

// Whether the jobs of these statuses are all final: from the last, the likeliest not to be, by recursion on those below it.
fn all_final(status: &[u8]) -> bool
    ensures { result ≡ list_all (λ s. nat_le 2 s) status.now }
{
    match status {
        [] => true,
        [below @ .., last] => Block::FINAL <= *last && all_final(below),
    }
}

// The cell that an instruction reads; 0 if it reads none.
pub fn cell_read(step: Stepped) -> usize
    requires { InCells step }
    ensures { Asks step result }
{
    match step.act {
        Act::Read(c) => usize::from(c.0),
        _ => 0,
    }
}

// A job whose turn it is: its parts, the block that it stands in, the start value of the cell that it would read, and its ticket.
// Parts and block are read where they stand: a turn that held them would copy them.
#[derive(Clone, Copy)]
pub struct Turning<'a> {
    pub own: &'a Own,
    pub block: &'a Block,
    pub first: u64,
    pub ticket: Ticket,
    ghost ready: { Ready own.now (around_of block.now) ticket.0 },
}

impl Turning<'_> {
    // READ from outside: the version found is listed, if there is room.
    fn read_outside(self, next: State, c: Cell) -> Move
        ensures { Moves self.entry.own.now (AtRead (around_of self.entry.block.now) self.entry.first self.entry.ticket.0 next c.0) (λ b i. outside b i c.0) result }
    {
        let own = self.own;
        if Job::FEW <= own.list.size {
            return own.stay(Word::Stuck);
        }
        let lower = Ticket(self.ticket.0 - 1);
        let found = Around::of(self.block).find_version(self.first, c, lower);
        let x = Read {
            cell: c,
            source: found.source,
            value: found.value,
        };
        own.list_to(next.given(found.value), x)
    }

    // READ of a cell: the job's own value, or one from outside.
    fn read_cell(self, next: State, c: Cell) -> Move
        ensures { Moves self.entry.own.now (AtRead (around_of self.entry.block.now) self.entry.first self.entry.ticket.0 next c.0) (λ b i. reading b i c.0) result }
    {
        let Some(v) = self.own.value_for(c) else {
            return self.read_outside(next, c);
        };
        self.own.step_to(next.given(v))
    }

    // One instruction of a running job that is not marked, or its end.
    fn step_or_end(self, step: Stepped) -> Move
        ensures { Moves self.entry.own.now (AtStep step (around_of self.entry.block.now) self.entry.first self.entry.ticket.0) stepping result }
    {
        let own = self.own;
        let next = step.state;
        match step.act {
            Act::Nothing => own.step_to(next),
            Act::Read(c) => self.read_cell(next, c),
            Act::Write(cell, value) => own.write_cell(next, Entry { cell, value }),
            Act::Stop => own.end_with(own.journal.publish()),
            Act::Abandon => own.end_with(Versions::empty()),
            Act::Stuck => own.stay(Word::Stuck),
        }
    }

    // Document 01's rules, tried in order, for a job of a block that fits: with the step that it would take, and the checkpoint
    // of its mark.
    pub fn take(self, step: Stepped, back: Checkpoint) -> Move
        ensures { Moves self.entry.own.now (AtTurn step (around_of self.entry.block.now) self.entry.first back self.entry.ticket.0) moving result }
    {
        let own = self.own;
        if Block::FINAL <= own.status {
            return own.stay(Word::Idle);
        }
        if own.list.mark != Reads::UNMARKED {
            return own.back_to(back);
        }
        if own.status == Block::RUNNING {
            return self.step_or_end(step);
        }
        if all_final(&self.block.status[..usize::from(self.ticket.0 - 1)]) {
            return own.settle();
        }
        own.stay(Word::Wait)
    }
}
