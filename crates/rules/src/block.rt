// A block in work, in small parts: a turn reads and stores it where it stands, and moves only the parts that it touches.
ghost use Rattle.std.specs.Prelude.{◌≡◌, ◌<◌, set};

use machine::counts::{Cell, Ticket};
use machine::job::{Job, State};
use words::word::Word;

// The instructions of a job, in bytes, so that the test of sizes takes many at a time. The operand of a PUSH, which may be any
// number, stands in `pushed`, every other in `arguments`.
#[repr(C)]
#[derive(Clone, Copy, PartialEq, Eq)]
pub struct Program {
    pub codes: [u8; Job::LONGEST as usize],
    pub arguments: [u8; Job::LONGEST as usize],
    pub pushed: [u64; Job::LONGEST as usize],
    pub size: u8,
}

// A write of a value to a cell.
#[repr(C)]
#[derive(Clone, Copy, PartialEq, Eq)]
pub struct Entry {
    pub cell: Cell,
    pub value: u64,
}

// The writes of a job, in order.
#[repr(C)]
#[derive(Clone, Copy, PartialEq, Eq)]
pub struct Journal {
    pub entries: [Entry; Job::FEW as usize],
    pub size: u8,
}

// The public versions of a job: each is the number of its journal entry.
#[repr(C)]
#[derive(Clone, Copy, PartialEq, Eq)]
pub struct Versions {
    pub numbers: [u8; Job::FEW as usize],
    pub size: u8,
}

#[repr(C)]
#[derive(Clone, Copy, PartialEq, Eq)]
pub struct Read {
    pub cell: Cell,
    pub source: Ticket,
    pub value: u64,
}

// The listed reads of a job, and the earliest marked one.
#[repr(C)]
#[derive(Clone, Copy, PartialEq, Eq)]
pub struct Reads {
    pub reads: [Read; Job::FEW as usize],
    pub size: u8,
    pub mark: u8,
}

impl Reads {
    // The mark of a job that is marked nowhere.
    pub const UNMARKED: u8 = 255;
}

// The job as it was before a listed read.
#[repr(C)]
#[derive(Clone, Copy, PartialEq, Eq)]
pub struct Checkpoint {
    pub state: State,
    pub writes: u8,
    pub listed: u8,
}

// The job at index k has ticket k + 1. Its checkpoints stand from SLOTS * k on, one for each listed read. From FINAL on a status is
// final: a turn stores no other, and an altered one is read and not refused.
#[repr(C)]
#[derive(Clone, Copy, PartialEq, Eq)]
pub struct Block {
    pub start: [u64; Cell::COUNT as usize],
    pub count: u8,
    pub jobs: [Program; Job::MOST as usize],
    pub states: [State; Job::MOST as usize],
    pub status: [u8; Job::MOST as usize],
    pub journals: [Journal; Job::MOST as usize],
    pub versions: [Versions; Job::MOST as usize],
    pub reads: [Reads; Job::MOST as usize],
    pub checkpoints: [Checkpoint; Block::SLOTS * (Job::MOST as usize)],
}

impl Block {
    // A status: it runs, it has ended, it is final.
    pub const RUNNING: u8 = 0;

    pub const ENDED: u8 = 1;

    pub const FINAL: u8 = 2;

    // Checkpoints of one job.
    pub const SLOTS: usize = Job::FEW as usize;
}

// A block after a turn, and the turn's word. The block stands first, so that it is handed over in one piece.
#[derive(Clone, Copy, PartialEq, Eq)]
pub struct Turned {
    pub block: Block,
    pub word: Word,
}

// The n things that an array holds, and one more after them.
pub(crate) fn pushed<T: Copy>(
    mut items: [T; Job::FEW as usize],
    n: u8,
    x: T,
) -> [T; Job::FEW as usize]
    requires { n < 8 }
    ensures { result ≡ set items n x }
{
    items[usize::from(n)] = x;
    items
}
