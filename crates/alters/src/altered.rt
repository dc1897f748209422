// A block in work with one thing altered. Job k has ticket k + 1, and its checkpoints stand from 8 * k on.
ghost use Rattle.std.specs.Prelude.{◌<◌, ◌*◌};
ghost use Rattle.machine.specs.Limits.{FEW, JOBS, LONGEST};

use machine::counts::{Cell, Place, Ticket};
use machine::job::Job;
use rules::block::{Block, Checkpoint, Entry, Program, Read};

pub(crate) fn with_count(mut b: Block, count: u8) -> Block {
    b.count = count;
    b
}

// So many jobs, all final and all as the second stands.
pub(crate) fn with_jobs(b: Block, count: u8) -> Block {
    Block {
        start: b.start,
        count,
        jobs: [b.jobs[1]; Job::MOST as usize],
        states: [b.states[1]; Job::MOST as usize],
        status: [Block::FINAL; Job::MOST as usize],
        journals: [b.journals[1]; Job::MOST as usize],
        versions: [b.versions[1]; Job::MOST as usize],
        reads: [b.reads[1]; Job::MOST as usize],
        checkpoints: [b.checkpoints[Block::SLOTS]; Block::SLOTS * (Job::MOST as usize)],
    }
}

pub(crate) fn with_status(mut b: Block, k: usize, status: u8) -> Block
    requires { k < JOBS }
{
    b.status[k] = status;
    b
}

pub(crate) fn with_size(mut b: Block, k: usize, size: u8) -> Block
    requires { k < JOBS }
{
    b.jobs[k].size = size;
    b
}

// The job has so many instructions, each STOP.
pub(crate) fn with_stops(mut b: Block, k: usize, size: u8) -> Block
    requires { k < JOBS }
{
    b.jobs[k] = Program::stops(size);
    b
}

pub(crate) fn with_instruction(
    mut b: Block,
    k: usize,
    place: usize,
    code: u8,
    argument: u8,
    pushed: u64,
) -> Block
    requires { (k < JOBS) × (place < LONGEST) }
{
    b.jobs[k].codes[place] = code;
    b.jobs[k].arguments[place] = argument;
    b.jobs[k].pushed[place] = pushed;
    b
}

pub(crate) fn at_place(mut b: Block, k: usize, place: u8) -> Block
    requires { k < JOBS }
{
    b.states[k].place = Place(place);
    b
}

pub(crate) fn at_height(mut b: Block, k: usize, height: u8) -> Block
    requires { k < JOBS }
{
    b.states[k].stack.height = height;
    b
}

// A journal of so many entries, all for cell 5.
pub(crate) fn with_journal(mut b: Block, k: usize, size: u8) -> Block
    requires { k < JOBS }
{
    let entry = Entry {
        cell: Cell(5),
        value: 7,
    };
    b.journals[k].entries = [entry; Job::FEW as usize];
    b.journals[k].size = size;
    b
}

pub(crate) fn with_entry_cell(mut b: Block, k: usize, at: usize, cell: u16) -> Block
    requires { (k < JOBS) × (at < FEW) }
{
    b.journals[k].entries[at] = Entry {
        cell: Cell(cell),
        value: 7,
    };
    b
}

// So many versions, all of the first entry.
pub(crate) fn with_versions(mut b: Block, k: usize, size: u8) -> Block
    requires { k < JOBS }
{
    b.versions[k].numbers = [0; Job::FEW as usize];
    b.versions[k].size = size;
    b
}

pub(crate) fn with_version(mut b: Block, k: usize, at: usize, entry: u8) -> Block
    requires { (k < JOBS) × (at < FEW) }
{
    b.versions[k].numbers[at] = entry;
    b
}

// So many listed reads, all of one cell and after checkpoints at the job's start.
pub(crate) fn with_reads(mut b: Block, k: usize, size: u8, cell: u16) -> Block
    requires { k < JOBS }
{
    let read = Read {
        cell: Cell(cell),
        source: Ticket(0),
        value: 3,
    };
    let checkpoint = Checkpoint {
        state: Job::fresh(),
        writes: 0,
        listed: 0,
    };
    b.reads[k].reads = [read; Job::FEW as usize];
    b.reads[k].size = size;
    b.checkpoints = [checkpoint; Block::SLOTS * (Job::MOST as usize)];
    b
}

pub(crate) fn with_read(mut b: Block, k: usize, at: usize, cell: u16, source: u8) -> Block
    requires { (k < JOBS) × (at < FEW) }
{
    b.reads[k].reads[at] = Read {
        cell: Cell(cell),
        source: Ticket(source),
        value: 3,
    };
    b
}

pub(crate) fn with_mark(mut b: Block, k: usize, mark: u8) -> Block
    requires { k < JOBS }
{
    b.reads[k].mark = mark;
    b
}

// A checkpoint that names so many journal entries and listed reads.
pub(crate) fn naming(mut b: Block, at: usize, writes: u8, listed: u8) -> Block
    requires { at < FEW * JOBS }
{
    b.checkpoints[at].writes = writes;
    b.checkpoints[at].listed = listed;
    b
}

pub(crate) fn checkpoint_at_place(mut b: Block, at: usize, place: u8) -> Block
    requires { at < FEW * JOBS }
{
    b.checkpoints[at].state.place = Place(place);
    b
}

pub(crate) fn checkpoint_at_height(mut b: Block, at: usize, height: u8) -> Block
    requires { at < FEW * JOBS }
{
    b.checkpoints[at].state.stack.height = height;
    b
}
