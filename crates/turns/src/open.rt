// The opening: a block in work with every job fresh; or a refusal, and a block with no jobs and an all-zero table.
ghost use Rattle.std.specs.Prelude.{◌≡◌, [], replicate};
ghost use Rattle.machine.specs.Limits.{CELLS};
ghost use Rattle.turns.specs.declared.open.OpenRefusal.TheVariants.{Paper};
ghost use Rattle.turns.specs.Open.{filled_block, whole_block, Opens};

use machine::counts::Cell;
use machine::job::Job;
use machine::paper::{Refusal, check_paper};
use rules::block::{Block, Checkpoint, Journal, Program, Reads, Versions};
use rules::program::programs_of;

// The cells of a whole table.
pub(crate) type Table = [u64; Cell::COUNT as usize];

// 12 for a table that is not whole, or the checker's refusal of the paper.
#[derive(Clone, Copy, PartialEq, Eq)]
pub enum OpenRefusal {
    WrongTable,
    Paper(Refusal),
}

impl From<Refusal> for OpenRefusal {
    ghost from_gives = { λ e r. r ≡ Paper e };

    fn from(refusal: Refusal) -> OpenRefusal {
        OpenRefusal::Paper(refusal)
    }
}

// A refused opening yields a block too.
#[derive(Clone, Copy)]
pub struct Opened {
    pub block: Block,
    pub answer: Result<(), OpenRefusal>,
}

// The first count jobs, each at its start.
fn fresh_block(table: Table, count: u8, jobs: [Program; Job::MOST as usize]) -> Block
    ensures { result ≡ filled_block table count jobs }
{
    let state = Job::fresh();
    let checkpoint = Checkpoint {
        state,
        writes: 0,
        listed: 0,
    };
    Block {
        start: table,
        count,
        jobs,
        states: [state; Job::MOST as usize],
        status: [Block::RUNNING; Job::MOST as usize],
        journals: [Journal::empty(); Job::MOST as usize],
        versions: [Versions::empty(); Job::MOST as usize],
        reads: [Reads::empty(); Job::MOST as usize],
        checkpoints: [checkpoint; Block::SLOTS * (Job::MOST as usize)],
    }
}

// What a refused opening yields.
fn nothing_open() -> Block
    ensures { result ≡ whole_block (replicate CELLS 0) [] }
{
    fresh_block(
        [0; Cell::COUNT as usize],
        0,
        [Program::stops(0); Job::MOST as usize],
    )
}

// The start table is tested for 12, then the paper is checked.
pub fn open(start: &[u64], paper: &[u8]) -> Opened
    ensures { Opens start.now paper.now result }
{
    let Ok(table) = Table::try_from(start) else {
        return Opened {
            block: nothing_open(),
            answer: Err(OpenRefusal::WrongTable),
        };
    };
    let all = match check_paper(paper) {
        Ok(all) => all,
        Err(refusal) => {
            return Opened {
                block: nothing_open(),
                answer: Err(refusal.into()),
            };
        }
    };
    let programs = programs_of(&all.jobs[..all.count as usize]);
    Opened {
        block: fresh_block(table, all.count, programs),
        answer: Ok(()),
    }
}
