// A paper opened, a list of tickets given their turns, and the table settled.
ghost use Rattle.std.specs.Prelude.{◌≡◌};
ghost use Rattle.demands.specs.Finish.{opening_as, Finishes};
ghost use Rattle.demands.specs.declared.finish.FinishRefusal.TheVariants.{WrongLength as NotAsLong};

use machine::counts::Cell;
use machine::paper::Refusal;
use turns::many::{WrongLength, take_turns};
use turns::open::{OpenRefusal, open};
use turns::settled::settled_table;

// 12 for either table, the checker's refusal of the paper, 15 for the bytes lent.
#[derive(Clone, Copy, PartialEq, Eq)]
pub enum FinishRefusal {
    WrongTable,
    Paper(Refusal),
    WrongLength,
}

impl From<OpenRefusal> for FinishRefusal {
    ghost from_gives = { λ e r. r ≡ opening_as e };

    fn from(refusal: OpenRefusal) -> FinishRefusal {
        match refusal {
            OpenRefusal::WrongTable => FinishRefusal::WrongTable,
            OpenRefusal::Paper(refusal) => FinishRefusal::Paper(refusal),
        }
    }
}

impl From<WrongLength> for FinishRefusal {
    ghost from_gives = { λ _ r. r ≡ NotAsLong };

    fn from(_refusal: WrongLength) -> FinishRefusal {
        FinishRefusal::WrongLength
    }
}

// The number of final jobs. 12 for either table, then the paper's refusals, then 15 for the bytes, each before anything is written;
// else the turns are taken and the table settled.
pub fn finish(
    start: &[u64],
    paper: &[u8],
    tickets: &[u8],
    words: &mut [u8],
    table: &mut [u64],
) -> Result<u8, FinishRefusal>
    ensures { Finishes start.now paper.now tickets.now words.old table.old result words.new table.new }
{
    if table.len() != Cell::COUNT as usize {
        return Err(FinishRefusal::WrongTable);
    }
    let opened = open(start, paper);
    opened.answer?;
    let taken = take_turns(opened.block, tickets, words);
    if let Err(refusal) = taken.answer {
        return Err(FinishRefusal::from(refusal));
    }
    let f = settled_table(taken.block, table).unwrap();
    Ok(f)
}
