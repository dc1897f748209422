// The settled table: what the final jobs leave, read from the versions.
ghost use Rattle.std.specs.Prelude.{◌≡◌, ◌≤◌};
ghost use Rattle.theory.specs.Lists.{tab};
ghost use Rattle.machine.specs.Limits.{JOBS, CELLS};
ghost use Rattle.rules.specs.View.{versions_of, Showing};
ghost use Rattle.turns.specs.SerialRun.{cells_of};
ghost use Rattle.turns.specs.Settled.{finals_below, cell_found, InTable, shown_over, Settleable, Settles};

use crate::open::Table;
use crate::sizes::block_fits;
use machine::counts::Cell;
use machine::job::Job;
use rules::block::{Block, Journal, Versions};

// 12 for a table that is not whole, 20 for a block that does not fit.
#[derive(Clone, Copy, PartialEq, Eq)]
pub enum SettleRefusal {
    WrongTable,
    Misfit,
}

// How many of the first count jobs are final.
fn count_finals(status: &[u8; Job::MOST as usize], count: u8) -> u8
    requires { count ≤ JOBS }
    ensures { result ≡ finals_below status.now count }
{
    let first = &status[..usize::from(count)];
    first.iter().filter(|s| Block::FINAL <= **s).count() as u8
}

// A job's public versions over the table, from the last to the first, so that the first of a cell stands.
fn apply_versions(j: Journal, v: Versions, table: &mut Table)
    requires { Showing j v × InTable j }
    ensures { cells_of table.new ≡ shown_over j (versions_of v) (cells_of table.old) }
{
    for k in (0..v.size).rev() {
        let e = j.entry_at(v.numbers[k as usize]);
        table[e.cell.0 as usize] = e.value;
    }
}

// The start table, and over it what the jobs of the tickets 1 to f show, in their order: each cell as a reader above them finds it.
fn settle_cells(b: &Block, f: u8, table: &mut Table)
    requires { (f ≤ JOBS) × Settleable b.now f }
    ensures { table.new ≡ tab CELLS (cell_found b.now f) }
{
    *table = b.start;
    for k in 0..usize::from(f) {
        apply_versions(b.journals[k], b.versions[k], table);
    }
}

// The number of final jobs. The table is tested for 12, then the sizes for 20, before any cell is written; else every cell is.
pub fn settled_table(b: Block, table: &mut [u64]) -> Result<u8, SettleRefusal>
    ensures { Settles b table.old result table.new }
{
    if table.len() != Cell::COUNT as usize {
        return Err(SettleRefusal::WrongTable);
    }
    if !block_fits(&b) {
        return Err(SettleRefusal::Misfit);
    }
    let f = count_finals(&b.status, b.count);
    settle_cells(&b, f, table.first_chunk_mut().unwrap());
    Ok(f)
}
