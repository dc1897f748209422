// The line of one block in work: the turn's ticket and answer, and whether the block came back as it was; then the
// settled table's answer, f, and how many cells of the lent table were overwritten.
use machine::counts::{Cell, Ticket};
use rules::block::Block;
use std::io::Write;
use std::{fmt, io};
use turns::settled::{SettleRefusal, settled_table};
use turns::turn::turn;

// What each cell of a lent table holds: no block here settles a cell to it.
pub(crate) const LENT: u64 = u64::MAX;

fn say_settling<O: Write>(out: &mut O, answer: Result<u8, SettleRefusal>) -> io::Result<()> {
    match answer {
        Ok(_) => write!(out, " written"),
        Err(SettleRefusal::WrongTable) => write!(out, " 12"),
        Err(SettleRefusal::Misfit) => write!(out, " 20"),
    }
}

fn tell_turn<O: Write>(out: &mut O, b: Block, t: Ticket) -> io::Result<()> {
    let turned = turn(b, t);
    let stays = if turned.block == b {
        "unchanged"
    } else {
        "changed"
    };
    write!(out, ": turn {} {} {stays}", t.0, turned.word)
}

// How many cells are not as they were lent.
fn overwritten(table: &[u64]) -> usize {
    table.iter().filter(|cell| **cell != LENT).count()
}

pub(crate) fn tell_settled<O: Write>(out: &mut O, b: Block, table: &mut [u64]) -> io::Result<()> {
    let settled = settled_table(b, &mut *table);
    write!(out, ", settled")?;
    say_settling(out, settled)?;
    writeln!(
        out,
        " f {} cells {}",
        settled.unwrap_or(0),
        overwritten(table)
    )
}

pub(crate) fn tell<O: Write>(
    out: &mut O,
    name: impl fmt::Display + Drop,
    b: Block,
    t: u8,
) -> io::Result<()> {
    let mut table = [LENT; Cell::COUNT as usize];
    write!(out, "{name}")?;
    tell_turn(out, b, Ticket(t))?;
    tell_settled(out, b, &mut table)
}
