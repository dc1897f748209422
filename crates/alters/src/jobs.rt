// Sizes of a block and of a job: each past its limit, and its neighbour just inside. Ticket 1 is final at place 3 of 4,
// ticket 2 is ended at place 4 of 5 and marked at its only read, whose checkpoint is number 8.
use crate::altered::{
    at_height, at_place, checkpoint_at_height, checkpoint_at_place, with_count, with_jobs,
    with_reads, with_size, with_stops,
};
use crate::tell::{LENT, tell, tell_settled};
use machine::counts::Cell;
use rules::block::Block;
use std::io;
use std::io::Write;

// The last of 16 jobs is tested as the others are.
fn try_job_counts<O: Write>(out: &mut O, b: Block) -> io::Result<()> {
    let full = with_jobs(b, 16);
    let high = at_height(full, 15, 17);
    let far = checkpoint_at_height(full, 120, 17);
    tell(out, "1 job", with_count(b, 1), 1)?;
    tell(out, "16 jobs", full, 16)?;
    tell(out, "16 jobs, a stack of 17 in the last", high, 1)?;
    tell(
        out,
        "16 jobs, a checkpoint's stack of 17 in the last",
        far,
        1,
    )?;
    tell(out, "17 jobs", with_jobs(b, 17), 16)?;
    tell(out, "17 jobs", with_jobs(b, 17), 17)?;
    tell(out, "255 jobs", with_jobs(b, 255), 255)
}

// 14 comes before 20.
fn try_tickets<O: Write>(out: &mut O, b: Block) -> io::Result<()> {
    tell(out, "as it was", b, 0)?;
    tell(out, "as it was", b, 3)?;
    tell(out, "17 jobs", with_jobs(b, 17), 0)?;
    tell(out, "17 jobs", with_jobs(b, 17), 18)?;
    tell(out, "a stack of 17", at_height(b, 1, 17), 0)?;
    tell(out, "a stack of 17", at_height(b, 1, 17), 3)?;
    tell(out, "1 job", with_count(b, 1), 2)?;
    tell(out, "no job", with_count(b, 0), 1)
}

// 12 comes before 20.
fn try_tables<O: Write>(out: &mut O, b: Block) -> io::Result<()> {
    let mut short = [LENT; Cell::COUNT as usize - 1];
    let mut long = [LENT; Cell::COUNT as usize + 1];
    write!(out, "a lent table of 255 cells")?;
    tell_settled(out, b, &mut short)?;
    write!(out, "a lent table of 257 cells")?;
    tell_settled(out, b, &mut long)?;
    write!(out, "a lent table of 255 cells and a stack of 17")?;
    tell_settled(out, at_height(b, 1, 17), &mut short)
}

// A job of no instructions has no place to stand at; one that is not counted is not tested.
fn try_instruction_counts<O: Write>(out: &mut O, b: Block) -> io::Result<()> {
    let empty = with_size(b, 2, 0);
    tell(out, "64 instructions", with_stops(b, 1, 64), 2)?;
    tell(out, "65 instructions", with_stops(b, 1, 65), 2)?;
    tell(out, "255 instructions", with_stops(b, 1, 255), 2)?;
    tell(out, "no instructions", with_stops(b, 1, 0), 2)?;
    tell(
        out,
        "65 instructions in the final job",
        with_stops(b, 0, 65),
        2,
    )?;
    tell(out, "no instructions past the job count", empty, 2)?;
    tell(
        out,
        "no instructions in a third job",
        with_count(empty, 3),
        2,
    )
}

fn try_places<O: Write>(out: &mut O, b: Block) -> io::Result<()> {
    let past = checkpoint_at_place(b, 9, 5);
    tell(out, "place 4 of 5", at_place(b, 1, 4), 2)?;
    tell(out, "place 5 of 5", at_place(b, 1, 5), 2)?;
    tell(out, "place 255 of 5", at_place(b, 1, 255), 2)?;
    tell(out, "place 3 of 4 in the final job", at_place(b, 0, 3), 1)?;
    tell(out, "place 4 of 4 in the final job", at_place(b, 0, 4), 1)?;
    tell(out, "place 255 past the job count", at_place(b, 2, 255), 2)?;
    tell(
        out,
        "a checkpoint's place 4 of 5",
        checkpoint_at_place(b, 8, 4),
        2,
    )?;
    tell(
        out,
        "a checkpoint's place 5 of 5",
        checkpoint_at_place(b, 8, 5),
        2,
    )?;
    tell(out, "a checkpoint's place 5 of 5 past the list", past, 2)
}

fn try_stacks<O: Write>(out: &mut O, b: Block) -> io::Result<()> {
    let past = checkpoint_at_height(b, 9, 17);
    let last = checkpoint_at_height(with_reads(b, 1, 8, 5), 15, 17);
    tell(out, "a stack of 16", at_height(b, 1, 16), 2)?;
    tell(out, "a stack of 17", at_height(b, 1, 17), 2)?;
    tell(out, "a stack of 17", at_height(b, 1, 17), 1)?;
    tell(out, "a stack of 255", at_height(b, 1, 255), 2)?;
    tell(
        out,
        "a stack of 17 in the final job",
        at_height(b, 0, 17),
        1,
    )?;
    tell(
        out,
        "a checkpoint's stack of 16",
        checkpoint_at_height(b, 8, 16),
        2,
    )?;
    tell(
        out,
        "a checkpoint's stack of 17",
        checkpoint_at_height(b, 8, 17),
        2,
    )?;
    tell(out, "a checkpoint's stack of 17, the last of 8", last, 2)?;
    tell(out, "a checkpoint's stack of 17 past the list", past, 2)
}

pub(crate) fn try_jobs<O: Write>(out: &mut O, b: Block) -> io::Result<()> {
    tell(out, "as it was", b, 1)?;
    tell(out, "as it was", b, 2)?;
    try_job_counts(out, b)?;
    try_tickets(out, b)?;
    try_tables(out, b)?;
    try_instruction_counts(out, b)?;
    try_places(out, b)?;
    try_stacks(out, b)
}
