// The other 20: sizes that fit, and a turn that would need a stack entry, a place or room that is not there. In the
// midway block ticket 1 stands at place 2 of 4, a WRITE, and ticket 2 at place 1 of 5, a READ of cell 5.
use crate::altered::{
    at_height, at_place, with_instruction, with_journal, with_mark, with_reads, with_size,
    with_status,
};
use crate::tell::tell;
use machine::instruction::Instruction;
use rules::block::{Block, Reads};
use std::io;
use std::io::Write;

// Ticket 1 at an instruction, with a stack of so many.
fn try_need<O: Write>(out: &mut O, b: Block, code: u8, operand: u8, height: u8) -> io::Result<()> {
    let at = with_instruction(b, 0, 2, code, operand, u64::from(operand));
    tell(
        out,
        format_args!("at code {code} operand {operand} with a stack of {height}"),
        at_height(at, 0, height),
        1,
    )
}

fn try_heights<O: Write>(
    out: &mut O,
    b: Block,
    code: u8,
    operand: u8,
    heights: &[u8],
) -> io::Result<()> {
    for height in heights {
        try_need(out, b, code, operand, *height)?;
    }
    Ok(())
}

fn try_no_needs<O: Write>(out: &mut O, b: Block) -> io::Result<()> {
    try_need(out, b, Instruction::STOP, 0, 0)?;
    try_need(out, b, Instruction::ABANDON, 0, 0)?;
    try_need(out, b, Instruction::JUMP, 3, 0)
}

fn try_one_entry<O: Write>(out: &mut O, b: Block) -> io::Result<()> {
    try_heights(out, b, Instruction::POP, 0, &[0, 1])?;
    try_heights(out, b, Instruction::READ, 0, &[0, 1])?;
    try_heights(out, b, Instruction::JUMPZERO, 3, &[0, 1])
}

fn try_two_entries<O: Write>(out: &mut O, b: Block) -> io::Result<()> {
    for code in [
        Instruction::ADD,
        Instruction::SUB,
        Instruction::LESS,
        Instruction::EQUAL,
        Instruction::WRITE,
    ] {
        try_heights(out, b, code, 0, &[1, 2])?;
    }
    Ok(())
}

// What is pushed needs room.
fn try_depths<O: Write>(out: &mut O, b: Block) -> io::Result<()> {
    try_heights(out, b, Instruction::PUSH, 9, &[15, 16])?;
    try_heights(out, b, Instruction::DUP, 15, &[14, 15, 16])?;
    try_heights(out, b, Instruction::SWAP, 15, &[15, 16])
}

fn try_entries<O: Write>(out: &mut O, b: Block) -> io::Result<()> {
    try_no_needs(out, b)?;
    try_one_entry(out, b)?;
    try_two_entries(out, b)?;
    try_depths(out, b)?;
    tell(
        out,
        "ticket 1 at WRITE with a stack of 0",
        at_height(b, 0, 0),
        2,
    )
}

fn try_next_places<O: Write>(out: &mut O, b: Block) -> io::Result<()> {
    tell(out, "WRITE at the last place", with_size(b, 0, 3), 1)?;
    tell(out, "STOP at the last place", at_place(b, 0, 3), 1)
}

// A READ of the job's own entry, or of a cell that it lists, needs no room.
fn try_rooms<O: Write>(out: &mut O, b: Block) -> io::Result<()> {
    let full = with_reads(b, 1, 8, 6);
    tell(out, "WRITE with a journal of 7", with_journal(b, 0, 7), 1)?;
    tell(out, "WRITE with a journal of 8", with_journal(b, 0, 8), 1)?;
    tell(out, "READ with a list of 7", with_reads(b, 1, 7, 6), 2)?;
    tell(out, "READ with a list of 8", full, 2)?;
    tell(
        out,
        "READ of a listed cell with a list of 8",
        with_reads(b, 1, 8, 5),
        2,
    )?;
    tell(
        out,
        "READ of an own entry with a list of 8",
        with_journal(full, 1, 1),
        2,
    )
}

// A job that is final, marked or ended runs no instruction, so it needs none of its entries.
fn try_at_rest<O: Write>(out: &mut O, b: Block) -> io::Result<()> {
    let marked = at_place(b, 1, 3);
    tell(
        out,
        "final at WRITE with a stack of 0",
        at_place(b, 0, 2),
        1,
    )?;
    tell(
        out,
        "marked at WRITE with a stack of 0",
        with_status(marked, 1, Block::RUNNING),
        2,
    )?;
    tell(
        out,
        "ended at WRITE with a stack of 0",
        with_mark(marked, 1, Reads::UNMARKED),
        2,
    )?;
    tell(
        out,
        "running at WRITE with a stack of 0",
        with_status(with_mark(marked, 1, Reads::UNMARKED), 1, Block::RUNNING),
        2,
    )
}

pub(crate) fn try_needs<O: Write>(out: &mut O, midway: Block, ended: Block) -> io::Result<()> {
    tell(out, "midway", midway, 1)?;
    tell(out, "midway", midway, 2)?;
    try_entries(out, midway)?;
    try_next_places(out, midway)?;
    try_rooms(out, midway)?;
    try_at_rest(out, ended)
}
