// Instructions that break 5 or 6, and their neighbours that do not. Ticket 2 has 5 instructions, and is marked, so that
// its turn goes back wherever the block fits.
ghost use Rattle.std.specs.Prelude.{◌<◌};
ghost use Rattle.machine.specs.Limits.{LONGEST};

use crate::altered::with_instruction;
use crate::tell::tell;
use machine::instruction::Instruction;
use rules::block::Block;
use std::io;
use std::io::Write;

// What stands where a PUSH has its operand is none of another's.
fn try_at<O: Write>(out: &mut O, b: Block, place: u8, code: u8, argument: u8) -> io::Result<()>
    requires { place < LONGEST }
{
    tell(
        out,
        format_args!("code {code} operand {argument} at place {place}"),
        with_instruction(b, 1, usize::from(place), code, argument, u64::MAX),
        2,
    )
}

// And what stands where another has its operand is none of a PUSH's.
fn try_push<O: Write>(out: &mut O, b: Block, operand: u64) -> io::Result<()> {
    tell(
        out,
        format_args!("code {} operand {operand} at place 1", Instruction::PUSH),
        with_instruction(b, 1, 1, Instruction::PUSH, 255, operand),
        2,
    )
}

fn try_arguments<O: Write>(
    out: &mut O,
    b: Block,
    place: u8,
    code: u8,
    arguments: &[u8],
) -> io::Result<()>
    requires { place < LONGEST }
{
    for argument in arguments {
        try_at(out, b, place, code, *argument)?;
    }
    Ok(())
}

// The operand is 1 to 15.
fn try_depths<O: Write>(out: &mut O, b: Block) -> io::Result<()> {
    for code in [Instruction::DUP, Instruction::SWAP] {
        try_arguments(out, b, 1, code, &[0, 1, 15, 16])?;
    }
    Ok(())
}

// The operand is a later place in the job; the last place has none.
fn try_jumps<O: Write>(out: &mut O, b: Block) -> io::Result<()> {
    for code in [Instruction::JUMP, Instruction::JUMPZERO] {
        try_arguments(out, b, 1, code, &[1, 2, 4, 5])?;
        try_arguments(out, b, 4, code, &[4, 5])?;
    }
    Ok(())
}

// The operand is 0.
fn try_zeros<O: Write>(out: &mut O, b: Block) -> io::Result<()> {
    for code in [
        Instruction::STOP,
        Instruction::ABANDON,
        Instruction::POP,
        Instruction::ADD,
        Instruction::SUB,
        Instruction::LESS,
        Instruction::EQUAL,
        Instruction::READ,
        Instruction::WRITE,
    ] {
        try_arguments(out, b, 1, code, &[0, 1])?;
    }
    Ok(())
}

// What stands past the instruction count is none of the job's.
fn try_unknown<O: Write>(out: &mut O, b: Block) -> io::Result<()> {
    for place in [0, 1, 4, 5] {
        try_at(out, b, place, 14, 0)?;
    }
    try_at(out, b, 1, 255, 0)
}

pub(crate) fn try_codes<O: Write>(out: &mut O, b: Block) -> io::Result<()> {
    try_unknown(out, b)?;
    try_push(out, b, 0)?;
    try_push(out, b, u64::MAX)?;
    try_depths(out, b)?;
    try_jumps(out, b)?;
    try_zeros(out, b)
}
