// Shows by runs that 20 is answered exactly where document 01 says, on blocks in work that a caller has altered: a line
// an alteration. The lines that are expected were written by hand from document 01. A write that fails ends the program
// with its error.
#![tactic(auto)]

mod altered;
mod codes;
mod jobs;
mod lists;
mod needs;
mod tell;

use crate::codes::try_codes;
use crate::jobs::try_jobs;
use crate::lists::try_lists;
use crate::needs::try_needs;
use machine::counts::{Cell, Ticket};
use rules::block::Block;
use std::io;
use std::io::Write;
use turns::open::{Opened, open};
use turns::turn::turn;

fn played(b: Block, tickets: &[u8]) -> Block {
    tickets
        .iter()
        .fold(b, |b, ticket| turn(b, Ticket(*ticket)).block)
}

// In the midway block both jobs run; in the other job 1 is final, and job 2 has ended and is marked at its only read.
fn try_all<O: Write>(out: &mut O, fresh: Block) -> io::Result<()> {
    let midway = played(fresh, b"\x01\x01\x02");
    let ended = played(fresh, b"\x02\x02\x02\x02\x02\x01\x01\x01\x01\x01");
    try_jobs(out, ended)?;
    try_codes(out, ended)?;
    try_lists(out, ended)?;
    try_needs(out, midway, ended)
}

// Job 1: PUSH 7, PUSH 5, WRITE, STOP. Job 2: PUSH 5, READ, PUSH 6, WRITE, STOP. Cell 5 starts at 3.
fn open_paper() -> Opened {
    let mut start = [0; Cell::COUNT as usize];
    start[5] = 3;
    let paper = b"\x10\x24\0\
        \x02\x07\0\0\0\0\0\0\0\
        \x02\x05\0\0\0\0\0\0\0\
        \x0b\x00\0\0\0\0\0\0\0\
        \x00\x00\0\0\0\0\0\0\0\
        \x10\x2d\0\
        \x02\x05\0\0\0\0\0\0\0\
        \x0a\x00\0\0\0\0\0\0\0\
        \x02\x06\0\0\0\0\0\0\0\
        \x0b\x00\0\0\0\0\0\0\0\
        \x00\x00\0\0\0\0\0\0\0";
    open(&start, paper)
}

fn main(rt: HostRuntime) -> io::Result<()> {
    let mut out = rt.stdout();
    let Opened { block, answer } = open_paper();
    match answer {
        Ok(()) => try_all(&mut out, block),
        Err(_) => writeln!(out, "refused"),
    }
}
