// What a job lists: each cell, count and name past its limit, and its neighbour just inside. Ticket 2 has a journal
// entry, a version of it, a listed read, which is marked, and its checkpoint, which is number 8.
use crate::altered::{
    naming, with_entry_cell, with_journal, with_mark, with_read, with_reads, with_status,
    with_version, with_versions,
};
use crate::tell::tell;
use rules::block::{Block, Reads};
use std::io;
use std::io::Write;

fn try_entry_cells<O: Write>(out: &mut O, b: Block) -> io::Result<()> {
    let full = with_journal(b, 1, 8);
    tell(out, "entry 0 of cell 255", with_entry_cell(b, 1, 0, 255), 2)?;
    tell(out, "entry 0 of cell 256", with_entry_cell(b, 1, 0, 256), 2)?;
    tell(
        out,
        "entry 0 of cell 65535",
        with_entry_cell(b, 1, 0, 65535),
        2,
    )?;
    tell(
        out,
        "entry 7 of cell 256",
        with_entry_cell(full, 1, 7, 256),
        2,
    )?;
    tell(
        out,
        "a final job's entry of cell 256",
        with_entry_cell(b, 0, 0, 256),
        1,
    )?;
    tell(
        out,
        "cell 256 past the journal",
        with_entry_cell(b, 1, 1, 256),
        2,
    )
}

fn try_entries<O: Write>(out: &mut O, b: Block) -> io::Result<()> {
    try_entry_cells(out, b)?;
    tell(out, "a journal of 8", with_journal(b, 1, 8), 2)?;
    tell(out, "a journal of 9", with_journal(b, 1, 9), 2)?;
    tell(out, "a journal of 255", with_journal(b, 1, 255), 2)
}

fn try_version_entries<O: Write>(out: &mut O, b: Block) -> io::Result<()> {
    let full = with_journal(b, 1, 8);
    tell(
        out,
        "a version of entry 1 of 1",
        with_version(b, 1, 0, 1),
        2,
    )?;
    tell(
        out,
        "a version of entry 7 of 8",
        with_version(full, 1, 0, 7),
        2,
    )?;
    tell(
        out,
        "a version of entry 8 of 8",
        with_version(full, 1, 0, 8),
        2,
    )
}

fn try_versions<O: Write>(out: &mut O, b: Block) -> io::Result<()> {
    let none = with_journal(b, 1, 0);
    let eight = with_versions(b, 1, 8);
    try_version_entries(out, b)?;
    tell(out, "a version and no entry", none, 2)?;
    tell(out, "no version and no entry", with_versions(none, 1, 0), 2)?;
    tell(out, "8 versions", eight, 2)?;
    tell(
        out,
        "8 versions, the last of entry 1 of 1",
        with_version(eight, 1, 7, 1),
        2,
    )?;
    tell(out, "9 versions", with_versions(b, 1, 9), 2)?;
    tell(out, "255 versions", with_versions(b, 1, 255), 2)?;
    tell(
        out,
        "entry 200 past the versions",
        with_version(b, 1, 1, 200),
        2,
    )
}

fn try_reads<O: Write>(out: &mut O, b: Block) -> io::Result<()> {
    let full = with_reads(b, 1, 8, 5);
    tell(out, "read 0 of cell 255", with_read(b, 1, 0, 255, 0), 2)?;
    tell(out, "read 0 of cell 256", with_read(b, 1, 0, 256, 0), 2)?;
    tell(out, "read 7 of cell 256", with_read(full, 1, 7, 256, 0), 2)?;
    tell(out, "cell 256 past the list", with_read(b, 1, 1, 256, 0), 2)?;
    tell(out, "a list of 8", full, 2)?;
    tell(out, "a list of 9", with_reads(b, 1, 9, 5), 2)?;
    tell(out, "a list of 255", with_reads(b, 1, 255, 5), 2)
}

// 255 is no mark.
fn try_marks<O: Write>(out: &mut O, b: Block) -> io::Result<()> {
    let full = with_reads(b, 1, 8, 5);
    let none = with_reads(b, 1, 0, 5);
    tell(out, "a mark at read 0 of 1", with_mark(b, 1, 0), 2)?;
    tell(out, "a mark at read 1 of 1", with_mark(b, 1, 1), 2)?;
    tell(out, "a mark at read 254 of 1", with_mark(b, 1, 254), 2)?;
    tell(out, "a mark at read 7 of 8", with_mark(full, 1, 7), 2)?;
    tell(out, "a mark at read 8 of 8", with_mark(full, 1, 8), 2)?;
    tell(out, "a mark and no read", none, 2)?;
    tell(
        out,
        "a mark and no read in the final job",
        with_mark(b, 0, 0),
        1,
    )?;
    tell(out, "no mark", with_mark(b, 1, Reads::UNMARKED), 2)?;
    tell(
        out,
        "no mark and no read",
        with_mark(none, 1, Reads::UNMARKED),
        2,
    )
}

// A checkpoint is the job as it was before its read, so it holds none but the reads and entries before it.
fn try_checkpoint<O: Write>(out: &mut O, b: Block) -> io::Result<()> {
    tell(out, "a checkpoint of 1 entry of 1", naming(b, 8, 1, 0), 2)?;
    tell(out, "a checkpoint of 2 entries of 1", naming(b, 8, 2, 0), 2)?;
    tell(out, "a checkpoint of its own read", naming(b, 8, 0, 1), 2)?;
    tell(out, "a checkpoint of 2 reads of 1", naming(b, 8, 0, 2), 2)?;
    tell(
        out,
        "a checkpoint of 200 past the list",
        naming(b, 9, 200, 200),
        2,
    )
}

fn try_checkpoints<O: Write>(out: &mut O, b: Block) -> io::Result<()> {
    let full = with_mark(with_reads(b, 1, 8, 5), 1, 7);
    tell(out, "checkpoint 7 of 7 reads", naming(full, 15, 0, 7), 2)?;
    tell(out, "checkpoint 7 of 8 reads", naming(full, 15, 0, 8), 2)?;
    tell(out, "checkpoint 7 of 9 reads", naming(full, 15, 0, 9), 2)?;
    tell(out, "checkpoint 7 of 1 entry", naming(full, 15, 1, 0), 2)?;
    tell(out, "checkpoint 7 of 2 entries", naming(full, 15, 2, 0), 2)?;
    tell(
        out,
        "checkpoint 6 of 1 entry, 7 of none",
        naming(full, 14, 1, 0),
        2,
    )
}

// Document 01 names no limit of these.
fn try_others<O: Write>(out: &mut O, b: Block) -> io::Result<()> {
    tell(out, "status 255", with_status(b, 1, 255), 2)?;
    tell(out, "source 255", with_read(b, 1, 0, 5, 255), 2)
}

pub(crate) fn try_lists<O: Write>(out: &mut O, b: Block) -> io::Result<()> {
    try_entries(out, b)?;
    try_versions(out, b)?;
    try_reads(out, b)?;
    try_marks(out, b)?;
    try_checkpoint(out, b)?;
    try_checkpoints(out, b)?;
    try_others(out, b)
}
