// The fields of a session: cells of the start table, a block paper, and the tickets.
ghost use Rattle.std.specs.Prelude.{◌≡◌, true, ◌≤◌, ◌<◌, length};
ghost use Rattle.sessions.specs.Fields.{is_field, is_turns, paper_length, cell_in, value_in, is_next_cell, after_cells, session_of, Divides};

use machine::bytes;
use machine::counts::Cell;
use machine::paper::{Field, size_of_field};

// The parts of a session: the start table, the block paper and the tickets.
#[derive(Clone, Copy)]
pub(crate) struct Parts<'a> {
    pub table: [u64; Cell::COUNT as usize],
    pub paper: &'a [u8],
    pub tickets: &'a [u8],
}

impl Parts<'_> {
    // Bytes in a session.
    pub const BYTES: usize = 16384;

    // Turns in a session.
    pub const TURNS: usize = 4000;

    // The tags of a cell's field and of the field of tickets.
    pub const CELL: u8 = 0x01;

    pub const TICKETS: u8 = 0x02;

    // Bytes of a cell's field: the cell, then its value; and with its head.
    pub const CELL_BYTES: usize = 9;

    pub const CELL_FIELD: usize = Field::HEAD + Parts::CELL_BYTES;

    // Where its value starts.
    pub const VALUE: usize = Field::HEAD + 1;
}

// Whether a whole field with this tag stands at the front.
fn is_field(rest: &[u8], tag: u8) -> bool
    ensures { result ≡ is_field tag rest.now }
{
    Field::HEAD <= rest.len() && size_of_field(rest) <= rest.len() - Field::HEAD && rest[0] == tag
}

// The cell that a field names.
fn cell_at(rest: &[u8]) -> Cell
    requires { 3 < length rest.now }
    ensures { (result.0 ≡ cell_in rest.now) × (result.0 < 256) }
{
    Cell(u16::from(rest[Field::HEAD]))
}

// Whether the field of a cell has its length, and a cell that has not been passed.
fn is_next_cell(rest: &[u8], least: Cell) -> bool
    requires { is_field 1 rest.now ≡ true }
    ensures { result ≡ is_next_cell least.0 rest.now }
{
    size_of_field(rest) == Parts::CELL_BYTES && least <= cell_at(rest)
}

fn value_at(rest: &[u8]) -> u64
    requires { 12 ≤ length rest.now }
    ensures { result ≡ value_in rest.now }
{
    bytes::little_of(&rest[Parts::VALUE..Parts::CELL_FIELD])
}

// How long the block paper at the front is.
fn paper_size(bytes: &[u8]) -> usize
    ensures { result ≡ paper_length bytes.now }
{
    let mut rest = bytes;
    while is_field(rest, Field::TAG) {
        rest = &rest[Field::HEAD + size_of_field(rest)..];
    }
    bytes.len() - rest.len()
}

// Whether the rest is one field of tickets.
fn ends_in_turns(rest: &[u8]) -> bool
    ensures { result ≡ is_turns rest.now }
{
    is_field(rest, Parts::TICKETS)
        && size_of_field(rest) <= Parts::TURNS
        && rest.len() - Field::HEAD == size_of_field(rest)
}

// The parts after the cells: the paper, then the tickets.
fn parts_from(table: [u64; Cell::COUNT as usize], rest: &[u8]) -> Option<Parts<'_>>
    ensures { Divides (after_cells table rest.now) result }
{
    let (paper, turns) = rest.split_at(paper_size(rest));
    if !ends_in_turns(turns) {
        return None;
    }
    Some(Parts {
        table,
        paper,
        tickets: &turns[Field::HEAD..],
    })
}

// The parts of a session of any bytes, or none if it is malformed: the cells strictly rise, and unnamed cells start at 0.
pub(crate) fn session_parts(input: &[u8]) -> Option<Parts<'_>>
    ensures { Divides (session_of input.now) result }
{
    if Parts::BYTES < input.len() {
        return None;
    }
    let mut table = [0; Cell::COUNT as usize];
    let mut least = Cell(0);
    let mut rest = input;
    while is_field(rest, Parts::CELL) {
        if !is_next_cell(rest, least) {
            return None;
        }
        let cell = cell_at(rest);
        table[usize::from(cell.0)] = value_at(rest);
        least = Cell(cell.0 + 1);
        rest = &rest[Parts::CELL_FIELD..];
    }
    parts_from(table, rest)
}
