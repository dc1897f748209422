// A ticket, a cell number and a place in a job: three counts, never used for one another.
ghost use Rattle.std.specs.Prelude.{◌≡◌};
ghost use Rattle.machine.specs.Machine.{cell_of};

#[repr(C)]
#[derive(Clone, Copy, PartialEq, Eq, PartialOrd, Ord)]
pub struct Ticket(pub u8);

#[repr(C)]
#[derive(Clone, Copy, PartialEq, Eq, PartialOrd, Ord)]
pub struct Cell(pub u16);

#[repr(C)]
#[derive(Clone, Copy, PartialEq, Eq, PartialOrd, Ord)]
pub struct Place(pub u8);

impl Cell {
    pub const COUNT: u16 = 256;

    // The cell that a popped number names.
    pub fn named(number: u64) -> Cell
        ensures { result.0 ≡ cell_of number }
    {
        Cell((number % u64::from(Cell::COUNT)) as u16)
    }
}
