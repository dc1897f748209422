// An instruction, and what its code and operand tell of it by themselves.
ghost use Rattle.std.specs.Prelude.{◌≡◌, ◌&&◌, nat_le, slice_index, slice_index_or};
ghost use Rattle.machine.specs.Limits.{ROOM};
ghost use Rattle.machine.specs.Instruction.{columns, column_number, known, fits, leads_on, jumps, need, after};

use crate::counts::Place;
use crate::job::Job;

#[repr(C)]
#[derive(Clone, Copy, PartialEq, Eq)]
pub struct Instruction {
    pub code: u8,
    pub operand: u64,
}

// What an operand is to be: 0; any number; 1 to 15; a later place in the job.
#[derive(Clone, Copy, PartialEq, Eq)]
enum Column {
    Zero,
    Any,
    Depth,
    Later,
}

// By code: the entries needed, where DUP and SWAP need their operand's number more.
const NEEDS: [u8; Instruction::CODES] = [0, 0, 0, 1, 0, 1, 2, 2, 2, 2, 1, 2, 0, 1];

// By code: the change in height, with 2 added so that no number is negative.
const CHANGES: [u8; Instruction::CODES] = [2, 2, 3, 1, 3, 2, 1, 1, 1, 1, 2, 0, 2, 1];

// By code: the operand's column.
const COLUMNS: [Column; Instruction::CODES] = [
    Column::Zero,
    Column::Zero,
    Column::Any,
    Column::Zero,
    Column::Depth,
    Column::Depth,
    Column::Zero,
    Column::Zero,
    Column::Zero,
    Column::Zero,
    Column::Zero,
    Column::Zero,
    Column::Later,
    Column::Later,
];

// The greatest operand of DUP and SWAP.
const DEEPEST: u64 = 15;

impl Instruction {
    pub const STOP: u8 = 0;

    pub const ABANDON: u8 = 1;

    pub const PUSH: u8 = 2;

    pub const POP: u8 = 3;

    pub const DUP: u8 = 4;

    pub const SWAP: u8 = 5;

    pub const ADD: u8 = 6;

    pub const SUB: u8 = 7;

    pub const LESS: u8 = 8;

    pub const EQUAL: u8 = 9;

    pub const READ: u8 = 10;

    pub const WRITE: u8 = 11;

    pub const JUMP: u8 = 12;

    pub const JUMPZERO: u8 = 13;

    pub const LAST: u8 = Instruction::JUMPZERO;

    pub const CODES: usize = 14;

    // Bytes in a paper: the code, then the operand.
    pub const BYTES: usize = 9;

    // Not above the last code.
    #[tactic(auto, unfolding(crate::specs::Instruction::known))]
    pub fn known(self) -> bool
        ensures { result ≡ known self }
    {
        self.code <= Instruction::LAST
    }

    // Its row of a table by code, or what stands past the table.
    fn row<T: Copy>(self, table: &[T; Instruction::CODES], past: T) -> T
        ensures { result ≡ slice_index_or table.now self.code past }
    {
        match table.get(usize::from(self.code)) {
            Some(row) => *row,
            None => past,
        }
    }

    fn column(self) -> Column
        ensures { column_number result ≡ slice_index columns self.code }
    {
        self.row(&COLUMNS, Column::Zero)
    }

    // Whether the operand is in its column, at a place of a job of so many instructions.
    pub fn fits(self, place: Place, size: u8) -> bool
        ensures { result ≡ fits size place.0 self }
    {
        let x = self.operand;
        match self.column() {
            Column::Zero => x == 0,
            Column::Any => true,
            Column::Depth => 1 <= x && x <= DEEPEST,
            Column::Later => u64::from(place.0) < x && x < u64::from(size),
        }
    }

    // Whether it leads to the next place.
    #[tactic(auto, unfolding(crate::specs::Instruction::leads_on))]
    pub fn leads_on(self) -> bool
        ensures { result ≡ leads_on self }
    {
        !matches!(
            self.code,
            Instruction::STOP | Instruction::ABANDON | Instruction::JUMP
        )
    }

    // Whether it leads to its operand's place.
    #[tactic(auto, unfolding(crate::specs::Instruction::jumps))]
    pub fn jumps(self) -> bool
        ensures { result ≡ jumps self }
    {
        matches!(self.code, Instruction::JUMP | Instruction::JUMPZERO)
    }

    // Whether a stack of this height has the entries that it needs.
    #[tactic(auto, unfolding(crate::specs::Instruction::need))]
    pub fn finds(self, height: u8) -> bool
        ensures { result ≡ nat_le (need self) height }
    {
        let least = self.row(&NEEDS, 0);
        least <= height
            && (self.column() != Column::Depth || self.operand <= u64::from(height - least))
    }

    // The height after it.
    #[tactic(auto, unfolding(crate::specs::Instruction::after))]
    pub fn leaves(self, height: u8) -> u16
        ensures { result ≡ after self height }
    {
        (u16::from(height) + u16::from(self.row(&CHANGES, 0))).saturating_sub(2)
    }

    // Whether a stack of this height has the entries that it needs, and room for what is left.
    pub(crate) fn suits(self, height: u8) -> bool
        ensures { result ≡ (nat_le (need self) height && nat_le (after self height) ROOM) }
    {
        self.finds(height) && self.leaves(height) <= u16::from(Job::ROOM)
    }
}
