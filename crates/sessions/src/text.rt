// Text in a lent buffer: each piece stands where the last one ended, and is cut where the buffer ends.
ghost use Rattle.std.specs.Prelude.{◌≡◌, [], ◌∷◌, ◌≤◌, length};

use machine::counts::{Cell, Place, Ticket};
use machine::paper::Field;

// The byte of a final turn.
const FINAL: u8 = 4;

// A lent buffer, and where the text in it ends.
#[derive(Drop)]
pub(crate) struct Text<'a> {
    out: &'a mut [u8],
    at: usize,
    ghost within: { at ≤ length out.now },
}

impl<'a> Text<'a> {
    ghost use Rattle.sessions.specs.Text.{decimal, byte_text, spaced, last_of, turn_line, byte_lines, cell_line, cell_lines, where_of, refused_line, Written};

    // No text yet.
    pub(crate) fn new(out: &'a mut [u8]) -> Text<'a>
        ensures same_reference { result.out.ghost_name ≡ out.entry.ghost_name }
        ensures none { (result.out.now ≡ out.old) × (result.at ≡ 0) }
    {
        Text { out, at: 0 }
    }

    // How many bytes of text stand in the buffer.
    pub(crate) fn size(&self) -> usize
        ensures { result ≡ self.now.at }
    {
        self.at
    }

    fn put(&mut self, b: u8)
        ensures { Written self.old (b ∷ []) self.new }
    {
        if self.at < self.out.len() {
            self.out[self.at] = b;
            self.at += 1;
        }
    }

    fn put_all(&mut self, bytes: &[u8])
        ensures { Written self.old bytes.now self.new }
    {
        for &b in bytes {
            self.put(b);
        }
    }

    // A number in decimal, by recursion on the number, which falls to its first digit.
    fn put_decimal(&mut self, n: u64)
        ensures { Written self.old (decimal n) self.new }
    {
        if 10 <= n {
            self.put_decimal(n / 10);
        }
        self.put(b'0' + (n % 10) as u8);
    }

    // A turn's word, from the byte that stands for it.
    fn put_word(&mut self, word: u8)
        ensures { Written self.old (byte_text word) self.new }
    {
        let text: &[u8] = match word {
            0 => b"idle",
            1 => b"back",
            2 => b"step",
            3 => b"end",
            4 => b"final",
            5 => b"wait",
            _ => b"none",
        };
        self.put_all(text);
    }

    // A space, then a number.
    fn put_spaced(&mut self, n: u64)
        ensures { Written self.old (spaced n) self.new }
    {
        self.put(b' ');
        self.put_decimal(n);
    }

    // The last number of a line.
    fn put_last(&mut self, n: u64)
        ensures { Written self.old (last_of n) self.new }
    {
        self.put_spaced(n);
        self.put(b'\n');
    }

    // The ticket, the turn's word, and f after it.
    fn put_turn(&mut self, ticket: Ticket, word: u8, f: u64)
        ensures { Written self.old (turn_line ticket.0 (byte_text word) f) self.new }
    {
        self.put_decimal(u64::from(ticket.0));
        self.put(b' ');
        self.put_word(word);
        self.put_last(f);
    }

    // A line for each turn; f starts at 0.
    pub(crate) fn put_turns(&mut self, tickets: &[u8], words: &[u8])
        ensures { Written self.old (byte_lines 0 tickets.now words.now) self.new }
    {
        let mut f = 0;
        for (&t, &w) in tickets.iter().zip(words) {
            f += u64::from(w == FINAL);
            self.put_turn(Ticket(t), w, f);
        }
    }

    // A settled cell that is not 0.
    fn put_cell(&mut self, cell: Cell, value: u64)
        ensures { Written self.old (cell_line cell.0 value) self.new }
    {
        if value != 0 {
            self.put_all(b"cell ");
            self.put_decimal(u64::from(cell.0));
            self.put_last(value);
        }
    }

    pub(crate) fn put_cells(&mut self, table: &[u64; Cell::COUNT as usize])
        ensures { Written self.old (cell_lines 0 table.now) self.new }
    {
        for (k, &value) in table.iter().enumerate() {
            self.put_cell(Cell(k as u16), value);
        }
    }

    // A field and a place, at a line's end.
    fn put_where(&mut self, field: Field, place: Place)
        ensures { Written self.old (where_of field.0 place.0) self.new }
    {
        self.put_spaced(u64::from(field.0));
        self.put_last(u64::from(place.0));
    }

    pub(crate) fn put_refusal(&mut self, number: u8, field: Field, place: Place)
        ensures { Written self.old (refused_line (number, field.0, place.0)) self.new }
    {
        self.put_all(b"refused ");
        self.put_decimal(u64::from(number));
        self.put_where(field, place);
    }
}
