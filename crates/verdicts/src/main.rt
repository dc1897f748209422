// Reads papers as text from standard input and writes the checker's answer to each, a line a paper: `passes` and the
// number of jobs, or `refused`, number, field and place. A word of two hexadecimal digits is a byte; the word `.` ends a
// paper; a number sign starts a comment to the end of its line. The first word that is none of these, or a last paper
// that no dot ends, is told on standard error with its line, and nothing is written after that. A read or a write that
// fails ends the program with its error.
#![tactic(auto)]

ghost use Rattle.std.specs.Prelude.{◌<◌, IfSome};

use machine::paper::check_paper;
use std::io;
use std::io::{ErrorKind, Read, Write};

// Where the text is: between words, behind a first digit that waits for its second, behind a whole word, in a comment,
// or past a word that is wrong.
#[derive(Clone, Copy)]
enum At {
    Gap,
    Half(u8),
    Word,
    Comment,
    Wrong,
}

// What was read, and where the answers go: so many bytes of a paper at its buffer's start, where the text is, its line, and
// the line of the last byte.
#[derive(Drop)]
struct Papers<'a, O: Write, E: Write> {
    out: &'a mut O,
    err: &'a mut E,
    paper: &'a mut [u8],
    size: usize,
    at: At,
    line: u64,
    last: u64,
}

// The value of a hexadecimal digit.
fn digit_of(b: u8) -> Option<u8>
    ensures { IfSome result (λ d. d < 16) }
{
    match b {
        b'0'..=b'9' => Some(b - b'0'),
        b'a'..=b'f' => Some(b - b'a' + 10),
        b'A'..=b'F' => Some(b - b'A' + 10),
        _ => None,
    }
}

impl<'a, O: Write, E: Write> Papers<'a, O, E> {
    // The answer to the paper. It is no longer than its buffer.
    fn answer(&mut self) -> io::Result<()> {
        let size = self.size;
        if self.paper.len() < size {
            return Ok(());
        }
        match check_paper(&self.paper[..size]) {
            Ok(jobs) => writeln!(self.out, "passes {}", jobs.count),
            Err(refusal) => {
                let (number, field, place) = (
                    refusal.fault.number(),
                    refusal.field.0,
                    refusal.place.0,
                );
                writeln!(self.out, "refused {number} {field} {place}")
            }
        }
    }

    fn tell(&mut self, line: u64, what: &str) -> io::Result<()> {
        writeln!(self.err, "line {line}: {what}")
    }

    // A word that is no byte ends the papers.
    fn refuse_word(&mut self) -> io::Result<()> {
        self.tell(self.line, "not a byte of two hex digits")?;
        self.size = 0;
        self.at = At::Wrong;
        Ok(())
    }

    fn end_line(&mut self) {
        self.at = At::Gap;
        self.line = self.line.wrapping_add(1);
    }

    // A byte that parts words.
    fn part_words(&mut self, b: u8) -> io::Result<()> {
        match b {
            b'\n' => self.end_line(),
            b'#' => self.at = At::Comment,
            b' ' | 9 | 11 | 12 | 13 => self.at = At::Gap,
            _ => return self.refuse_word(),
        }
        Ok(())
    }

    // The first byte of a word, or one between words.
    fn begin_word(&mut self, b: u8) -> io::Result<()> {
        if let Some(digit) = digit_of(b) {
            self.at = At::Half(digit);
            self.last = self.line;
            return Ok(());
        }
        if b != b'.' {
            return self.part_words(b);
        }
        self.answer()?;
        self.size = 0;
        self.at = At::Word;
        Ok(())
    }

    // The byte behind a first digit. A byte past the buffer is dropped.
    fn end_byte(&mut self, high: u8, b: u8) -> io::Result<()> {
        let Some(low) = digit_of(b) else {
            return self.refuse_word();
        };
        if self.size < self.paper.len() {
            self.paper[self.size] = high << 4 | low;
            self.size += 1;
        }
        self.at = At::Word;
        Ok(())
    }

    fn read_byte(&mut self, b: u8) -> io::Result<()> {
        match self.at {
            At::Gap => self.begin_word(b),
            At::Half(high) => self.end_byte(high, b),
            At::Word => self.part_words(b),
            At::Comment => {
                if b == b'\n' {
                    self.end_line();
                }
                Ok(())
            }
            At::Wrong => Ok(()),
        }
    }

    fn read_bytes(&mut self, bytes: &[u8]) -> io::Result<()> {
        for &b in bytes {
            self.read_byte(b)?;
        }
        Ok(())
    }

    // Half a byte, or a paper without its dot, is told at the end of the text.
    fn end_text(&mut self) -> io::Result<()> {
        if let At::Half(_) = self.at {
            return self.refuse_word();
        }
        if self.size > 0 {
            self.tell(self.last, "no dot after the last paper")?;
        }
        Ok(())
    }
}

// The buffer holds all that a verdict can depend on: sixteen fields that pass, of 579 bytes each, and a head with the
// 65,535 bytes that it may announce.
fn main(rt: HostRuntime) -> io::Result<()> {
    let (mut input, mut out, mut err) = (rt.stdin(), rt.stdout(), rt.stderr());
    let mut paper = [0u8; 74802];
    let mut bytes = [0u8; 4096];
    let mut papers = Papers {
        out: &mut out,
        err: &mut err,
        paper: &mut paper,
        size: 0,
        at: At::Gap,
        line: 1,
        last: 1,
    };
    for _ in 0..u64::MAX {
        match input.read(&mut bytes) {
            Ok(0) => return papers.end_text(),
            Ok(n) => papers.read_bytes(&bytes[..n])?,
            Err(e) if e.kind() == ErrorKind::Interrupted => {}
            Err(e) => return Err(e),
        }
    }
    Ok(())
}
