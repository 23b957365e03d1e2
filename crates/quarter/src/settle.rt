// A quarter's commands, run on the seat book and noted in the trail.
ghost use Rattle.std.specs.Prelude.{◌≡◌, ℕ, List, true, is_ok, IfOk, IfSome, if◌then◌else◌};
ghost use Rattle.std.specs.Io.KnownBytes.{IsAtEnd};
ghost use Rattle.quarter.specs.Lines.{line_read};
ghost use Rattle.quarter.specs.Quarters.{standing, fresh, entered, after_line, settled, all_read, BookOfRequests};

use crate::{Entry, Fault, read_line};
use service::{SeatBook, Service, Trail};
use std::alloc::{AllocError, Global};
use std::io::{self, Read};

/// A line that says nothing that can be run.
#[derive(Clone, Copy, PartialEq, Eq, Debug)]
pub struct Unread {
    pub line: u64,
    pub fault: Fault,
}

/// Where a quarter stands after some lines.
// No model, since callers read the fields: `standing` sums them up.
#[derive(Drop)]
pub struct Quarter {
    pub book: SeatBook,
    pub trail: Trail,
    pub lines: u64,
    pub granted: u64,
    pub refused: u64,
    pub unread: Vec<Unread>,
}

impl Quarter {
    /// A quarter of which no line was taken yet.
    pub fn new(heap: Global) -> Quarter
        ensures stands { standing result ≡ fresh }
        ensures book_of_requests { BookOfRequests }
    {
        Quarter {
            book: SeatBook::new(),
            trail: Trail::new(),
            lines: 0,
            granted: 0,
            refused: 0,
            unread: Vec::new(heap),
        }
    }

    fn enter(&mut self, entry: Entry)
        ensures { standing self.new ≡ entered (standing self.old) entry }
    {
        let client = entry.client();
        let command = entry.command();
        self.lines = self.lines.saturating_add(1);
        let _ = self.trail.step(client, &command);
        // a service answers by a number
        if self.book.step(client, &command) == 1 {
            self.granted = self.granted.saturating_add(1);
        } else {
            self.refused = self.refused.saturating_add(1);
        }
    }

    /// Takes the next line, without its newline. Where there is no memory to note a fault, nothing changes.
    pub fn line(&mut self, line: &[u8]) -> Result<(), AllocError>
        ensures stands { standing self.new ≡ (if is_ok result then after_line (standing self.old) line.now else standing self.old) }
        ensures succeeds { is_ok (line_read line.now) ≡ true → is_ok result ≡ true }
    {
        match read_line(line) {
            Ok(Some(entry)) => self.enter(entry),
            Ok(None) => self.lines = self.lines.saturating_add(1),
            Err(fault) => {
                let number = self.lines.saturating_add(1);
                self.unread.push(Unread {
                    line: number,
                    fault,
                })?;
                self.lines = number;
            }
        }
        Ok(())
    }

    /// Settles a quarter's text, line by line.
    pub fn settle(heap: Global, text: &[u8]) -> Result<Quarter, AllocError>
        ensures stands { IfOk result (λ q. standing q ≡ settled text.now) }
        ensures succeeds { all_read text.now ≡ true → is_ok result ≡ true }
    {
        let mut quarter = Quarter::new(heap);
        for line in text.split_inclusive(|b| *b == b'\n') {
            quarter.line(line.strip_suffix(b"\n").unwrap_or(line))?;
        }
        Ok(quarter)
    }

    /// Settles what a reader gives, up to its end.
    pub fn settle_from<R: Read>(heap: Global, input: &mut R) -> io::Result<Quarter>
        ensures settles { IfOk result (λ q. (text : List ℕ) × IfSome (R.remaining input.old) (λ given. text ≡ given) × (standing q ≡ settled text)) }
        ensures ends { IfOk result (λ _. IsAtEnd (R.remaining input.new)) }
    {
        let mut text = Vec::new(heap);
        input.read_to_end(&mut text)?;
        Ok(Quarter::settle(heap, &text)?)
    }
}
