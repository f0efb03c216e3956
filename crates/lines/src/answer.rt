// An answer line.
ghost use Rattle.std.specs.Prelude.{◌≤◌};

use records::Refusal;
use std::fmt;
use std::fmt::Write;

// Room for any answer.
const MOST: usize = 16384;

// A letter past the last place is dropped.
#[derive(Drop)]
pub struct Answer {
    letters: [u8; MOST],
    end: usize,
    ghost within: { end ≤ 16384 },
}

impl Answer {
    pub fn new() -> Answer {
        Answer {
            letters: [0; MOST],
            end: 0,
        }
    }

    pub fn line(&self) -> &[u8] {
        &self.letters[..self.end]
    }

    pub fn text(&mut self, text: &[u8]) {
        let from = self.end;
        let n = text.len().min(MOST - from);
        self.letters[from..from + n].copy_from_slice(&text[..n]);
        self.end = from + n;
    }

    pub fn number(&mut self, number: u32) {
        self.numbers(&[number]);
    }

    // Here and below the end is a local while letters are put: by `write!` for each number and each byte a Holder took twice the time.
    pub fn numbers(&mut self, numbers: &[u32]) {
        let mut end = self.end;
        for n in numbers {
            let word = put(&mut self.letters, end, b' ');
            end = put_decimal(&mut self.letters, word, *n);
        }
        self.end = end.min(MOST);
    }

    pub fn bytes(&mut self, bytes: &[u8]) {
        self.text(if bytes.is_empty() { b" -" } else { b" " });
        let mut end = self.end;
        for byte in bytes {
            let low = put(&mut self.letters, end, digit(byte / 16));
            end = put(&mut self.letters, low, digit(byte % 16));
        }
        self.end = end.min(MOST);
    }

    // The beginning of every answer: three zeros, or why it is refused, the place and the field. Gives back the value.
    pub fn told<T>(&mut self, answer: Result<T, Refusal>) -> Option<T> {
        match answer {
            Ok(value) => {
                self.text(b"0 0 0");
                Some(value)
            }
            Err(refusal) => {
                let Refusal { why, place, field } = refusal;
                let _ = write!(self, "{} {place} {field}", why.number());
                None
            }
        }
    }

    // The answer to a write.
    pub fn written(&mut self, answer: Result<(), Refusal>, bytes: &[u8]) {
        self.told(answer);
        self.bytes(bytes);
    }
}

// Puts a letter where there is room for it, and answers the place behind.
fn put(letters: &mut [u8], end: usize, letter: u8) -> usize {
    match letters.get_mut(end) {
        Some(place) => {
            *place = letter;
            end + 1
        }
        None => end,
    }
}

// All digits but the last, and the last.
fn put_decimal(letters: &mut [u8], end: usize, number: u32) -> usize {
    let last = if 10 <= number {
        put_decimal(letters, end, number / 10)
    } else {
        end
    };
    put(letters, last, digit((number % 10) as u8))
}

// The last digit of a number to the base 16.
fn digit(n: u8) -> u8 {
    let digits = b"0123456789ABCDEF";
    digits[usize::from(n) % 16]
}

impl fmt::Write for Answer {
    fn write_str(&mut self, text: &str) -> fmt::Result {
        self.text(text.as_bytes());
        Ok(())
    }
}
