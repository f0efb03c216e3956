// The library's operations over lines of text: a request a line on standard input, an answer a line on standard output.
#![tactic(auto)]

mod requests;

ghost use Rattle.std.specs.Prelude.{◌≤◌};

use lines::answer::Answer;
use std::io;
use std::io::Read;

// One letter more than a request has, by which a longer line shows.
const ROOM: usize = 8193;

// The line that comes, as far as it is taken. A letter past the last place is dropped.
#[derive(Drop)]
struct Line {
    letters: [u8; ROOM],
    end: usize,
    ghost within: { end ≤ 8193 },
}

fn main(rt: HostRuntime) -> io::Result<()> {
    let mut input = rt.stdin();
    let mut piece = [0; 4096];
    let mut line = Line {
        letters: [0; ROOM],
        end: 0,
    };
    // A proved loop has to end, and nothing says that the input does: no run comes to so many pieces.
    for _ in 0..u64::MAX {
        let n = input.read(&mut piece)?;
        if n == 0 {
            break;
        }
        line.take(&rt, &piece[..n])?;
    }
    line.finish(&rt)
}

impl Line {
    // Replies to each line that ends in a piece of the input.
    fn take(&mut self, rt: &impl Print, piece: &[u8]) -> io::Result<()> {
        for letter in piece {
            self.take_letter(rt, *letter)?;
        }
        Ok(())
    }

    fn take_letter(&mut self, rt: &impl Print, letter: u8) -> io::Result<()> {
        if letter == b'\n' {
            reply(rt, &self.letters[..self.end])?;
            self.end = 0;
        } else if let Some(place) = self.letters.get_mut(self.end) {
            *place = letter;
            self.end += 1;
        }
        Ok(())
    }

    // The last line may lack its line feed.
    fn finish(&self, rt: &impl Print) -> io::Result<()> {
        if self.end == 0 {
            return Ok(());
        }
        reply(rt, &self.letters[..self.end])
    }
}

fn reply(rt: &impl Print, line: &[u8]) -> io::Result<()> {
    let mut answer = Answer::new();
    if requests::answer(line, &mut answer).is_none() {
        answer.text(b"! line");
    }
    answer.text(b"\n");
    rt.write_all(answer.line())
}
