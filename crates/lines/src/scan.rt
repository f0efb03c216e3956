// The words of a request, taken one after the other.
ghost use Rattle.std.specs.Prelude.{◌≤◌, length};

// Room for the bytes of any word: two letters a byte.
pub const BYTES: usize = 4096;

pub const LARGEST_LETTER: u32 = 255;

// The words that are left of a line, each with the space before it. (Bare of Debug and PartialEq: it would be no plainer for them.)
#[derive(Clone, Copy)]
pub struct Words<'a> {
    rest: &'a [u8],
}

impl<'a> Words<'a> {
    // A line's first word, the request's own, and those behind it.
    pub fn of(line: &'a [u8]) -> (&'a [u8], Words<'a>) {
        let (word, rest) = line.split_at(word_end(line));
        (word, Words { rest })
    }

    // The next word, without the space before it.
    pub fn word(&mut self) -> Option<&'a [u8]> {
        let text = self.rest.strip_prefix(b" ")?;
        let (word, rest) = text.split_at(word_end(text));
        self.rest = rest;
        Some(word)
    }

    pub fn number(&mut self) -> Option<u32> {
        number(self.word()?)
    }

    pub fn at_most(&mut self, most: u32) -> Option<u32> {
        self.number().filter(|n| *n <= most)
    }

    pub fn flag(&mut self) -> Option<bool> {
        Some(self.at_most(1)? == 1)
    }

    pub fn numbers<const N: usize>(&mut self) -> Option<[u32; N]> {
        let mut numbers = [0; N];
        self.fill(&mut numbers)?;
        Some(numbers)
    }

    // As many numbers as the lent ones.
    pub fn fill(&mut self, numbers: &mut [u32]) -> Option<()> {
        for n in numbers.iter_mut() {
            *n = self.number()?;
        }
        Some(())
    }

    // The bytes that the next word spells, in lent space.
    pub fn bytes<'b>(&mut self, space: &'b mut [u8; BYTES]) -> Option<&'b mut [u8]> {
        let word = self.word()?;
        let n = byte_count(word)?;
        let bytes = space.get_mut(..n)?;
        if n == 0 || text::bytes(word, bytes) {
            Some(bytes)
        } else {
            None
        }
    }

    // Nothing is left.
    pub fn ends(&self) -> Option<()> {
        self.rest.is_empty().then_some(())
    }
}

// The place of the first space, or the end.
fn word_end(text: &[u8]) -> usize
    ensures { result ≤ length text.now }
{
    text.iter()
        .position(|letter| *letter == b' ')
        .unwrap_or(text.len())
}

// The number that a word spells.
pub fn number(word: &[u8]) -> Option<u32> {
    if word.is_empty() {
        return None;
    }
    word.iter()
        .try_fold(0u32, |n, letter| with_digit(n, *letter))
}

fn with_digit(n: u32, letter: u8) -> Option<u32> {
    match letter {
        b'0'..=b'9' => n.checked_mul(10)?.checked_add((letter - b'0').into()),
        _ => None,
    }
}

// How many bytes a word spells, if it spells any: `-` is none of them.
fn byte_count(word: &[u8]) -> Option<usize> {
    match word {
        [] => None,
        b"-" => Some(0),
        [_] => None,
        _ => Some(word.len() / 2),
    }
}
