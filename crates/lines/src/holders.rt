// holder.read and holder.write.
use crate::answer::Answer;
use crate::margins;
use crate::scan::{LARGEST_LETTER, Words};
use holder::Holder;
use records::Refusal;

pub fn read(words: Words, area: &[u8], out: &mut Answer) -> Option<()> {
    words.ends()?;
    tell(out, holder::read(area));
    Some(())
}

// The answer to a reading.
pub fn tell(out: &mut Answer, read: Result<Holder, Refusal>) {
    if let Some(holder) = out.told(read) {
        let mut margin = [0; margins::AREA_BYTES];
        margins::fill(&mut margin, &holder.margin);
        out.numbers(&holder.numbers());
        out.bytes(&margin);
    }
}

pub fn write(mut words: Words, area: &mut [u8], out: &mut Answer) -> Option<()> {
    let numbers = take_numbers(&mut words)?;
    let margin = margins::take_bits(&mut words, margins::AREA_BYTES)?;
    words.ends()?;
    let answer = holder::write(area, Holder::of(numbers, margin));
    out.written(answer, area);
    Some(())
}

fn take_numbers(words: &mut Words) -> Option<[u32; 111]> {
    let mut numbers = [0; 111];
    for (slot, n) in numbers.iter_mut().enumerate() {
        *n = words.at_most(most(slot))?;
    }
    Some(numbers)
}

// Surname and forename are letters, and birth place and birth name.
fn most(slot: usize) -> u32 {
    match slot {
        2..36 | 38..78 => LARGEST_LETTER,
        _ => u32::MAX,
    }
}
