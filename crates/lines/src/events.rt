// event.read and event.write.
use crate::answer::Answer;
use crate::margins;
use crate::scan::Words;
use records::event::Event;
use records::{Refusal, event};

// The slot of element [17], which no line has.
const EMPLOYEE: usize = 20;

pub fn read(words: Words, record: &[u8], out: &mut Answer) -> Option<()> {
    words.ends()?;
    tell(out, event::read(record));
    Some(())
}

// The answer to a reading.
pub fn tell(out: &mut Answer, read: Result<Event, Refusal>) {
    if let Some(value) = out.told(read) {
        let numbers = value.numbers();
        out.numbers(&numbers[..EMPLOYEE]);
        out.numbers(&numbers[EMPLOYEE + 1..]);
        margins::answer(out, value.margin);
    }
}

pub fn write(mut words: Words, record: &mut [u8], out: &mut Answer) -> Option<()> {
    let mut numbers = [0; 36];
    words.fill(&mut numbers[..EMPLOYEE])?;
    words.fill(&mut numbers[EMPLOYEE + 1..])?;
    let margin = margins::take(&mut words)?;
    words.ends()?;
    let answer = event::write(record, Event::of(numbers, margin));
    out.written(answer, record);
    Some(())
}
