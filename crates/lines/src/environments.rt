// env.read and env.write.
use crate::answer::Answer;
use crate::margins;
use crate::scan::Words;
use records::environment::Environment;
use records::{Refusal, environment};

pub fn read(words: Words, record: &[u8], out: &mut Answer) -> Option<()> {
    words.ends()?;
    tell(out, environment::read(record));
    Some(())
}

// The answer to a reading.
pub fn tell(out: &mut Answer, read: Result<Environment, Refusal>) {
    if let Some(value) = out.told(read) {
        out.numbers(&value.numbers());
        margins::answer(out, value.margin);
    }
}

pub fn write(mut words: Words, record: &mut [u8], out: &mut Answer) -> Option<()> {
    let numbers = words.numbers()?;
    let margin = margins::take(&mut words)?;
    words.ends()?;
    let answer = environment::write(record, Environment::of(numbers, margin));
    out.written(answer, record);
    Some(())
}
