// special.read and special.write.
use crate::answer::Answer;
use crate::scan::Words;
use lists::special;
use lists::special::SpecialList;
use records::Refusal;

pub fn read(mut words: Words, record: &[u8], out: &mut Answer) -> Option<()> {
    let records = words.number()?;
    words.ends()?;
    tell(out, special::read(record, records));
    Some(())
}

// The answer to a reading.
pub fn tell(out: &mut Answer, read: Result<SpecialList, Refusal>) {
    if let Some(list) = out.told(read) {
        out.numbers(&list.numbers());
    }
}

pub fn write(mut words: Words, record: &mut [u8], out: &mut Answer) -> Option<()> {
    let records = words.number()?;
    let numbers = words.numbers()?;
    words.ends()?;
    let answer = special::write(record, records, SpecialList::of(numbers));
    out.written(answer, record);
    Some(())
}
