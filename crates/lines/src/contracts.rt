// contract.read and contract.write.
use crate::answer::Answer;
use crate::margins;
use crate::scan::Words;
use contract::{Contract, Data, Data42, Data50};
use records::Refusal;

pub fn read(mut words: Words, record: &[u8], out: &mut Answer) -> Option<()> {
    let kind = words.number()?;
    words.ends()?;
    tell(out, contract::read(record, kind));
    Some(())
}

// The answer to a reading.
pub fn tell(out: &mut Answer, read: Result<Contract, Refusal>) {
    if let Some(value) = out.told(read) {
        out.numbers(&value.head_numbers());
        answer_data(out, value.data);
        margins::answer(out, value.margin);
    }
}

fn answer_data(out: &mut Answer, data: Data) {
    match data {
        Data::Nothing => out.number(0),
        Data::Carnet(d) => {
            out.number(Contract::CARNET);
            out.numbers(&d.numbers());
        }
        Data::Urban(d) => {
            out.number(Contract::URBAN);
            out.numbers(&d.numbers());
        }
    }
}

pub fn write(mut words: Words, record: &mut [u8], out: &mut Answer) -> Option<()> {
    let kind = words.number()?;
    let head = words.numbers()?;
    let data = take_data(&mut words)?;
    let margin = margins::take(&mut words)?;
    words.ends()?;
    let answer = contract::write(record, kind, Contract::of_head(head, data, margin));
    out.written(answer, record);
    Some(())
}

// A number tells which data follow: none, those of 42h or those of 50h.
fn take_data(words: &mut Words) -> Option<Data> {
    match words.number()? {
        0 => Some(Data::Nothing),
        Contract::CARNET => Some(Data::Carnet(Data42::of(words.numbers()?))),
        Contract::URBAN => Some(Data::Urban(Data50::of(words.numbers()?))),
        _ => None,
    }
}
