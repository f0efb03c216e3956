// list.read and list.write.
use crate::answer::Answer;
use crate::scan::Words;
use lists::list;
use lists::list::ContractList;
use lists::tally::{Positions, Tally};
use records::Refusal;

pub fn read(mut words: Words, record: &[u8], out: &mut Answer) -> Option<()> {
    let contracts = words.number()?;
    let counters = words.number()?;
    words.ends()?;
    tell(out, list::read(record, contracts, counters));
    Some(())
}

// The answer to a reading.
pub fn tell(out: &mut Answer, read: Result<ContractList, Refusal>) {
    if let Some(list) = out.told(read) {
        let Tally { counter, plain } = list.tally;
        out.numbers(&list.numbers());
        out.numbers(&[counter.used, plain.used, counter.spent, plain.spent]);
    }
}

// The tally to write is the line's.
pub fn write(mut words: Words, record: &mut [u8], out: &mut Answer) -> Option<()> {
    let contracts = words.number()?;
    let counters = words.number()?;
    let mut list = ContractList::of(counters, words.numbers()?);
    list.tally = take_tally(&mut words)?;
    words.ends()?;
    let answer = list::write(record, contracts, counters, list);
    out.written(answer, record);
    Some(())
}

fn take_tally(words: &mut Words) -> Option<Tally> {
    let [counter_used, plain_used, counter_spent, plain_spent] = words.numbers::<4>()?;
    Some(Tally {
        counter: Positions {
            used: counter_used,
            spent: counter_spent,
        },
        plain: Positions {
            used: plain_used,
            spent: plain_spent,
        },
    })
}
