// The readings by the second reader.
use lines::answer::Answer;
use lines::scan::Words;
use lines::{contract_lists, contracts, environments, events, holders, special_lists};

pub fn environment(words: Words, record: &[u8], out: &mut Answer) -> Option<()> {
    words.ends()?;
    environments::tell(out, lab::environment(record));
    Some(())
}

pub fn holder(words: Words, area: &[u8], out: &mut Answer) -> Option<()> {
    words.ends()?;
    holders::tell(out, lab::holder(area));
    Some(())
}

pub fn event(words: Words, record: &[u8], out: &mut Answer) -> Option<()> {
    words.ends()?;
    events::tell(out, lab::event(record));
    Some(())
}

pub fn special(mut words: Words, record: &[u8], out: &mut Answer) -> Option<()> {
    let records = words.number()?;
    words.ends()?;
    special_lists::tell(out, lab::special(record, records));
    Some(())
}

pub fn list(mut words: Words, record: &[u8], out: &mut Answer) -> Option<()> {
    let contracts = words.number()?;
    let counters = words.number()?;
    words.ends()?;
    contract_lists::tell(out, lab::list(record, contracts, counters));
    Some(())
}

pub fn contract(mut words: Words, record: &[u8], out: &mut Answer) -> Option<()> {
    let kind = words.number()?;
    words.ends()?;
    contracts::tell(out, lab::contract(record, kind));
    Some(())
}
