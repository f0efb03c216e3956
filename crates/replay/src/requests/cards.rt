// select, passage, priority and load.
use lines::answer::Answer;
use lines::scan::{BYTES, Words};
use loading::Order;
use passage::Passage;
use records::Refusal;
use selection::Selected;

pub fn select(mut words: Words, list: &[u8], out: &mut Answer) -> Option<()> {
    let mut file = [0; BYTES];
    let file = words.bytes(&mut file)?;
    let n = words.number()?;
    let c = words.number()?;
    let day = words.number()?;
    let operator = words.number()?;
    words.ends()?;
    let selected = selection::select(list, file, n, c, day, operator);
    tell(out, selected);
    out.bytes(selection::part(file, selected));
    Some(())
}

fn tell(out: &mut Answer, selected: Result<Selected, Refusal>) {
    match out.told(selected) {
        Some(chosen) => out.numbers(&[chosen.position, chosen.pointer, chosen.priority]),
        None => out.numbers(&[0; 3]),
    }
}

pub fn passage(mut words: Words, list: &mut [u8], out: &mut Answer) -> Option<()> {
    let mut file = [0; BYTES];
    let mut journal = [0; BYTES];
    let file = words.bytes(&mut file)?;
    let journal = words.bytes(&mut journal)?;
    let passage = take_passage(&mut words)?;
    words.ends()?;
    let selected = passage::pass(list, file, journal, passage);
    tell(out, selected);
    out.bytes(list);
    out.bytes(journal);
    Some(())
}

fn take_passage(words: &mut Words) -> Option<Passage> {
    Some(Passage {
        n: words.number()?,
        c: words.number()?,
        day: words.number()?,
        minute: words.number()?,
        operator: words.number()?,
        code: words.number()?,
        provider: words.number()?,
    })
}

pub fn priority(mut words: Words, list: &mut [u8], out: &mut Answer) -> Option<()> {
    let n = words.number()?;
    let c = words.number()?;
    let position = words.number()?;
    let code = words.number()?;
    words.ends()?;
    let answer = selection::change_priority(list, n, c, position, code);
    out.written(answer, list);
    Some(())
}

pub fn load(mut words: Words, list: &mut [u8], out: &mut Answer) -> Option<()> {
    let mut file = [0; BYTES];
    let mut special = [0; BYTES];
    let mut journal = [0; BYTES];
    let mut records = [0; BYTES];
    let mut new = [0; BYTES];
    let mut codes = [0; BYTES];
    let file = words.bytes(&mut file)?;
    let special = words.bytes(&mut special)?;
    let journal = words.bytes(&mut journal)?;
    let records = words.bytes(&mut records)?;
    let new = words.bytes(&mut new)?;
    let codes = words.bytes(&mut codes)?;
    let order = take_order(&mut words)?;
    words.ends()?;
    let loaded = loading::load(list, file, special, journal, records, new, codes, order);
    let pointer = out.told(loaded).unwrap_or(0);
    out.number(pointer);
    out.bytes(list);
    out.bytes(file);
    Some(())
}

fn take_order(words: &mut Words) -> Option<Order> {
    Some(Order {
        n: words.number()?,
        c: words.number()?,
        s: words.number()?,
        day: words.number()?,
        minute: words.number()?,
        hours: words.number()?,
        key: words.number()?,
        kind: words.number()?,
        priority: words.number()?,
        has_network: words.flag()?,
        network: words.number()?,
        counter: words.flag()?,
    })
}
