// The requests by their words.
mod approval;
mod cards;
mod gate_writes;

use lines::answer::Answer;
use lines::scan::{BYTES, Words};
use lines::{bips, contract_lists, contracts, environments, events, holders, special_lists};

// The most letters of a request.
const MOST: usize = 8192;

// Nothing is answered where the line is no request. Each has bytes, a record or an area, behind its own word.
pub fn answer(line: &[u8], out: &mut Answer) -> Option<()> {
    if MOST < line.len() {
        return None;
    }
    let (request, mut words) = Words::of(line);
    let mut record = [0; BYTES];
    let record = words.bytes(&mut record)?;
    choose(request, words, record, out)
}

fn choose(request: &[u8], words: Words, record: &mut [u8], out: &mut Answer) -> Option<()> {
    match request {
        b"env.read" => environments::read(words, record, out),
        b"env.write" => environments::write(words, record, out),
        b"holder.read" => holders::read(words, record, out),
        b"holder.write" => holders::write(words, record, out),
        b"event.read" => events::read(words, record, out),
        b"event.write" => events::write(words, record, out),
        b"special.read" => special_lists::read(words, record, out),
        b"special.write" => special_lists::write(words, record, out),
        b"list.read" => contract_lists::read(words, record, out),
        b"list.write" => contract_lists::write(words, record, out),
        b"contract.read" => contracts::read(words, record, out),
        b"contract.write" => contracts::write(words, record, out),
        b"bip.read" => bips::read(words, record, out),
        b"bip.write" => bips::write(words, record, out),
        b"select" => cards::select(words, record, out),
        b"passage" => cards::passage(words, record, out),
        b"priority" => cards::priority(words, record, out),
        b"load" => cards::load(words, record, out),
        b"apply" => gate_writes::apply(words, record, out),
        b"find" => gate_writes::find(words, record, out),
        b"join" => gate_writes::join(words, record, out),
        b"lab.env" => approval::environment(words, record, out),
        b"lab.holder" => approval::holder(words, record, out),
        b"lab.event" => approval::event(words, record, out),
        b"lab.special" => approval::special(words, record, out),
        b"lab.list" => approval::list(words, record, out),
        b"lab.contract" => approval::contract(words, record, out),
        _ => None,
    }
}
