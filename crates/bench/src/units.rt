// What each unit of the input asks for: its first byte names the operation, the others are what is lent to it.
ghost use Rattle.std.specs.Prelude.{◌≡◌, ◌<◌, ◌≤◌, length};

use crate::digest;
use contract::Contract;
use lists::{list, special};
use loading::Order;
use passage::Passage;
use records::{Refusal, environment, event};

// How many contract, counter and special event records the card has.
const N: u32 = 8;

const C: u32 = 4;

const S: u32 = 4;

// The three kinds of records that the baseline reads too come first; then, by one test, all up to 16, to which those behind them cost
// nothing.
pub fn answer(unit: &[u8]) -> u64
    requires { 0 < length unit.now }
{
    let lent = &unit[1..];
    let what = unit[0];
    if what == 0 {
        return digest::of_list(list::read(lent, N, C));
    }
    if what <= 2 {
        let kind = if what == 1 {
            Contract::CARNET
        } else {
            Contract::URBAN
        };
        return digest::of_contract(contract::read(lent, kind));
    }
    if what <= 16 {
        return other_answer(what, lent);
    }
    if what == 17 {
        return pass(lent, false);
    }
    if what == 18 {
        return pass(lent, true);
    }
    other_answer(what, lent)
}

// Of the other operations the refusal and one number are enough: what they answer lies in memory. Selection, loading, passing and the
// writing of a BIP contract are called from two places each, so that the compiler inlines none of them and the stack of each can be
// told. So is this function: inlined, it would be in the way of the first three.
fn other_answer(what: u8, lent: &[u8]) -> u64 {
    match what {
        3 => digest::of(special_read(lent)),
        4 => digest::of(event_read(lent)),
        5 => digest::of(environment_read(lent)),
        6 => digest::of(holder_read(lent)),
        7 => digest::of(list_again(lent)),
        8 => digest::of(contract_again(lent, Contract::CARNET)),
        9 => digest::of(contract_again(lent, Contract::URBAN)),
        10 => digest::of(special_again(lent)),
        11 => digest::of(event_again(lent)),
        12 => digest::of(environment_again(lent)),
        13 => digest::of(holder_again(lent)),
        14 => select(lent),
        15 => load(lent),
        16 => load_and_select(lent),
        19 => digest::of_bip(bip::read(lent)),
        20 => digest::of(bip_again(lent)),
        21 => digest::of(bip_twice(lent)),
        _ => 0,
    }
}

fn special_read(lent: &[u8]) -> Result<u32, Refusal> {
    let list = special::read(lent, S)?;
    Ok(list.entries[0].pointer)
}

fn event_read(lent: &[u8]) -> Result<u32, Refusal> {
    let event = event::read(lent)?;
    Ok(event.pointer)
}

fn environment_read(lent: &[u8]) -> Result<u32, Refusal> {
    let environment = environment::read(lent)?;
    Ok(environment.card_status)
}

fn holder_read(lent: &[u8]) -> Result<u32, Refusal> {
    let holder = holder::read(lent)?;
    Ok(holder.bitmap)
}

// Each of the next reads a record and, where it is accepted, writes it again; the answer is that of the writing.
fn list_again(lent: &[u8]) -> Result<u32, Refusal> {
    let mut out = [0u8; 29];
    let list = list::read(lent, N, C)?;
    list::write(&mut out, N, C, list)?;
    Ok(u32::from(out[3]))
}

fn contract_again(lent: &[u8], kind: u32) -> Result<u32, Refusal> {
    let mut out = [0u8; 29];
    let contract = contract::read(lent, kind)?;
    contract::write(&mut out, kind, contract)?;
    Ok(u32::from(out[3]))
}

fn special_again(lent: &[u8]) -> Result<u32, Refusal> {
    let mut out = [0u8; 29];
    let list = special::read(lent, S)?;
    special::write(&mut out, S, list)?;
    Ok(u32::from(out[3]))
}

fn event_again(lent: &[u8]) -> Result<u32, Refusal> {
    let mut out = [0u8; 29];
    let event = event::read(lent)?;
    event::write(&mut out, event)?;
    Ok(u32::from(out[3]))
}

fn environment_again(lent: &[u8]) -> Result<u32, Refusal> {
    let mut out = [0u8; 29];
    let environment = environment::read(lent)?;
    environment::write(&mut out, environment)?;
    Ok(u32::from(out[3]))
}

fn holder_again(lent: &[u8]) -> Result<u32, Refusal> {
    let mut out = [0u8; 116];
    let holder = holder::read(lent)?;
    holder::write(&mut out, holder)?;
    Ok(u32::from(out[3]))
}

fn bip_again(lent: &[u8]) -> Result<u32, Refusal> {
    let mut out = [0u8; 29];
    let contract = bip::read(lent)?;
    bip::write(&mut out, contract)?;
    Ok(u32::from(out[3]))
}

// The same, and then once more on what was written: a second call of the writer. Inlined, it would be left out but for the byte that is
// looked at.
fn bip_twice(lent: &[u8]) -> Result<u32, Refusal> {
    let mut out = [0u8; 29];
    let contract = bip::read(lent)?;
    let _ = bip::write(&mut out, contract);
    bip_again(&out)
}

// Contract list and file, day (two bytes), operator.
fn select(lent: &[u8]) -> u64 {
    if lent.len() != 264 {
        return 0;
    }
    let day = two(lent[261], lent[262]);
    let operator = u32::from(lent[263]);
    let chosen = selection::select(&lent[0..29], &lent[29..261], N, C, day, operator);
    digest::of(chosen.map(|chosen| chosen.pointer))
}

// Contract list and file, special event list and records, the new contract; day and minute (two bytes each), hours, key,
// type, priority, whether it needs a counter; the marked codes; the journal.
fn load(lent: &[u8]) -> u64 {
    if lent.len() < 476 {
        return 0;
    }
    let mut list = [0u8; 29];
    let mut file = [0u8; 232];
    list.copy_from_slice(&lent[0..29]);
    file.copy_from_slice(&lent[29..261]);
    let order = order(&lent[435..444]);
    let loaded = loading::load(
        &mut list,
        &mut file,
        &lent[261..290],
        &lent[476..],
        &lent[290..406],
        &lent[406..435],
        &lent[444..476],
        order,
    );
    digest::of(loaded)
}

// The same, and then selection on the card that loading leaves, for the operator whose number is the new contract's key.
fn load_and_select(lent: &[u8]) -> u64 {
    if lent.len() < 476 {
        return 0;
    }
    let mut list = [0u8; 29];
    let mut file = [0u8; 232];
    list.copy_from_slice(&lent[0..29]);
    file.copy_from_slice(&lent[29..261]);
    let order = order(&lent[435..444]);
    let _ = loading::load(
        &mut list,
        &mut file,
        &lent[261..290],
        &lent[476..],
        &lent[290..406],
        &lent[406..435],
        &lent[444..476],
        order,
    );
    let chosen = selection::select(&list, &file, N, C, order.day, order.key);
    digest::of(chosen.map(|chosen| chosen.pointer))
}

// Contract list and file; day and minute (two bytes each), operator, code, provider; the journal. Twice: once more on the card that the
// first passage leaves, and the list that is left then is read and written again.
fn pass(lent: &[u8], twice: bool) -> u64 {
    if lent.len() < 268 {
        return 0;
    }
    let mut space = [0u8; 435];
    pass_within(lent, &mut space, twice)
}

// The same, with a lent space for the journal.
fn pass_within(lent: &[u8], space: &mut [u8], twice: bool) -> u64
    requires { 268 ≤ length lent.now }
{
    let size = lent.len() - 268;
    if space.len() < size {
        return 0;
    }
    let mut list = [0u8; 29];
    let journal = &mut space[..size];
    list.copy_from_slice(&lent[0..29]);
    journal.copy_from_slice(&lent[268..]);
    let passage = passage(&lent[261..268]);
    let passed = passage::pass(&mut list, &lent[29..261], journal, passage);
    if !twice {
        return digest::of(passed.map(|passed| passed.pointer));
    }
    let _ = passage::pass(&mut list, &lent[29..261], journal, passage);
    other_answer(7, &list)
}

fn order(words: &[u8]) -> Order
    requires { length words.now ≡ 9 }
{
    Order {
        n: N,
        c: C,
        s: S,
        day: two(words[0], words[1]),
        minute: two(words[2], words[3]),
        hours: u32::from(words[4]),
        key: u32::from(words[5]),
        kind: u32::from(words[6]),
        priority: u32::from(words[7]),
        has_network: false,
        network: 0,
        counter: words[8] == 1,
    }
}

fn passage(words: &[u8]) -> Passage
    requires { length words.now ≡ 7 }
{
    Passage {
        n: N,
        c: C,
        day: two(words[0], words[1]),
        minute: two(words[2], words[3]),
        operator: u32::from(words[4]),
        code: u32::from(words[5]),
        provider: u32::from(words[6]),
    }
}

// A number of two bytes, high byte first.
pub fn two(high: u8, low: u8) -> u32 {
    u32::from(u16::from_be_bytes([high, low]))
}
