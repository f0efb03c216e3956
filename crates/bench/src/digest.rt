// A digest: one number that every part of an answer goes into.
use bip::{BipContract, Extension, Weekdays};
use contract::{Contract, Data, Data42, Data50};
use lists::list::{ContractList, Entry};
use lists::tally::Tally;
use records::Refusal;
use rows::margin::Margin;

// A line a field, here and below, and no fold over a value's `numbers`: what they take would be measured with the reading.
fn with(d: u64, v: u32) -> u64 {
    with_word(d, v as u64)
}

// 33 times the digest, and v more, modulo 2^64.
fn with_word(d: u64, v: u64) -> u64 {
    (d << 5).wrapping_add(d).wrapping_add(v)
}

fn of_three(number: u32, place: u32, field: u32) -> u64 {
    with(with(with(1, number), place), field)
}

fn of_refusal(r: Refusal) -> u64 {
    of_three(r.why.number(), r.place, r.field)
}

// Of an accepted answer, before its value.
fn of_accepted() -> u64 {
    of_three(0, 0, 0)
}

// Of an answer and a number of its value, zero where it is refused.
pub fn of(answer: Result<u32, Refusal>) -> u64 {
    match answer {
        Ok(number) => with(of_accepted(), number),
        Err(refusal) => with(of_refusal(refusal), 0),
    }
}

pub fn of_list(read: Result<ContractList, Refusal>) -> u64 {
    match read {
        Ok(list) => with_tally(with_entries(of_accepted(), list), list.tally),
        Err(refusal) => of_refusal(refusal),
    }
}

fn with_entries(d: u64, list: ContractList) -> u64 {
    let mut d = with(d, list.count);
    for entry in &list.entries {
        d = with_entry(d, *entry);
    }
    d
}

fn with_entry(d: u64, e: Entry) -> u64 {
    let d = with(d, e.bitmap);
    let d = with(d, e.network);
    let d = with(d, e.key);
    let d = with(d, e.kind);
    let d = with(d, e.priority);
    with(d, e.pointer)
}

fn with_tally(d: u64, tally: Tally) -> u64 {
    let counter = tally.counter;
    let plain = tally.plain;
    let d = with(d, counter.used);
    let d = with(d, plain.used);
    let d = with(d, counter.spent);
    with(d, plain.spent)
}

pub fn of_contract(read: Result<Contract, Refusal>) -> u64 {
    match read {
        Ok(contract) => with_contract(of_accepted(), contract),
        Err(refusal) => of_refusal(refusal),
    }
}

fn with_contract(d: u64, c: Contract) -> u64 {
    let d = with(d, c.bitmap);
    let d = with(d, c.provider);
    let d = with(d, c.tariff);
    let d = with(d, c.serial);
    let d = with(d, c.class);
    let d = with(d, c.validity_bitmap);
    let d = with(d, c.start_date);
    let d = with(d, c.end_date);
    let d = with(d, c.status);
    let data = c.data;
    let margin = c.margin;
    with_margin(with_data(d, data), margin)
}

fn with_data(d: u64, data: Data) -> u64 {
    match data {
        Data::Nothing => with(d, 0),
        Data::Carnet(data) => with_carnet(with(d, Contract::CARNET), data),
        Data::Urban(data) => with_urban(with(d, Contract::URBAN), data),
    }
}

fn with_margin(d: u64, m: Margin) -> u64 {
    let d = with_word(d, m.at0);
    let d = with_word(d, m.at64);
    let d = with_word(d, m.at128);
    with_word(d, m.at192)
}

fn with_carnet(d: u64, c: Data42) -> u64 {
    let d = with(d, c.pay_method);
    let d = with(d, c.price);
    let d = with(d, c.sale_date);
    let d = with(d, c.sale_minute);
    let d = with(d, c.agent);
    let d = with(d, c.device);
    let d = with(d, c.receipt);
    let d = with(d, c.passengers);
    with(d, c.inhibition_end)
}

fn with_urban(d: u64, c: Data50) -> u64 {
    let d = with(d, c.end_date);
    let d = with(d, c.grey_list);
    let d = with(d, c.chrono);
    let d = with(d, c.flag);
    let d = with(d, c.bitmap);
    let d = with(d, c.agent);
    let d = with(d, c.origin);
    let d = with(d, c.destination);
    let d = with(d, c.via);
    let d = with(d, c.token1);
    let d = with(d, c.token2);
    let d = with(d, c.autoload_start);
    let d = with(d, c.autoload_end);
    let d = with(d, c.balance);
    let d = with(d, c.last_debit);
    let d = with(d, c.purse);
    let d = with(d, c.debit);
    let d = with(d, c.passengers);
    let d = with(d, c.period_end);
    let d = with(d, c.period_balance);
    let d = with(d, c.zone1);
    let d = with(d, c.zone2);
    let d = with(d, c.zone3);
    let d = with(d, c.sections);
    let d = with(d, c.sections_left);
    let d = with(d, c.stop1);
    let d = with(d, c.stop2);
    let d = with(d, c.stop3);
    let d = with(d, c.stop4);
    let d = with(d, c.line1);
    let d = with(d, c.line2);
    let d = with(d, c.weekly);
    let d = with(d, c.start_date);
    let d = with(d, c.end_minute);
    let d = with(d, c.token);
    with(d, c.intermodal)
}

pub fn of_bip(read: Result<BipContract, Refusal>) -> u64 {
    match read {
        Ok(contract) => with_bip(of_accepted(), contract),
        Err(refusal) => of_refusal(refusal),
    }
}

fn with_bip(d: u64, b: BipContract) -> u64 {
    let days = b.days;
    let extension = b.extension;
    let d = with(d, b.company);
    let d = with(d, b.format);
    let d = with(d, b.rfu);
    let d = with(d, b.extra_tariff);
    let d = with(d, b.tariff);
    let d = with(d, b.serial);
    let d = with(d, b.start);
    let d = with(d, b.end);
    let d = with_days(d, days);
    let d = with(d, b.sam_serial);
    let d = with(d, b.sam_counter);
    let d = with_extension(d, extension);
    with(d, b.mac)
}

fn with_days(d: u64, days: Weekdays) -> u64 {
    let d = with(d, days.monday as u32);
    let d = with(d, days.tuesday as u32);
    let d = with(d, days.wednesday as u32);
    let d = with(d, days.thursday as u32);
    let d = with(d, days.friday as u32);
    let d = with(d, days.saturday as u32);
    let d = with(d, days.sunday as u32);
    with(d, days.holidays as u32)
}

fn with_extension(d: u64, extension: Extension) -> u64 {
    match extension {
        Extension::Nothing => with(d, 0),
        Extension::Tag(tag) => with(with(d, 1), tag),
    }
}
