// The second reader, for type approval: it takes one bit after another, and knows the layouts as rows of widths. Each reading answers
// what the working reader answers.
#![tactic(auto, unfolding(records::specs::Answer::read_record, records::specs::Answer::read_area, lists::specs::Listing::read_list), using(crate::proofs::Tables::environment_fits, crate::proofs::Tables::event_fits, crate::proofs::Tables::carnet_fits, crate::proofs::Tables::urban_fits, crate::proofs::Tables::special_fits, crate::proofs::Tables::special_slots))]

ghost use Rattle.std.specs.Prelude.{◌≡◌, length};
ghost use Rattle.rows.specs.Walk.{slots};
ghost use Rattle.records.specs.Answer.{answer_of, heard};
ghost use Rattle.records.specs.Environment.{environment_told, environment_read};
ghost use Rattle.records.specs.Event.{event_told, event_read};
ghost use Rattle.holder.specs.Holder.{holder_read, holder_answer};
ghost use Rattle.contract.specs.Contract.{table_of, contract_told, contract_read};
ghost use Rattle.lists.specs.List.{list_read, list_answer};
ghost use Rattle.lists.specs.Special.{special_read, special_answer};
ghost use Rattle.lab.specs.Inner.Reading.{said, read_with};

use contract::Contract;
use holder::Holder;
use lists::list;
use lists::list::{ContractList, Entry};
use lists::special::{SpecialEntry, SpecialList};
use records::environment::Environment;
use records::event::Event;
use records::{BYTES, Refusal};
use rows::margin::Margin;

pub mod layouts;
mod reading;
pub mod row;
mod rules;
pub mod run;
pub mod state;

// The Environment in a lent record.
pub fn environment(bytes: &[u8]) -> Result<Environment, Refusal>
    ensures { environment_told (heard result) ≡ environment_told (environment_read bytes.now) }
{
    if bytes.len() != BYTES {
        return Err(Refusal::WRONG_LENGTH);
    }
    let (numbers, margin) = reading::with_margin(&layouts::environment(), bytes)?;
    Ok(Environment::of(numbers, Margin::of(margin)))
}

// The Event in a lent record.
pub fn event(bytes: &[u8]) -> Result<Event, Refusal>
    ensures { event_told (heard result) ≡ event_told (event_read bytes.now) }
{
    if bytes.len() != BYTES {
        return Err(Refusal::WRONG_LENGTH);
    }
    let (numbers, margin) = reading::with_margin(&layouts::event(), bytes)?;
    Ok(Event::of(numbers, Margin::of(margin)))
}

// The Holder in a lent area.
pub fn holder(bytes: &[u8]) -> Result<Holder, Refusal>
    ensures { holder_answer result ≡ holder_read bytes.now }
{
    if !holder::is_area(bytes.len()) {
        return Err(Refusal::WRONG_LENGTH);
    }
    let (numbers, margin) = reading::with_margin(&layouts::holder(), bytes)?;
    Ok(Holder::of(numbers, margin))
}

// The contract of a type in a lent record.
pub fn contract(bytes: &[u8], kind: u32) -> Result<Contract, Refusal>
    ensures { contract_told (heard result) ≡ contract_told (contract_read kind bytes.now) }
{
    if bytes.len() != BYTES {
        return Err(Refusal::WRONG_LENGTH);
    }
    if !contract::known(kind) {
        return Err(Refusal::UNKNOWN_TYPE);
    }
    let (numbers, margin) = of_kind(bytes, kind)?;
    Ok(Contract::of(kind, numbers, Margin::of(margin)))
}

fn of_kind(bytes: &[u8], kind: u32) -> Result<([u32; 45], [u64; 4]), Refusal>
    requires { length bytes.now ≡ 29 }
    ensures { said (slots (table_of kind)) result ≡ read_with 4 (table_of kind) bytes.now }
{
    match kind {
        Contract::CARNET => reading::with_margin(&layouts::carnet(), bytes),
        _ => reading::with_margin(&layouts::urban(), bytes),
    }
}

// The contract list in a lent record, on a card with n contract records, the first c of them with counters.
pub fn list(bytes: &[u8], n: u32, c: u32) -> Result<ContractList, Refusal>
    ensures { list_answer result ≡ list_read n c bytes.now }
{
    if bytes.len() != BYTES {
        return Err(Refusal::WRONG_LENGTH);
    }
    if list::outside(n, c) {
        return Err(Refusal::OUTSIDE_LIMITS);
    }
    let numbers = reading::listed(&layouts::contract_list(), bytes, 8, 6, Entry::FULL, n)?;
    Ok(ContractList::of(c, numbers))
}

// The special event list in a lent record, on a card with s special event records.
pub fn special(bytes: &[u8], s: u32) -> Result<SpecialList, Refusal>
    ensures { special_answer result ≡ special_read s bytes.now }
{
    if bytes.len() != BYTES {
        return Err(Refusal::WRONG_LENGTH);
    }
    if SpecialList::MOST < s {
        return Err(Refusal::OUTSIDE_LIMITS);
    }
    let numbers = reading::listed(&layouts::special_list(), bytes, 4, 5, SpecialEntry::FULL, s)?;
    Ok(SpecialList::of(numbers))
}
