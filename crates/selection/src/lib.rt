// Which contract a gate uses, and the change of a priority.
#![tactic(auto)]

ghost use Rattle.std.specs.Prelude.{◌≡◌};
ghost use Rattle.records.specs.Answer.{answer_of};
ghost use Rattle.records.specs.Order.{record_at};
ghost use Rattle.contract.specs.Contract.{contract_read};
ghost use Rattle.selection.specs.Eligible.{opens, not_before, not_after, data_in_force, in_force, serves, eligible};
ghost use Rattle.selection.specs.Inner.Question.{may_open, in_question, goes_before, better, selected_at, sought};
ghost use Rattle.selection.specs.Selection.{choice, chosen, selected, selected_answer, part_of, changing};

use contract::{Contract, Data};
use lists::list;
use lists::list::{ContractList, Entry};
use records::{BYTES, LAST_DAY, Refusal};

// The highest operator.
const LAST_OPERATOR: u32 = 255;

// The chosen entry's position in the list, from 1, its pointer and its priority.
#[derive(Clone, Copy, Debug, PartialEq, Eq)]
pub struct Selected {
    pub position: u32,
    pub pointer: u32,
    pub priority: u32,
}

impl Selected {
    fn at(position: u32, entry: Entry) -> Selected
        ensures { result ≡ selected_at position entry }
    {
        Selected {
            position,
            pointer: entry.pointer,
            priority: entry.priority,
        }
    }
}

// The contract that a gate uses, on a card with n contract records, the first c of them with counters.
#[tactic(auto, unfolding(crate::specs::Selection::selected, crate::specs::Selection::selecting))]
pub fn select(
    list: &[u8],
    file: &[u8],
    n: u32,
    c: u32,
    day: u32,
    operator: u32,
) -> Result<Selected, Refusal>
    ensures { selected_answer result ≡ selected list.now file.now n c day operator }
{
    if list.len() != BYTES || file.len() != BYTES * n as usize {
        return Err(Refusal::WRONG_LENGTH);
    }
    if LAST_DAY < day || LAST_OPERATOR < operator {
        return Err(Refusal::OUTSIDE_LIMITS);
    }
    let list = list::read(list, n, c)?;
    choose(list, file, day, operator).ok_or(Refusal::NONE_ELIGIBLE)
}

// The chosen contract's record, as a part of the lent contract file; an empty part on refusal.
#[tactic(auto, unfolding(crate::specs::Selection::part_of))]
pub fn part(file: &[u8], selected: Result<Selected, Refusal>) -> &[u8]
    ensures { result.now ≡ part_of file.now (selected_answer selected) }
{
    match selected {
        Ok(selected) => records::part(file, selected.pointer),
        Err(_) => &file[..0],
    }
}

fn choose(list: ContractList, file: &[u8], day: u32, operator: u32) -> Option<Selected>
    ensures { sought result ≡ chosen (choice day operator file.now list) }
{
    let mut best = None;
    for (k, entry) in list.entries[..list.len()].iter().enumerate() {
        best = better(k as u32 + 1, *entry, best, file, day, operator);
    }
    best
}

// The choice so far, or the entry at this position where it is eligible and goes before that. Its record is read only where
// the entry itself leaves that open; records that no entry lists are not looked at.
fn better(
    position: u32,
    entry: Entry,
    best: Option<Selected>,
    file: &[u8],
    day: u32,
    operator: u32,
) -> Option<Selected>
    ensures { result ≡ better (eligible day operator file.now entry) position entry best }
{
    if in_question(operator, entry, best) && serves(entry, file, day, operator) {
        return Some(Selected::at(position, entry));
    }
    best
}

fn in_question(operator: u32, entry: Entry, best: Option<Selected>) -> bool
    ensures { result ≡ in_question operator entry best }
{
    entry.priority <= Entry::LAST_USABLE
        && goes_before(entry, best)
        && may_open(operator, entry.key)
}

fn goes_before(entry: Entry, best: Option<Selected>) -> bool
    ensures { result ≡ goes_before entry best }
{
    best.is_none_or(|best| entry.priority < best.priority)
}

// What a key tells without the contract's provider.
fn may_open(operator: u32, key: u32) -> bool
    ensures { result ≡ may_open operator key }
{
    match key {
        Entry::OPEN_KEY => true,
        Entry::PROVIDER_KEY => Entry::PROVIDER_KEY <= operator,
        _ => key == operator,
    }
}

// Whether the entry's record reads, opens and is in force.
fn serves(entry: Entry, file: &[u8], day: u32, operator: u32) -> bool
    ensures { result ≡ serves day operator entry (contract_read entry.kind (record_at file.now entry.pointer)) }
{
    let part = records::part(file, entry.pointer);
    let Ok(contract) = contract::read(part, entry.kind) else {
        return false;
    };
    opens(operator, entry.key, contract) && in_force(day, contract)
}

fn opens(operator: u32, key: u32, contract: Contract) -> bool
    ensures { result ≡ opens operator key contract }
{
    match key {
        Entry::OPEN_KEY => true,
        ..=Entry::LAST_OWN_KEY => key == operator,
        _ => {
            key == Entry::PROVIDER_KEY
                && Entry::PROVIDER_KEY <= operator
                && contract.bitmap % 2 == 1
                && contract.provider == operator
        }
    }
}

fn not_before(day: u32, start: u32) -> bool
    ensures { result ≡ not_before day start }
{
    start == 0 || start <= day
}

fn not_after(day: u32, end: u32) -> bool
    ensures { result ≡ not_after day end }
{
    end == 0 || day <= end
}

fn in_force(day: u32, contract: Contract) -> bool
    ensures { result ≡ in_force day contract }
{
    not_before(day, contract.start_date)
        && not_after(day, contract.end_date)
        && data_in_force(day, contract.data)
}

fn data_in_force(day: u32, data: Data) -> bool
    ensures { result ≡ data_in_force day «data» }
{
    match data {
        Data::Nothing => true,
        Data::Carnet(_) => true,
        Data::Urban(d) => not_before(day, d.start_date) & not_after(day, d.end_date),
    }
}

// Gives the entry at a position another priority: only its four bits of the lent list record change.
#[tactic(auto, unfolding(crate::specs::Selection::changing))]
pub fn change_priority(
    list: &mut [u8],
    n: u32,
    c: u32,
    position: u32,
    code: u32,
) -> Result<(), Refusal>
    ensures { record { answer = answer_of result; bytes = list.new } ≡ changing list.old n c position code }
{
    if list.len() != BYTES {
        return Err(Refusal::WRONG_LENGTH);
    }
    if position == 0 || code == Entry::UNDEFINED || Entry::LAST_PRIORITY < code {
        return Err(Refusal::OUTSIDE_LIMITS);
    }
    let old = list::read(list, n, c)?;
    if old.count < position {
        return Err(Refusal::OUTSIDE_LIMITS);
    }
    list::write(list, n, c, old.with_priority(c, position, code))
}
