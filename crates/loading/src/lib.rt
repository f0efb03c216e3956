// Where a new contract goes on a card, and writing it there.
#![tactic(auto)]

mod blocking;
mod place;

ghost use Rattle.std.specs.Prelude.{◌≡◌, List, ℕ, ◌*◌, ◌≤◌, length};
ghost use Rattle.lists.specs.List.{list_read};
ghost use Rattle.contract.specs.Contract.{contract_read};
ghost use Rattle.records.specs.Answer.{answer_of};
ghost use Rattle.loading.specs.Inner.Lent.{bytes_of};
ghost use Rattle.loading.specs.Inner.Marks.{marked, refusal_of, Marking};
ghost use Rattle.loading.specs.Inner.Store.{rest_read, file_after, stored, ended};
ghost use Rattle.loading.specs.Loading.{Lent, Outcome, lengths, lengths_of, network_fits, entry_fits, limits, contract_got, new_entry, placed, loaded_answer, loading};
ghost use Rattle.loading.specs.Inner.Unread.{unread};

use lists::list;
use lists::list::{ContractList, Entry};
use lists::special::SpecialList;
use records::{BYTES, LAST_DAY, LAST_MINUTE, MOST_RECORDS, Refusal};

// The card, the time, and the new contract's entry.
#[derive(Clone, Copy, PartialEq, Eq, Debug)]
pub struct Order {
    // contract records, counter positions, special event records
    pub n: u32,
    pub c: u32,
    pub s: u32,
    // now, and the hours that a journal event blocks
    pub day: u32,
    pub minute: u32,
    pub hours: u32,
    // the entry; its network is zero where it has none, and no Option: any other number there is 11, which an Option could not say
    pub key: u32,
    pub kind: u32,
    pub priority: u32,
    pub has_network: bool,
    pub network: u32,
    // whether it needs a counter
    pub counter: bool,
}

// What is lent and only read: special event list, journal, special event records, new contract record, a bit for each event code. (Bare of
// Debug and PartialEq: it would be no plainer for them.)
#[derive(Clone, Copy)]
struct Lent<'a> {
    special: &'a [u8],
    journal: &'a [u8],
    records: &'a [u8],
    new: &'a [u8],
    codes: &'a [u8],
}

// The lengths of all that is lent.
#[derive(Clone, Copy, PartialEq, Eq, Debug)]
struct Lengths {
    list: usize,
    file: usize,
    special: usize,
    journal: usize,
    records: usize,
    new: usize,
    codes: usize,
}

impl Order {
    // The most hours that a journal event blocks.
    pub const MOST_HOURS: u32 = 255;

    // A bit for each event code.
    pub const CODE_BYTES: usize = 32;

    // The refusal that needs no reading: 1, 11, or none.
    fn refused_unread(self, sizes: Lengths) -> Result<(), Refusal>
        ensures { answer_of result ≡ unread self sizes }
    {
        if !self.agrees(sizes) {
            return Err(Refusal::WRONG_LENGTH);
        }
        if !self.in_limits(sizes.journal / BYTES) {
            return Err(Refusal::OUTSIDE_LIMITS);
        }
        Ok(())
    }

    fn agrees(self, sizes: Lengths) -> bool
        ensures { result ≡ lengths self sizes }
    {
        sizes.list == BYTES
            && sizes.file == BYTES * self.n as usize
            && sizes.special == BYTES
            && sizes.journal % BYTES == 0
            && sizes.records == BYTES * self.s as usize
            && sizes.new == BYTES
            && sizes.codes == Order::CODE_BYTES
    }

    fn in_limits(self, journal: usize) -> bool
        ensures { result ≡ limits self journal }
    {
        1 <= self.n
            && self.n <= ContractList::MOST
            && self.c <= ContractList::MOST_COUNTERS
            && self.c <= self.n
            && self.s <= SpecialList::MOST
            && journal <= MOST_RECORDS
            && self.day <= LAST_DAY
            && self.minute <= LAST_MINUTE
            && self.hours <= Order::MOST_HOURS
            && self.entry_in_limits()
    }

    fn entry_in_limits(self) -> bool
        ensures { result ≡ entry_fits self }
    {
        self.key <= Entry::LAST_KEY
            && self.kind <= Entry::LAST_KIND
            && self.priority <= Entry::LAST_PRIORITY
            && self.priority != Entry::UNDEFINED
            && self.network_in_limits()
    }

    // One that is absent is zero.
    fn network_in_limits(self) -> bool
        ensures { result ≡ network_fits self }
    {
        if self.has_network {
            self.network < Entry::NETWORKS
        } else {
            self.network == 0
        }
    }

    // The new entry.
    fn entry(self, pointer: u32) -> Entry
        ensures { result ≡ new_entry self pointer }
    {
        if self.has_network {
            return Entry::with_network(self.network, self.key, self.kind, self.priority, pointer);
        }
        Entry::new(self.key, self.kind, self.priority, pointer)
    }
}

impl Lent<'_> {
    fn lengths(self, list: &[u8], file: &[u8]) -> Lengths
        ensures { result ≡ lengths_of list.now file.now (bytes_of self.entry) }
    {
        Lengths {
            list: list.len(),
            file: file.len(),
            special: self.special.len(),
            journal: self.journal.len(),
            records: self.records.len(),
            new: self.new.len(),
            codes: self.codes.len(),
        }
    }
}

// Finds the place for a new contract, writes it there, and its entry to the contract list; answers its pointer. Refused, both are
// as they were.
// The codes are 32 bytes, a bit for each event code, bit 0 for code 0: a journal event blocks only where its code's is one.
pub fn load(
    list: &mut [u8],
    file: &mut [u8],
    special: &[u8],
    journal: &[u8],
    records: &[u8],
    new: &[u8],
    codes: &[u8],
    order: Order,
) -> Result<u32, Refusal>
    ensures { record { answer = loaded_answer result; list = list.new; file = file.new }
        ≡ loading order list.old file.old (record { special = special.entry.now; journal = journal.now; records = records.now; new = new.now; codes = codes.now }) }
{
    let lent = Lent {
        special,
        journal,
        records,
        new,
        codes,
    };
    order.refused_unread(lent.lengths(list, file))?;
    let mut marks = [false; 9];
    let rest = read_rest(lent, order, &mut marks);
    let pointer = settle(list, rest, &marks, order)?;
    put_new(file, new, order.kind, pointer);
    Ok(pointer)
}

// Reads all but the contract list, in order: the events, marking the pointers that they block, and the new contract.
fn read_rest(lent: Lent<'_>, order: Order, marks: &mut [bool]) -> Result<(), Refusal>
    requires { (length marks.old ≡ 9) × (length lent.records.now ≡ 29 * order.s) }
    ensures { Marking (rest_read order (bytes_of lent.entry)) (λ blocked. blocked) marks.old marks.new (answer_of result) }
{
    blocking::mark_all(lent, order, marks)?;
    contract::read(lent.new, order.kind)?;
    Ok(())
}

// What is to be done with the list when the rest is read. It is read last, so that no value of it waits while events and
// contracts are read; its refusal still comes first.
fn settle(
    list: &mut [u8],
    rest: Result<(), Refusal>,
    marks: &[bool],
    order: Order,
) -> Result<u32, Refusal>
    requires { (length marks.now ≡ 9) × (order.n ≤ 8) × (order.c ≤ order.n) }
    ensures { (file new : List ℕ) → record { answer = loaded_answer result; list = list.new; file = file_after (loaded_answer result) new file }
        ≡ ended order list.old file new (answer_of rest) (marked marks.now) (list_read order.n order.c list.old) }
{
    let old = list::read(list, order.n, order.c)?;
    rest?;
    let Some(pointer) = place::place(old, marks, order) else {
        return Err(Refusal::NO_POSITION);
    };
    store(list, old, pointer, order)
}

// The same when the pointer is known: the list without its entry and with the new one.
fn store(list: &mut [u8], old: ContractList, pointer: u32, order: Order) -> Result<u32, Refusal>
    requires { 1 ≤ pointer }
    ensures { (file new : List ℕ) → record { answer = loaded_answer result; list = list.new; file = file_after (loaded_answer result) new file }
        ≡ stored order list.old file old new pointer }
{
    let renewed = old
        .without(order.c, pointer)
        .with(order.c, order.entry(pointer));
    list::write(list, order.n, order.c, renewed)?;
    Ok(pointer)
}

// Writes the new contract to its pointer's place. It was read before, and is read again, which refuses nothing: its value did not
// wait while the list was changed.
fn put_new(file: &mut [u8], new: &[u8], kind: u32, pointer: u32)
    requires { (1 ≤ pointer) × (29 * pointer ≤ length file.old) × (length new.now ≡ 29) × ((refusal_of (contract_got (contract_read kind new.now))).number ≡ 0) }
    ensures { file.new ≡ placed pointer new.now file.old }
{
    let Ok(contract) = contract::read(new, kind) else {
        return;
    };
    let start = BYTES * (pointer as usize - 1);
    let _ = contract::write(&mut file[start..start + BYTES], kind, contract);
}
