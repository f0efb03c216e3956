// Contract list (BestContracts).
ghost use Rattle.std.specs.Prelude.{◌≡◌, [], ◌∷◌, ◌+◌, ◌*◌, ◌≤◌, length};
ghost use Rattle.rows.specs.Inner.Standing.{stand};
ghost use Rattle.rows.specs.Inner.Step.{Ready, Drafted};
ghost use Rattle.rows.specs.Inner.Line.{start, Puts};
ghost use Rattle.rows.specs.Table.BestContracts.{entry, contract_list};
ghost use Rattle.lists.specs.Inner.Steps.{obeyed, tallied, EntryTook, RestTook, EntryGave};
ghost use Rattle.lists.specs.Inner.Judging.{Recounts};
ghost use Rattle.lists.specs.List.{entry_numbers, entry_of, numbers_of, list_of, outside, list_fault, list_read, list_written, list_answer, fair};
ghost use Rattle.lists.specs.Entries.{counted, with_priority, appended, without_pointer};
ghost use Rattle.lists.specs.Tally.{used_up, tally_of, free_of};
ghost use Rattle.records.specs.Answer.{Written, answer_of};

use crate::rules;
use crate::rules::{COUNT_BITS, Judged};
use crate::tally::{Spent, Tally};
use records::{BITS, BYTES, Refusal};
use rows::take::{ListTariff, Part};
use rows::{Cursor, When, put, take};
use std::array;

// An entry: its elements are [0] network, [1] tariff (key, kind and priority), [2] pointer.
#[derive(Clone, Copy, Debug, PartialEq, Eq)]
pub struct Entry {
    pub bitmap: u32,
    pub network: u32,
    pub key: u32,
    pub kind: u32,
    pub priority: u32,
    pub pointer: u32,
}

// The tally is that of the counted entries; a value made by reading and by the methods has it right. A count stands beside eight
// entries, and no Vec: the library has no heap.
#[derive(Clone, Copy, Debug, PartialEq, Eq)]
pub struct ContractList {
    pub count: u32,
    pub entries: [Entry; 8],
    pub tally: Tally,
}

impl Entry {
    // Priority codes.
    pub const LAST_USABLE: u32 = 11;

    pub const UNDEFINED: u32 = ListTariff::UNDEFINED;

    pub const ERASABLE: u32 = 15;

    pub const LAST_PRIORITY: u32 = ListTariff::PRIORITIES - 1;

    // Operator keys: open to all, an operator's own up to the last of these, the contract's provider's.
    pub const OPEN_KEY: u32 = 0;

    pub const LAST_OWN_KEY: u32 = 14;

    pub const PROVIDER_KEY: u32 = 15;

    pub const LAST_KEY: u32 = ListTariff::KEYS - 1;

    pub const LAST_KIND: u32 = ListTariff::KINDS - 1;

    // How many networks there are in their width.
    pub const NETWORKS: u32 = 1 << Entry::NETWORK_BITS;

    // Widths; those of the tariff's numbers are ListTariff's.
    pub const BITMAP_BITS: u32 = 3;

    pub const NETWORK_BITS: u32 = 24;

    pub const POINTER_BITS: u32 = 5;

    // The tariff and the pointer where both are there, as one number: its width, the last bit where it can begin, and how many
    // pointers there are in theirs.
    const REST_BITS: u32 = ListTariff::BITS + Entry::POINTER_BITS;

    const LAST_REST: u32 = BITS - Entry::REST_BITS;

    const POINTERS: u32 = 1 << Entry::POINTER_BITS;

    // A bitmap without its last bit, the network's, where every other element is present.
    pub const FULL: u32 = 3;

    pub const NONE: Entry = Entry {
        bitmap: 0,
        network: 0,
        key: 0,
        kind: 0,
        priority: 0,
        pointer: 0,
    };

    // An entry without a network.
    pub fn new(key: u32, kind: u32, priority: u32, pointer: u32) -> Entry
        ensures { result ≡ record { bitmap = 6; network = 0; key = key; kind = kind; priority = priority; pointer = pointer } }
    {
        Entry {
            bitmap: 6,
            network: 0,
            key,
            kind,
            priority,
            pointer,
        }
    }

    pub fn with_network(network: u32, key: u32, kind: u32, priority: u32, pointer: u32) -> Entry
        ensures { result ≡ record { bitmap = 7; network = network; key = key; kind = kind; priority = priority; pointer = pointer } }
    {
        Entry {
            bitmap: 7,
            network,
            key,
            kind,
            priority,
            pointer,
        }
    }

    fn numbers(self) -> [u32; 6]
        ensures { result ≡ entry_numbers self }
    {
        [
            self.bitmap,
            self.network,
            self.key,
            self.kind,
            self.priority,
            self.pointer,
        ]
    }

    // The entry whose numbers stand from i on.
    fn at(numbers: &[u32], i: usize) -> Entry
        requires { i + 6 ≤ length numbers.now }
        ensures { result ≡ entry_of numbers.now i }
    {
        Entry {
            bitmap: numbers[i],
            network: numbers[i + 1],
            key: numbers[i + 2],
            kind: numbers[i + 3],
            priority: numbers[i + 4],
            pointer: numbers[i + 5],
        }
    }

    fn used_up(self) -> bool
        ensures { result ≡ used_up self }
    {
        self.priority == Entry::ERASABLE
    }
}

impl ContractList {
    // The most entries that a list has, and contract records that a card has.
    pub const MOST: u32 = 8;

    // The most counter positions that a card has.
    pub const MOST_COUNTERS: u32 = 4;

    pub const NONE: ContractList = ContractList {
        count: 0,
        entries: [Entry::NONE; 8],
        tally: Tally::NONE,
    };

    // Its numbers in card order. No From, here and below: docs/CONTRACTS.md promises the names.
    pub fn numbers(self) -> [u32; 49]
        ensures { result ≡ numbers_of self }
    {
        let mut numbers = [0u32; 49];
        numbers[0] = self.count;
        for (k, entry) in self.entries.iter().enumerate() {
            let at = 1 + 6 * k;
            numbers[at..at + 6].copy_from_slice(&entry.numbers());
        }
        numbers
    }

    // The list of such numbers, with the tally of its counted entries.
    pub fn of(c: u32, numbers: [u32; 49]) -> ContractList
        ensures { result ≡ list_of c numbers }
    {
        let mut list = ContractList {
            count: numbers[0],
            entries: array::from_fn(|k| Entry::at(&numbers, 1 + 6 * k)),
            tally: Tally::NONE,
        };
        list.tally = list.fresh_tally(c);
        list
    }

    // A fresh tally of the counted entries.
    fn fresh_tally(self, c: u32) -> Tally
        ensures { result ≡ tally_of c (counted self) }
    {
        let mut tally = Tally::NONE;
        for entry in self.counted() {
            tally = tally.with(c, entry.pointer, entry.priority);
        }
        tally
    }

    // The list with another priority at a position, from 1. A position that there is not changes nothing.
    pub fn with_priority(mut self, c: u32, position: u32, code: u32) -> ContractList
        ensures { result ≡ with_priority c position code self }
    {
        let k = position as usize;
        if k < 1 {
            return self;
        }
        if self.len() < k {
            return self;
        }
        let old = self.entries[k - 1];
        self.entries[k - 1].priority = code;
        let tally = self.tally;
        self.tally = tally.recoded(c, old.pointer, old.priority, code);
        self
    }

    // The list with an entry more, behind the others. A full list stays as it is.
    pub fn with(mut self, c: u32, entry: Entry) -> ContractList
        ensures { result ≡ appended c entry self }
    {
        let k = self.count as usize;
        if k < 8 {
            self.entries[k] = entry;
            self.count = self.count + 1;
            let tally = self.tally;
            self.tally = tally.with(c, entry.pointer, entry.priority);
        }
        self
    }

    // The list without any entry of a pointer: the later entries move down, and zeros follow. Both loops stand here, since for a
    // method between them the compiler would copy the list.
    pub fn without(mut self, c: u32, pointer: u32) -> ContractList
        ensures { result ≡ without_pointer c pointer self }
    {
        let n = self.len();
        let mut gone = 0;
        let mut left = 0;
        for i in 0..n {
            let entry = self.entries[i];
            if entry.pointer != pointer {
                self.entries[left] = entry;
                left += 1;
            } else {
                gone += u32::from(entry.used_up());
            }
        }
        let tally = self.tally;
        self.tally = tally.without(c, pointer, gone);
        self.count = left as u32;
        for k in left..8 {
            self.entries[k] = Entry::NONE;
        }
        self
    }

    // A fresh count of the entries, and how they keep the rule.
    fn recounted(self, n: u32, c: u32) -> Recount
        requires { n ≤ 8 }
        ensures { Recounts n c (counted self) result }
    {
        let mut judged = Judged::NONE;
        let mut spent = Spent::NONE;
        for (i, entry) in self.counted().iter().enumerate() {
            spent = spent.with(c, entry.pointer, entry.priority);
            judged = judged.with(i as u32 + 1, entry.bitmap, entry.pointer, Entry::FULL, n);
        }
        Recount { judged, spent }
    }

    // How many counter positions are free, on a card with c of them.
    pub fn free_counters(self, c: u32) -> u32
        ensures { result ≡ free_of 0 c self.tally.counter }
    {
        let counter = self.tally.counter;
        counter.free(0, c)
    }

    // How many plain positions are free, on a card with n contract records.
    pub fn free_plain(self, n: u32, c: u32) -> u32
        ensures { result ≡ free_of c n self.tally.plain }
    {
        let plain = self.tally.plain;
        plain.free(c, n)
    }

    // How many tickets on counter positions are used up.
    pub fn used_up_counters(self) -> u32
        ensures { result ≡ self.tally.counter.spent }
    {
        self.tally.counter.spent
    }

    // How many on plain ones.
    pub fn used_up_plain(self) -> u32
        ensures { result ≡ self.tally.plain.spent }
    {
        self.tally.plain.spent
    }

    // The number of counted entries.
    pub fn len(self) -> usize
        ensures { result ≡ length (counted self) }
    {
        self.count.min(ContractList::MOST) as usize
    }

    fn counted(&self) -> &[Entry]
        ensures { result.now ≡ counted self.now }
    {
        let n = self.len();
        &self.entries[..n]
    }
}

// What the rule and the tally ask of a list's entries.
#[derive(Clone, Copy, Debug, PartialEq, Eq)]
struct Recount {
    judged: Judged,
    spent: Spent,
}

// An entry's tariff and pointer.
#[derive(Clone, Copy, Debug, PartialEq, Eq)]
struct Rest {
    key: u32,
    kind: u32,
    priority: u32,
    pointer: u32,
}

// Whether n is no number of contract records that a card may have, or c none of counter positions among them. They stay two
// parameters, here and in every operation, as document 01 hands them over: a struct of both would be made anew for each call.
pub fn outside(n: u32, c: u32) -> bool
    ensures { result ≡ outside n c }
{
    (n < 1) | (ContractList::MOST < n) | (ContractList::MOST_COUNTERS < c) | (n < c)
}

// The contract list in a lent record, on a card with n contract records, the first c of them with counters.
pub fn read(bytes: &[u8], n: u32, c: u32) -> Result<ContractList, Refusal>
    ensures { list_answer result ≡ list_read n c bytes.now }
{
    if bytes.len() != BYTES {
        return Err(Refusal::WRONG_LENGTH);
    }
    if outside(n, c) {
        return Err(Refusal::OUTSIDE_LIMITS);
    }
    let mut words = [0u64; 8];
    bits::words(&bytes[..], &mut words);
    let head = take::at_most(&words, BITS, Cursor::START, When::Always, COUNT_BITS, n);
    Refusal::met(head)?;
    let count = head.number;
    let mut list = ContractList::NONE;
    list.count = count;
    let mut judged = Judged::NONE;
    let mut spent = Spent::NONE;
    let mut last = head;
    for k in 0..count {
        let taken = take_entry(&words, last, count, k);
        let entry = taken.value;
        last = taken.last;
        Refusal::met(last)?;
        list.entries[k as usize] = entry;
        spent = spent.with(c, entry.pointer, entry.priority);
        judged = judged.with(k + 1, entry.bitmap, entry.pointer, Entry::FULL, n);
    }
    let end = rules::obeyed(take::end(&words, BITS, last), judged.fault());
    Refusal::met(end)?;
    list.tally = spent.tally(c, judged.used);
    Ok(list)
}

fn take_entry(words: &[u64], c: Cursor, count: u32, k: u32) -> Part<Entry>
    requires { Ready words.now 232 (stand c) }
    ensures { EntryTook words.now (entry k) (1 + 6 * k) count (stand c) (entry_numbers result.value) (stand result.last) }
{
    let bitmap = take::number(words, BITS, c, When::Above(count, k), Entry::BITMAP_BITS);
    let marks = bitmap.number;
    let network = take::number(
        words,
        BITS,
        bitmap,
        When::Bit(marks, 0),
        Entry::NETWORK_BITS,
    );
    let behind = take_rest(words, network, marks);
    let rest = behind.value;
    Part {
        value: Entry {
            bitmap: marks,
            network: network.number,
            key: rest.key,
            kind: rest.kind,
            priority: rest.priority,
            pointer: rest.pointer,
        },
        last: behind.last,
    }
}

// What follows an entry's network: one number where all of it is there, in its room and its limits; else a field at a time.
fn take_rest(words: &[u64], c: Cursor, marks: u32) -> Part<Rest>
    requires { Ready words.now 232 (stand c) }
    ensures { RestTook words.now (stand c) marks (result.value.key ∷ result.value.kind ∷ result.value.priority ∷ []) result.value.pointer (stand result.last) }
{
    if (marks / 2 == Entry::FULL) & !c.is_refused() & (c.at <= Entry::LAST_REST) {
        let v = bits::number(words, c.at, Entry::REST_BITS);
        let tariff = v / Entry::POINTERS;
        let priority = tariff % ListTariff::PRIORITIES;
        if priority != ListTariff::UNDEFINED {
            let value = Rest {
                key: tariff / ListTariff::KEY_UNIT % ListTariff::KEYS,
                kind: tariff / ListTariff::PRIORITIES % ListTariff::KINDS,
                priority,
                pointer: v % Entry::POINTERS,
            };
            let last = c.passed(2, Entry::REST_BITS, 0);
            return Part { value, last };
        }
    }
    let tariff = take::tariff(words, BITS, c, When::Bit(marks, 1));
    let cursor = tariff.cursor;
    let pointer = take::number(
        words,
        BITS,
        cursor,
        When::Bit(marks, 2),
        Entry::POINTER_BITS,
    );
    Part {
        value: Rest {
            key: tariff.key,
            kind: tariff.kind,
            priority: tariff.priority,
            pointer: pointer.number,
        },
        last: pointer,
    }
}

// Writes a contract list to a lent record, all of it; refused, the record is as it was.
pub fn write(bytes: &mut [u8], n: u32, c: u32, list: ContractList) -> Result<(), Refusal>
    ensures { record { answer = answer_of result; bytes = bytes.new } ≡ list_written n c list bytes.old }
{
    if bytes.len() != BYTES {
        return Err(Refusal::WRONG_LENGTH);
    }
    if outside(n, c) {
        return Err(Refusal::OUTSIDE_LIMITS);
    }
    let mut draft = [0u64; 9];
    let end = put_list(&mut draft, n, list);
    let last = held(end, list, n, c);
    put::end(&draft, last, bytes);
    Refusal::met(last)
}

// The cursor after the rule and the tally. Only of entries that keep the rule the mask is that of their pointers.
fn held(end: Cursor, list: ContractList, n: u32, c: u32) -> Cursor
    requires { (n ≤ 8) × (c ≤ 8) }
    ensures { stand result ≡ tallied (obeyed (stand end) (list_fault n (numbers_of list))) (fair c list) }
{
    let recount = list.recounted(n, c);
    let judged = recount.judged;
    let spent = recount.spent;
    let ruled = rules::obeyed(end, judged.fault());
    if ruled.is_refused() {
        return ruled;
    }
    let fresh = spent.tally(c, judged.used);
    rules::fair(ruled, list.tally == fresh)
}

fn put_entry(draft: &mut [u64], c: Cursor, count: u32, k: u32, e: Entry) -> Cursor
    requires { Drafted draft.old 232 (stand c) }
    ensures { EntryGave draft.old draft.new (entry k) (1 + 6 * k) count (stand c) (entry_numbers e) (stand result) }
{
    let bitmap = put::number(
        draft,
        BITS,
        c,
        When::Above(count, k),
        Entry::BITMAP_BITS,
        e.bitmap,
    );
    let network = put::number(
        draft,
        BITS,
        bitmap,
        When::Bit(e.bitmap, 0),
        Entry::NETWORK_BITS,
        e.network,
    );
    let tariff = put::tariff(
        draft,
        BITS,
        network,
        When::Bit(e.bitmap, 1),
        e.key,
        e.kind,
        e.priority,
    );
    put::number(
        draft,
        BITS,
        tariff,
        When::Bit(e.bitmap, 2),
        Entry::POINTER_BITS,
        e.pointer,
    )
}

fn put_list(draft: &mut [u64], n: u32, list: ContractList) -> Cursor
    requires { length draft.old ≡ 9 }
    ensures { Puts 232 (numbers_of list) (contract_list n) [] draft.old start (numbers_of list) draft.new (stand result) }
{
    let count = list.count;
    let head = put::at_most(
        draft,
        BITS,
        Cursor::START,
        When::Always,
        COUNT_BITS,
        n,
        count,
    );
    let mut c = head;
    for (k, entry) in list.entries.iter().enumerate() {
        c = put_entry(draft, c, count, k as u32, *entry);
    }
    c
}
