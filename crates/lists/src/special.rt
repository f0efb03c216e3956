// Special event list.
ghost use Rattle.std.specs.Prelude.{◌≡◌, [], ◌+◌, ◌*◌, ◌≤◌, length, take};
ghost use Rattle.rows.specs.Inner.Standing.{stand};
ghost use Rattle.rows.specs.Inner.Step.{Ready, Drafted};
ghost use Rattle.rows.specs.Inner.Line.{start, Taken, Puts};
ghost use Rattle.rows.specs.Table.Special.{entry, special_list};
ghost use Rattle.records.specs.Answer.{Written, answer_of};
ghost use Rattle.lists.specs.Inner.Steps.{EntryTook, EntryGave};
ghost use Rattle.lists.specs.Inner.Judging.{optional};
ghost use Rattle.lists.specs.Special.{entry_numbers, entry_of, numbers_of, special_of, special_fault, special_read, special_written, special_answer};

use crate::rules;
use crate::rules::{COUNT_BITS, Judged};
use records::{BITS, BYTES, Refusal};
use rows::take::Part;
use rows::{Cursor, When, put, take};
use std::array;

// An entry: its elements are [0] network, [1] provider, [2] seriousness, [3] pointer.
#[derive(Clone, Copy, Debug, PartialEq, Eq)]
pub struct SpecialEntry {
    pub bitmap: u32,
    pub network: u32,
    pub provider: u32,
    pub seriousness: u32,
    pub pointer: u32,
}

// A count beside four entries, and no Vec: the library has no heap.
#[derive(Clone, Copy, Debug, PartialEq, Eq)]
pub struct SpecialList {
    pub count: u32,
    pub entries: [SpecialEntry; 4],
}

impl SpecialEntry {
    // A bitmap without its last bit, the network's, where every other element is present.
    pub const FULL: u32 = 7;

    pub const NONE: SpecialEntry = SpecialEntry {
        bitmap: 0,
        network: 0,
        provider: 0,
        seriousness: 0,
        pointer: 0,
    };

    fn numbers(self) -> [u32; 5]
        ensures { result ≡ entry_numbers self }
    {
        [
            self.bitmap,
            self.network,
            self.provider,
            self.seriousness,
            self.pointer,
        ]
    }

    // The entry whose numbers stand from i on.
    fn at(numbers: &[u32], i: usize) -> SpecialEntry
        requires { i + 5 ≤ length numbers.now }
        ensures { result ≡ entry_of numbers.now i }
    {
        SpecialEntry {
            bitmap: numbers[i],
            network: numbers[i + 1],
            provider: numbers[i + 2],
            seriousness: numbers[i + 3],
            pointer: numbers[i + 4],
        }
    }
}

impl SpecialList {
    // The most entries that a list has, and special event records that a card has.
    pub const MOST: u32 = 4;

    pub const NONE: SpecialList = SpecialList {
        count: 0,
        entries: [SpecialEntry::NONE; 4],
    };

    // Its numbers in card order. No From, here and below: docs/CONTRACTS.md promises the names.
    pub fn numbers(self) -> [u32; 21]
        ensures { result ≡ numbers_of self }
    {
        let mut numbers = [0u32; 21];
        numbers[0] = self.count;
        for (k, entry) in self.entries.iter().enumerate() {
            let at = 1 + 5 * k;
            numbers[at..at + 5].copy_from_slice(&entry.numbers());
        }
        numbers
    }

    pub fn of(numbers: [u32; 21]) -> SpecialList
        ensures { result ≡ special_of numbers }
    {
        SpecialList {
            count: numbers[0],
            entries: array::from_fn(|k| SpecialEntry::at(&numbers, 1 + 5 * k)),
        }
    }

    fn counted(&self) -> &[SpecialEntry]
        ensures { result.now ≡ take self.now.count self.now.entries }
    {
        let n = self.count.min(SpecialList::MOST) as usize;
        &self.entries[..n]
    }
}

// The special event list in a lent record, on a card with s special event records.
pub fn read(bytes: &[u8], s: u32) -> Result<SpecialList, Refusal>
    ensures { special_answer result ≡ special_read s bytes.now }
{
    if bytes.len() != BYTES {
        return Err(Refusal::WRONG_LENGTH);
    }
    if SpecialList::MOST < s {
        return Err(Refusal::OUTSIDE_LIMITS);
    }
    let mut words = [0u64; 8];
    bits::words(&bytes[..], &mut words);
    let taken = take_list(&words);
    let list = taken.value;
    let end = take::end(&words, BITS, taken.last);
    let last = rules::obeyed(end, at_fault(list, s));
    Refusal::met(last)?;
    Ok(list)
}

fn take_entry(words: &[u64], c: Cursor, count: u32, k: u32) -> Part<SpecialEntry>
    requires { Ready words.now 232 (stand c) }
    ensures { EntryTook words.now (entry k) (1 + 5 * k) count (stand c) (entry_numbers result.value) (stand result.last) }
{
    let bitmap = take::number(words, BITS, c, When::Above(count, k), 4);
    let marks = bitmap.number;
    let network = take::number(words, BITS, bitmap, When::Bit(marks, 0), 24);
    let provider = take::number(words, BITS, network, When::Bit(marks, 1), 8);
    let seriousness = take::number(words, BITS, provider, When::Bit(marks, 2), 2);
    let pointer = take::number(words, BITS, seriousness, When::Bit(marks, 3), 5);
    Part {
        value: SpecialEntry {
            bitmap: marks,
            network: network.number,
            provider: provider.number,
            seriousness: seriousness.number,
            pointer: pointer.number,
        },
        last: pointer,
    }
}

fn take_list(words: &[u64]) -> Part<SpecialList>
    requires { length words.now ≡ 8 }
    ensures { Taken words.now 232 special_list [] start (numbers_of result.value) (stand result.last) }
{
    let most = SpecialList::MOST;
    let head = take::at_most(words, BITS, Cursor::START, When::Always, COUNT_BITS, most);
    let count = head.number;
    let mut list = SpecialList::NONE;
    list.count = count;
    let mut last = head;
    for k in 0..4 {
        let taken = take_entry(words, last, count, k as u32);
        let entry = taken.value;
        last = taken.last;
        list.entries[k] = entry;
    }
    Part { value: list, last }
}

// The number, from 1, of the first of the counted entries that breaks the list rule.
fn at_fault(list: SpecialList, s: u32) -> Option<u32>
    requires { s ≤ 8 }
    ensures { result ≡ optional (special_fault s (numbers_of list)) }
{
    let mut judged = Judged::NONE;
    for (i, entry) in list.counted().iter().enumerate() {
        judged = judged.with(
            i as u32 + 1,
            entry.bitmap,
            entry.pointer,
            SpecialEntry::FULL,
            s,
        );
    }
    judged.fault()
}

// Writes a special event list to a lent record, all of it; refused, the record is as it was.
pub fn write(bytes: &mut [u8], s: u32, list: SpecialList) -> Result<(), Refusal>
    ensures { record { answer = answer_of result; bytes = bytes.new } ≡ special_written s list bytes.old }
{
    if bytes.len() != BYTES {
        return Err(Refusal::WRONG_LENGTH);
    }
    if SpecialList::MOST < s {
        return Err(Refusal::OUTSIDE_LIMITS);
    }
    let mut draft = [0u64; 9];
    let end = put_list(&mut draft, list);
    let last = rules::obeyed(end, at_fault(list, s));
    put::end(&draft, last, bytes);
    Refusal::met(last)
}

fn put_entry(draft: &mut [u64], c: Cursor, count: u32, k: u32, e: SpecialEntry) -> Cursor
    requires { Drafted draft.old 232 (stand c) }
    ensures { EntryGave draft.old draft.new (entry k) (1 + 5 * k) count (stand c) (entry_numbers e) (stand result) }
{
    let marks = e.bitmap;
    let bitmap = put::number(draft, BITS, c, When::Above(count, k), 4, marks);
    let network = put::number(draft, BITS, bitmap, When::Bit(marks, 0), 24, e.network);
    let provider = put::number(draft, BITS, network, When::Bit(marks, 1), 8, e.provider);
    let seriousness = put::number(draft, BITS, provider, When::Bit(marks, 2), 2, e.seriousness);
    put::number(draft, BITS, seriousness, When::Bit(marks, 3), 5, e.pointer)
}

fn put_list(draft: &mut [u64], list: SpecialList) -> Cursor
    requires { length draft.old ≡ 9 }
    ensures { Puts 232 (numbers_of list) special_list [] draft.old start (numbers_of list) draft.new (stand result) }
{
    let most = SpecialList::MOST;
    let count = list.count;
    let head = put::at_most(
        draft,
        BITS,
        Cursor::START,
        When::Always,
        COUNT_BITS,
        most,
        count,
    );
    let mut c = head;
    for (k, entry) in list.entries.iter().enumerate() {
        c = put_entry(draft, c, count, k as u32, *entry);
    }
    c
}
