// Which pointers the events block.
ghost use Rattle.std.specs.Prelude.{◌≡◌, ◌&&◌, ◌*◌, ◌/◌, eqb, length, take};
ghost use Rattle.records.specs.Answer.{answer_of};
ghost use Rattle.records.specs.Order.{events};
ghost use Rattle.loading.specs.Blocking.{some, moment, journey, recent, blocks, listed, named_by_special};
ghost use Rattle.loading.specs.Loading.{blocking};
ghost use Rattle.loading.specs.Inner.Marks.{Added, Marking};

use crate::{Lent, Order};
use lists::special;
use lists::special::SpecialList;
use records::event::Event;
use records::{BYTES, Refusal, event};

// Reads the special event list, the journal and all special event records, and marks the pointers that they block. There is a
// mark for each pointer that a contract can have, and for 0.
pub fn mark_all(lent: Lent<'_>, order: Order, marks: &mut [bool]) -> Result<(), Refusal>
    requires { (length marks.old ≡ 9) × (length lent.records.now ≡ 29 * order.s) }
    ensures { Marking (blocking order lent.entry.special.now lent.entry.journal.now lent.entry.records.now lent.entry.codes.now) (λ blocked. blocked) marks.old marks.new (answer_of result) }
{
    let list = special::read(lent.special, order.s)?;
    let time = moment(order.day, order.minute);
    mark_journal(lent.journal, lent.codes, time, order.hours, marks)?;
    mark_special(lent.records, list, marks)
}

fn mark_journal(
    journal: &[u8],
    codes: &[u8],
    time: u64,
    hours: u32,
    marks: &mut [bool],
) -> Result<(), Refusal>
    requires { length marks.old ≡ 9 }
    ensures { Marking (events (length journal.now / 29) journal.now 0) (λ es p. some (blocks codes.now time hours p) es) marks.old marks.new (answer_of result) }
{
    for record in journal.chunks_exact(BYTES) {
        let event = event::read(record)?;
        mark(event.pointer, is_blocking(event, codes, time, hours), marks);
    }
    Ok(())
}

// Every special event record is read, listed or not.
fn mark_special(records: &[u8], list: SpecialList, marks: &mut [bool]) -> Result<(), Refusal>
    requires { length marks.old ≡ 9 }
    ensures { Marking (events (length records.now / 29) records.now 0) (λ es p. named_by_special (take list.count list.entries) p 1 es) marks.old marks.new (answer_of result) }
{
    for (i, record) in records.chunks_exact(BYTES).enumerate() {
        let event = event::read(record)?;
        mark(event.pointer, listed(list, i + 1), marks);
    }
    Ok(())
}

// Marks the pointer that an event names, where it blocks. Simple rights have no mark.
fn mark(pointer: u32, blocks: bool, marks: &mut [bool])
    requires { length marks.old ≡ 9 }
    ensures { Added (λ p. eqb pointer p && blocks) marks.old marks.new }
{
    let p = pointer as usize;
    if blocks && p < marks.len() {
        marks[p] = true;
    }
}

fn moment(day: u32, minute: u32) -> u64
    ensures { result ≡ moment day minute }
{
    u64::from(day) * 1440 + u64::from(minute)
}

// Whether a journal event blocks the pointer that it names.
fn is_blocking(event: Event, codes: &[u8], time: u64, hours: u32) -> bool
    ensures { result ≡ journey codes.now event && recent time hours event }
{
    journey(event, codes) && recent(event, time, hours)
}

// Whether the event has a code, element [2], that is marked: an inspection, or one without a code, blocks nothing.
fn journey(event: Event, codes: &[u8]) -> bool
    ensures { result ≡ journey codes.now event }
{
    let coded = (event.bitmap >> 2) % 2 == 1;
    coded && bits::is_one(codes, event.code)
}

// Later than the time now, or less than so many hours old. A clock set back frees nothing.
fn recent(event: Event, time: u64, hours: u32) -> bool
    ensures { result ≡ recent time hours event }
{
    let then = moment(event.date, event.minute);
    time < then || time - then < 60 * u64::from(hours)
}

// Whether a special event record is listed.
fn listed(list: SpecialList, k: usize) -> bool
    ensures { result ≡ listed (take list.count list.entries) k }
{
    let n = list.count as usize;
    list.entries
        .iter()
        .take(n)
        .any(|entry| entry.pointer as usize == k)
}
