// A passage at a gate, in one call: the contract that the gate uses, its priority after use, and the event in the journal.
#![tactic(auto)]

ghost use Rattle.std.specs.Prelude.{◌≡◌, ◌≤◌, length};
ghost use Rattle.records.specs.Event.{event_written};
ghost use Rattle.records.specs.Order.{record_from};
ghost use Rattle.selection.specs.Selection.{selected_answer};
ghost use Rattle.passage.specs.Passage.{used, event_for, put_first, lengths, limits, passing};
ghost use Rattle.passage.specs.Inner.Moved.{moved_down};

use lists::list::Entry;
use records::event::Event;
use records::{BYTES, LAST_MINUTE, MOST_RECORDS, Refusal, event};
use selection::Selected;

// The card, the time, the gate's operator, and what the event says.
#[derive(Clone, Copy, PartialEq, Eq, Debug)]
pub struct Passage {
    // contract records, counter positions
    pub n: u32,
    pub c: u32,
    pub day: u32,
    pub minute: u32,
    pub operator: u32,
    // the event's own
    pub code: u32,
    pub provider: u32,
}

impl Passage {
    // The highest event code, and the highest provider of an event.
    pub const LAST_CODE: u32 = 255;

    pub const LAST_PROVIDER: u32 = 255;

    // The elements of the event: [2] its code, [4] its provider, [25] the contract pointer.
    const ELEMENTS: u32 = (1 << 2) + (1 << 4) + (1 << 25);

    fn agrees(self, list: usize, file: usize, journal: usize) -> bool
        ensures { result ≡ lengths self list file journal }
    {
        list == BYTES && file == BYTES * self.n as usize && journal % BYTES == 0
    }

    // Those of n, c, day and operator are selection's.
    fn in_limits(self, records: usize) -> bool
        ensures { result ≡ limits self records }
    {
        (1..=MOST_RECORDS).contains(&records)
            && self.minute <= LAST_MINUTE
            && self.code <= Passage::LAST_CODE
            && self.provider <= Passage::LAST_PROVIDER
    }

    // The event of a passage with the contract of a pointer.
    fn event(self, pointer: u32) -> Event
        ensures { result ≡ event_for self pointer }
    {
        Event {
            date: self.day,
            minute: self.minute,
            bitmap: Passage::ELEMENTS,
            code: self.code,
            provider: self.provider,
            pointer,
            ..Event::ZERO
        }
    }
}

// Selects the contract that the gate uses, changes its priority in the lent list, and puts the event first in the lent journal.
// Refused, both are as they were.
#[tactic(auto, unfolding(crate::specs::Passage::passing, crate::specs::Passage::chosen))]
pub fn pass(
    list: &mut [u8],
    file: &[u8],
    journal: &mut [u8],
    passage: Passage,
) -> Result<Selected, Refusal>
    ensures { record { answer = selected_answer result; list = list.new; journal = journal.new }
        ≡ passing passage list.old file.now journal.old }
{
    if !passage.agrees(list.len(), file.len(), journal.len()) {
        return Err(Refusal::WRONG_LENGTH);
    }
    if !passage.in_limits(journal.len() / BYTES) {
        return Err(Refusal::OUTSIDE_LIMITS);
    }
    let chosen = selection::select(
        list,
        file,
        passage.n,
        passage.c,
        passage.day,
        passage.operator,
    )?;
    let code = used(chosen.priority);
    // Not refused: selection read the list, and the chosen entry is in it (law may_change).
    let _ = selection::change_priority(list, passage.n, passage.c, chosen.position, code);
    put_first(journal, passage.event(chosen.pointer));
    Ok(chosen)
}

// A priority after use: 0 to 3 go up by four, 4 to 7 become 15, 8 to 11 stay.
fn used(priority: u32) -> u32
    ensures { result ≡ used priority }
{
    match priority {
        0..=3 => priority + 4,
        4..=7 => Entry::ERASABLE,
        _ => priority,
    }
}

// Puts an event first in a journal: the others move down one, unread, and the last falls off.
fn put_first(journal: &mut [u8], e: Event)
    requires { 29 ≤ length journal.old }
    ensures { journal.new ≡ put_first (event_written (record_from journal.old 0) e).bytes journal.old }
{
    move_down(journal);
    // Not refused: the record has its length, and the event's numbers are in their limits (law recorded).
    let _ = event::write(&mut journal[..BYTES], e);
}

// Gives each record but the first the bytes of the one before it.
fn move_down(journal: &mut [u8])
    requires { 29 ≤ length journal.old }
    ensures { journal.new ≡ moved_down journal.old }
{
    let kept = journal.len() - BYTES;
    journal.copy_within(..kept, BYTES);
}
