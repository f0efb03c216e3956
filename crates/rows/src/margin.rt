// The margin: the bits after the last field, in the record's own coordinates, with zeros in every field's place.
ghost use Rattle.std.specs.Prelude.{◌≡◌, ◌*◌, ◌/◌, ◌<◌, ◌≤◌, Bool, List, length, replicate, ◌==◌};
ghost use Rattle.bits.specs.Bits.{spread, cut, cleared, leading};
ghost use Rattle.rows.specs.Margin.{words_of, margin_of};
ghost use Rattle.rows.specs.Inner.Standing.{stand};
ghost use Rattle.rows.specs.Inner.Step.{Drafted, Kept};

use crate::{Cursor, Why};

// The margin of a record, in words of 64 bits that are named by their first bit. The last holds 24 bits that no record has.
#[derive(Clone, Copy, Debug, PartialEq, Eq)]
pub struct Margin {
    pub at0: u64,
    pub at64: u64,
    pub at128: u64,
    pub at192: u64,
}

impl Margin {
    // Every bit zero.
    pub const NONE: Margin = Margin {
        at0: 0,
        at64: 0,
        at128: 0,
        at192: 0,
    };

    // Its words, in the order of their bits. No From, here and below: docs/CONTRACTS.md promises the names.
    pub fn words(self) -> [u64; 4]
        ensures { result ≡ words_of self }
    {
        [self.at0, self.at64, self.at128, self.at192]
    }

    pub fn of(words: [u64; 4]) -> Margin
        ensures { result ≡ margin_of words }
    {
        Margin {
            at0: words[0],
            at64: words[1],
            at128: words[2],
            at192: words[3],
        }
    }

    fn is_none(self) -> bool
        ensures { result ≡ (leading (spread 64 (words_of self)) == 256) }
    {
        self.at0 == 0 && self.at64 == 0 && self.at128 == 0 && self.at192 == 0
    }
}

// The margin of a record whose last field ends at bit at.
pub fn take(words: &[u64], at: u32) -> Margin
    requires { length words.now ≡ 8 }
    ensures { (bs : List Bool) → words.now ≡ cut 32 64 8 bs → words_of result ≡ cut 64 64 4 (cleared at bs) }
{
    Margin {
        at0: bits::cleared(words[0], 0, at),
        at64: bits::cleared(words[2], 64, at),
        at128: bits::cleared(words[4], 128, at),
        at192: bits::cleared(words[6], 192, at),
    }
}

// The margin of an area whose last field ends at bit at, into words lent as zeros; where nothing stands there they stay so.
pub fn take_area(words: &[u64], end: u32, at: u32, margin: &mut [u64])
    requires at_le_end { (at ≤ end) × ((end / 32 < length words.now) × ((end < 65536) × ((2 * length margin.old ≤ length words.now) × (length words.now < 65536)))) }
    requires margin_value { margin.old ≡ replicate (length margin.old) 0 }
    ensures { (bs : List Bool) → length bs ≡ end → words.now ≡ cut 32 64 (length words.now) bs
        → margin.new ≡ cut 64 64 (length margin.old) (cleared at bs) }
{
    if bits::next_one(words, end, at) < end {
        bits::rest(words, at, margin);
    }
}

// Puts the margin of a record behind its last field.
pub fn put(draft: &mut [u64], room: u32, c: Cursor, margin: Margin) -> Cursor
    requires { Drafted draft.old room (stand c) × (((stand c).why ≡ 0) × ((room ≤ 256) × (8 ≤ length draft.old))) }
    ensures { Kept draft.old draft.new room (stand c) (spread 64 (words_of margin)) (stand result) }
{
    if margin.is_none() {
        return c;
    }
    let whole = margin.words();
    put_words(draft, room, c, &whole)
}

// Puts the margin of an area behind its last field.
pub fn put_area(draft: &mut [u64], room: u32, c: Cursor, whole: &[u64]) -> Cursor
    requires { Drafted draft.old room (stand c) × (((stand c).why ≡ 0) × ((room ≤ 960) × ((length whole.now ≡ 15) × (30 ≤ length draft.old)))) }
    ensures { Kept draft.old draft.new room (stand c) (spread 64 whole.now) (stand result) }
{
    if bits::all_zero(whole) {
        return c;
    }
    put_words(draft, room, c, whole)
}

// Puts the bits of whole words behind the last field: 7 at the first one that is in a field's place or past the room.
fn put_words(draft: &mut [u64], room: u32, c: Cursor, whole: &[u64]) -> Cursor
    requires { Drafted draft.old room (stand c) × (((stand c).why ≡ 0) × ((room ≤ 64 * length whole.now) × ((length whole.now < 1024) × (2 * length whole.now ≤ length draft.old)))) }
    ensures { Kept draft.old draft.new room (stand c) (spread 64 whole.now) (stand result) }
{
    let first = bits::first_one(whole, 0);
    if first < c.at {
        return astray(first);
    }
    let end = 64 * whole.len() as u32;
    let past = bits::first_one(whole, room);
    if past < end {
        return astray(past);
    }
    bits::lay_words(draft, whole);
    c
}

// A one that is out of place, which is no field's fault.
fn astray(place: u32) -> Cursor
    ensures { stand result ≡ record { at = place; why = 7; field = 0; number = 0 } }
{
    Cursor {
        at: place,
        why: Some(Why::NoFit),
        field: 0,
        number: 0,
    }
}
