// The takes: each takes the next field of a reading, or does nothing after a refusal.
ghost use Rattle.std.specs.Prelude.{◌≡◌, ℕ, ◌/◌, ◌<◌, ◌≤◌, List, [], ◌∷◌, length, replicate};
ghost use Rattle.rows.specs.Inner.Standing.{stand};
ghost use Rattle.rows.specs.Inner.Step.{Ready, Took, Ended, Spells, letters_at};

use crate::{Cursor, Rule, When, Why, step};

// What some fields of a record say, and the cursor behind the last of them.
#[derive(Clone, Copy, Debug, PartialEq, Eq)]
pub struct Part<T> {
    pub value: T,
    pub last: Cursor,
}

// A list's tariff, with the cursor behind it.
#[derive(Clone, Copy, Debug, PartialEq, Eq)]
pub struct ListTariff {
    pub cursor: Cursor,
    pub key: u32,
    pub kind: u32,
    pub priority: u32,
}

impl ListTariff {
    // The priority code that no entry may have.
    pub const UNDEFINED: u32 = 13;

    // Widths.
    pub const KEY_BITS: u32 = 4;

    pub const KIND_BITS: u32 = 8;

    pub const PRIORITY_BITS: u32 = 4;

    pub const BITS: u32 = ListTariff::KEY_BITS + ListTariff::KIND_BITS + ListTariff::PRIORITY_BITS;

    // How many keys, contract types and priorities there are in their widths.
    pub const KEYS: u32 = 1 << ListTariff::KEY_BITS;

    pub const KINDS: u32 = 1 << ListTariff::KIND_BITS;

    pub const PRIORITIES: u32 = 1 << ListTariff::PRIORITY_BITS;

    // What one of the key is worth in a tariff's number.
    pub const KEY_UNIT: u32 = ListTariff::KINDS * ListTariff::PRIORITIES;

    // One that is refused or absent.
    fn without_numbers(cursor: Cursor) -> ListTariff
        ensures { result ≡ record { cursor = cursor; key = 0; kind = 0; priority = 0 } }
    {
        ListTariff {
            cursor,
            key: 0,
            kind: 0,
            priority: 0,
        }
    }
}

// A field of one box of w bits, under a rule.
fn ruled(words: &[u64], end: u32, c: Cursor, when: When, w: u32, rule: Rule) -> Cursor
    requires { Ready words.now end (stand c) × (w ≤ 32) }
    ensures { Took words.now end (stand c) when (w ∷ []) rule (result.number ∷ []) (stand result) }
{
    if c.is_refused() {
        return c;
    }
    if !step::there(when) {
        return step::absent(c, false);
    }
    if end - c.at < w {
        return step::past(c);
    }
    let v = bits::number(words, c.at, w);
    let broken = step::ruled(rule, v);
    step::admit(c, end, w, false, broken, v)
}

// A number of w bits.
pub fn number(words: &[u64], end: u32, c: Cursor, when: When, w: u32) -> Cursor
    requires { Ready words.now end (stand c) × (w ≤ 32) }
    ensures { Took words.now end (stand c) when (w ∷ []) Rule.Any (result.number ∷ []) (stand result) }
{
    ruled(words, end, c, when, w, Rule::Any)
}

// A number of w bits that is at most m: 4 else.
pub fn at_most(words: &[u64], end: u32, c: Cursor, when: When, w: u32, m: u32) -> Cursor
    requires { Ready words.now end (stand c) × (w ≤ 32) }
    ensures { Took words.now end (stand c) when (w ∷ []) (Rule.Most m) (result.number ∷ []) (stand result) }
{
    ruled(words, end, c, when, w, Rule::Most(m))
}

// The EnvData bitmap: 3 where it marks EnvData2.
pub fn env_data(words: &[u64], end: u32, c: Cursor, when: When) -> Cursor
    requires { Ready words.now end (stand c) }
    ensures { Took words.now end (stand c) when (2 ∷ []) Rule.NoSecond (result.number ∷ []) (stand result) }
{
    ruled(words, end, c, when, 2, Rule::NoSecond)
}

// A list's tariff: key, contract type and priority, one field: 4 where the priority is 13.
pub fn tariff(words: &[u64], end: u32, c: Cursor, when: When) -> ListTariff
    requires { Ready words.now end (stand c) }
    ensures { Took words.now end (stand c) when (4 ∷ 8 ∷ 4 ∷ []) Rule.Tariff (result.key ∷ result.kind ∷ result.priority ∷ []) (stand result.cursor) }
{
    if c.is_refused() {
        return ListTariff::without_numbers(c);
    }
    if !step::there(when) {
        return ListTariff::without_numbers(step::absent(c, false));
    }
    if end - c.at < ListTariff::BITS {
        return ListTariff::without_numbers(step::past(c));
    }
    let v = bits::number(words, c.at, ListTariff::BITS);
    let priority = v % ListTariff::PRIORITIES;
    let broken = (priority == ListTariff::UNDEFINED).then_some(Why::OutOfRange);
    let cursor = step::admit(c, end, ListTariff::BITS, false, broken, v);
    ListTariff {
        cursor,
        key: v / ListTariff::KEY_UNIT,
        kind: v / ListTariff::PRIORITIES % ListTariff::KINDS,
        priority,
    }
}

// The width of a letter.
pub const LETTER_BITS: u32 = 5;

// A text: letters of 5 bits, one field, into letters lent as zeros. They count only where there is no refusal.
pub fn text(words: &[u64], end: u32, c: Cursor, when: When, letters: &mut [u32]) -> Cursor
    requires { Ready words.now end (stand c) × ((length letters.old ≤ 32) × (letters.old ≡ replicate (length letters.old) 0)) }
    ensures { Took words.now end (stand c) when (replicate (length letters.old) 5) Rule.Any letters.new (stand result) }
{
    if c.is_refused() {
        return c;
    }
    if !step::there(when) {
        return step::absent(c, false);
    }
    let width = letters.len() as u32 * LETTER_BITS;
    if end - c.at < width {
        return step::past(c);
    }
    spell(words, c.at, LETTER_BITS, letters);
    step::admit(c, end, width, false, None, 0)
}

// The numbers of w bits one after the other from bit at on.
fn spell(words: &[u64], at: u32, w: u32, letters: &mut [u32])
    requires { Spells words.now at w (length letters.old) }
    ensures { letters.new ≡ letters_at words.now at w (length letters.old) }
{
    let mut place = at;
    for letter in letters.iter_mut() {
        *letter = bits::number(words, place, w);
        place += w;
    }
}

// A field wider than the whole record: 2 where it is there.
pub fn never(end: u32, c: Cursor, when: When, w: u32) -> Cursor
    requires { (c.at ≤ end) × (end < w) }
    ensures { (words : List ℕ) → end / 32 < length words → Took words end (stand c) when (w ∷ []) Rule.Any (0 ∷ []) (stand result) }
{
    if c.is_refused() {
        return c;
    }
    if !step::there(when) {
        return step::absent(c, false);
    }
    step::past(c)
}

// The end of a list's reading: 5 at the first one that is left.
pub fn end(words: &[u64], end: u32, c: Cursor) -> Cursor
    requires { Ready words.now end (stand c) × (end < 65536) }
    ensures { Ended words.now end (stand c) (stand result) }
{
    if c.is_refused() {
        return c;
    }
    let one = bits::next_one(words, end, c.at);
    if one == end {
        return c;
    }
    Cursor {
        at: one,
        why: Some(Why::LeftOver),
        field: 0,
        number: 0,
    }
}
