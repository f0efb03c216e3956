// The puts: each puts the next field of a writing behind the bits of a draft, or does nothing after a refusal.
ghost use Rattle.std.specs.Prelude.{◌≡◌, ℕ, ◌+◌, ◌*◌, ◌/◌, ◌<◌, ◌≤◌, List, [], ◌∷◌, length, replicate};
ghost use Rattle.std.specs.List.{list_any};
ghost use Rattle.rows.specs.Row.{pick};
ghost use Rattle.rows.specs.Walk.{exceeds};
ghost use Rattle.rows.specs.Inner.Standing.{stand};
ghost use Rattle.rows.specs.Inner.Step.{Drafted, Gave, Lays, LaidAll, Packed};

use crate::take::{LETTER_BITS, ListTariff};
use crate::{Cursor, Rule, When, Why, step};

// Whether v is too wide for a box of w bits.
fn wide(v: u32, w: u32) -> bool
    requires { w ≤ 32 }
    ensures { result ≡ exceeds (w ∷ []) (v ∷ []) }
{
    (v as u64) >> w != 0
}

// A field of one box of w bits, under a rule.
fn ruled(draft: &mut [u64], room: u32, c: Cursor, when: When, w: u32, rule: Rule, v: u32) -> Cursor
    requires { Drafted draft.old room (stand c) × (w ≤ 32) }
    ensures { Gave draft.old draft.new room (stand c) when (w ∷ []) rule (v ∷ []) (stand result) }
{
    if c.is_refused() {
        return c;
    }
    if !step::there(when) {
        return step::absent(c, wide(v, 0));
    }
    let broken = step::ruled(rule, v);
    let wide = wide(v, w);
    let d = step::admit(c, room, w, wide, broken, 0);
    if !d.is_refused() {
        bits::lay(draft, c.at, w, v);
    }
    d
}

// A number of w bits.
pub fn number(draft: &mut [u64], room: u32, c: Cursor, when: When, w: u32, v: u32) -> Cursor
    requires { Drafted draft.old room (stand c) × (w ≤ 32) }
    ensures { Gave draft.old draft.new room (stand c) when (w ∷ []) Rule.Any (v ∷ []) (stand result) }
{
    ruled(draft, room, c, when, w, Rule::Any, v)
}

// A number of w bits that is at most m: 4 else.
pub fn at_most(
    draft: &mut [u64],
    room: u32,
    c: Cursor,
    when: When,
    w: u32,
    m: u32,
    v: u32,
) -> Cursor
    requires { Drafted draft.old room (stand c) × (w ≤ 32) }
    ensures { Gave draft.old draft.new room (stand c) when (w ∷ []) (Rule.Most m) (v ∷ []) (stand result) }
{
    ruled(draft, room, c, when, w, Rule::Most(m), v)
}

// The EnvData bitmap: 3 where it marks EnvData2.
pub fn env_data(draft: &mut [u64], room: u32, c: Cursor, when: When, v: u32) -> Cursor
    requires { Drafted draft.old room (stand c) }
    ensures { Gave draft.old draft.new room (stand c) when (2 ∷ []) Rule.NoSecond (v ∷ []) (stand result) }
{
    ruled(draft, room, c, when, 2, Rule::NoSecond, v)
}

// A list's tariff: key, contract type and priority, one field: 4 where the priority is 13.
pub fn tariff(
    draft: &mut [u64],
    room: u32,
    c: Cursor,
    when: When,
    key: u32,
    kind: u32,
    priority: u32,
) -> Cursor
    requires { Drafted draft.old room (stand c) }
    ensures { Gave draft.old draft.new room (stand c) when (4 ∷ 8 ∷ 4 ∷ []) Rule.Tariff (key ∷ kind ∷ priority ∷ []) (stand result) }
{
    if c.is_refused() {
        return c;
    }
    let here = step::there(when);
    let wide = tariff_wide(here, key, kind, priority);
    if !here {
        return step::absent(c, wide);
    }
    let broken = (priority == ListTariff::UNDEFINED).then_some(Why::OutOfRange);
    let d = step::admit(c, room, ListTariff::BITS, wide, broken, 0);
    if !d.is_refused() {
        bits::lay(draft, c.at, ListTariff::BITS, packed(key, kind, priority));
    }
    d
}

// Whether one of a tariff's numbers is too wide for its box, or not zero where the field is absent.
fn tariff_wide(here: bool, key: u32, kind: u32, priority: u32) -> bool
    ensures { result ≡ exceeds (pick here (4 ∷ 8 ∷ 4 ∷ []) (0 ∷ 0 ∷ 0 ∷ [])) (key ∷ kind ∷ priority ∷ []) }
{
    if here {
        return wide(key, ListTariff::KEY_BITS)
            | wide(kind, ListTariff::KIND_BITS)
            | wide(priority, ListTariff::PRIORITY_BITS);
    }
    wide(key, 0) | wide(kind, 0) | wide(priority, 0)
}

// A tariff's numbers as one of 16 bits.
fn packed(key: u32, kind: u32, priority: u32) -> u32
    requires { (key < 16) × ((kind < 256) × (priority < 16)) }
    ensures { result ≡ key * 4096 + kind * 16 + priority }
{
    key * ListTariff::KEY_UNIT + kind * ListTariff::PRIORITIES + priority
}

// A text: letters of 5 bits, one field.
pub fn text(draft: &mut [u64], room: u32, c: Cursor, when: When, letters: &[u32]) -> Cursor
    requires { Drafted draft.old room (stand c) × (length letters.now ≤ 32) }
    ensures { Gave draft.old draft.new room (stand c) when (replicate (length letters.now) 5) Rule.Any letters.now (stand result) }
{
    if c.is_refused() {
        return c;
    }
    if !step::there(when) {
        return step::absent(c, any_wide(letters, 0));
    }
    let wide = any_wide(letters, LETTER_BITS);
    let width = letters.len() as u32 * LETTER_BITS;
    let d = step::admit(c, room, width, wide, None, 0);
    if !d.is_refused() {
        lay_all(draft, c.at, LETTER_BITS, letters);
    }
    d
}

// Whether one of the letters is too wide for a box of w bits.
fn any_wide(letters: &[u32], w: u32) -> bool
    requires { w ≤ 32 }
    ensures { result ≡ list_any (λ v. exceeds (w ∷ []) (v ∷ [])) letters.now }
{
    letters.iter().any(|&v| wide(v, w))
}

// Lays the letters in boxes of w bits behind the bits of a draft.
fn lay_all(draft: &mut [u64], at: u32, w: u32, letters: &[u32])
    requires { Lays draft.old at w letters.now }
    ensures { LaidAll draft.old draft.new at w letters.now }
{
    let mut place = at;
    for &v in letters {
        bits::lay(draft, place, w, v);
        place += w;
    }
}

// A field wider than the whole record, which has no number: 2 where it is there.
pub fn never(room: u32, c: Cursor, when: When, w: u32) -> Cursor
    requires { (c.at ≤ room) × (room < w) }
    ensures { (draft : List ℕ) → room / 32 + 1 < length draft → Gave draft draft room (stand c) when (w ∷ []) Rule.Any (0 ∷ []) (stand result) }
{
    if c.is_refused() {
        return c;
    }
    if !step::there(when) {
        return step::absent(c, false);
    }
    step::past(c)
}

// The end of a writing: where there was no refusal, all of the lent bytes are the draft's bits and zeros behind them.
pub fn end(draft: &[u64], c: Cursor, bytes: &mut [u8])
    requires { length bytes.old ≤ 4 * length draft.now }
    ensures { Packed draft.now (stand c) bytes.old bytes.new }
{
    if !c.is_refused() {
        bits::pack(draft, bytes);
    }
}
