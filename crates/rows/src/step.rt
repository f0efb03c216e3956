// What takes and puts share: whether a field is there, its rule, the order of its faults, and the count of fields.
ghost use Rattle.std.specs.Prelude.{◌≡◌, ◌≤◌, [], ◌∷◌};
ghost use Rattle.rows.specs.Row.{pick, holds, broken};
ghost use Rattle.rows.specs.Why.{number_of};
ghost use Rattle.rows.specs.Inner.Standing.{why_of, stand};
ghost use Rattle.rows.specs.Inner.Step.{stays, settled, admitted};

use crate::{Cursor, Rule, When, Why};
use std::num::wrapping_add_u32;

// Whether a field is there.
pub fn there(when: When) -> bool
    ensures { result ≡ holds when }
{
    match when {
        When::Always => true,
        When::Bit(n, e) => {
            if e < 32 {
                return (n >> e) % 2 == 1;
            }
            false
        }
        When::Above(n, k) => k < n,
    }
}

// The refusal of a rule that a field's one number breaks.
pub fn ruled(rule: Rule, v: u32) -> Option<Why>
    ensures { why_of result ≡ broken rule (v ∷ []) }
{
    match rule {
        Rule::Most(m) if m < v => Some(Why::OutOfRange),
        Rule::NoSecond if v / 2 % 2 == 1 => Some(Why::Unknown),
        _ => None,
    }
}

// One field of a walk: after a refusal nothing moves; else the first of its faults, or the place behind it.
pub fn admit(
    c: Cursor,
    room: u32,
    width: u32,
    wide: bool,
    ruled: Option<Why>,
    number: u32,
) -> Cursor
    requires { c.at ≤ room }
    ensures { stand result ≡ admitted (stand c) room width wide (why_of ruled) number }
{
    if c.is_refused() {
        return Cursor { number, ..c };
    }
    if wide {
        return stay(c, Why::NoFit, number);
    }
    if room - c.at < width {
        return stay(c, Why::PastEnd, number);
    }
    match ruled {
        Some(why) => stay(c, why, number),
        None => c.passed(1, width, number),
    }
}

// A field that is absent has no bits, but counts: 7 where one of its numbers is not zero.
pub fn absent(c: Cursor, wide: bool) -> Cursor
    ensures { stand result ≡ settled (stand c) 0 (pick wide 7 0) 0 }
{
    if wide {
        return stay(c, Why::NoFit, 0);
    }
    c.passed(1, 0, 0)
}

// A field that runs past the end.
pub fn past(c: Cursor) -> Cursor
    ensures { stand result ≡ stays (stand c) 2 0 }
{
    stay(c, Why::PastEnd, 0)
}

// Comes to a field, which counts, and stays there with a refusal.
fn stay(c: Cursor, why: Why, number: u32) -> Cursor
    ensures { stand result ≡ stays (stand c) (number_of why) number }
{
    Cursor {
        at: c.at,
        why: Some(why),
        field: wrapping_add_u32(c.field, 1),
        number,
    }
}
