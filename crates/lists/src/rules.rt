// The rule of both lists: every element but the network present, pointers distinct and within their limit, else 6.
ghost use Rattle.std.specs.Prelude.{◌≡◌, List, [], ◌∷◌, ◌++◌, ℕ, suc, ◌≤◌, length};
ghost use Rattle.rows.specs.Inner.Standing.{stand};
ghost use Rattle.lists.specs.Inner.Steps.{stopped_at, tallied};
ghost use Rattle.lists.specs.Inner.Judging.{optional, Judges};

use rows::{Cursor, Why};

// The width of a list's count.
pub const COUNT_BITS: u32 = 4;

// How the entries so far keep the rule.
#[derive(Clone, Copy, Debug, PartialEq, Eq)]
pub struct Judged {
    pub used: u32, // their pointers, bit pointer - 1
    // the number, from 1, of the first entry that does not keep the rule, or 0: as an Option it took list::read 10 instructions more, of 832
    fault: u32,
}

impl Judged {
    pub const NONE: Judged = Judged { used: 0, fault: 0 };

    // With entry k, counted from 1; pointers are from 1 to a limit.
    pub fn with(self, k: u32, bitmap: u32, pointer: u32, full: u32, limit: u32) -> Judged
        requires { limit ≤ 8 }
        ensures { (bs ps : List ℕ) → Judges full limit bs ps self → k ≡ suc (length ps) → Judges full limit (bs ++ (bitmap ∷ [])) (ps ++ (pointer ∷ [])) result }
    {
        if self.fault != 0 {
            return self;
        }
        if (bitmap / 2 == full) & (1 <= pointer) & (pointer <= limit) {
            let place = pointer - 1;
            if (self.used >> place) % 2 == 0 {
                return Judged {
                    used: self.used + (1u32 << place),
                    fault: 0,
                };
            }
        }
        Judged {
            used: self.used,
            fault: k,
        }
    }

    // The number, from 1, of the first entry that does not keep the rule.
    pub fn fault(self) -> Option<u32>
        ensures { result ≡ optional self.fault }
    {
        if self.fault == 0 {
            return None;
        }
        Some(self.fault)
    }
}

// The cursor after the rule: 6 at the entry at fault, where nothing else was refused.
pub fn obeyed(c: Cursor, fault: Option<u32>) -> Cursor
    ensures { stand result ≡ stopped_at (stand c) fault }
{
    if c.is_refused() {
        return c;
    }
    match fault {
        None => c,
        Some(k) => Cursor {
            at: k,
            why: Some(Why::ListRule),
            field: 0,
            number: 0,
        },
    }
}

// The cursor after the tally: 6 at place 0 where it is no fresh count and nothing else was refused.
pub fn fair(c: Cursor, is_fair: bool) -> Cursor
    ensures { stand result ≡ tallied (stand c) is_fair }
{
    if is_fair | c.is_refused() {
        return c;
    }
    Cursor {
        at: 0,
        why: Some(Why::ListRule),
        field: 0,
        number: 0,
    }
}
