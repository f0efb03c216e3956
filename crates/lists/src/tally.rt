// What a contract list keeps of its entries, for counter and for plain positions: which pointers are in use, how many entries are
// used up. A pointer is a counter position where it is at most c.
ghost use Rattle.std.specs.Prelude.{◌≡◌, ◌&&◌, ◌+◌, ◌-◌, ◌%◌, ◌^◌, ◌≤◌, ◌<◌, eqb, leb};
ghost use Rattle.bits.specs.Bits.{bit};
ghost use Rattle.rows.specs.Row.{pick};
ghost use Rattle.lists.specs.Tally.{raised, lowered, one_more, one_less, entered, removed, revalued, at_pointer, free_of};

use crate::list::{ContractList, Entry};

// The positions of one kind.
#[derive(Clone, Copy, Debug, PartialEq, Eq)]
pub struct Positions {
    pub used: u32, // the pointers in use, bit pointer - 1
    pub spent: u32, // how many entries have priority 15
}

#[derive(Clone, Copy, Debug, PartialEq, Eq)]
pub struct Tally {
    pub counter: Positions,
    pub plain: Positions,
}

impl Positions {
    pub const NONE: Positions = Positions { used: 0, spent: 0 };

    // With an entry more.
    fn with(self, pointer: u32, priority: u32) -> Positions
        ensures { result ≡ entered pointer priority self }
    {
        Positions {
            used: raised(self.used, pointer),
            spent: one_more(self.spent, priority),
        }
    }

    // Without any entry of a pointer, so many of which were used up.
    fn without(self, pointer: u32, gone: u32) -> Positions
        ensures { result ≡ removed pointer gone self }
    {
        Positions {
            used: lowered(self.used, pointer),
            spent: self.spent.saturating_sub(gone),
        }
    }

    // How many pointers above one and up to another are free.
    pub(crate) fn free(self, above: u32, last: u32) -> u32
        ensures { result ≡ free_of above last self }
    {
        let mut free = 0;
        for k in 0..ContractList::MOST {
            let pointer = k + 1;
            if (above < pointer) & (pointer <= last) & ((self.used >> k) % 2 == 0) {
                free += 1;
            }
        }
        free
    }

    // With another priority of an entry.
    fn recoded(self, old: u32, new: u32) -> Positions
        ensures { result ≡ revalued old new self }
    {
        Positions {
            used: self.used,
            spent: one_more(one_less(self.spent, old), new),
        }
    }
}

impl Tally {
    pub const NONE: Tally = Tally {
        counter: Positions::NONE,
        plain: Positions::NONE,
    };

    // The positions of a pointer's kind.
    fn of(self, c: u32, pointer: u32) -> Positions
        ensures { result ≡ pick (leb pointer c) self.counter self.plain }
    {
        if pointer <= c {
            return self.counter;
        }
        self.plain
    }

    // The tally with others of that kind.
    fn put(self, c: u32, pointer: u32, positions: Positions) -> Tally
        ensures { result ≡ at_pointer c pointer (λ old. positions) self }
    {
        let counter = self.counter;
        let plain = self.plain;
        if pointer <= c {
            return Tally {
                counter: positions,
                plain,
            };
        }
        Tally {
            counter,
            plain: positions,
        }
    }

    // With an entry more.
    pub(crate) fn with(self, c: u32, pointer: u32, priority: u32) -> Tally
        ensures { result ≡ at_pointer c pointer (entered pointer priority) self }
    {
        let positions = self.of(c, pointer);
        self.put(c, pointer, positions.with(pointer, priority))
    }

    // Without any entry of a pointer, so many of which were used up.
    pub(crate) fn without(self, c: u32, pointer: u32, gone: u32) -> Tally
        ensures { result ≡ at_pointer c pointer (removed pointer gone) self }
    {
        let positions = self.of(c, pointer);
        self.put(c, pointer, positions.without(pointer, gone))
    }

    // With another priority of a pointer's entry.
    pub(crate) fn recoded(self, c: u32, pointer: u32, old: u32, new: u32) -> Tally
        ensures { result ≡ at_pointer c pointer (revalued old new) self }
    {
        let positions = self.of(c, pointer);
        self.put(c, pointer, positions.recoded(old, new))
    }
}

// How many of some entries are used up, and how many of those are on counter positions.
#[derive(Clone, Copy, Debug, PartialEq, Eq)]
pub(crate) struct Spent {
    pub(crate) all: u32,
    pub(crate) counter: u32,
}

impl Spent {
    pub(crate) const NONE: Spent = Spent { all: 0, counter: 0 };

    // With an entry more.
    pub(crate) fn with(self, c: u32, pointer: u32, priority: u32) -> Spent
        requires { (self.all < 8) × (self.counter < 8) }
        ensures { result ≡ record { all = self.all + bit (eqb priority 15); counter = self.counter + bit (leb pointer c && eqb priority 15) } }
    {
        let spent = priority == Entry::ERASABLE;
        Spent {
            all: self.all + u32::from(spent),
            counter: self.counter + u32::from((pointer <= c) & spent),
        }
    }

    // The tally of these entries, of which this is the mask of pointers.
    pub(crate) fn tally(self, c: u32, used: u32) -> Tally
        requires { (c ≤ 8) × (self.counter ≤ self.all) }
        ensures { result ≡ record { counter = record { used = used % 2 ^ c; spent = self.counter }; plain = record { used = used - used % 2 ^ c; spent = self.all - self.counter } } }
    {
        let counter = used % (1u32 << c);
        Tally {
            counter: Positions {
                used: counter,
                spent: self.counter,
            },
            plain: Positions {
                used: used - counter,
                spent: self.all - self.counter,
            },
        }
    }
}

// The mask with a pointer's bit raised. A pointer that no card has, has none.
fn raised(used: u32, pointer: u32) -> u32
    ensures { result ≡ raised pointer used }
{
    if (1 <= pointer) & (pointer <= ContractList::MOST) {
        let k = pointer - 1;
        if (used >> k) % 2 == 0 {
            return used + (1u32 << k);
        }
    }
    used
}

fn lowered(used: u32, pointer: u32) -> u32
    ensures { result ≡ lowered pointer used }
{
    if (1 <= pointer) & (pointer <= ContractList::MOST) {
        let k = pointer - 1;
        if (used >> k) % 2 == 1 {
            return used - (1u32 << k);
        }
    }
    used
}

// A list has no more than 8 entries.
fn one_more(spent: u32, priority: u32) -> u32
    ensures { result ≡ one_more priority spent }
{
    if (priority == Entry::ERASABLE) & (spent < ContractList::MOST) {
        return spent + 1;
    }
    spent
}

fn one_less(spent: u32, priority: u32) -> u32
    ensures { result ≡ one_less priority spent }
{
    if priority == Entry::ERASABLE {
        return spent.saturating_sub(1);
    }
    spent
}
