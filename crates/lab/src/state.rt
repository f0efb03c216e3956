// The second reader's state, and what one bit more makes of it.
ghost use Rattle.std.specs.Prelude.{◌≡◌, ◌+◌, ◌-◌, ◌^◌, ◌<◌, ◌≤◌, ◌≢◌, map, length, drop};
ghost use Rattle.rows.specs.Walk.{total};
ghost use Rattle.rows.specs.Why.{number_of};
ghost use Rattle.records.specs.Answer.{answer_of};
ghost use Rattle.lab.specs.Inner.Reading.{met};
ghost use Rattle.lab.specs.Layout.{row_of, boxes_of};
ghost use Rattle.lab.specs.Machine.{reader, stopped, passed, entered, arrived, noted, closed, counted, behind, stepped, begun};

use crate::row;
use records::{Refusal, Why};

// The most numbers of a structure, the Holder's.
pub const SLOTS: usize = 111;

#[derive(Clone, Copy, PartialEq, Eq, Debug)]
pub struct State {
    pub room: u32, // how many bits there are
    pub most: u32, // how many contract records the card has
    pub at: u32, // how many bits were taken: the place of the next
    pub why: Option<Why>, // its refusal, whose place is start and whose field is the row
    pub row: usize, // the row that it is in, from 0
    pub start: u32, // the place of the first bit of that row's field
    pub first: u32, // the slot of its first number
    pub numbers: [u32; 111], // zeros from there on, until bits come
}

impl State {
    // Before the first bit of so many.
    #[tactic(auto, unfolding(crate::specs::Machine::begun))]
    pub fn begin(rows: &[u64], most: u32, room: u32) -> State
        ensures { reader result ≡ begun (map (row_of most) rows.now) most room }
    {
        let none = State {
            room,
            most,
            at: 0,
            why: None,
            row: 0,
            start: 0,
            first: 0,
            numbers: [0; 111],
        };
        none.arrived(rows)
    }

    // With one bit more. After a refusal and at the end nothing moves.
    #[tactic(auto, unfolding(crate::specs::Machine::stepped), using(crate::proofs::Rows::rows_from, crate::proofs::Rows::rows_over))]
    pub fn step(self, rows: &[u64], bit: bool) -> State
        ensures { reader result ≡ stepped (map (row_of self.most) rows.now) (reader self) bit }
    {
        if self.why.is_some() || self.room <= self.at {
            return self;
        }
        let Some(&row) = rows.get(self.row) else {
            return self.counted();
        };
        if row::bits(row) <= self.taken() {
            return self;
        }
        self.noted(row, bit).closed(rows, row)
    }

    // What it met: nothing, or a refusal.
    pub(crate) fn met(self) -> Result<(), Refusal>
        requires { (reader self).why ≢ 0 → self.row < 2 ^ 32 }
        ensures { answer_of result ≡ met (reader self) }
    {
        match self.why {
            None => Ok(()),
            Some(why) => Err(Refusal {
                why,
                place: self.start,
                field: self.row as u32,
            }),
        }
    }

    // How many bits of the field were taken.
    fn taken(self) -> u64
        ensures { result ≡ self.at - self.start }
    {
        self.at.saturating_sub(self.start) as u64
    }

    fn stopped(mut self, why: Why) -> State
        ensures { reader result ≡ stopped (number_of why) (reader self) }
    {
        self.why = Some(why);
        self
    }

    // In the margin a bit is only counted.
    fn counted(mut self) -> State
        requires { self.at < self.room }
        ensures { reader result ≡ counted (reader self) }
    {
        self.at += 1;
        self
    }

    // Behind a row, at the next.
    #[tactic(auto, using(crate::proofs::Rows::few_boxes))]
    fn passed(mut self, row: u64) -> State
        requires { self.row + 1 < 2 ^ 64 }
        ensures { reader result ≡ passed (row_of self.most row) (reader self) }
    {
        self.row += 1;
        self.start = self.at;
        self.first = self.first.wrapping_add(row::boxes(row) as u32);
        self
    }

    // At a field that is there: 2 where it runs past the end.
    #[tactic(auto, using(crate::proofs::Rows::few_bits))]
    fn entered(self, row: u64) -> State
        ensures { reader result ≡ entered (row_of self.most row) (reader self) }
    {
        if (self.room as u64) < self.at as u64 + row::bits(row) {
            return self.stopped(Why::PastEnd);
        }
        self
    }

    // At the next field that is there: the rows before it have no bits.
    fn arrived(self, rows: &[u64]) -> State
        requires { self.row ≤ length rows.now }
        ensures { reader result ≡ arrived (drop self.row (map (row_of self.most) rows.now)) (reader self) }
    {
        let mut s = self;
        for &row in &rows[s.row..] {
            if row::there(row, &s.numbers) {
                return s.entered(row);
            }
            s = s.passed(row);
        }
        s
    }

    // With a bit more of its field: the number in the box that the bit is in is doubled, and the bit added.
    #[tactic(auto, using(crate::proofs::Rows::few_boxes, crate::proofs::Rows::box_within))]
    fn noted(mut self, row: u64, bit: bool) -> State
        requires { (self.at < self.room) × (self.at - self.start < total (boxes_of row)) }
        ensures { reader result ≡ noted (row_of self.most row) bit (reader self) }
    {
        let k = (self.first as u64 + row::box_at(row, self.taken())) as usize;
        self.at += 1;
        // By index: of what is written through `get_mut` a proof knows nothing.
        if k < SLOTS {
            self.numbers[k] = behind(self.numbers[k], bit);
        }
        self
    }

    // Behind a field's last bit: its rule's refusal, or the next field that is there.
    fn closed(self, rows: &[u64], row: u64) -> State
        requires { self.row < length rows.now }
        ensures { reader result ≡ closed (row_of self.most row) (drop (self.row + 1) (map (row_of self.most) rows.now)) (reader self) }
    {
        if self.taken() < row::bits(row) {
            return self;
        }
        match row::broken(row, self.most, &self.numbers, self.first as u64) {
            Some(why) => self.stopped(why),
            None => self.passed(row).arrived(rows),
        }
    }
}

// A bit behind a number of 32 bits, whose top bit is dropped.
fn behind(number: u32, bit: bool) -> u32
    ensures { result ≡ behind number bit }
{
    (number << 1) + bit as u32
}
