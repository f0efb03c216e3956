// What is said of a walk, in the words of docs/APPROVAL.md.
ghost use Rattle.std.specs.Prelude.{◌<◌, length};

use lab::state::State;
use lab::{row, run};
use std::io;

pub fn usage(rt: &impl Print) -> io::Result<()> {
    println!(rt;
        "wanted: environment, holder, event, special, list, contract.42 or contract.50, a space, and the record's digits"
    )
}

// Before the first bit.
pub fn begin(rt: &impl Print, state: State) -> io::Result<()> {
    print!(rt; "room {}, most {}; first is", state.room, state.most)?;
    field(rt, state)?;
    println!(rt; "")
}

// A bit, the numbers of its field with it, and behind the field's last bit the next one that is there.
pub fn step(rt: &impl Print, rows: &[u64], before: State, one: bool, after: State) -> io::Result<()>
    requires { before.row < length rows.now }
{
    let k = before.row;
    print!(rt; "bit {} is {}: field {k} is now", before.at, u32::from(one))?;
    numbers(rt, rows[k], before, &after.numbers)?;
    if after.row == rows.len() {
        print!(rt; "; no field is left")?;
    } else if after.row != k {
        print!(rt; "; next is")?;
        field(rt, after)?;
    }
    println!(rt; "")
}

// The field that a state is in.
fn field(rt: &impl Print, state: State) -> io::Result<()> {
    print!(rt;
        " field {}, from bit {} and slot {}",
        state.row, state.start, state.first
    )
}

// The numbers of a row's field; of a text only the letters up to the bit.
fn numbers(rt: &impl Print, row: u64, before: State, numbers: &[u32]) -> io::Result<()> {
    let boxes = row::boxes(row) as usize;
    let pace = pace(row);
    let mut place = before.start;
    for number in numbers.iter().skip(before.first as usize).take(boxes) {
        if before.at < place {
            break;
        }
        print!(rt; " {number}")?;
        place = place.wrapping_add(pace);
    }
    Ok(())
}

// How many bits later the next number of a field is said.
fn pace(row: u64) -> u32 {
    if row::letters(row) == 0 {
        return 0;
    }
    row::width(row) as u32
}

pub fn refused(rt: &impl Print, state: State, number: u32) -> io::Result<()> {
    println!(rt;
        "refused with {number}, place {}, field {}",
        state.start, state.row
    )
}

// The margin, from a place on.
pub fn margin(rt: &impl Print, bytes: &[u8], from: u32, room: u32) -> io::Result<()> {
    print!(rt; "margin from bit {from}, its ones:")?;
    if (from..room).all(|place| !run::bit_at(bytes, place)) {
        print!(rt; " none")?;
    }
    for place in (from..room).filter(|place| run::bit_at(bytes, *place)) {
        print!(rt; " {place}")?;
    }
    println!(rt; "")
}
