// Follows a record bit by bit with the second reader, and says what each bit makes of its state. Standard input is the name of a
// structure, a space, and the record in hexadecimal digits.
#![tactic(auto)]

mod say;

use lab::state::State;
use lab::{layouts, run};
use lines::scan::{BYTES, Words};
use std::io;

// How many contract records the card of a contract list has.
const N: u32 = 8;

// A Holder's four records.
const MOST: usize = 116;

fn main(rt: HostRuntime) -> io::Result<()> {
    let mut input = [0; 8192];
    let mut record = [0; BYTES];
    let n = input::read_full(&mut rt.stdin(), &mut input)?;
    let (structure, words) = Words::of(first_line(&input[..n]));
    match take_record(words, &mut record) {
        Some(record) => choose(&rt, structure, record),
        None => say::usage(&rt),
    }
}

fn first_line(input: &[u8]) -> &[u8] {
    input.split(|letter| *letter == b'\n').next().unwrap_or(&[])
}

fn take_record<'a>(mut words: Words, space: &'a mut [u8; BYTES]) -> Option<&'a [u8]> {
    let record = words.bytes(space)?;
    words.ends()?;
    Some(record)
}

fn choose(rt: &impl Print, structure: &[u8], bytes: &[u8]) -> io::Result<()> {
    match structure {
        b"environment" => follow(rt, &layouts::environment(), bytes),
        b"holder" => follow(rt, &layouts::holder(), bytes),
        b"event" => follow(rt, &layouts::event(), bytes),
        b"special" => follow(rt, &layouts::special_list(), bytes),
        b"list" => follow(rt, &layouts::contract_list(), bytes),
        b"contract.42" => follow(rt, &layouts::carnet(), bytes),
        b"contract.50" => follow(rt, &layouts::urban(), bytes),
        _ => say::usage(rt),
    }
}

// The walk up to its end or its refusal, a line a bit; then the refusal or the margin.
fn follow(rt: &impl Print, rows: &[u64], bytes: &[u8]) -> io::Result<()> {
    if MOST < bytes.len() {
        return say::usage(rt);
    }
    let room = 8 * bytes.len() as u32;
    let mut state = State::begin(rows, N, room);
    say::begin(rt, state)?;
    for place in 0..room {
        if state.why.is_some() || rows.len() <= state.row {
            break;
        }
        let bit = run::bit_at(bytes, place);
        let next = state.step(rows, bit);
        say::step(rt, rows, state, bit, next)?;
        state = next;
    }
    match state.why {
        None => say::margin(rt, bytes, state.at, room),
        Some(why) => say::refused(rt, state, why.number()),
    }
}
