// Decodes contract list records to standard output: a line of 58 digits each, for cards of four contracts, each with a counter.
#![tactic(auto)]

ghost use Rattle.std.specs.Prelude.{◌≤◌, ◌<◌, length};

use lists::list;
use lists::list::{ContractList, Entry};
use records::Why;
use std::io;

// The most input that is taken.
pub const MOST: usize = 64000;

// How many contract records a card has, and counter positions among them.
const N: u32 = 4;

const C: u32 = 4;

// One answer for each line; for too long an input, one line that says so.
pub fn dump(rt: &impl Print, input: &[u8]) -> io::Result<()> {
    if MOST < input.len() {
        say_line(rt, 0, Why::WrongLength.number(), 0)
    } else {
        dump_lines(rt, input)
    }
}

// The last line may lack its line feed.
fn dump_lines(rt: &impl Print, input: &[u8]) -> io::Result<()>
    requires { length input.now ≤ 64000 }
{
    for (number, line) in (1..).zip(input.split_inclusive(|byte| *byte == b'\n')) {
        dump_line(rt, line.strip_suffix(b"\n").unwrap_or(line), number)?;
    }
    Ok(())
}

// A line that is no record is refused as one of the wrong length.
fn dump_line(rt: &impl Print, line: &[u8], number: u32) -> io::Result<()> {
    let mut bytes = [0u8; 29];
    if !text::bytes(line, &mut bytes) {
        return say_line(rt, number, Why::WrongLength.number(), 0);
    }
    match list::read(&bytes, N, C) {
        Ok(list) => {
            say_line(rt, number, 0, list.count)?;
            say_entries(rt, list)
        }
        Err(refusal) => say_line(rt, number, refusal.why.number(), 0),
    }
}

fn say_line(rt: &impl Print, number: u32, refusal: u32, count: u32) -> io::Result<()> {
    println!(rt; "{number} {refusal} {count}")
}

// The counted entries: position, network or -, key, type, priority, pointer.
fn say_entries(rt: &impl Print, list: ContractList) -> io::Result<()> {
    for (position, entry) in (1..=list.count).zip(&list.entries) {
        say_entry(rt, position, *entry)?;
    }
    Ok(())
}

fn say_entry(rt: &impl Print, position: u32, entry: Entry) -> io::Result<()> {
    if entry.bitmap % 2 == 1 {
        print!(rt; "{position} {}", entry.network)?;
    } else {
        print!(rt; "{position} -")?;
    }
    println!(rt;
        " {} {} {} {}",
        entry.key, entry.kind, entry.priority, entry.pointer
    )
}
