// Calls one operation of the library after the other on units from standard input, and writes one number that every answer goes
// into: the program that ./bench measures. docs/BENCHMARK.md says how the input is laid out.
#![tactic(auto)]

mod digest;
mod units;

ghost use Rattle.std.specs.Prelude.{◌<◌};

use std::io;
use std::io::Read;

fn main(rt: HostRuntime) -> io::Result<()> {
    let mut head = [0u8; 4];
    input::read_full(&mut rt.stdin(), &mut head)?;
    let size = units::two(head[0], head[1]) as usize;
    let rounds = units::two(head[2], head[3]);
    let sum = sum_input(&mut rt.stdin(), size, rounds)?;
    println!(rt; "{sum}")
}

// The sum over the whole input, in pieces of whole units.
fn sum_input(from: &mut impl Read, size: usize, rounds: u32) -> io::Result<u64> {
    if size == 0 {
        return Ok(0);
    }
    let mut space = [0u8; 65536];
    let most = space.len() - space.len() % size;
    sum_pieces(from, &mut space[..most], size, rounds)
}

// A proved loop has to end, and nothing says that the input does: so it takes at most a number of pieces that no run uses up.
fn sum_pieces(from: &mut impl Read, piece: &mut [u8], size: usize, rounds: u32) -> io::Result<u64>
    requires { 0 < size }
{
    let mut sum = 0u64;
    for _ in 0..u64::MAX {
        let got = input::read_full(from, piece)?;
        if got == 0 {
            break;
        }
        sum = sum.wrapping_add(all_rounds(&piece[..got], size, rounds));
    }
    Ok(sum)
}

// The sum over a piece, as many times as there are rounds.
fn all_rounds(piece: &[u8], size: usize, rounds: u32) -> u64
    requires { 0 < size }
{
    let mut sum = 0u64;
    for _ in 0..rounds {
        sum = sum.wrapping_add(one_round(piece, size));
    }
    sum
}

fn one_round(piece: &[u8], size: usize) -> u64
    requires { 0 < size }
{
    let mut sum = 0u64;
    for unit in piece.chunks_exact(size) {
        sum = sum.wrapping_add(units::answer(unit));
    }
    sum
}
