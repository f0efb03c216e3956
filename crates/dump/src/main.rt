// Decodes the contract list records on standard input.
#![tactic(auto)]

use std::io;

fn main(rt: HostRuntime) -> io::Result<()> {
    let mut bytes = [0u8; 64001];
    let got = input::read_full(&mut rt.stdin(), &mut bytes)?;
    decode::dump(&rt, &bytes[..got])
}
