// The inputs of dump that its one stdin cannot show: none, the longest that is taken (one line, no record), and one longer.
#![tactic(auto)]

use std::io;

fn main(rt: HostRuntime) -> io::Result<()> {
    let input = [b'0'; 64001];
    decode::dump(&rt, &input[..0])?;
    decode::dump(&rt, &input[..decode::MOST])?;
    decode::dump(&rt, &input)
}
