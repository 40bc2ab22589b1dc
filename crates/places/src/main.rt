// Prints what the four placing rules make of the loop sheet on standard input: `printing::places` of its first bytes, no more.
#![tactic(auto)]

use rules::limits::TEXT_MOST;
use std::io;
use std::io::Write;

fn main(rt: HostRuntime) -> io::Result<()> {
    let mut text = [0u8; TEXT_MOST];
    let n = streams::read_full(&mut rt.stdin(), &mut text)?;
    let printed = printing::places(&text[..n]);
    rt.stdout().write_all(&printed)
}
