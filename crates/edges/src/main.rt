// Prints, for each case on standard input, the line of its graph as it is drawn and the four lines of `places`. A case begins at a
// dash: a name to the end of the line, then a text to the next dash or the end.
#![tactic(auto)]

use std::io;
use std::io::Write;

// More than all stored cases have; what stands past it is not read.
const INPUT_MOST: usize = 65536;

fn print_text<W: Write>(out: &mut W, text: &[u8]) -> io::Result<()> {
    out.write_all(&printing::drawn(text))?;
    out.write_all(&printing::places(text))
}

fn print_cases<W: Write>(out: &mut W, input: &[u8]) -> io::Result<()> {
    let mut at = 0;
    while let Some(case) = printing::case_at(input, at) {
        print_text(out, &input[case.start..case.past])?;
        at = case.past;
    }
    Ok(())
}

fn main(rt: HostRuntime) -> io::Result<()> {
    let mut input = [0u8; INPUT_MOST];
    let n = streams::read_full(&mut rt.stdin(), &mut input)?;
    print_cases(&mut rt.stdout(), &input[..n])
}
