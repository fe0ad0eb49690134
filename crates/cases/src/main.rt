// Reads the rows of worked cases from standard input and prints what each gives. The top of crates/cases/stdin describes
// their form.
#![tactic(auto)]

mod lines;
mod row;

use crate::lines::{answer, refuse};
use crate::row::EMPTY;
use std::io;
use stdio::{TooLong, read_line};

// The bytes of the longest line that is understood.
const LINE: usize = 4_096;

// Nothing says that the input ends, so its lines are counted.
fn main(rt: HostRuntime) -> io::Result<()> {
    let mut input = rt.stdin();
    let mut out = rt.stdout();
    let mut line = [0; LINE];
    let mut buffers = EMPTY;
    for number in 1..=u64::MAX {
        match read_line(&mut input, &mut line)? {
            None => break,
            Some(Ok(len)) => answer(&mut out, number, &line[..len], &mut buffers)?,
            Some(Err(TooLong)) => refuse(&mut out, number)?,
        }
    }
    Ok(())
}
