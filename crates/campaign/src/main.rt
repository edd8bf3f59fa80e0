//! Reads a campaign file from standard input, and prints document 01's line.
#![tactic(auto)]

use std::io;

// The campaign of standard input; of a longer input than 33,000 bytes the first 33,000. A read or write that fails ends the program with its error.
fn main(rt: HostRuntime) -> io::Result<()> {
    let mut bytes = [0u8; 33000];
    let mut out = [0u8; 200];
    let length = input::read_full(&mut rt.stdin(), &mut bytes)?;
    let n = run::report::report(&bytes[..length], &mut out);
    rt.write_all(&out[..n])
}
