// Reads a question file from standard input and prints its answer. A question file is never as long as the buffer (`too_long`,
// crates/paper/proofs/Lengths.antt): an input that fills it is malformed, whatever stands behind.
#![tactic(auto)]

use std::io;
use streams::read_full;

// A read or a write that fails ends the program with its error.
fn main(rt: HostRuntime) -> io::Result<()> {
    let mut paper = [0u8; 65536];
    let n = read_full(&mut rt.stdin(), &mut paper)?;
    let mut text = [0u8; paper::TEXT];
    let k = paper::mark_whole(&paper[..n], &mut text);
    rt.write_all(&text[..k])
}
