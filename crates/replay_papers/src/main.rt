// Marks stored papers: reads each from standard input after its length in two bytes, low byte first, and prints the answers one after
// another. What must be printed is what the comparison copy answers.
#![tactic(auto)]

use std::io;
use streams::read_full;

fn mark(rt: &impl Print, paper: &[u8]) -> io::Result<()> {
    let mut text = [0u8; paper::TEXT];
    let k = paper::mark_whole(paper, &mut text);
    rt.write_all(&text[..k])
}

// Stops where a paper is not there whole.
fn mark_all(rt: &impl Print, papers: &[u8]) -> io::Result<()> {
    let mut rest = papers;
    while let Some((length, behind)) = rest.split_first_chunk::<2>() {
        let length = usize::from(u16::from_le_bytes(*length));
        let Some((paper, later)) = behind.split_at_checked(length) else {
            break;
        };
        mark(rt, paper)?;
        rest = later;
    }
    Ok(())
}

// A read or a write that fails ends the program with its error.
fn main(rt: HostRuntime) -> io::Result<()> {
    let mut papers = [0u8; 65536];
    let n = read_full(&mut rt.stdin(), &mut papers)?;
    mark_all(&rt, &papers[..n])
}
