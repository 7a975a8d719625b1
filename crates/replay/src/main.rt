// Replays stored answers of the comparison copy through the five calls and that for prices, from standard input
// (compare/sample.rs writes it), and prints how often each number was answered and how many answers
// differ from the stored ones.
#![tactic(auto)]

mod input;
mod replay;
mod report;

use std::io;

// The first number says how many answers follow. A read or a write that fails ends the program with its error.
fn main(rt: HostRuntime) -> io::Result<()> {
    let mut stdin = rt.stdin();
    let most = input::whole(&mut stdin)?;
    let mut counts = [0u64; report::PLACES];
    let mut different = 0u64;
    for _ in 0..most {
        let outcome = replay::one(&mut stdin)?;
        report::count(&mut counts, outcome.number);
        if !outcome.same {
            different = different.wrapping_add(1);
        }
    }
    report::print(&rt, &counts, different)
}
