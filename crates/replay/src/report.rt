// How often each number was answered, and what the program prints.
use std::io;

// A place for answers, one for each number up to 16, and the last for all others: it is printed as 17. No call answers 15 or 17.
pub(crate) const PLACES: usize = 18;

pub(crate) fn count(counts: &mut [u64; PLACES], number: u32) {
    let k = (number as usize).min(PLACES - 1);
    counts[k] = counts[k].wrapping_add(1);
}

pub(crate) fn print(rt: &impl Print, counts: &[u64; PLACES], different: u64) -> io::Result<()> {
    println!(rt; "accepted: {}", counts[0])?;
    for (number, count) in counts.iter().enumerate().skip(1) {
        println!(rt; "refused {number}: {count}")?;
    }
    println!(rt; "differences: {different}")
}
