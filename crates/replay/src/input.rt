// The numbers of the input: eight bytes each, the low one first. Past its end they are 0.
ghost use Rattle.std.specs.Prelude.{◌≤◌, IfOk};

use std::io;
use std::io::Read;
use streams::read_full;

fn word(reader: &mut impl Read) -> io::Result<u64> {
    let mut b = [0u8; 8];
    read_full(reader, &mut b)?;
    Ok(u64::from_le_bytes(b))
}

pub(crate) fn float(reader: &mut impl Read) -> io::Result<f64> {
    Ok(leaves::numbers::float(word(reader)?))
}

pub(crate) fn whole(reader: &mut impl Read) -> io::Result<usize> {
    Ok(word(reader)? as usize)
}

// A call's number, a kind or the number of a stored refusal: all are below 99, which stands for anything larger.
pub(crate) fn kind(reader: &mut impl Read) -> io::Result<u32> {
    Ok(word(reader)?.min(99) as u32)
}

// A count of numbers that there is room for.
pub(crate) fn length(reader: &mut impl Read, most: usize) -> io::Result<usize>
    ensures { IfOk result (λ n. n ≤ most) }
{
    Ok(whole(reader)?.min(most))
}

pub(crate) fn fill(reader: &mut impl Read, out: &mut [f64]) -> io::Result<()> {
    for x in out.iter_mut() {
        *x = float(reader)?;
    }
    Ok(())
}
