// The marking of a question file.
ghost use Rattle.std.specs.Prelude.{◌≡◌};
ghost use Rattle.paper.specs.Text.{out as into, write};
ghost use Rattle.paper.specs.Marking.{marking};

// Writes what is printed of the file to the front of `out`, and answers how many bytes that is; `paper::TEXT` bytes are always enough.
pub fn exam_mark(paper: &[u8], out: &mut [u8]) -> usize
    ensures { into out.new result ≡ write (into out.old 0) (marking paper.now) }
{
    paper::mark(paper, out)
}
