// Printing lines.
ghost use Rattle.std.specs.Prelude.{◌≡◌, length};
ghost use Rattle.lent.specs.Parts.{part};

use lent::part;

// Writes the first n bytes of a line to standard output, and answers how many it handed to the write: n, or none where the line is shorter.
pub fn print(line: &[u8], n: usize) -> usize
    ensures { result ≡ length (part 0 n line.now) }
{
    let front = part(line, 0, n);
    io::write_all(1, front);
    front.len()
}
