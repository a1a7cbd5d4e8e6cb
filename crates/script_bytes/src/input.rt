// Reading standard input in pieces.
ghost use Rattle.std.specs.Prelude.{◌≡◌, ◌+◌, ◌≤◌, is_some};
ghost use Rattle.script_bytes.specs.Reading.{SomeRead, Took, NumberRead};

// Standard input, of which a script still has `left` bytes.
#[derive(Drop)]
pub struct Input {
    pub left: u64,
}

impl Input {
    // Reads at most n bytes, and no more than the script still has, into the front of the lent buffer. Answers how many came.
    pub fn read_some(&mut self, n: u64, buf: &mut [u8]) -> u64
        ensures { SomeRead n self.old.left self.new.left buf.old buf.new result }
    {
        let most = n.min(self.left).min(buf.len() as u64) as usize;
        let got = io::read_full(0, &mut buf[..most]) as u64;
        self.left = self.left.saturating_sub(got);
        got
    }

    // Reads a little-endian number of n bytes, at most 4, if it is all there; a longer one never is.
    #[tactic(auto, using(crate::proofs::ReadLaws::number_read))]
    pub fn read_number(&mut self, n: u64) -> Option<u64>
        ensures { NumberRead n self.old.left self.new.left result }
    {
        let mut bytes = [0u8; 4];
        let got = self.read_some(n, &mut bytes);
        (got == n).then_some(u64::from(u32::from_le_bytes(bytes)))
    }

    // Reads one piece of at most n bytes and forgets it. Answers how many came.
    fn skip_some(&mut self, n: u64) -> u64
        ensures { (result ≤ n) × (self.new.left + result ≡ self.old.left) }
    {
        let mut piece = io::buffer();
        self.read_some(n, &mut piece)
    }

    // Reads n bytes and forgets them, if they are all there; else those that are.
    pub fn skip(&mut self, n: u64) -> Option<()>
        ensures { Took n self.old.left self.new.left (is_some result) }
    {
        let mut more = n;
        // a `for` is no plainer: how much comes in a piece is not known before
        while 0 < more {
            let got = self.skip_some(more);
            if got == 0 {
                return None;
            }
            more -= got;
        }
        Some(())
    }
}
