// Numbers of a job's bytes, the lowest byte first. A reader answers what it read, or why it refuses. Where it refuses, nothing is said of its
// position, since nobody reads on; who would, keeps a copy of the reader.
ghost use Rattle.std.specs.Prelude.{◌≡◌, ◌^◌, ◌≤◌, ◌<◌, length, min};
ghost use Rattle.job.specs.Load.{count_of, known as known_of};
ghost use Rattle.job.specs.Parser.{if_bit};
ghost use Rattle.reg_matrix.specs.Lists.{bit};
ghost use Rattle.reader.specs.Read.{number, left, Little, Field, Num};

use lent::from;
use reg_matrix::Refusal;

// The number of at most 8 bytes, the lowest first.
fn number(bytes: &[u8]) -> u64
    requires { length bytes.now ≤ 8 }
    ensures value { result ≡ number bytes.now }
    ensures small { result < 256 ^ length bytes.now }
{
    let mut padded = [0; 8];
    padded[..bytes.len()].copy_from_slice(bytes);
    u64::from_le_bytes(padded)
}

// Whether bit `i` of a map of fields stands.
pub fn bit(map: u64, i: u32) -> bool
    ensures { result ≡ bit i map }
{
    i < 64 && (map >> i) % 2 == 1
}

// A job's bytes, and the position from which they are left to read.
#[derive(Clone, Copy)]
pub struct Reader<'a> {
    pub bytes: &'a [u8],
    pub at: usize,
}

impl Reader<'_> {
    // The number of the next N bytes, of at most 8.
    pub fn little<const N: usize>(&mut self) -> Result<u64, Refusal>
        ensures same { self.new.bytes ≡ self.old.bytes }
        ensures read { Little (left self.old) (left self.new) (min N 8) result }
    {
        let n = N.min(8);
        let Some(bytes) = from(self.bytes, self.at).get(..n) else {
            return Err(Refusal::ShortJob);
        };
        self.at += n;
        Ok(number(bytes))
    }

    // The number of the next N bytes where its bit stands, and 0 elsewhere.
    pub fn little_if<const N: usize>(&mut self, stands: bool) -> Result<u64, Refusal>
        ensures same { self.new.bytes ≡ self.old.bytes }
        ensures read { Field (left self.old) (left self.new) stands (min N 8) 0 result }
    {
        if stands { self.little::<N>() } else { Ok(0) }
    }

    // The number of the next four bytes where its bit stands, and `absent` elsewhere.
    pub fn word_or(&mut self, stands: bool, absent: u32) -> Result<u64, Refusal>
        ensures same { self.new.bytes ≡ self.old.bytes }
        ensures read { Field (left self.old) (left self.new) stands 4 absent result }
    {
        if stands {
            self.little::<4>()
        } else {
            Ok(absent as u64)
        }
    }

    // A count of N bytes, at most `limit`, where its bit stands, and 0 elsewhere.
    #[tactic(auto, unfolding(job::specs::Load::count_of))]
    pub fn count<const N: usize>(&mut self, stands: bool, limit: u64) -> Result<u64, Refusal>
        ensures same { self.new.bytes ≡ self.old.bytes }
        ensures read { Num (left self.old) (left self.new) (if_bit stands 0 (count_of (min N 8) limit)) limit result }
    {
        if !stands {
            return Ok(0);
        }
        let k = self.little::<N>()?;
        if limit < k {
            return Err(Refusal::OverLimit);
        }
        Ok(k)
    }

    // A number of N bytes that is below `limit`.
    #[tactic(auto, unfolding(job::specs::Load::known))]
    pub fn known<const N: usize>(&mut self, limit: u64) -> Result<u64, Refusal>
        ensures same { self.new.bytes ≡ self.old.bytes }
        ensures read { Num (left self.old) (left self.new) (known_of (min N 8) limit) limit result }
    {
        let k = self.little::<N>()?;
        if limit <= k {
            return Err(Refusal::UnknownNumber);
        }
        Ok(k)
    }
}
