// A job's header in words: the counts of registers, classes and virtual registers, the budget, whether there is a probe range, and its two points.
ghost use Rattle.std.specs.Prelude.{◌≡◌};
ghost use Rattle.std.proofs.lemmas.List.Edits.{sets};
ghost use Rattle.words.specs.Words.{header_words, header_in, probe_in, probe_words, words_short};

use job::JobHeader;
use lent::{at, put};

// A job's header and its records to read, each in lent words. Calls that change the records take the two apart.
#[derive(Clone, Copy)]
pub struct LentWords<'a> {
    pub header: &'a [u64],
    pub records: &'a [u64],
}

// The probe range of three words, as C has them: whether there is one, and its points.
#[tactic(auto, unfolding(crate::specs::Words::probe_in))]
fn probe_of(has: u64, from: u64, to: u64) -> Option<(u32, u32)>
    ensures { result ≡ probe_in has from to }
{
    let points = ((from % 0x1_0000_0000) as u32, (to % 0x1_0000_0000) as u32);
    (has != 0).then_some(points)
}

// The header that stands in the words, whatever they are: of each the low bits that its field has room for.
#[tactic(auto, unfolding(crate::specs::Words::header_in))]
pub fn header_of(words: &[u64]) -> JobHeader
    ensures { result ≡ header_in words.now }
{
    let regs = (at(words, 0) % 256) as u8;
    let classes = (at(words, 1) % 256) as u8;
    let virt_regs = (at(words, 2) % 65536) as u16;
    let budget = (at(words, 3) % 0x1_0000_0000) as u32;
    let probe = probe_of(at(words, 4), at(words, 5), at(words, 6));
    JobHeader {
        regs,
        classes,
        virt_regs,
        probe,
        budget,
    }
}

// Stores the three words of a probe range.
fn store_probe(probe: Option<(u32, u32)>, words: &mut [u64])
    ensures { words.new ≡ sets words.old 4 (probe_words probe) }
{
    match probe {
        None => {
            put(words, 4, 0);
            put(words, 5, 0);
            put(words, 6, 0);
        }
        Some((from, to)) => {
            put(words, 4, 1);
            put(words, 5, from as u64);
            put(words, 6, to as u64);
        }
    }
}

// Stores the header from the front of the words.
#[tactic(auto, unfolding(crate::specs::Words::header_words))]
pub fn store_header(header: JobHeader, words: &mut [u64])
    ensures { words.new ≡ sets words.old 0 (header_words header) }
{
    put(words, 0, header.regs as u64);
    put(words, 1, header.classes as u64);
    put(words, 2, header.virt_regs as u64);
    put(words, 3, header.budget as u64);
    store_probe(header.probe, words);
    put(words, 7, 0);
}

// Whether the words of a header or those of the records are too few.
pub fn short_words(words: LentWords<'_>) -> bool
    ensures { result ≡ words_short words.entry.header.now words.entry.records.now }
{
    words.header.len() < 8 || words.records.len() < 512
}
