// The queue of virtual registers that wait for a register (`queue.rs`), as a tournament of 1,024 words: word 512 + v is the key of v plus one,
// or 0 where v does not wait, and each word from 1 to 511 is the greater of the two below it. Plus one, since a key may be 0: number 0 at stage
// Split with no hints and size 0. The loops go by number: a match reads two words and stores a third; and the queue may be short, where of what an
// adapter of `iter_mut`, as `skip`, has lent a proof knows nothing.
#![tactic(auto)]

ghost use Rattle.std.specs.Prelude.{◌≡◌, ◌+◌, ◌*◌, ◌^◌, ◌-◌, ◌≤◌, ◌<◌, min, cond, ltb, get_or};
ghost use Rattle.allocator.specs.Queue.{stage_bit};
ghost use Rattle.queue.specs.QueueWalk.{key_of, decoded, play_at, set_word, first_word, leaves_from, play_from, filled};

use allocator::Stage;

// A number that waits, and at which stage.
#[derive(Clone, Copy)]
pub struct Queued {
    pub number: u16,
    pub stage: Stage,
}

fn stage_bit(stage: Stage) -> u64
    ensures { (result ≡ stage_bit stage) × (result ≤ 2 ^ 63) }
{
    match stage {
        Stage::Evict => 0x8000_0000_0000_0000,
        Stage::Split => 0,
    }
}

fn hint_bit(hints: bool) -> u64
    ensures { (result ≡ cond hints (2 ^ 62) 0) × (result ≤ 2 ^ 62) }
{
    if hints { 0x4000_0000_0000_0000 } else { 0 }
}

fn size_part(size: u32) -> u64
    ensures { (result ≡ min size (2 ^ 27 - 1)) × (result < 2 ^ 27) }
{
    u64::from(size.min(0x7FF_FFFF))
}

// The key of a number: of two that wait, the one with the greater key goes first.
#[tactic(auto, unfolding(crate::specs::QueueWalk::key_of))]
pub fn encode(number: u16, hints: bool, size: u32, stage: Stage) -> u64
    ensures { (result ≡ key_of number hints size stage) × (result < 2 ^ 64 - 1) }
{
    let first = stage_bit(stage) + hint_bit(hints);
    first + size_part(size) * 0x1_0000_0000 + u64::from(number)
}

// What a word of the queue stands for. The words' format is firmware's, and fixed.
#[tactic(auto, unfolding(crate::specs::QueueWalk::decoded))]
fn decode(word: u64) -> Option<Queued>
    ensures { result ≡ decoded word }
{
    if word == 0 {
        return None;
    }
    let number = ((word - 1) % 0x1_0000) as u16;
    let stage = if 0x8000_0000_0000_0000 < word {
        Stage::Evict
    } else {
        Stage::Split
    };
    Some(Queued { number, stage })
}

// Whose turn it is. Nobody's, if nobody waits.
pub fn greatest(queue: &[u64]) -> Option<Queued>
    ensures { result ≡ decoded (get_or queue.now 1 0) }
{
    decode(lent::at(queue, 1))
}

fn leaf(number: u16) -> usize
    ensures { result ≡ 512 + number }
{
    512 + number as usize
}

// Plays the match at word i.
#[tactic(auto, unfolding(crate::specs::QueueWalk::play_at))]
fn play(queue: &mut [u64], i: usize)
    requires { i < 512 }
    ensures { queue.new ≡ play_at queue.old i }
{
    let a = lent::at(queue, 2 * i);
    let b = lent::at(queue, 2 * i + 1);
    lent::put(queue, i, a.max(b));
}

// Stores the word of a number and plays the nine matches above it anew. A number above 511 has no word.
#[tactic(auto, using(crate::proofs::Turns::climb_more, crate::proofs::Turns::climb_end), unfolding(crate::specs::QueueWalk::set_word))]
fn set_word(queue: &mut [u64], number: u16, word: u64)
    ensures { queue.new ≡ set_word number word queue.old }
{
    if 512 <= number {
        return;
    }
    let mut i = leaf(number);
    lent::put(queue, i, word);
    for _ in 0..9u8 {
        i /= 2;
        play(queue, i);
    }
}

// Queues a number, which may be there already, at a stage.
pub fn enqueue(queue: &mut [u64], number: u16, hints: bool, size: u32, stage: Stage)
    ensures { queue.new ≡ set_word number (key_of number hints size stage + 1) queue.old }
{
    set_word(queue, number, encode(number, hints, size, stage) + 1);
}

// Takes a number off the queue, if it is there.
pub fn remove(queue: &mut [u64], number: u16)
    ensures { queue.new ≡ set_word number 0 queue.old }
{
    set_word(queue, number, 0);
}

// Whether a number has hints: they begin before the next one's do.
pub fn has_hints(starts: &[u16], number: u16) -> bool
    ensures { result ≡ ltb (get_or starts.now number 0) (get_or starts.now (number + 1) 0) }
{
    let i = number as usize;
    lent::at(starts, i) < lent::at(starts, i + 1)
}

// The numbers that wait after loading, the job's `count` virtual registers: where the hints of each start, and the size of each.
#[derive(Clone, Copy)]
struct Loaded<'a> {
    count: u16,
    starts: &'a [u16],
    sizes: &'a [u32],
}

impl Loaded<'_> {
    // The word of a number as loading leaves it: each of them waits at stage Evict.
    #[tactic(auto, unfolding(crate::specs::QueueWalk::first_word))]
    fn first_word(self, number: u16) -> u64
        ensures { result ≡ first_word self.entry.count self.entry.starts.now self.entry.sizes.now number }
    {
        if self.count <= number {
            return 0;
        }
        let size = lent::at(self.sizes, number as usize);
        encode(number, has_hints(self.starts, number), size, Stage::Evict) + 1
    }
}

#[tactic(auto, using(crate::proofs::Turns::leaves_more, crate::proofs::Turns::leaves_end))]
fn fill_leaves(queue: &mut [u64], loaded: Loaded<'_>)
    ensures { queue.new ≡ leaves_from (first_word loaded.entry.count loaded.entry.starts.now loaded.entry.sizes.now) 512 0 queue.old }
{
    for number in 0..512 {
        lent::put(queue, leaf(number), loaded.first_word(number));
    }
}

// Plays all matches, the lower ones first.
#[tactic(auto, using(crate::proofs::Turns::plays_more, crate::proofs::Turns::plays_end))]
fn play_all(queue: &mut [u64])
    ensures { queue.new ≡ play_from 511 queue.old }
{
    for i in (1..512).rev() {
        play(queue, i);
    }
}

// Writes the whole queue as loading leaves it: each of the job's `count` virtual registers waits at stage Evict. Its hints are those from
// `starts[number]` on, up to the next one's.
#[tactic(auto, unfolding(crate::specs::QueueWalk::filled))]
pub fn init(queue: &mut [u64], count: u16, starts: &[u16], sizes: &[u32])
    ensures { queue.new ≡ filled (first_word count starts.now sizes.now) queue.old }
{
    let loaded = Loaded {
        count,
        starts,
        sizes,
    };
    fill_leaves(queue, loaded);
    play_all(queue);
    lent::put(queue, 0, 0);
}
