// The records in lent numbers, a word for each: for callers that hold no `Assignment`, as firmware, and for runs, which lend them where 512 records
// would be copied at every call.
#![tactic(auto)]

ghost use Rattle.std.specs.Prelude.{◌≡◌, map, ◌≤◌, length, get_or, set, drop};
ghost use Rattle.std.proofs.lemmas.List.Edits.{sets};
ghost use Rattle.job.specs.Model.{Plain};
ghost use Rattle.allocator.specs.declared.Assignment.TheVariants.{Dead};
ghost use Rattle.records.specs.Fields.{record_weight, weight_in};
ghost use Rattle.record_words.specs.Words.{weight_bits, record_word, record_in, records_in, PlainRecord, AllPlain};

use allocator::Assignment;
use lent::{at, put};
use records::assignment::{held, kind_of, record_by, weight_in};
use std::array;

// The bits of a weight. What is no number has those of 0.
fn weight_bits(w: f32) -> u32
    ensures { (result ≡ weight_bits w) × (Plain w → weight_in result ≡ w) }
{
    if w.is_nan() { 0 } else { w.to_bits() }
}

// The word of a record: what it is, from bit 8 on its register and from bit 16 on the bits of its weight. What is read from it is the record again,
// if its weight is no NaN and carries no sign.
pub fn word_of(a: Assignment) -> u64
    ensures { (result ≡ record_word a) × (PlainRecord a → record_in result ≡ a) }
{
    let kind = kind_of(a) as u64;
    match held(a) {
        Some(c) => weight_bits(c.preference_weight) as u64 * 65536 + c.reg as u64 * 256 + kind,
        None => kind,
    }
}

// The record of a word, in which firmware lends it. Every word has one: what is no word of a record stands for a dead one.
pub fn record_of(word: u64) -> Assignment
    ensures { result ≡ record_in word }
{
    let bits = (word / 65536 % 4294967296) as u32;
    record_by(
        (word % 256) as u8,
        (word / 256 % 256) as u8,
        weight_in(bits),
    )
}

// The record of the number v. Past the 512 there is a dead one.
pub fn record_at(words: &[u64], v: u16) -> Assignment
    ensures { result ≡ get_or (records_in words.now) v Dead }
{
    let i = v as usize;
    if 512 <= i {
        return Assignment::Dead;
    }
    record_of(at(words, i))
}

// Stores the record of the number v. Past the 512 nothing is stored. Read again, it is the record, if all weights are no NaN and carry no sign.
pub fn put_record(words: &mut [u64], v: u16, a: Assignment)
    ensures { (drop 512 words.new ≡ drop 512 words.old) × (AllPlain (set (records_in words.old) v a) → 512 ≤ length words.old → records_in words.new ≡ set (records_in words.old) v a) }
{
    let i = v as usize;
    let word = word_of(a);
    if i < 512 {
        put(words, i, word);
    }
}

// The weight with which the number i holds its register, or 0.
pub fn held_at(words: &[u64], i: usize) -> f32
    ensures { result ≡ record_weight (record_in (get_or words.now i 0)) }
{
    held(record_of(at(words, i))).map_or(0.0, |c| c.preference_weight)
}

// Stores the words of the records, one after another from the front. What there is no room for is not stored. Read again, they are the records, if
// all weights are no NaN and carry no sign.
pub fn store(records: [Assignment; 512], words: &mut [u64])
    ensures words_after { words.new ≡ sets words.old 0 (map record_word records) }
    ensures read_back { AllPlain records → 512 ≤ length words.old → records_in words.new ≡ records }
{
    for (i, record) in records.iter().enumerate() {
        put(words, i, word_of(*record));
    }
}

// The records of the first 512 words. A missing word stands for an unassigned record.
pub fn read(words: &[u64]) -> [Assignment; 512]
    ensures { result ≡ records_in words.now }
{
    array::from_fn(|i| record_of(at(words, i)))
}

// Stores the first 512 words anew, each as the word of the record that it reads as. What is not there is not stored. Read again, they are the same
// records, if all weights are no NaN and carry no sign.
pub fn renew(words: &mut [u64])
    ensures words_after { words.new ≡ sets words.old 0 (map record_word (records_in words.old)) }
    ensures words_unchanged { AllPlain (records_in words.old) → 512 ≤ length words.old → records_in words.new ≡ records_in words.old }
{
    let n = words.len().min(512);
    for word in &mut words[..n] {
        *word = word_of(record_of(*word));
    }
}
