// Reading a job: its fixed reservations from bytes into lent numbers, as the parsers of the crate job say. The loop goes by number: all that the
// bytes should have is read, and what is lent may be shorter.
#![tactic(auto)]

ghost use Rattle.std.specs.Prelude.{◌≡◌, [], length};
ghost use Rattle.job.specs.Load.{fixed_fields, fixed_range, fixed_tests, reservation as reservation_of};
ghost use Rattle.job.specs.Parser.{each};
ghost use Rattle.reader.specs.Read.{left, read_view, use_number, Outcome, Counted, table_of};
ghost use Rattle.fixed_reader.specs.Fixed.{EntryTested, EntryAt, FixedIn, SameFixed};

use job::FixedFields;
use lent::{at, put};
use reader::read::{Reader, bit};
use reg_matrix::{Entry, Refusal, Reservation};

// The fixed reservations of a job to store, a slice for each of their fields: the unit, the start, the end and the use number of each. These are 13
// bytes a reservation; an `Entry` has 20, and a struct with an `Option` of a use's value 16. They are local arrays of the loader: memory is fixed.
#[derive(Drop)]
pub struct LentFixed<'a> {
    pub units: &'a mut [u8],
    pub froms: &'a mut [u32],
    pub tos: &'a mut [u32],
    pub uses: &'a mut [u32],
}

// The first `count` of them to read.
#[derive(Clone, Copy)]
pub struct FixedList<'a> {
    pub units: &'a [u8],
    pub froms: &'a [u32],
    pub tos: &'a [u32],
    pub uses: &'a [u32],
    pub count: usize,
}

impl LentFixed<'_> {
    // The first `count` reservations to read.
    pub fn as_list(&self, count: usize) -> FixedList<'_>
        ensures units { result.units.now ≡ self.now.units.now }
        ensures froms { result.froms.now ≡ self.now.froms.now }
        ensures tos { result.tos.now ≡ self.now.tos.now }
        ensures uses { result.uses.now ≡ self.now.uses.now }
        ensures count { result.count ≡ count }
    {
        FixedList {
            units: self.units,
            froms: self.froms,
            tos: self.tos,
            uses: self.uses,
            count,
        }
    }
}

// The fields of the next fixed reservation.
#[tactic(auto, unfolding(job::specs::Load::fixed_fields))]
fn fixed_fields(reader: &mut Reader<'_>) -> Result<FixedFields, Refusal>
    ensures same { reader.new.bytes ≡ reader.old.bytes }
    ensures read { read_view (left reader.new) result ≡ fixed_fields (left reader.old) }
{
    let m = reader.little::<1>()?;
    let u = reader.little_if::<1>(bit(m, 0))?;
    let a = reader.little_if::<4>(bit(m, 1))?;
    let b = reader.little_if::<4>(bit(m, 2))?;
    let x = reader.little_if::<2>(bit(m, 3))?;
    Ok(FixedFields {
        map: m as u8,
        unit: u as u8,
        from: a as u32,
        to: b as u32,
        value: x as u16,
    })
}

// The tests of a reservation on a unit whose last one ends at `past`; `bad` is 6 of a use's start or a def's end. The tests of any range
// (`range_refusal` of table_words) would answer 7 before 6 of `bad`.
#[tactic(auto, unfolding(job::specs::Load::fixed_range))]
fn fixed_range(past: u32, entry: Entry, bad: bool) -> Result<Entry, Refusal>
    ensures { EntryTested (fixed_range past entry.unit entry.from entry.to entry.reservation bad) result }
{
    if entry.to <= entry.from {
        return Err(Refusal::Empty);
    }
    if entry.from % 4 == 3 || bad {
        return Err(Refusal::BadPoint);
    }
    if entry.from < past {
        return Err(Refusal::Unsorted);
    }
    if 64 <= entry.unit {
        return Err(Refusal::UnknownNumber);
    }
    Ok(entry)
}

// The tests of a reservation's fields. A use that would end past the last point starts in a slot that no use has.
#[tactic(auto, unfolding(job::specs::Load::fixed_tests))]
fn fixed_tests(past: u32, f: FixedFields) -> Result<Entry, Refusal>
    ensures { EntryTested (fixed_tests past f) result }
{
    let has_end = bit(f.map as u64, 2);
    let has_value = bit(f.map as u64, 3);
    if 16 <= f.map || has_end == has_value {
        return Err(Refusal::UnfitMap);
    }
    let def = Entry {
        unit: f.unit,
        from: f.from,
        to: f.to,
        reservation: Reservation::FixedDef,
    };
    if has_end {
        return fixed_range(past, def, f.to % 4 != 0);
    }
    if 4294967294 <= f.from {
        return Err(Refusal::BadPoint);
    }
    let fixed_use = Entry {
        unit: f.unit,
        from: f.from,
        to: f.from + 2,
        reservation: Reservation::FixedUse(f.value),
    };
    fixed_range(past, fixed_use, f.from % 4 != 0)
}

// The next fixed reservation, where the units' last reservations end at `ends`.
#[tactic(auto, unfolding(reader::specs::Read::reservation_after))]
fn reservation(reader: &mut Reader<'_>, ends: &[u32]) -> Result<Entry, Refusal>
    ensures same { reader.new.bytes ≡ reader.old.bytes }
    ensures read { EntryAt (left reader.old) (left reader.new) ends.now result }
{
    let f = fixed_fields(reader)?;
    fixed_tests(at(ends, f.unit as usize), f)
}

// A fixed use's value and 1; 0 for any other reservation: what stands of a reservation in the slice of use numbers. An `Option` of the value would
// be no smaller, and the definitions go by this number (`reserving` of entries, `crosses` of job_tests), as do total reads: 0 past a slice's end.
fn use_number(k: Reservation) -> u32
    ensures { result ≡ use_number k }
{
    match k {
        Reservation::FixedUse(x) => x as u32 + 1,
        Reservation::FixedDef | Reservation::Held(_, _) => 0,
    }
}

// The fixed reservations, stored from place 0 on.
pub fn reservations(
    reader: &mut Reader<'_>,
    count: u16,
    fixed: &mut LentFixed<'_>,
) -> Result<(), Refusal>
    ensures same { SameFixed fixed.old fixed.new × (reader.new.bytes ≡ reader.old.bytes) }
    ensures read { Outcome (left reader.new) (each reservation_of count [] (left reader.old)) result (FixedIn fixed.old fixed.new) }
{
    let mut ends = [0u32; 64];
    for i in 0..count as usize {
        let e = reservation(reader, &ends)?;
        put(&mut ends, e.unit as usize, e.to);
        put(fixed.units, i, e.unit);
        put(fixed.froms, i, e.from);
        put(fixed.tos, i, e.to);
        put(fixed.uses, i, use_number(e.reservation));
    }
    Ok(())
}

// The fixed reservations where their bit stands: how many.
// A count and as many, as in `reg_table` of reg_reader: a function for both would take a closure with the contract of what it reads and stores,
// which is longer than these lines.
pub fn fixed_table(
    reader: &mut Reader<'_>,
    stands: bool,
    fixed: &mut LentFixed<'_>,
) -> Result<u64, Refusal>
    ensures same { SameFixed fixed.old fixed.new × (reader.new.bytes ≡ reader.old.bytes) }
    ensures read { Counted (left reader.new) (table_of stands 2 512 reservation_of (left reader.old)) length 512 result (FixedIn fixed.old fixed.new) }
{
    let k = reader.count::<2>(stands, 512)?;
    reservations(reader, k as u16, fixed)?;
    Ok(k)
}
