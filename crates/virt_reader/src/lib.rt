// Reading a job: what stands before a virtual register's hints, one hint and one range, from bytes, as the parsers of the crate job say.
#![tactic(auto)]

ghost use Rattle.std.specs.Prelude.{◌≡◌, IfOk, false, not, ◌&&◌, eqb};
ghost use Rattle.job.specs.Load.{hint as hint_of, range as range_of, spill_bits, known as known_of, virt_reg_fields};
ghost use Rattle.job.specs.Parser.{if_bit, little as little_of};
ghost use Rattle.reader.specs.Read.{left, read_view, Num};

use job::{Hint, VirtRegFields};
use reader::read::{Reader, bit};
use reg_matrix::{Refusal, ValueSegment};
use table_words::ranges::range_refusal;

// The next range, of which none may start before `past`, with its value where it has one: a segment has one, and a probe range 0.
#[tactic(auto, unfolding(job::specs::Load::range))]
pub fn range(reader: &mut Reader<'_>, past: u32, valued: bool) -> Result<ValueSegment, Refusal>
    ensures same { reader.new.bytes ≡ reader.old.bytes }
    ensures read { read_view (left reader.new) result ≡ range_of past (if_bit valued 0 (little_of 2)) (left reader.old) }
    ensures bare { IfOk result (λ r. valued ≡ false → r.value ≡ 0) }
{
    let a = reader.little::<4>()?;
    let b = reader.little::<4>()?;
    let x = reader.little_if::<2>(valued)?;
    range_refusal(past, a as u32, b as u32)?;
    Ok(ValueSegment {
        from: a as u32,
        to: b as u32,
        value: x as u16,
    })
}

// The next hint, of one of `regs` registers. The greatest bits of a finite weight are those before infinity's.
#[tactic(auto, unfolding(job::specs::Load::hint))]
pub fn hint(reader: &mut Reader<'_>, regs: u64) -> Result<Hint, Refusal>
    ensures same { reader.new.bytes ≡ reader.old.bytes }
    ensures read { read_view (left reader.new) result ≡ hint_of regs (left reader.old) }
{
    let r = reader.little::<1>()?;
    let w = reader.little::<4>()?;
    if regs <= r {
        return Err(Refusal::UnknownNumber);
    }
    if 0x7F80_0000 <= w {
        return Err(Refusal::BadWeight);
    }
    let hint = Hint {
        reg: r as u8,
        weight: f32::from_bits(w as u32),
    };
    Ok(hint)
}

// The class where its bit stands, and 0 elsewhere.
fn class_field(reader: &mut Reader<'_>, stands: bool, classes: u64) -> Result<u64, Refusal>
    ensures same { reader.new.bytes ≡ reader.old.bytes }
    ensures read { Num (left reader.old) (left reader.new) (if_bit stands 0 (known_of 1 classes)) classes result }
{
    if stands {
        reader.known::<1>(classes)
    } else {
        Ok(0)
    }
}

// The set where its bit stands, and the number of its own elsewhere.
fn set_field(reader: &mut Reader<'_>, stands: bool, own: u16) -> Result<u64, Refusal>
    ensures same { reader.new.bytes ≡ reader.old.bytes }
    ensures read { Num (left reader.old) (left reader.new) (if_bit stands own (known_of 2 512)) 65535 result }
{
    if stands {
        reader.known::<2>(512)
    } else {
        Ok(own as u64)
    }
}

// The bits of a spill weight where its bit stands, and 0 elsewhere. Past infinity's bits are NaN's, then those with a sign.
#[tactic(auto, unfolding(job::specs::Load::spill_bits))]
fn spill_field(reader: &mut Reader<'_>, stands: bool) -> Result<u64, Refusal>
    ensures same { reader.new.bytes ≡ reader.old.bytes }
    ensures read { Num (left reader.old) (left reader.new) (if_bit stands 0 spill_bits) 2139095040 result }
{
    if !stands {
        return Ok(0);
    }
    let v = reader.little::<4>()?;
    if 0x7F80_0000 < v {
        return Err(Refusal::BadWeight);
    }
    Ok(v)
}

// The class is absent, and there is none.
fn no_class(stands: bool, classes: u8) -> bool
    ensures { result ≡ (not stands && eqb classes 0) }
{
    !stands && classes == 0
}

// What stands before the hints of the virtual register `n`.
#[tactic(auto, unfolding(job::specs::Load::virt_reg_fields))]
pub fn virt_fields(reader: &mut Reader<'_>, classes: u8, n: u16) -> Result<VirtRegFields, Refusal>
    ensures same { reader.new.bytes ≡ reader.old.bytes }
    ensures read { read_view (left reader.new) result ≡ virt_reg_fields classes n (left reader.old) }
{
    let m = reader.little::<1>()?;
    if 64 <= m {
        return Err(Refusal::UnfitMap);
    }
    if !bit(m, 5) {
        return Err(Refusal::Empty);
    }
    let has_class = bit(m, 0);
    if no_class(has_class, classes) {
        return Err(Refusal::UnknownNumber);
    }
    let c = class_field(reader, has_class, classes as u64)?;
    let t = set_field(reader, bit(m, 1), n)?;
    let w = spill_field(reader, bit(m, 2))?;
    let z = reader.little_if::<4>(bit(m, 3))?;
    let fields = VirtRegFields {
        map: m as u8,
        class: c as u8,
        value_set: t as u16,
        spill_weight: f32::from_bits(w as u32),
        size: z as u32,
    };
    Ok(fields)
}
