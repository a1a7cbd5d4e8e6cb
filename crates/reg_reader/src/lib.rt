// Reading a job: its registers and its classes from bytes into lent numbers, as the parsers of the crate job say. The loops go by number: all that
// the bytes should have is read, and what is lent may be shorter.
#![tactic(auto)]

ghost use Rattle.std.specs.Prelude.{◌≡◌, [], ◌+◌, ◌*◌, ◌≤◌, length};
ghost use Rattle.job.specs.Load.{register as register_of, known as known_of, class as class_of};
ghost use Rattle.job.specs.Parser.{each};
ghost use Rattle.reader.specs.Read.{left, Num, Outcome, Counted, Stored, ClassesAt, all_members, table_of};
ghost use Rattle.reg_reader.specs.Classes.{ClassesOut};

use lent::put;
use reader::read::Reader;
use reg_matrix::Refusal;

// The next map of units: of 1 to 4 units.
#[tactic(auto, unfolding(job::specs::Load::register))]
fn register(reader: &mut Reader<'_>) -> Result<u64, Refusal>
    ensures same { reader.new.bytes ≡ reader.old.bytes }
    ensures read { Num (left reader.old) (left reader.new) register_of 18446744073709551615 result }
{
    let m = reader.little::<8>()?;
    if 4 < u64::count_ones(m) {
        return Err(Refusal::OverLimit);
    }
    if m == 0 {
        return Err(Refusal::Empty);
    }
    Ok(m)
}

// The registers, stored from place 0 on.
pub fn registers(reader: &mut Reader<'_>, count: u8, maps: &mut [u64]) -> Result<(), Refusal>
    ensures same { reader.new.bytes ≡ reader.old.bytes }
    ensures read { Outcome (left reader.new) (each (λ before. register_of) count [] (left reader.old)) result (λ ms. Stored (λ x. x) maps.old 0 ms maps.new) }
{
    for i in 0..count as usize {
        let m = register(reader)?;
        put(maps, i, m);
    }
    Ok(())
}

// The next `count` register numbers of one class, stored from place g on.
fn members(
    reader: &mut Reader<'_>,
    count: usize,
    regs: u64,
    g: usize,
    list: &mut [u8],
) -> Result<(), Refusal>
    requires { (g + count ≤ 65536) × (regs ≤ 255) }
    ensures same { reader.new.bytes ≡ reader.old.bytes }
    ensures read { Outcome (left reader.new) (each (λ before. known_of 1 regs) count [] (left reader.old)) result (λ rs. Stored (λ x. x) list.old g rs list.new) }
{
    for i in 0..count {
        let r = reader.known::<1>(regs)?;
        put(list, g + i, r as u8);
    }
    Ok(())
}

// The next class: how many registers it has.
#[tactic(auto, unfolding(job::specs::Load::class))]
fn class(reader: &mut Reader<'_>, regs: u64, g: usize, list: &mut [u8]) -> Result<u64, Refusal>
    requires { (g ≤ 65000) × (regs ≤ 255) }
    ensures same { reader.new.bytes ≡ reader.old.bytes }
    ensures read { Counted (left reader.new) (class_of regs (left reader.old)) length 64 result (λ rs. Stored (λ x. x) list.old g rs list.new) }
{
    let k = reader.count::<1>(true, 64)?;
    members(reader, k as usize, regs, g, list)?;
    Ok(k)
}

// The classes: where each begins and where the last ends, and the registers of all. Answers how many registers all have. Of a job's slices only these
// two are lent, so that the others are as they were without a word: a struct would be no plainer.
pub fn classes(
    reader: &mut Reader<'_>,
    count: u8,
    regs: u8,
    starts: &mut [u16],
    list: &mut [u8],
) -> Result<u64, Refusal>
    ensures same { reader.new.bytes ≡ reader.old.bytes }
    ensures read { Counted (left reader.new) (each (λ before. class_of regs) count [] (left reader.old)) (λ cs. length (all_members cs)) (64 * count) result (ClassesAt starts.old list.old starts.new list.new) }
{
    put(starts, 0, 0);
    let mut g: u64 = 0;
    for i in 0..count as usize {
        let k = class(reader, regs as u64, g as usize, list)?;
        g += k;
        put(starts, i + 1, g as u16);
    }
    Ok(g)
}

// The registers where their bit stands: how many.
// A count and as many, as in `fixed_table` of fixed_reader: a function for both would take a closure with the contract of what it reads and stores,
// which is longer than these lines.
pub fn reg_table(reader: &mut Reader<'_>, stands: bool, maps: &mut [u64]) -> Result<u64, Refusal>
    ensures same { reader.new.bytes ≡ reader.old.bytes }
    ensures read { Counted (left reader.new) (table_of stands 1 64 (λ before. register_of) (left reader.old)) length 64 result (λ ms. Stored (λ x. x) maps.old 0 ms maps.new) }
{
    let k = reader.count::<1>(stands, 64)?;
    registers(reader, k as u8, maps)?;
    Ok(k)
}

// The classes where their bit stands: how many, and how many registers they have.
pub fn class_table(
    reader: &mut Reader<'_>,
    stands: bool,
    regs: u8,
    starts: &mut [u16],
    list: &mut [u8],
) -> Result<(u8, u64), Refusal>
    ensures same { reader.new.bytes ≡ reader.old.bytes }
    ensures read { ClassesOut (left reader.new) (table_of stands 1 16 (λ before. class_of regs) (left reader.old)) result (ClassesAt starts.old list.old starts.new list.new) }
{
    let k = reader.count::<1>(stands, 16)?;
    let g = classes(reader, k as u8, regs, starts, list)?;
    Ok((k as u8, g))
}
