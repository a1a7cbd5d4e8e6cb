// The tests of a whole job, over its decoded numbers: 10, 11 and 12 (document 01). Places are compared by total reads, so that nothing is asked
// of the slices.
ghost use Rattle.std.specs.Prelude.{◌≡◌, ℕ, ◌+◌, ◌-◌, ◌^◌, ◌<◌, Bool, ◌||◌, get_or};
ghost use Rattle.reg_matrix.specs.Lists.{any, any_pair, count};
ghost use Rattle.reg_matrix.specs.Refused.{number_in};
ghost use Rattle.job_parts.specs.Lent.{slices_of};
ghost use Rattle.job_tests.specs.Tests.{equal_at, member_twice, classes_differ, crosses, crosses_at, whole_number, job_refusal};

use fixed_reader::FixedList;
use job::{CLASSES, JobHeader, SETS, TOS, VALUES};
use job_parts::lent_job::LentJob;
use lent::{at, from};
use reg_matrix::{Refusal, ValueSegment};
use table_words::segments::{SegmentList, Segments};

// Whether a place from `from` to the one before `to` passes the test.
fn any_place<F: Fn(usize) -> bool>(from: usize, to: usize, test: F) -> bool
    requires { (k : ℕ) → k < to → F.pre test k }
    ensures { (p : ℕ → Bool) → ((k : ℕ) (b : Bool) → F.post test k b → b ≡ p k) → result ≡ any p (count from (to - from)) }
{
    (from..to).any(
        |k: usize| -> bool
            requires { F.pre test k }
            ensures { F.post test k result }
        { test(k) },
    )
}

// Whether two places from `from` to the one before `to`, the earlier first, pass the test.
fn any_two_places<F: Fn(usize, usize) -> bool>(from: usize, to: usize, test: F) -> bool
    requires { (i k : ℕ) → F.pre test i k }
    ensures { (p : ℕ → ℕ → Bool) → ((i k : ℕ) (b : Bool) → F.post test i k b → b ≡ p i k) → result ≡ any_pair p (count from (to - from)) }
{
    any_place(
        from,
        to,
        |i: usize| -> bool
            requires { (i + 1 < 2 ^ 64) × ((k : ℕ) → F.pre test i k) }
            ensures { (p : ℕ → ℕ → Bool) → ((i k : ℕ) (b : Bool) → F.post test i k b → b ≡ p i k) → result ≡ any (p i) (count (i + 1) (to - (i + 1))) }
        {
            any_place(
                i + 1,
                to,
                |k: usize| -> bool
                    requires { F.pre test i k }
                    ensures { F.post test i k result }
                { test(i, k) },
            )
        },
    )
}

// Two of the first n registers have the same map of units.
pub fn same_map(maps: &[u64], n: usize) -> bool
    ensures { result ≡ any_pair (equal_at maps.now) (count 0 n) }
{
    any_two_places(
        0,
        n,
        |i: usize, k: usize| -> bool
            ensures { result ≡ equal_at maps.entry.now i k }
        { at(maps, i) == at(maps, k) },
    )
}

// A number stands at two places from `from` to the one before `to`. One function with `same_map` would be no plainer: `==` of any type promises that
// type's own equality, and `equal_at` is that of numbers.
fn number_repeats(list: &[u8], from: usize, to: usize) -> bool
    ensures { result ≡ any_pair (equal_at list.now) (count from (to - from)) }
{
    any_two_places(
        from,
        to,
        |i: usize, k: usize| -> bool
            ensures { result ≡ equal_at list.entry.now i k }
        { at(list, i) == at(list, k) },
    )
}

// One of the first n classes has a register twice.
pub fn register_repeats(starts: &[u16], list: &[u8], n: usize) -> bool
    ensures { result ≡ any (member_twice starts.now list.now) (count 0 n) }
{
    any_place(
        0,
        n,
        |c: usize| -> bool
            requires { c + 1 < 2 ^ 64 }
            ensures { result ≡ member_twice starts.entry.now list.entry.now c }
        { number_repeats(list, at(starts, c) as usize, at(starts, c + 1) as usize) },
    )
}

// Two of the first n virtual registers are in one set and differ in class.
pub fn set_differs(classes: &[u8], groups: &[u16], n: usize) -> bool
    ensures { result ≡ any_pair (classes_differ classes.now groups.now) (count 0 n) }
{
    any_two_places(
        0,
        n,
        |i: usize, k: usize| -> bool
            ensures { result ≡ classes_differ classes.entry.now groups.entry.now i k }
        { at(groups, i) == at(groups, k) && at(classes, i) != at(classes, k) },
    )
}

// The segment crosses the start or the end of a fixed use, where u is the use's number.
fn crosses_use(u: u32, a: u32, b: u32, segment: ValueSegment) -> bool
    ensures { result ≡ crosses (segment.value + 1) segment.from segment.to a b u }
{
    u == segment.value as u32 + 1
        && (a < segment.from && segment.from < b || a < segment.to && segment.to < b)
}

// The segment crosses one of the fixed reservations.
fn crosses_one(fixed: FixedList<'_>, segment: ValueSegment) -> bool
    ensures { result ≡ any (λ k. crosses (segment.value + 1) segment.from segment.to (get_or fixed.entry.froms.now k 0) (get_or fixed.entry.tos.now k 0) (get_or fixed.entry.uses.now k 0)) (count 0 fixed.entry.count) }
{
    any_place(
        0,
        fixed.count,
        |k: usize| -> bool
            ensures { result ≡ crosses (segment.value + 1) segment.from segment.to (get_or fixed.entry.froms.now k 0) (get_or fixed.entry.tos.now k 0) (get_or fixed.entry.uses.now k 0) }
        {
            crosses_use(
                at(fixed.uses, k),
                at(fixed.froms, k),
                at(fixed.tos, k),
                segment,
            )
        },
    )
}

// One of the first m segments crosses one of the fixed reservations. What is read past a list's end is 0, so that m may be more than its segments.
pub fn use_crossed(segments: Segments<'_>, m: usize, fixed: FixedList<'_>) -> bool
    ensures { result ≡ any (crosses_at segments.entry.froms.now segments.entry.tos.now segments.entry.values.now fixed.entry.froms.now fixed.entry.tos.now fixed.entry.uses.now fixed.entry.count) (count 0 m) }
{
    any_place(
        0,
        m,
        |i: usize| -> bool
            ensures { result ≡ crosses_at segments.entry.froms.now segments.entry.tos.now segments.entry.values.now fixed.entry.froms.now fixed.entry.tos.now fixed.entry.uses.now fixed.entry.count i }
        { crosses_one(fixed, segments.segment(i)) },
    )
}

// The first of the tests 10, 11 and 12 that refuses these lists: the registers' maps of units; where each class starts and its members; each virtual
// register's class and set; the first m segments; and the fixed reservations. How many of the others there are, the header says. Any lists will do.
pub fn lists_refusal(
    maps: &[u64],
    firsts: &[u16],
    members: &[u8],
    classes: &[u8],
    groups: &[u16],
    header: JobHeader,
    segments: Segments<'_>,
    m: usize,
    fixed: FixedList<'_>,
) -> Result<(), Refusal>
    ensures { number_in result ≡ whole_number (any_pair (equal_at maps.now) (count 0 header.regs) || any (member_twice firsts.now members.now) (count 0 header.classes)) (any_pair (classes_differ classes.now groups.now) (count 0 header.virt_regs)) (any (crosses_at segments.entry.froms.now segments.entry.tos.now segments.entry.values.now fixed.entry.froms.now fixed.entry.tos.now fixed.entry.uses.now fixed.entry.count) (count 0 m)) }
{
    if same_map(maps, header.regs as usize)
        || register_repeats(firsts, members, header.classes as usize)
    {
        return Err(Refusal::Twin);
    }
    if set_differs(classes, groups, header.virt_regs as usize) {
        return Err(Refusal::MixedSet);
    }
    if use_crossed(segments, m, fixed) {
        return Err(Refusal::CutUse);
    }
    Ok(())
}

// The same of the decoded job, of m segments, with its fixed reservations, which stand in slices of their own. Job and header are not yet a
// `LoadedJob`, which is one that has passed these tests.
#[tactic(auto, unfolding(crate::specs::Tests::job_refusal))]
pub fn whole_refusal(
    job: LentJob<'_>,
    header: JobHeader,
    m: usize,
    fixed: FixedList<'_>,
) -> Result<(), Refusal>
    ensures { number_in result ≡ job_refusal (slices_of job.entry) header m fixed.entry.froms.now fixed.entry.tos.now fixed.entry.uses.now fixed.entry.count }
{
    let segments = Segments {
        froms: job.j32,
        tos: from(job.j32, TOS),
        values: from(job.j16, VALUES),
    };
    let (classes, groups) = (from(job.j8, CLASSES), from(job.j16, SETS));
    lists_refusal(
        job.j64, job.j16, job.j8, classes, groups, header, segments, m, fixed,
    )
}
