// The part of a slice that is a number's own: `starts` has the place where it begins and, next, the place where it ends. Then such parts of a job's
// slices (job/specs/Layout).
#![tactic(auto)]

pub mod lent_job;

ghost use Rattle.std.specs.Prelude.{◌≡◌};
ghost use Rattle.job.specs.Layout.{lists_in};
ghost use Rattle.job_parts.specs.Shares.{share_of, froms_in, tos_in, values_in, class_in};
ghost use Rattle.job_parts.specs.Lent.{slices_of};

use job::{CLASSES, SEGMENT_STARTS, TOS, VALUES};
use lent::{at, from, part};
use lent_job::LentJob;
use table_words::segments::Segments;

// The part of `all` that is n's own.
#[tactic(auto, unfolding(crate::specs::Shares::share_of))]
pub fn part_of<'a, T>(starts: &[u16], n: u16, all: &'a [T]) -> &'a [T]
    ensures { result.now ≡ share_of starts.now n all.now }
{
    let i = n as usize;
    part(all, at(starts, i) as usize, at(starts, i + 1) as usize)
}

// The segments of v.
pub fn segments_of<'a>(v: u16, job: LentJob<'a>) -> Segments<'a>
    ensures froms { result.froms.now ≡ froms_in (lists_in (slices_of job.entry)) v }
    ensures tos { result.tos.now ≡ tos_in (lists_in (slices_of job.entry)) v }
    ensures values { result.values.now ≡ values_in (lists_in (slices_of job.entry)) v }
{
    let starts = from(job.j16, SEGMENT_STARTS);
    Segments {
        froms: part_of(starts, v, job.j32),
        tos: part_of(starts, v, from(job.j32, TOS)),
        values: part_of(starts, v, from(job.j16, VALUES)),
    }
}

// The registers of the class of v.
pub fn class_of<'a>(v: u16, job: LentJob<'a>) -> &'a [u8]
    ensures { result.now ≡ class_in (lists_in (slices_of job.entry)) v }
{
    let class = at(from(job.j8, CLASSES), v as usize);
    part_of(job.j16, class as u16, job.j8)
}
