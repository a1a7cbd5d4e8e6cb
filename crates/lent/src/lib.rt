// Reads, stores and parts of lent slices that ask nothing of what is lent: past the end a read gives zero, a store does nothing, and a part that does
// not lie inside is empty. They are the same for numbers of each width and for weights.
#![tactic(auto)]

ghost use Rattle.std.specs.Prelude.{◌≡◌, ◌-◌, get_or, set, replicate, drop};
ghost use Rattle.std.proofs.lemmas.List.Edits.{sets};
ghost use Rattle.lent.specs.Parts.{part, filled};

pub mod zero;

pub use zero::Zero;

// What stands at place i, or zero.
pub fn at<T: Zero>(s: &[T], i: usize) -> T
    ensures { result ≡ get_or s.now i T.zero }
{
    s.get(i).copied().unwrap_or(T::zero())
}

// Stores v at place i, where there is such a place.
pub fn put<T: Copy>(s: &mut [T], i: usize, v: T)
    ensures { s.new ≡ set s.old i v }
{
    if i < s.len() {
        s[i] = v;
    }
}

// Stores v at each place from `from` to the one before `to`. By number, since the slice may end before `to`; and the library's `fill`, of a part of
// it, asks that a clone of v cannot fail, which `Copy` does not say.
pub fn fill<T: Copy>(s: &mut [T], from: usize, to: usize, v: T)
    ensures { s.new ≡ sets s.old from (replicate (to - from) v) }
{
    for i in from..to {
        put(s, i, v);
    }
}

// Zeros from place `from` to the place before `to`.
pub fn pad<T: Zero>(s: &mut [T], from: usize, to: usize)
    ensures { s.new ≡ sets s.old from (replicate (to - from) T.zero) }
{
    fill(s, from, to, T::zero());
}

// Zeros at the first n places.
#[tactic(auto, using(crate::proofs::Laws::all_filled))]
pub fn clear<T: Zero>(s: &mut [T], n: usize)
    ensures { s.new ≡ filled n T.zero s.old }
{
    pad(s, 0, n);
}

// The part from place a up to place b, which it does not have.
#[tactic(auto, unfolding(crate::specs::Parts::part))]
pub fn part<T>(s: &[T], a: usize, b: usize) -> &[T]
    ensures { result.now ≡ part a b s.now }
{
    s.get(a..b).unwrap_or_default()
}

// What stands from place a on.
pub fn from<T>(s: &[T], a: usize) -> &[T]
    ensures { result.now ≡ drop a s.now }
{
    s.get(a..).unwrap_or_default()
}
