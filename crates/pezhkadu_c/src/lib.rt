// The stage as a static library for firmware: what C and Rust call by these names. Each function calls the one of its name in the crate pezhkadu, and
// promises the same; a refusal is answered by its number, since C reads numbers. The parameters are flat, as the C interface passes numbers and
// slices only.
#![tactic(auto)]

ghost use Rattle.std.specs.Prelude.{◌≡◌};
ghost use Rattle.reg_matrix.specs.Refused.{number_in};

use reg_matrix::Refusal;

pub mod direct;
pub mod loading;
pub mod reading;
pub mod running;

// The number of an answer: 0, or that of the refusal.
fn number(answer: Result<(), Refusal>) -> u64
    ensures { result ≡ number_in answer }
{
    match answer {
        Ok(()) => 0,
        Err(r) => r.number(),
    }
}
