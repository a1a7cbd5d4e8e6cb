// The order of a virtual register's candidates.
ghost use Rattle.order.specs.Marks.{Marked};

use crate::hinted::{HintedRegs, is_in};
use allocator::CandidateReg;

// The hinted candidates, in bit r of the marks whether register r is one of them, and the registers of the class.
#[derive(Clone, Copy)]
pub struct AllocationOrder<'a> {
    pub hinted: &'a [CandidateReg],
    pub marks: u64,
    pub class: &'a [u8],
    pub ghost marked: { Marked marks hinted.now },
}

impl<'a> AllocationOrder<'a> {
    ghost use Rattle.std.specs.Prelude.{◌≡◌, ◌+◌, length};
    ghost use Rattle.allocator.specs.Order.{has_reg, highest_preference};
    ghost use Rattle.order.specs.OrderWalk.{offer_at};
    ghost use Rattle.order.specs.Hinted.{listed, hinted_by};

    // The hinted candidates; then the class.
    pub fn new(class: &'a [u8], hinted: &'a HintedRegs) -> AllocationOrder<'a>
        ensures hinted { hinted_by result ≡ listed hinted.now }
        ensures class { result.class.now ≡ class.now }
    {
        AllocationOrder {
            marks: hinted.marks(),
            hinted: hinted.as_slice(),
            class,
        }
    }

    // How many places the order has.
    pub fn len(&self) -> usize
        ensures { result ≡ length (hinted_by self.now) + length self.now.class.now }
    {
        self.hinted.len() + self.class.len()
    }

    fn is_hinted(&self, reg: u8) -> bool
        ensures { result ≡ has_reg reg (hinted_by self.now) }
    {
        if reg < 64 {
            return (self.marks >> reg) % 2 == 1;
        }
        is_in(self.hinted, reg)
    }

    // The candidate at a place: the hinted ones, then the class with weight 0. There is none where a register of the class was hinted, and none past
    // the end. An iterator is no plainer: one with `impl Iterator` owes laws of its own (`can_next`, `next_gives`, `remaining`), of a chain with a
    // filter the type cannot be written, since the filter is a closure, and what returns an `-> impl Iterator` gets no proof.
    pub fn candidate(&self, place: usize) -> Option<CandidateReg>
        ensures { result ≡ offer_at (hinted_by self.now) self.now.class.now place }
    {
        let n = self.hinted.len();
        if place < n {
            return Some(self.hinted[place]);
        }
        if self.class.len() <= place - n {
            return None;
        }
        let reg = self.class[place - n];
        if self.is_hinted(reg) {
            return None;
        }
        Some(CandidateReg {
            reg,
            preference_weight: 0.0,
        })
    }

    // The weight of the first hinted candidate, or 0.
    pub fn highest_preference(&self) -> f32
        ensures { result ≡ highest_preference (hinted_by self.now) }
    {
        self.hinted.first().map_or(0.0, |c| c.preference_weight)
    }
}
