//! Counts in slots, with two levels of bits above them, so that the least slot with something is
//! found without a walk over the slots.
//!
//! `words` has a bit for each count and `tops` a bit for each word of these (`bits.rt`). A bit is
//! set where what it stands for isn't 0, so `add` and `sub` look at one count, one word and one top
//! each, and `first` goes over the tops alone: 8 of them for 32,768 slots.

ghost use Rattle.std.specs.Prelude.{◌≡◌, ◌≢◌, ℕ, ◌+◌, ◌-◌, ◌*◌, ◌<◌, IfOk, length, replicate, slice_index, slice_set};
ghost use Rattle.cn_rib.specs.Tally.{first_slot};

use crate::bits::{self, WORD};
use std::alloc::{AllocError, Global};
use std::marker::Model;

/// How much there is in each of a fixed number of slots, which are numbered from 0. Contracts see
/// the list of the counts. No call but `new` takes memory, and a slot takes 16 octets.
#[derive(Drop)]
pub struct Tally {
    counts: Vec<u128>,
    words: Vec<u64>,
    tops: Vec<u64>,
}

impl Model for Tally {
    ghost use Rattle.std.specs.Prelude.{List, ℕ};
    ghost use Rattle.std.specs.Coded.{coded_list, coded_ℕ};
    ghost use Rattle.cn_rib.specs.Tally.{IsLevelled};

    ghost Value = { List ℕ };

    ghost coded = { coded_list coded_ℕ };

    ghost view = { λ t. t.counts.items };

    ghost invariant = { λ t. IsLevelled t.counts.items t.words.items t.tops.items };
}

impl Tally {
    /// So many slots, and nothing in any.
    pub fn new(alloc: Global, slots: u32) -> Result<Tally, AllocError>
        ensures { IfOk result (λ tally. tally ≡ replicate slots 0) }
    {
        let slots = slots as usize;
        let words = slots.div_ceil(WORD);
        let tops = words.div_ceil(WORD);
        Ok(Tally {
            counts: vec![in alloc; 0; slots]?,
            words: vec![in alloc; 0; words]?,
            tops: vec![in alloc; 0; tops]?,
        })
    }

    /// How many slots there are.
    pub fn slots(&self) -> u32
        ensures { result ≡ length self.now }
    {
        self.counts.len() as u32
    }

    /// How much there is in a slot, which must be below `slots`.
    pub fn count(&self, slot: u32) -> u128
        requires { slot < length self.now }
        ensures { result ≡ slice_index self.now slot }
    {
        self.counts[slot as usize]
    }

    /// Sets how much there is in a slot, which must be below `slots`.
    pub fn set(&mut self, slot: u32, count: u128)
        requires { slot < length self.old }
        ensures { self.new ≡ slice_set self.old slot count }
    {
        let slot = slot as usize;
        let was = self.counts[slot];
        self.counts[slot] = count;
        if was == 0 {
            if count != 0 {
                bits::set(&mut self.words, slot);
                bits::set(&mut self.tops, slot / WORD);
            }
        } else if count == 0 {
            bits::clear(&mut self.words, slot);
            if self.words[slot / WORD] == 0 {
                bits::clear(&mut self.tops, slot / WORD);
            }
        }
    }

    /// Adds one to a slot, which must be below `slots` and may not be full.
    pub fn add(&mut self, slot: u32)
        requires there { slot < length self.old }
        requires room { slice_index self.old slot < u128.MAX }
        ensures { self.new ≡ slice_set self.old slot (slice_index self.old slot + 1) }
    {
        self.set(slot, self.count(slot) + 1);
    }

    /// Takes one from a slot, which must be below `slots` and have something.
    pub fn sub(&mut self, slot: u32)
        requires there { slot < length self.old }
        requires some { slice_index self.old slot ≢ 0 }
        ensures { self.new ≡ slice_set self.old slot (slice_index self.old slot - 1) }
    {
        self.set(slot, self.count(slot) - 1);
    }

    /// The least slot that has something. None comes exactly where no slot has.
    pub fn first(&self) -> Option<u32>
        ensures { result ≡ first_slot self.now }
    {
        for (top, bits) in self.tops.iter().enumerate() {
            if *bits != 0 {
                let word = bits::lowest(&self.tops, top);
                let slot = bits::lowest(&self.words, word);
                return Some(slot as u32);
            }
        }
        None
    }
}
