//! A certified opening whose records are sound.

ghost use Rattle.std.specs.Prelude.{◌≡◌, IsTrue, option_copied};
ghost use Rattle.cn_net.specs.Islands.{label_of};
ghost use Rattle.cn_record.specs.Grouped.{AreIslandPrefixes};
ghost use Rattle.cn_record.specs.Recorded.{IsRecorded, SaysSound};
ghost use Rattle.cn_record.specs.Rows.{AscendsByPair};
ghost use Rattle.cn_record.specs.Said.{island_originates, said_by};

use crate::islands::{IslandPrefix, island_of};
use crate::saved::{Row, Saved};
use cn_base::{Choice, DeviceId, Prefix};
use cn_net::Certified;
use std::marker::Model;

/// A certified opening with rows of its outside devices, which are sound. Contracts see the opening
/// and the rows.
#[derive(Debug, Drop)]
pub struct Recorded {
    certified: Certified,
    saved: Saved,
    prefixes: Vec<IslandPrefix>,
}

impl Model for Recorded {
    ghost use Rattle.cn_record.specs.Recorded.{IsKept, RecordedOpening};

    ghost Value = { RecordedOpening };

    ghost view = { λ r. record { opening = r.certified; rows = r.saved } };

    ghost invariant = { λ r.
        IsKept (record { opening = r.certified; rows = r.saved }) r.prefixes.items };
}

impl Recorded {
    // The opening with these rows, and the prefixes of the islands.
    pub(crate) fn make(certified: Certified, saved: Saved, prefixes: Vec<IslandPrefix>) -> Recorded
        requires sound { SaysSound certified saved }
        requires prefixes { AreIslandPrefixes certified.net
            (label_of certified.labels) prefixes.items }
        ensures { result ≡ record { opening = certified; rows = saved } }
    {
        // These two tell what the types of the parts keep.
        certified.valid();
        let _ = saved.rows();
        Recorded {
            certified,
            saved,
            prefixes,
        }
    }

    /// Does nothing: the records are sound by their type, and a proof that needs to know so cites
    /// this call.
    pub fn valid(&self)
        ensures { IsRecorded self.now }
    {
        let _ = &self.certified;
    }

    /// The certified opening.
    pub fn certified(&self) -> &Certified
        ensures { result.now ≡ self.now.opening }
    {
        &self.certified
    }

    /// All rows, by device, then by prefix.
    pub fn rows(&self) -> &[Row]
        ensures same { result.now ≡ self.now.rows }
        ensures ascending { AscendsByPair self.now.rows }
    {
        self.saved.rows()
    }

    // Holds where the device is of an island that originates the prefix.
    fn is_of_island(&self, device: DeviceId, prefix: &Prefix) -> bool
        ensures { result ≡ island_originates self.now.opening.net
            (label_of self.now.opening.labels) device prefix.now }
    {
        if device.0 >= self.certified.net().count() {
            return false;
        }
        match self.certified.labels().of(device) {
            Some(island) => island_of(&self.prefixes, prefix) == Some(island),
            None => false,
        }
    }

    /// What a device says of a prefix: its row. None comes exactly where there is no such row, or
    /// the device isn't of an island that originates the prefix.
    #[tactic(auto, unfolding(crate::specs::Said::said))]
    pub fn said(&self, device: DeviceId, prefix: &Prefix) -> Option<&Choice>
        ensures { option_copied result ≡ said_by self.now.opening self.now.rows device prefix.now }
    {
        if !self.is_of_island(device, prefix) {
            return None;
        }
        self.saved.find(device, prefix)
    }

    /// The opening and the rows, given back.
    pub fn parts(self) -> (Certified, Saved)
        ensures certified { result.0 ≡ self.opening }
        ensures saved { result.1 ≡ self.rows }
    {
        let Recorded {
            certified,
            saved,
            ..
        } = self;
        (certified, saved)
    }
}
