//! What is pending, and which event comes first in the serial order.

ghost use Rattle.std.specs.Prelude.{◌≡◌, ◌<◌, IfSome, Some, option_copied, option_map};
ghost use Rattle.std.specs.List.{find};
ghost use Rattle.cn_net.specs.Network.{IsDevice, device_ids};
ghost use Rattle.cn_core.specs.Owed.{owes};
ghost use Rattle.cn_core.specs.OwedLists.{has_dirty};
ghost use Rattle.cn_rib.specs.PrefixSet as set;
ghost use Rattle.cn_core.specs.Order.{device_event, first_event, first_pending, has_mail, standing};
ghost use Rattle.cn_core.specs.Whole.{ArePlacesOf};
ghost use Rattle.cn_core.specs.State.{rib};
ghost use Rattle.cn_core.specs.Stored.{session_under, stands_for};

use crate::engine::Engine;
use crate::event::Event;
use crate::session::Session;
use cn_base::{DeviceId, Prefix, Standing};
use std::ops::Range;

impl Engine {
    // The first session with mail.
    fn with_mail(&self) -> Option<&Session>
        ensures { option_map (session_under self.now.pool) (option_copied result)
            ≡ find has_mail (stands_for self.now).sessions }
    {
        let at = self.in_mail.first()?;
        Some(&self.sessions[at as usize])
    }

    // The first session that owes something.
    fn debtor(&self) -> Option<&Session>
        ensures { option_map (session_under self.now.pool) (option_copied result)
            ≡ find (owes (stands_for self.now)) (stands_for self.now).sessions }
    {
        let at = self.in_lists.first()?;
        Some(&self.sessions[at as usize])
    }

    // The first device with a dirty prefix.
    fn first_dirty(&self) -> Option<DeviceId>
        ensures { result ≡ find (has_dirty (stands_for self.now)) (device_ids self.now.now.net) }
    {
        let device = self.in_ribs.first()?;
        Some(DeviceId(device))
    }

    /// The places of the sessions from a device, which stand together: the first of them, and the
    /// one behind the last.
    pub fn places_from(&self, device: DeviceId) -> (usize, usize)
        ensures { ArePlacesOf device (stands_for self.now).sessions result.0 result.1 }
    {
        let Range { start, end } = self.index.from(device);
        (start, end)
    }

    // The least dirty prefix of a device.
    fn least_dirty(&self, device: DeviceId) -> Option<Prefix>
        requires { IsDevice self.now.now.net device }
        ensures { result ≡ set.least (rib (stands_for self.now) device).dirty }
    {
        self.rib(device).dirty.first()
    }

    // The first pending device: one with a dirty prefix, or one that owes.
    fn first_pending(&self) -> Option<DeviceId>
        ensures within { IfSome result (λ d. IsDevice self.now.now.net d) }
        ensures first { result ≡ first_pending (stands_for self.now) }
    {
        let _ = &self.certified;
        match (self.first_dirty(), self.debtor()) {
            (Some(device), Some(session)) => {
                let from = session.from;
                if from.0 < device.0 {
                    return Some(from);
                }
                Some(device)
            }
            (Some(device), None) => Some(device),
            (None, Some(session)) => Some(session.from),
            (None, None) => None,
        }
    }

    /// What is pending first.
    pub fn standing(&self) -> Standing
        ensures { result ≡ standing (stands_for self.now) }
    {
        if let Some(session) = self.with_mail() {
            return Standing::Mailbox {
                from: session.from,
                to: session.to,
            };
        }
        match self.first_pending() {
            Some(device) => Standing::Device { device },
            None => Standing::Quiet,
        }
    }

    // The first event of the first pending device.
    fn device_event(&self, device: DeviceId) -> Option<Event>
        requires there { IsDevice self.now.now.net device }
        requires first { first_pending (stands_for self.now) ≡ Some device }
        ensures { let s = stands_for self.now in
            result ≡ device_event s device (set.least (rib s device).dirty) }
    {
        if let Some(prefix) = self.least_dirty(device) {
            return Some(Event::Decide { device, prefix });
        }
        let _ = &self.certified;
        let session = self.debtor()?;
        Some(Event::Send {
            from: session.from,
            to: session.to,
        })
    }

    /// The first event in the serial order. None comes exactly where the state is quiet.
    #[tactic(auto, unfolding(crate::specs::Order::first_event))]
    pub fn first(&self) -> Option<Event>
        ensures { result ≡ first_event (stands_for self.now) }
    {
        if let Some(session) = self.with_mail() {
            return Some(Event::Receive {
                from: session.from,
                to: session.to,
            });
        }
        let device = self.first_pending()?;
        self.device_event(device)
    }
}
