//! The core: its state is that of its own history.

ghost use Rattle.std.specs.Prelude.{◌≡◌, ◌↔◌, [], IfErr, IfOk, None, OnErr, OnOk};
ghost use Rattle.cn_core.specs.Laws.{IsCarried, IsKept};
ghost use Rattle.cn_core.specs.Log.{CanStep, IsRefusal, Log as LogValue, now, then};
ghost use Rattle.cn_core.specs.Machine.{IsRun};
ghost use Rattle.cn_core.specs.Order.{IsQuiet, first_event, standing};
ghost use Rattle.cn_core.specs.Pulled.{IsPulled};

use crate::engine::Engine;
use crate::event::{Event, Step};
use crate::fits::numbers_fit;
use crate::pull::Pull;
use crate::start::{Opened, open};
use cn_base::Standing;
use cn_net::{DeviceSet, Net};
use cn_record::Recorded;
use std::alloc::{AllocError, Global};
use std::marker::Model;
use std::snapshot::Snapshot;

/// Why an event did not happen.
#[derive(Clone, Copy, Debug, PartialEq, Eq)]
pub enum StepAnswer {
    /// The event isn't enabled in the state now.
    NotEnabled,
    /// Memory is short.
    Memory,
}

/// A network with its emulated devices and its speakers, the steps so far, and the state to which
/// they led. Contracts see the recorded opening and the history; the state is what they say that it
/// is.
#[derive(Drop)]
pub struct Core {
    recorded: Snapshot<Recorded>,
    emulated: DeviceSet,
    engine: Engine,
    history: Vec<Step>,
}

impl Model for Core {
    ghost use Rattle.std.specs.Prelude.{◌≡◌};
    ghost use Rattle.cn_core.specs.Log.{IsState, Log};
    ghost use Rattle.cn_core.specs.LogCode.{log_code};
    ghost use Rattle.cn_core.specs.Stored.{stands_for};

    ghost Value = { Log };

    ghost coded = { log_code };

    ghost view = { λ c. record { recorded = c.recorded.value; history = c.history.items } };

    ghost invariant = { λ c. IsState c.recorded.value c.history.items (stands_for c.engine)
        × (c.emulated ≡ c.recorded.value.opening.emulated) };
}

impl Core {
    /// The core at the start: the emulated devices, and a static speaker in place of each other
    /// device, which says what is recorded of it for the prefixes of its island and takes in
    /// nothing. The opening is handed back for want of memory alone.
    pub fn start(alloc: Global, recorded: Recorded) -> Result<Core, Recorded>
        ensures ok { IfOk result (λ core. core ≡ record { recorded = recorded; history = [] }) }
        ensures err { IfErr result (λ back. back ≡ recorded) }
    {
        recorded.valid();
        numbers_fit(&recorded);
        let opening = Snapshot::of(&recorded);
        match open(alloc, recorded) {
            Ok(opened) => {
                let Opened { engine, emulated } = opened;
                Ok(Core {
                    recorded: opening,
                    emulated,
                    engine,
                    history: Vec::new(alloc),
                })
            }
            Err(recorded) => Err(recorded),
        }
    }

    /// One event (RFC 4271, 9). One that isn't enabled never happens, and `NotEnabled` comes for
    /// such a one alone. After every error the core is as before.
    pub fn step(&mut self, alloc: Global, event: Event) -> Result<(), StepAnswer>
        ensures enabled { OnOk result (CanStep self.old event) }
        ensures ok { OnOk result (self.new ≡ then self.old (Step.Work event)) }
        ensures refused { IfErr result (IsRefusal self.old event) }
        ensures err { OnErr result (self.new ≡ self.old) }
    {
        if !self.engine.can(&event) {
            return Err(StepAnswer::NotEnabled);
        }
        if self.history.reserve(1).is_err() {
            return Err(StepAnswer::Memory);
        }
        if self.engine.apply(alloc, &event).is_err() {
            return Err(StepAnswer::Memory);
        }
        self.history.push_reserved(Step::Work(event));
        Ok(())
    }

    /// The mark behind command `k`: nothing but the history changes. The error is want of memory,
    /// after which the core is as before.
    pub fn mark(&mut self, k: u32) -> Result<(), AllocError>
        ensures ok { OnOk result (self.new ≡ then self.old (Step.Mark k)) }
        ensures err { OnErr result (self.new ≡ self.old) }
    {
        // The borrow checker wants to see the type that a step may hold.
        let _: Option<&Event> = None;
        self.history.reserve(1)?;
        self.history.push_reserved(Step::Mark { k });
        Ok(())
    }

    /// The first event in the serial order. None comes exactly where the state is quiet. It takes
    /// no memory.
    pub fn first(&self) -> Option<Event>
        ensures event { result ≡ first_event (now self.now) }
        ensures none { (result ≡ None) ↔ IsQuiet (now self.now) }
        ensures kept { IsKept self.now.recorded (now self.now) }
    {
        self.engine.first()
    }

    /// What is pending first. It takes no memory.
    pub fn standing(&self) -> Standing
        ensures { result ≡ standing (now self.now) }
    {
        self.engine.standing()
    }

    /// The tables of the emulated devices exactly where the state is quiet, and they are then those
    /// of the one stable state of the whole network, over all devices and without speakers; and
    /// else what is pending first, a speaker's message too. The error is want of memory.
    pub fn pull(&self, alloc: Global) -> Result<Pull, AllocError>
        ensures { IfOk result (λ pull. IsPulled self.now pull) }
    {
        match self.standing() {
            Standing::Quiet => Ok(Pull::Quiet {
                tables: self.engine.tables(alloc, &self.emulated)?,
            }),
            standing => Ok(Pull::Again { standing }),
        }
    }

    /// The steps so far. Each event was enabled where it happened, and each message was read back
    /// as the update that it spells.
    pub fn history(&self) -> &[Step]
        ensures same { result.now ≡ self.now.history }
        ensures run { IsRun self.now.recorded self.now.history }
        ensures carried { IsCarried (now self.now) }
    {
        &self.history
    }

    /// The network now.
    pub fn net(&self) -> &Net
        ensures net { result.now ≡ (now self.now).now.net }
        ensures kept { IsKept self.now.recorded (now self.now) }
    {
        self.engine.certified.net()
    }
}
