//! The core of the emulator: emulated devices and static speakers that exchange routes over
//! sessions, as one plain value.
//!
//! Contracts see a `Core` as its recorded opening (a network with its emulated devices, behind a
//! certified boundary, and sound records of the others) and the history of its steps.
//! `specs/State.antt` has the state that stands behind it, `specs/Owed.antt` what a session owes in
//! it, `specs/Start.antt` the start, `specs/Machine.antt` each event's condition and its one
//! result, `specs/Order.antt` what is pending and which event is first, `specs/Pulled.antt` what a
//! pull shows, and `specs/Laws.antt` what holds after every run; `laws` has these as contracts.
//! `specs/Play.antt` says which histories are plays of a script and which answers come along one,
//! whoever makes them; `plays` has the laws of these. A call changes the history and nothing that a
//! contract names beside it. In memory each path is held once, and a route has its id
//! (`specs/Stored.antt`); no contract of a public call speaks of that.
//! What a device offers, accepts and prefers is defined in `cn_net`, and what a speaker says in
//! `cn_record`; what is printed of a history or an answer is left to the crates above.
#![tactic(auto)]

mod answer;
mod best;
mod decision;
mod emulator;
mod engine;
mod event;
mod fits;
pub mod laws;
mod message;
mod owed;
mod pending;
pub mod plays;
mod pull;
mod session;
mod start;

pub use answer::Answer;
pub use emulator::{Core, StepAnswer};
pub use event::{Event, Step};
pub use pull::{DeviceTable, Pull, Tables};
