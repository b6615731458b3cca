//! The one edge of the project: what a program reads and writes.
//!
//! A `Shelf` holds texts under names, as files are, and an `Out` takes the bytes that a program
//! prints. The crates above take a shelf and an out side by side by these two traits, and cite in
//! their contracts what is seen of each: `Files` and `Printed` of `specs/Shelf.antt`, and both
//! together as a `Scene` (`specs/Scene.antt`). Want of memory has an answer of its own, and leaves
//! what is seen as it was.
//!
//! What is told: of each name of a shelf that nothing is told, that it holds nothing, or what it
//! holds; of an out either all that it has taken, or nothing. What is counted, of every shelf and
//! every out: by name the reads that were answered, those that failed, the writes that were done
//! and those that failed, and the puts that were done and those that failed. Each call raises one
//! of these counts by one, so a contract above can say which calls were made, that none was made
//! again, and that a fault of reading or writing is answered only where one came.
//!
//! `MemoryShelf` and `MemoryOut` tell what they hold, and their calls can be made to fail by
//! number; `SureShelf` and `SureOut` tell what they hold, and no call fails but a read of a name
//! that isn't held. `HostShelf` and `HostOut` are the host's files and standard output, of whose
//! content nothing is told; what is proved of them is how they read and write, by `read_all` and
//! `write_through`, which go over any reader and any writer. Each shelf keeps its calls in a
//! `Calls`, whose place is taken before the call is made, so that noting a call never wants memory.
#![tactic(auto)]

mod calls;
mod host;
mod loops;
mod memory;
mod outside;
mod replace;
mod sure;

pub use calls::{Call, CallKind, Calls};
pub use host::{HostOut, HostShelf};
pub use loops::{read_all, write_through};
pub use memory::{MemoryOut, MemoryShelf, Trip};
pub use outside::{Out, ReadAnswer, Shelf, WriteAnswer};
pub use sure::{SureOut, SureShelf};
