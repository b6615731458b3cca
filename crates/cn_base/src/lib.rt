//! The values that every other crate speaks of: device numbers, AS numbers, router ids, ORIGIN
//! codes, prefixes and the entries of prefix lists, names, paths, routes with their attributes and
//! ranks, tables, the standing of an emulation, and one list type for the lists inside public
//! types.
//!
//! The crates above see a `Prefix` as a `Cidr` of its bits and length, an `Entry` as an
//! `EntryValue`, a `Name` as its octets, an `AsPath` as the list of its numbers, a `Table` as the
//! list of its rows and an `Items` as the list of its items. RFC 4271, sections 4.2, 4.3, 5.1.1 and
//! 5.1.2, has the values, and 9.1.2.2 the order of ranks, which is `rank_cmp` of `specs/Rank.antt`.
//! The choice between routes is left to `cn_decide`, and lists of entries to `cn_plist`.
#![tactic(auto)]

mod entry;
mod ids;
mod items;
pub mod laws;
mod name;
mod path;
mod prefix;
mod rank;
mod route;
mod standing;
mod table;

pub use entry::Entry;
pub use ids::{Asn, DeviceId, Origin, RouterId};
pub use items::Items;
pub use name::Name;
pub use path::AsPath;
pub use prefix::Prefix;
pub use rank::Rank;
pub use route::{Attributes, Choice, Route};
pub use standing::Standing;
pub use table::{Table, TableRow};
