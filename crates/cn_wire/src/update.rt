//! What an UPDATE message says (RFC 4271, 4.3).

ghost use Rattle.std.specs.Prelude.{◌≡◌, IfOk};

use cn_base::{AsPath, Items, Origin, Prefix};
use std::alloc::{AllocError, Global};

/// The path attributes of the announced prefixes: ORIGIN, AS_PATH and NEXT_HOP (RFC 4271, 5.1.1 to
/// 5.1.3). `next_hop` is an IPv4 address as one number.
#[derive(Debug, Drop)]
pub struct Attrs {
    pub origin: Origin,
    pub path: AsPath,
    pub next_hop: u32,
}

/// What a message says: the prefixes that are withdrawn, and those that are announced with the one
/// set of attributes. Each list may repeat a prefix.
#[derive(Debug, Drop)]
pub struct Update {
    pub withdrawn: Items<Prefix>,
    pub attrs: Option<Attrs>,
    pub announced: Items<Prefix>,
}

impl Attrs {
    /// Equal attributes.
    pub fn copy(&self, alloc: Global) -> Result<Attrs, AllocError>
        ensures { IfOk result (λ attrs. attrs ≡ self.now) }
    {
        Ok(Attrs {
            origin: self.origin,
            path: self.path.copy(alloc)?,
            next_hop: self.next_hop,
        })
    }
}

impl Update {
    /// An equal update.
    pub fn copy(&self, alloc: Global) -> Result<Update, AllocError>
        ensures { IfOk result (λ update. update ≡ self.now) }
    {
        let attrs = match &self.attrs {
            None => None,
            Some(attrs) => Some(attrs.copy(alloc)?),
        };
        Ok(Update {
            withdrawn: copy_of(alloc, &self.withdrawn)?,
            attrs,
            announced: copy_of(alloc, &self.announced)?,
        })
    }
}

// An equal list.
fn copy_of(alloc: Global, prefixes: &Items<Prefix>) -> Result<Items<Prefix>, AllocError>
    ensures { IfOk result (λ copy. copy ≡ prefixes.now) }
{
    Ok(Items::make(Vec::from_slice(alloc, prefixes.items())?))
}
