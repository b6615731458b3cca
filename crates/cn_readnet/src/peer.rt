//! The peers of a device, and the policies for them, as they are written.

ghost use Rattle.std.specs.Prelude.{◌≡◌};
ghost use Rattle.toml.specs.View.{view, table_view};
ghost use Rattle.cn_table.specs.Reading.{Reads};
ghost use Rattle.cn_readnet.specs.Plan.{entry_in, list_at, only_peer_keys, peer_in, peer_of, peers_at, policy_in, prepend_at};

use crate::entry::entry_of;
use cn_base::{Entry, Items};
use cn_net::{PeerDraft, Policy};
use cn_plist::PrefixList;
use cn_table::{
    Reader, array_at, bad_shape, bad_shape_at, bad_value, each, front_of, key_path, member,
    name_at, number_at, only, table_of,
};
use cn_text::TextAnswer;
use std::alloc::Global;
use toml::{Table, Value};

struct EntryReader;

impl Reader for EntryReader {
    type Item = Entry;

    ghost reads = { λ _. entry_in };

    #[tactic(auto, unfolding(crate::specs::Plan::entry_in))]
    fn read(&self, alloc: Global, path: &[u8], value: &Value) -> Result<Entry, TextAnswer> {
        match value.as_str() {
            None => Err(bad_shape(alloc, path)),
            Some(text) => match entry_of(text.as_bytes()) {
                Some(entry) => Ok(entry),
                None => Err(bad_value(alloc, path)),
            },
        }
    }
}

/// The prefix list at a key. An absent key is none, which is another thing than an empty list.
#[tactic(auto, unfolding(crate::specs::Plan::list_at))]
fn list_at(
    alloc: Global,
    front: &[u8],
    key: &str,
    table: &Table,
) -> Result<Option<PrefixList>, TextAnswer>
    ensures { Reads result (list_at front.now key.now (table_view table.now)) }
{
    let Some(value) = member(table, key) else {
        return Ok(None);
    };
    let Some(values) = value.as_array() else {
        return Err(bad_shape_at(alloc, front, key.as_bytes()));
    };
    let path = key_path(alloc, front, key.as_bytes())?;
    let entries = each(alloc, &EntryReader, &path, values.as_slice())?;
    Ok(Some(PrefixList::make(entries.into_vec())))
}

/// How many more copies of its AS number than one a device puts in front.
#[tactic(auto, unfolding(crate::specs::Plan::prepend_at))]
fn prepend_at(alloc: Global, front: &[u8], table: &Table) -> Result<u8, TextAnswer>
    ensures { Reads result (prepend_at front.now (table_view table.now)) }
{
    match member(table, "prepend") {
        None => Ok(0),
        Some(_) => {
            let copies = number_at(alloc, 0, 254, front, "prepend", table)?;
            Ok(copies as u8)
        }
    }
}

/// The policy for a peer.
#[tactic(auto, unfolding(crate::specs::Plan::policy_in))]
fn policy_in(alloc: Global, front: &[u8], table: &Table) -> Result<Policy, TextAnswer>
    ensures { Reads result (policy_in front.now (table_view table.now)) }
{
    let import = list_at(alloc, front, "import", table)?;
    let export = list_at(alloc, front, "export", table)?;
    let prepend = prepend_at(alloc, front, table)?;
    Ok(Policy {
        import,
        export,
        prepend,
    })
}

#[tactic(auto, unfolding(crate::specs::Plan::only_peer_keys))]
fn only_peer_keys(alloc: Global, front: &[u8], table: &Table) -> Result<(), TextAnswer>
    ensures { Reads result (only_peer_keys front.now (table_view table.now)) }
{
    let keys = ["name", "import", "export", "prepend"];
    only(alloc, front, &keys, table)
}

#[tactic(auto, unfolding(crate::specs::Plan::peer_in))]
fn peer_in(alloc: Global, front: &[u8], table: &Table) -> Result<PeerDraft, TextAnswer>
    ensures { Reads result (peer_in front.now (table_view table.now)) }
{
    let name = name_at(alloc, front, "name", table)?;
    let policy = policy_in(alloc, front, table)?;
    only_peer_keys(alloc, front, table)?;
    Ok(PeerDraft { name, policy })
}

struct PeerReader;

impl Reader for PeerReader {
    type Item = PeerDraft;

    ghost reads = { λ _. peer_of };

    #[tactic(auto, unfolding(crate::specs::Plan::peer_of))]
    fn read(&self, alloc: Global, path: &[u8], value: &Value) -> Result<PeerDraft, TextAnswer> {
        let table = table_of(alloc, path, value)?;
        let front = front_of(alloc, path)?;
        peer_in(alloc, &front, table)
    }
}

/// The peers of a device, in the plan's order.
#[tactic(auto, unfolding(crate::specs::Plan::peers_at))]
pub fn peers_at(alloc: Global, front: &[u8], table: &Table) -> Result<Items<PeerDraft>, TextAnswer>
    ensures { Reads result (peers_at front.now (table_view table.now)) }
{
    let values = array_at(alloc, front, "peer", table)?;
    let path = key_path(alloc, front, b"peer")?;
    each(alloc, &PeerReader, &path, values)
}
