//! The names by which a plan selects the devices to emulate.

ghost use Rattle.std.specs.Prelude.{◌≡◌, option_map};
ghost use Rattle.toml.specs.View.{view, table_view};
ghost use Rattle.cn_table.specs.Reading.{Reads};
ghost use Rattle.cn_readnet.specs.Plan.{names_in, alone, must_in, emulate_in, selection_at};

use cn_base::{Items, Name};
use cn_table::{NameReader, bad_key_at, bad_shape, each, member};
use cn_text::TextAnswer;
use std::alloc::Global;
use toml::{Table, Value};

/// The names by which a plan selects the devices to emulate, in its order. `Must` names devices
/// from which the emulated ones are grown, and `Emulate` the emulated ones themselves.
#[derive(Debug, Drop)]
pub enum NameSelection {
    Must(Items<Name>),
    Emulate(Items<Name>),
}

#[tactic(auto, unfolding(crate::specs::Plan::names_in))]
fn names_in(alloc: Global, path: &[u8], value: &Value) -> Result<Items<Name>, TextAnswer>
    ensures { Reads result (names_in path.now (view value.now)) }
{
    match value.as_array() {
        None => Err(bad_shape(alloc, path)),
        Some(values) => each(alloc, &NameReader, path, values.as_slice()),
    }
}

fn alone(alloc: Global, emulate: Option<&Value>) -> Result<(), TextAnswer>
    ensures { Reads result (alone (option_map (λ v. view v.now) emulate.entry)) }
{
    match emulate {
        None => Ok(()),
        Some(_) => Err(bad_key_at(alloc, b"", b"emulate")),
    }
}

#[tactic(auto, unfolding(crate::specs::Plan::must_in))]
fn must_in(
    alloc: Global,
    must: &Value,
    emulate: Option<&Value>,
) -> Result<NameSelection, TextAnswer>
    ensures { Reads result (must_in (view must.now) (option_map (λ v. view v.now) emulate.entry)) }
{
    let names = names_in(alloc, b"must", must)?;
    alone(alloc, emulate)?;
    Ok(NameSelection::Must(names))
}

#[tactic(auto, unfolding(crate::specs::Plan::emulate_in))]
fn emulate_in(alloc: Global, emulate: &Value) -> Result<NameSelection, TextAnswer>
    ensures { Reads result (emulate_in (view emulate.now)) }
{
    let names = names_in(alloc, b"emulate", emulate)?;
    Ok(NameSelection::Emulate(names))
}

/// The names in `must` or in `emulate`, of which exactly one is there. Both are `Key` at `emulate`,
/// and neither is `Key` at `must`.
#[tactic(auto, unfolding(crate::specs::Plan::selection_at))]
pub fn selection_at(alloc: Global, table: &Table) -> Result<NameSelection, TextAnswer>
    ensures { Reads result (selection_at (table_view table.now)) }
{
    match (member(table, "must"), member(table, "emulate")) {
        (Some(must), emulate) => must_in(alloc, must, emulate),
        (None, Some(emulate)) => emulate_in(alloc, emulate),
        (None, None) => Err(bad_key_at(alloc, b"", b"must")),
    }
}
