// Reading a network sheet: the sections `signals`, `links`, `turns` and `limits`.
ghost use Rattle.std.specs.Prelude.{◌≤◌, length};
ghost use Rattle.records.specs.Sections.{ToldAs, ListedAs, Exactly};
ghost use Rattle.model_sheet.specs.Content.{told_meant, Means};
ghost use Rattle.network.specs.Network.{network};
ghost use Rattle.network_sheet.specs.Network.{signals_section, links_section, turns_section, sections, network_sheet, content};
ghost use Rattle.network_sheet.specs.Says.{Says};

use crate::link::{LinkRecord, SignalRecord};
use crate::turn::TurnRecord;
use limit_sheet::read_limits;
use model_sheet::{ModelRead, ModelSheet};
use network::links::{Link, Turn};
use network::network::Network;
use records::fault::ModelFault;
use records::{Listed, read_section};
use std::alloc::Global;
use words::word::short_enough;

// Each section has a function, since each has a definition of its own that its contract names.

// 1 to 32 junctions.
fn signals_section(heap: Global, bytes: &[u8], at: usize) -> Result<Listed<u8>, ModelFault>
    ensures { ListedAs result (signals_section bytes.now at) }
{
    read_section(heap, &SignalRecord, bytes, at, b"signals", 1, 32)
}

// 1 to 64 links between junctions with these phases.
fn links_section(
    heap: Global,
    bytes: &[u8],
    at: usize,
    phases: &[u8],
) -> Result<Listed<Link>, ModelFault>
    requires { length phases.now ≤ 32 }
    ensures { ListedAs result (links_section bytes.now phases.now at) }
{
    // the cast loses nothing, since there are at most 32 junctions: `try_from` would name an error that never comes
    let kind = LinkRecord {
        phases,
        signals: phases.len() as u32,
    };
    read_section(heap, &kind, bytes, at, b"links", 1, 64)
}

// At most 256 turns between these links.
fn turns_section(
    heap: Global,
    bytes: &[u8],
    at: usize,
    links: &[Link],
) -> Result<Listed<Turn>, ModelFault>
    requires { length links.now ≤ 64 }
    ensures { ListedAs result (turns_section bytes.now links.now at) }
{
    // the cast loses nothing, since there are at most 64 links: `try_from` would name an error that never comes
    let kind = TurnRecord {
        links,
        count: links.len() as u32,
    };
    read_section(heap, &kind, bytes, at, b"turns", 0, 256)
}

// The four sections, one after the other.
fn read_sections(heap: Global, bytes: &[u8]) -> Result<ModelRead<Network>, ModelFault>
    ensures { ToldAs content result (sections bytes.now) }
{
    let signals = signals_section(heap, bytes, 0)?;
    let links = links_section(heap, bytes, signals.end, signals.items.as_slice())?;
    let turns = turns_section(heap, bytes, links.end, links.items.as_slice())?;
    // the cast loses nothing, since there are at most 64 links: `try_from` would name an error that never comes
    let places = links.items.len() as u32;
    let limits = read_limits(heap, bytes, turns.end, places)?;
    let model = Network {
        phases: signals.items,
        links: links.items,
        turns: turns.items,
    };
    Ok(ModelRead {
        model,
        limits: limits.items,
        end: limits.end,
    })
}

// The network and the limits that a sheet says.
pub fn read_network(heap: Global, bytes: &[u8]) -> Result<ModelRead<Network>, ModelFault>
    ensures is { ToldAs content result (network_sheet bytes.now) }
    ensures exact { Exactly content (Says bytes.now) result }
{
    short_enough(bytes)?;
    read_sections(heap, bytes)
}

// The kind of model sheet that says a network.
pub struct NetworkSheet;

impl ModelSheet for NetworkSheet {
    type Made = Network;

    ghost sheet = { λ bs. told_meant network (network_sheet bs) };

    ghost says = { λ bs. Means network (Says bs) };

    #[tactic(auto, using(crate::proofs::Whole::read_meant))]
    fn read(heap: Global, bytes: &[u8]) -> Result<ModelRead<Network>, ModelFault> {
        read_network(heap, bytes)
    }
}
