// Areas over both streets and both models, made from sheets.
use area::area::Area;
use linear::linear::Linear;
use linear_sheet::read::read_linear;
use model_sheet::ModelRead;
use network::network::Network;
use network_sheet::read::read_network;
use std::alloc::{AllocError, Global};
use std::array;
use std::test::Fail;
use street::counted::CountedStreet;
use street::groups::Group;
use street::heavy::HeavyStreet;

// What arrives in a step, and whether the step is marked dark.
pub type Given = (&'static [u32], bool);

// Two modes and two places.
const TWO_MODES: &str =
    "modes 2 places 2 100000 200 100000 100 entries 8 150 10 20 50 70 10 10 110 limits 1 45600 2 1 1 2 1";

// A state that begins with these numbers. One line, as where streets are tried: trials have no crate in common.
fn state_of(numbers: &[u32]) -> [u32; 64] {
    array::from_fn(|k| numbers.get(k).copied().unwrap_or(0))
}

fn groups_of(heap: Global, given: &[Given]) -> Result<Vec<Group>, AllocError> {
    let groups = given.iter().map(|(numbers, dark)| Group {
        arrivals: state_of(numbers),
        dark: *dark,
    });
    groups.collect(heap)
}

// Two junctions and three links; the one limit has this bound on links 1 and 3 together.
pub(crate) fn corridor(heap: Global, bound: u32) -> Result<ModelRead<Network>, Fail> {
    let sheet = format!(in heap;
        "signals 2 2 2 links 3 a 0 1 200 60 20 1 b 1 2 100 50 0 1 c 0 1 200 40 10 2 turns 2 1 2 500 1000 3 2 250 1000 limits 1 {bound} 2 1 1 3 1"
    )?;
    read_network(heap, sheet.as_bytes()).map_err(|_| Fail::new("the network sheet is not read"))
}

pub(crate) fn heavy_area(
    heap: Global,
    bound: u32,
    queues: &[u32],
) -> Result<Area<HeavyStreet<Network>>, Fail> {
    let ModelRead {
        model,
        limits,
        end: _,
    } = corridor(heap, bound)?;
    let street = HeavyStreet::new(model, state_of(queues));
    Ok(Area::new(street, limits, 7))
}

pub(crate) fn counted_area(
    heap: Global,
    bound: u32,
    queues: &[u32],
    given: &[Given],
    number: u32,
) -> Result<Area<CountedStreet<Network>>, Fail> {
    let ModelRead {
        model,
        limits,
        end: _,
    } = corridor(heap, bound)?;
    let groups = groups_of(heap, given)?;
    let street = CountedStreet::new(model, state_of(queues), groups.as_slice());
    Ok(Area::new(street, limits, number))
}

pub(crate) fn linear_area(heap: Global, queues: &[u32]) -> Result<Area<HeavyStreet<Linear>>, Fail> {
    let ModelRead {
        model,
        limits,
        end: _,
    } = read_linear(heap, TWO_MODES.as_bytes()).map_err(|_| Fail::new(
        "the linear sheet is not read",
    ))?;
    let street = HeavyStreet::new(model, state_of(queues));
    Ok(Area::new(street, limits, 7))
}
