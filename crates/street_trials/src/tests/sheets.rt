// The two models that the streets are tried over, read from their sheets.
use linear::linear::Linear;
use linear_sheet::read::LinearSheet;
use model_sheet::ModelSheet;
use network::network::Network;
use network_sheet::read::NetworkSheet;
use std::alloc::Global;
use std::test::Fail;

// Two junctions and three links.
const CORRIDOR: &str =
    "signals 2 2 2 links 3 a 0 1 200 60 20 1 b 1 2 100 50 0 1 c 0 1 200 40 10 2 turns 2 1 2 500 1000 3 2 250 1000 limits 1 50 2 1 1 3 1";

// Two modes and two places.
const TWO_MODES: &str =
    "modes 2 places 2 100000 200 100000 100 entries 8 150 10 20 50 70 10 10 110 limits 1 45600 2 1 1 2 1";

fn model_of<S: ModelSheet>(heap: Global, sheet: &str) -> Result<S::Made, Fail> {
    match S::read(heap, sheet.as_bytes()) {
        Ok(read) => Ok(read.model),
        Err(_) => Err(Fail::new("the model sheet is not read")),
    }
}

pub(crate) fn corridor(heap: Global) -> Result<Network, Fail> {
    model_of::<NetworkSheet>(heap, CORRIDOR)
}

pub(crate) fn two_modes(heap: Global) -> Result<Linear, Fail> {
    model_of::<LinearSheet>(heap, TWO_MODES)
}
