// Sheets, whole and damaged, and what is told of each.
mod full;
mod tables;

use full::{full_linear, full_size};
use std::alloc::{AllocError, Global};
use std::process::Abort;
use std::test::Fail;
use tables::{CORRIDOR, LINEAR, RANGES, RECORDS, TWO_MODES, WHOLE, WORDS, WORKED};
use verdict::judge::judge;

// One change of a sheet, and the line that is told of it.
#[derive(Clone, Copy)]
pub struct Change {
    pub old: &'static str,
    pub new: &'static str,
    pub told: &'static str,
}

// A sheet, and the line that is told of it.
#[derive(Clone, Copy)]
pub struct Whole {
    pub sheet: &'static str,
    pub told: &'static str,
}

fn told(heap: Global, input: &[u8]) -> Result<String, AllocError> {
    let verdict = judge(heap, input)?;
    format!(in heap; "{verdict}")
}

fn try_changes(rt: &impl Abort, heap: Global, whole: &str, changes: &[Change]) -> Result<(), Fail> {
    for change in changes {
        let (front, back) = whole
            .split_once(change.old)
            .ok_or("the old words are not there")?;
        let new = change.new;
        let sheet = format!(in heap; "{front}{new}{back}")?;
        assert_eq!(rt; told(heap, sheet.as_bytes())?.as_str(), change.told);
    }
    Ok(())
}

#[test]
fn worked(rt: HostRuntime) -> Result<(), Fail> {
    try_changes(&rt, rt.alloc(), CORRIDOR, &WORKED)
}

#[test]
fn words(rt: HostRuntime) -> Result<(), Fail> {
    try_changes(&rt, rt.alloc(), CORRIDOR, &WORDS)
}

#[test]
fn ranges(rt: HostRuntime) -> Result<(), Fail> {
    try_changes(&rt, rt.alloc(), CORRIDOR, &RANGES)
}

#[test]
fn records(rt: HostRuntime) -> Result<(), Fail> {
    try_changes(&rt, rt.alloc(), CORRIDOR, &RECORDS)
}

#[test]
fn linear_sheets(rt: HostRuntime) -> Result<(), Fail> {
    try_changes(&rt, rt.alloc(), TWO_MODES, &LINEAR)
}

#[test]
fn whole_sheets(rt: HostRuntime) -> Result<(), Fail> {
    for whole in &WHOLE {
        assert_eq!(rt;
            told(rt.alloc(), whole.sheet.as_bytes())?.as_str(),
            whole.told
        );
    }
    Ok(())
}

// The corridor with separators behind it, up to so many bytes.
fn padded(heap: Global, size: usize) -> Result<Vec<u8>, AllocError> {
    let mut sheet = CORRIDOR.as_bytes().to_vec(heap)?;
    sheet.resize(size, b' ')?;
    Ok(sheet)
}

#[test]
fn length(rt: HostRuntime) -> Result<(), Fail> {
    let longest = padded(rt.alloc(), 65535)?;
    assert_eq!(rt; told(rt.alloc(), longest.as_slice())?.as_str(), "shelved 2");
    let longer = padded(rt.alloc(), 65536)?;
    assert_eq!(rt;
        told(rt.alloc(), longer.as_slice())?.as_str(),
        "refused 1 0 0"
    );
    Ok(())
}

// The network drains, and the linear model stays where it is: each round ends at or below its start.
#[test]
fn full_sheets(rt: HostRuntime) -> Result<(), Fail> {
    let network = full_size(rt.alloc())?;
    assert_eq!(rt;
        told(rt.alloc(), network.as_bytes())?.as_str(),
        "shelved 64"
    );
    let linear = full_linear(rt.alloc())?;
    assert_eq!(rt; told(rt.alloc(), linear.as_bytes())?.as_str(), "shelved 64");
    Ok(())
}
