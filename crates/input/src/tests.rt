// Inputs that are empty, short, and longer than a sheet can be. Each is kept, and the reader is then at its end.
use crate::read_input;
use std::alloc::{AllocError, Global};
use std::collections::VecDeque;
use std::process::Abort;
use std::test::Fail;

// So many bytes, which begin with these.
fn reader_of(heap: Global, front: &[u8], count: usize) -> Result<VecDeque<u8>, AllocError> {
    let mut bytes = VecDeque::new(heap);
    for k in 0..count {
        bytes.push_back(front.get(k).copied().unwrap_or(b'x'))?;
    }
    Ok(bytes)
}

// Of so many bytes so many are kept, with those at the front.
fn try_count(rt: &impl Abort, heap: Global, count: usize, kept: usize) -> Result<(), Fail> {
    let mut reader = reader_of(heap, b"start", count)?;
    let bytes = read_input(heap, &mut reader)?;
    assert_eq!(rt; bytes.len(), kept, "of {count} bytes");
    assert_eq!(rt;
        bytes.first().copied(),
        (kept > 0).then_some(b's'),
        "of {count} bytes"
    );
    assert_eq!(rt; reader.len(), 0, "after {count} bytes");
    Ok(())
}

#[test]
fn whole_inputs(rt: HostRuntime) -> Result<(), Fail> {
    for count in [0, 1, 5, 65_535, 65_536] {
        try_count(&rt, rt.alloc(), count, count)?;
    }
    Ok(())
}

#[test]
fn longer_inputs(rt: HostRuntime) -> Result<(), Fail> {
    for count in [65_537, 65_600, 100_000] {
        try_count(&rt, rt.alloc(), count, 65_536)?;
    }
    Ok(())
}
