// Sheets of full size: 32 signals, 64 links and 256 turns, or 8 modes and 16 places; 32 limits and 64 rows.
// The loops count the links, turns and rows that are written, so there is no list to go over.
use std::alloc::Global;
use std::fmt;
use std::fmt::Write;

// Sixteen junctions in a ring, each with a link to each of the next four; the other junctions have none.
fn tail(link: u32) -> u32 {
    link % 16 + 1
}

fn head(link: u32) -> u32 {
    (link % 16 + link / 16 % 4 + 1) % 16 + 1
}

// The four links into a junction are green in four phases.
fn mask(link: u32) -> u32 {
    1 << (link / 16 % 4)
}

fn write_links(sheet: &mut String) -> fmt::Result {
    for link in 0..64u32 {
        let number = link + 1;
        let tail = tail(link);
        let head = head(link);
        let mask = mask(link);
        write!(sheet, " L{number} {tail} {head} 100000 20000 0 {mask}")?;
    }
    Ok(())
}

// The turns out of a link: one into each link that begins where it ends.
fn write_turns_from(sheet: &mut String, link: u32) -> fmt::Result {
    let from = link % 64 + 1;
    for other in (0..64u32).filter(|other| tail(*other) == head(link)) {
        let to = other % 64 + 1;
        write!(sheet, " {from} {to} 150 1000")?;
    }
    Ok(())
}

fn write_turns(sheet: &mut String) -> fmt::Result {
    for link in 0..64u32 {
        write_turns_from(sheet, link)?;
    }
    Ok(())
}

fn write_limits(sheet: &mut String) -> fmt::Result {
    for k in 0..32u32 {
        let place = k + 1;
        write!(
            sheet,
            " 999999999 8 {place} 1000 33 1 34 1 35 1 36 1 37 1 38 1 39 1"
        )?;
    }
    Ok(())
}

fn write_rows(sheet: &mut String) -> fmt::Result {
    for row in 0..64u32 {
        write_times(sheet, 32, row % 4 + 1)?;
    }
    Ok(())
}

fn write_times<T: fmt::Display + Drop>(sheet: &mut String, times: u32, word: T) -> fmt::Result {
    for _ in 0..times {
        write!(sheet, " {word}")?;
    }
    Ok(())
}

pub(super) fn full_size(heap: Global) -> Result<String, fmt::Error> {
    let mut sheet = String::new(heap);
    write!(sheet, "signals 32")?;
    write_times(&mut sheet, 32, "4")?;
    write!(sheet, " links 64")?;
    write_links(&mut sheet)?;
    write!(sheet, " turns 256")?;
    write_turns(&mut sheet)?;
    write!(sheet, " limits 32")?;
    write_limits(&mut sheet)?;
    write!(sheet, " start 64")?;
    write_times(&mut sheet, 64, "1000")?;
    write!(sheet, " rows 64")?;
    write_rows(&mut sheet)?;
    Ok(sheet)
}

// Each place passes on four fifths of what all have on average.
pub(super) fn full_linear(heap: Global) -> Result<String, fmt::Error> {
    let mut sheet = String::new(heap);
    write!(sheet, "modes 8 places 16")?;
    write_times(&mut sheet, 16, "100000 20")?;
    write!(sheet, " entries 2048")?;
    write_times(&mut sheet, 2048, "5")?;
    write!(sheet, " limits 32")?;
    write_times(&mut sheet, 32, "800 8 1 1 2 1 3 1 4 1 5 1 6 1 7 1 8 1")?;
    write!(sheet, " start 16")?;
    write_times(&mut sheet, 16, "100")?;
    write!(sheet, " rows 64")?;
    write_times(&mut sheet, 32, "1 8")?;
    Ok(sheet)
}
