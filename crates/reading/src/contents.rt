// Books whose contents break a rule.
use crate::show::show;
use std::io;

// Refusal 2: the number of procedures, and contents that are cut.
fn counts(rt: &impl Print) -> io::Result<()> {
    show(rt, "no-procedure", b"\x00")?;
    show(rt, "count-alone", b"\x01")?;
    show(rt, "contents-cut", b"\x01\x07\x00\x00\x00\x00")?;
    show(rt, "33-procedures-cut", b"\x21\xc7\x00")?;
    show(rt, "255-procedures", b"\xff\x00\x00\x00\x00\x00\x00")
}

// Refusal 2: an offset.
fn offsets(rt: &impl Print) -> io::Result<()> {
    show(
        rt,
        "offset-early",
        b"\x01\x06\x00\x03\x00\x01\x00\x04\x11\x00",
    )?;
    show(
        rt,
        "offset-late",
        b"\x01\x08\x00\x03\x00\x01\x00\x04\x11\x00",
    )?;
    show(
        rt,
        "offset-high-byte",
        b"\x01\x07\x01\x03\x00\x01\x00\x04\x11\x00",
    )
}

// Refusal 2: a length.
fn sizes(rt: &impl Print) -> io::Result<()> {
    show(
        rt,
        "length-short",
        b"\x01\x07\x00\x02\x00\x01\x00\x04\x11\x00",
    )?;
    show(
        rt,
        "length-long",
        b"\x01\x07\x00\x04\x00\x01\x00\x04\x11\x00",
    )?;
    show(
        rt,
        "length-largest",
        b"\x01\x07\x00\xff\xff\x01\x00\x04\x11\x00",
    )
}

// Refusal 2: bodies that do not follow one another.
fn turns(rt: &impl Print) -> io::Result<()> {
    show(
        rt,
        "bodies-apart",
        b"\x02\x0d\x00\x03\x00\x01\x00\x11\x00\x03\x00\x01\x00\x04\x11\x00\x00\x04\x11\x00",
    )?;
    show(
        rt,
        "bodies-overlap",
        b"\x02\x0d\x00\x03\x00\x01\x00\x0f\x00\x03\x00\x01\x00\x04\x11\x00\x04\x11\x00",
    )?;
    show(
        rt,
        "bodies-swapped",
        b"\x02\x10\x00\x03\x00\x01\x00\x0d\x00\x03\x00\x01\x00\x04\x11\x00\x04\x11\x00",
    )
}

// Refusal 2: counts out of range.
fn ranges(rt: &impl Print) -> io::Result<()> {
    show(
        rt,
        "9-parameters",
        b"\x01\x07\x00\x03\x00\x09\x00\x04\x11\x00",
    )?;
    show(rt, "9-locals", b"\x01\x07\x00\x03\x00\x00\x09\x04\x11\x00")?;
    show(
        rt,
        "contents-before-body",
        b"\x01\x07\x00\x01\x00\x09\x00\x06",
    )
}

pub fn all(rt: &impl Print) -> io::Result<()> {
    counts(rt)?;
    offsets(rt)?;
    sizes(rt)?;
    turns(rt)?;
    ranges(rt)
}
