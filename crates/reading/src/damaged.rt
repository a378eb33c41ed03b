// Books with a body that breaks a rule.
use crate::show::show;
use std::io;

// Refusal 3, reason 1: the body ended early.
fn ended(rt: &impl Print) -> io::Result<()> {
    show(rt, "empty-body", b"\x01\x07\x00\x00\x00\x01\x00")?;
    show(
        rt,
        "empty-second-body",
        b"\x02\x0d\x00\x03\x00\x01\x00\x10\x00\x00\x00\x01\x00\x04\x11\x00",
    )?;
    show(rt, "return-alone", b"\x01\x07\x00\x01\x00\x01\x00\x04")?;
    show(
        rt,
        "constant-cut",
        b"\x01\x07\x00\x05\x00\x00\x00\x04\x10\x01\x02\x03",
    )
}

// The same in an expression.
fn ended_expressions(rt: &impl Print) -> io::Result<()> {
    show(rt, "variable-cut", b"\x01\x07\x00\x02\x00\x01\x00\x04\x11")?;
    show(rt, "operation-cut", b"\x01\x07\x00\x02\x00\x01\x00\x04\x12")?;
    show(
        rt,
        "operand-missing",
        b"\x01\x07\x00\x05\x00\x01\x00\x04\x12\x00\x11\x00",
    )?;
    show(
        rt,
        "argument-missing",
        b"\x01\x07\x00\x05\x00\x02\x00\x04\x13\x00\x11\x00",
    )
}

// The same in a command.
fn ended_commands(rt: &impl Print) -> io::Result<()> {
    show(rt, "set-cut", b"\x01\x07\x00\x01\x00\x01\x00\x01")?;
    show(
        rt,
        "no-closing",
        b"\x01\x07\x00\x04\x00\x01\x00\x01\x00\x11\x00",
    )?;
    show(
        rt,
        "run-not-ended",
        b"\x01\x07\x00\x07\x00\x01\x00\x03\x11\x00\x01\x00\x11\x00",
    )
}

fn ended_branches(rt: &impl Print) -> io::Result<()> {
    show(
        rt,
        "second-branch-missing",
        b"\x01\x07\x00\x04\x00\x01\x00\x02\x11\x00\x00",
    )?;
    show(
        rt,
        "second-closing-missing",
        b"\x01\x07\x00\x06\x00\x01\x00\x05\x11\x00\x04\x11\x00",
    )
}

// Refusal 3, reason 3: an unknown code.
fn unknown(rt: &impl Print) -> io::Result<()> {
    show(rt, "code-06", b"\x01\x07\x00\x03\x00\x01\x00\x06\x11\x00")?;
    show(
        rt,
        "00-in-a-closing-sequence",
        b"\x01\x07\x00\x04\x00\x01\x00\x00\x04\x11\x00",
    )?;
    show(
        rt,
        "return-in-a-run",
        b"\x01\x07\x00\x0a\x00\x01\x00\x03\x11\x00\x04\x11\x00\x00\x04\x11\x00",
    )?;
    show(
        rt,
        "command-for-expression",
        b"\x01\x07\x00\x05\x00\x01\x00\x04\x01\x00\x11\x00",
    )
}

fn unknown_expressions(rt: &impl Print) -> io::Result<()> {
    show(
        rt,
        "expression-for-command",
        b"\x01\x07\x00\x05\x00\x01\x00\x11\x00\x04\x11\x00",
    )?;
    show(
        rt,
        "code-14",
        b"\x01\x07\x00\x04\x00\x01\x00\x04\x14\x11\x00",
    )?;
    show(
        rt,
        "code-ff-as-operand",
        b"\x01\x07\x00\x06\x00\x01\x00\x04\x12\x00\x11\x00\xff",
    )
}

// Refusal 3, reason 4: no such variable.
fn variables(rt: &impl Print) -> io::Result<()> {
    show(
        rt,
        "variable-at-count",
        b"\x01\x07\x00\x03\x00\x01\x01\x04\x11\x02",
    )?;
    show(
        rt,
        "variable-255",
        b"\x01\x07\x00\x03\x00\x01\x00\x04\x11\xff",
    )?;
    show(
        rt,
        "no-variables",
        b"\x01\x07\x00\x03\x00\x00\x00\x04\x11\x00",
    )?;
    show(
        rt,
        "set-at-count",
        b"\x01\x07\x00\x07\x00\x01\x01\x01\x02\x11\x00\x04\x11\x00",
    )
}

// Refusal 3, reasons 5 and 6: no such operation, no such procedure.
fn operations(rt: &impl Print) -> io::Result<()> {
    show(
        rt,
        "operation-8",
        b"\x01\x07\x00\x07\x00\x01\x00\x04\x12\x08\x11\x00\x11\x00",
    )?;
    show(
        rt,
        "operation-255",
        b"\x01\x07\x00\x07\x00\x01\x00\x04\x12\xff\x11\x00\x11\x00",
    )?;
    show(
        rt,
        "procedure-at-count",
        b"\x01\x07\x00\x05\x00\x01\x00\x04\x13\x01\x11\x00",
    )?;
    show(
        rt,
        "procedure-255",
        b"\x01\x07\x00\x05\x00\x01\x00\x04\x13\xff\x11\x00",
    )
}

// Refusal 3, reason 7: bytes left over.
fn left_over(rt: &impl Print) -> io::Result<()> {
    show(
        rt,
        "left-over-00",
        b"\x01\x07\x00\x04\x00\x01\x00\x04\x11\x00\x00",
    )?;
    show(
        rt,
        "left-over-return",
        b"\x01\x07\x00\x06\x00\x01\x00\x04\x11\x00\x04\x11\x00",
    )?;
    show(
        rt,
        "left-over-after-pick",
        b"\x01\x07\x00\x0a\x00\x01\x00\x05\x11\x00\x04\x11\x00\x04\x11\x00\x00",
    )
}

// A place counts from the start of the book, and the first fault is told.
fn places(rt: &impl Print) -> io::Result<()> {
    show(
        rt,
        "fault-in-second-body",
        b"\x02\x0d\x00\x03\x00\x01\x00\x10\x00\x07\x00\x00\x01\x04\x11\x00\x01\x00\x11\x01\x04\x11\x00",
    )?;
    show(
        rt,
        "first-of-two-faults",
        b"\x02\x0d\x00\x03\x00\x01\x00\x10\x00\x04\x00\x01\x00\x04\x12\x09\x04\x11\x00\x00",
    )
}

pub fn all(rt: &impl Print) -> io::Result<()> {
    ended(rt)?;
    ended_expressions(rt)?;
    ended_commands(rt)?;
    ended_branches(rt)?;
    unknown(rt)?;
    unknown_expressions(rt)?;
    variables(rt)?;
    operations(rt)?;
    left_over(rt)?;
    places(rt)
}
