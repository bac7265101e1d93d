// What the program writes of a list.
use lists::tally::Tally;
use std::fmt::InlineText;
use std::io;

fn text(rt: &HostRuntime, bytes: &[u8]) -> io::Result<()> {
    stdio::write(rt, bytes, b"testfloat: cannot write")
}

fn decimal(rt: &HostRuntime, n: u64) -> io::Result<()> {
    text(rt, InlineText::<20>::of(n).as_str().as_bytes())
}

fn count(rt: &HostRuntime, name: &[u8], n: u64) -> io::Result<()> {
    text(rt, name)?;
    decimal(rt, n)?;
    text(rt, b"\n")
}

// The first line that disagrees, if any does.
fn first(rt: &HostRuntime, t: &Tally) -> io::Result<()> {
    if t.number == 0 {
        return Ok(());
    }
    text(rt, b"line ")?;
    decimal(rt, t.number)?;
    text(rt, b" disagrees: ")?;
    text(rt, t.first.text())?;
    text(rt, b"\n")
}

// A list is good when it has lines, none is malformed and none disagrees: the counts may have stopped, and then
// as many that agree as were read would say nothing.
fn verdict(t: &Tally) -> &'static [u8] {
    if t.lines == 0 {
        b"testfloat: no line was read\n"
    } else if t.malformed == 0 && t.number == 0 {
        b"testfloat: every line agrees\n"
    } else {
        b"testfloat: not every line agrees\n"
    }
}

// All of it, until a write fails.
pub fn report(rt: &HostRuntime, t: &Tally) -> io::Result<()> {
    count(rt, b"lines ", t.lines)?;
    count(rt, b"agree ", t.agree)?;
    count(rt, b"malformed ", t.malformed)?;
    first(rt, t)?;
    text(rt, verdict(t))
}
