// Partial roots of the f32 word 2.0, and the two refusals of document 01.
use root::partial::partial_root;
use std::io;

// Digits, left-over and rounds; or the refusal number.
fn line(rt: &impl Print, x: u32, k: u32) -> io::Result<()> {
    match partial_root::<f32>(x, k) {
        Ok(p) => println!(rt; "{} {} {}", p.digits, p.left, p.rounds),
        Err(r) => println!(rt; "refused {}", r.number()),
    }
}

pub fn of_two(rt: &impl Print) -> io::Result<()> {
    for k in [0, 1, 2, 3, 4, 5, 6, 25, 26] {
        line(rt, 0x40000000, k)?;
    }
    line(rt, 0xbf800000, 26)
}
