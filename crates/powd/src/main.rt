// Each f64 word raised to the power of the f64 word after it, from standard input to standard
// output: records of 16 bytes in, answers of 8 bytes out, little-endian. A cut-off last record
// gives no output.
#![tactic(auto)]

use std::io;
use stdio::answer_pieces;
use stream::records::pow_bytes;

// In pieces of 1024 records.
fn main(rt: HostRuntime) -> io::Result<()> {
    answer_pieces::<16384, 8192, _>(&rt, pow_bytes::<f64>)
}
