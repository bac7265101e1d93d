// The root of each f64 word, from standard input to standard output: records of
// 8 bytes in, answers of 8 bytes out, little-endian. A cut-off last record gives no output.
#![tactic(auto)]

use std::io;
use stdio::answer_pieces;
use stream::records::sqrt_bytes;

// In pieces of 2048 records.
fn main(rt: HostRuntime) -> io::Result<()> {
    answer_pieces::<16384, 16384, _>(&rt, sqrt_bytes::<f64>)
}
