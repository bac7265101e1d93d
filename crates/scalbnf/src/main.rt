// Each f32 word times 2 to the power of the i32 after it, from standard input to standard output: records of
// 8 bytes in, answers of 4 bytes out, little-endian. A cut-off last record gives no output.
#![tactic(auto)]

use std::io;
use stdio::answer_pieces;
use stream::records::scalbn_bytes;

// In pieces of 2048 records.
fn main(rt: HostRuntime) -> io::Result<()> {
    answer_pieces::<16384, 8192, _>(&rt, scalbn_bytes::<f32>)
}
