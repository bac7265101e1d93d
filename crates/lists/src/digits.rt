// Numbers in hexadecimal, in either case.
ghost use Rattle.std.specs.Prelude.{◌≡◌, ◌+◌, ◌≤◌, ◌<◌, length};
ghost use Rattle.lists.specs.Digits.{among_of, read_digit, read_number};

// What a character is among the n from `low` on, of which the first stands for `first`; else what is
// given. One test that compiles to no branch, since nothing foretells which digits are letters: so what is
// given is a number, and no `Option`.
#[tactic(auto, using(crate::proofs::Characters::place_inside, crate::proofs::Characters::place_outside))]
fn among(c: u64, low: u64, n: u64, first: u64, other: u64) -> u64
    requires { (c < 256) × (low + n ≤ 256) × (first ≤ 16) }
    ensures { result ≡ among_of c low n first other }
{
    let place = (c + (256 - low)) % 256;
    if place < n { place + first } else { other }
}

// The digit that a character stands for.
fn digit(c: u8) -> Option<u64>
    ensures { result ≡ read_digit c }
{
    let c = c as u64;
    let decimal = among(c, 48, 10, 0, 16);
    let upper = among(c, 65, 6, 10, decimal);
    let d = among(c, 97, 6, 10, upper);
    if d < 16 { Some(d) } else { None }
}

// The number that a text of at most 16 characters stands for, if all are digits.
#[tactic(auto, using(crate::proofs::Hex::reading))]
pub fn hex_number(s: &[u8]) -> Option<u64>
    requires { length s.now ≤ 16 }
    ensures { result ≡ read_number s.now }
{
    let mut value = 0;
    for &c in s {
        value = value * 16 + digit(c)?;
    }
    Some(value)
}
