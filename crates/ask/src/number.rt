// Numbers in text.
ghost use Rattle.std.specs.Prelude.{◌≡◌, ◌≤◌, ◌<◌, ◌*◌, ◌^◌, IfSome, length};
ghost use Rattle.ask.specs.Text.{read_digit, read_number};

// What a character stands for as a digit of a base, in either case.
fn digit(c: u8, base: u64) -> Option<u64>
    requires { base ≤ 16 }
    ensures { result ≡ read_digit base c }
{
    (c as char)
        .to_digit(16)
        .map(u64::from)
        .filter(|d| *d < base)
}

// A number of 1 to 16 digits in a base; `u64::from_str_radix` would take a plus, and zeros without end.
pub fn number(s: &[u8], base: u64) -> Option<u64>
    requires { base ≤ 16 }
    ensures value { result ≡ read_number base s.now }
    ensures room { IfSome result (λ n. n < 2 ^ (4 * length s.now)) }
{
    if s.is_empty() || s.len() > 16 {
        return None;
    }
    let mut value = 0;
    for c in s {
        let d = digit(*c, base)?;
        value = value * base + d;
    }
    Some(value)
}
