// A question's operands: words in hexadecimal, in either case and with or without 0x before them,
// and numbers in decimal.
ghost use Rattle.std.specs.Prelude.{◌≡◌, ◌/◌, drop};
ghost use Rattle.std.specs.Option.{option_map};
ghost use Rattle.std.specs.Int.{cast_signed, w32};
ghost use Rattle.ask.specs.Text.{digits_start, read_word, read_unsigned, read_signed};

use super::number::number;
use words::word::Word;

// The digits of a word.
fn digits_of(s: &[u8]) -> &[u8]
    ensures { result.now ≡ drop (digits_start s.now) s.now }
{
    match s {
        [b'0', b'x' | b'X', digits @ ..] => digits,
        _ => s,
    }
}

// A word, of exactly the digits that its width has.
pub fn word<W: Word>(s: &[u8]) -> Option<W>
    ensures { option_map W.number result ≡ read_word (W.BITS / 4) s.now }
{
    let digits = digits_of(s);
    if digits.len() != (W::BITS / 4) as usize {
        return None;
    }
    Some(W::narrow(number(digits, 16)?))
}

// A u32.
pub fn unsigned(s: &[u8]) -> Option<u32>
    ensures { result ≡ read_unsigned s.now }
{
    u32::try_from(number(s, 10)?).ok()
}

// An i32.
pub fn signed(s: &[u8]) -> Option<i32>
    ensures { result ≡ option_map (cast_signed w32) (read_signed s.now) }
{
    match s {
        [b'-', digits @ ..] => i32::try_from(0i64.checked_sub_unsigned(number(digits, 10)?)?).ok(),
        _ => i32::try_from(number(s, 10)?).ok(),
    }
}
