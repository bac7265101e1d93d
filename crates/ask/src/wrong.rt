// What is wrong with a question, and how to ask.
use std::error::Error;
use std::fmt;

#[derive(Clone, Copy, Debug)]
pub enum Wrong {
    // The program was started with no argument.
    NoQuestion,
    NoSuchName,
    // Not as many operands as the name takes.
    OperandCount,
    // A word of so many hexadecimal digits is wanted.
    NoWord(u32),
    NoI32,
    NoU32,
}

impl fmt::Display for Wrong {
    fn fmt<W: fmt::Write>(&self, f: &mut fmt::Formatter<W>) -> fmt::Result {
        match self {
            Wrong::NoQuestion => f.write_str("a question is wanted"),
            Wrong::NoSuchName => f.write_str("no such name"),
            Wrong::OperandCount => f.write_str("not as many operands as the name takes"),
            Wrong::NoWord(digits) => write!(f, "a word of {digits} hexadecimal digits is wanted"),
            Wrong::NoI32 => f.write_str("a decimal i32 is wanted"),
            Wrong::NoU32 => f.write_str("a decimal u32 is wanted"),
        }
    }
}

impl Error for Wrong {}

// How to ask.
pub const USAGE: &str = "usage: ask NAME OPERAND..
  ask fabsf X               ask fabsd X
  ask scalbnf X N           ask scalbnd X N
  ask sqrtf X               ask sqrtd X
  ask partial_sqrtf X K     ask partial_sqrtd X K
  ask sort_powf X Y         ask sort_powd X Y
  ask powf X Y              ask powd X Y
X and Y are words: 8 hexadecimal digits for f, 16 for d, in either case, with or without 0x.
N is a decimal i32, K a decimal u32.
";
