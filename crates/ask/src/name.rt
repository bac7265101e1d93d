// The names of the functions that can be asked: what is asked, and the width's letter.
use super::wrong::Wrong;

#[derive(Clone, Copy)]
pub enum Function {
    Fabs,
    Scalbn,
    Sqrt,
    PartialSqrt,
    SortPow,
    Pow,
}

impl Function {
    // How many operands it takes.
    pub fn operands(self) -> usize {
        match self {
            Function::Fabs | Function::Sqrt => 1,
            _ => 2,
        }
    }
}

#[derive(Clone, Copy)]
pub enum Width {
    Single,
    Double,
}

#[derive(Clone, Copy)]
pub struct Name {
    pub function: Function,
    pub width: Width,
}

impl TryFrom<&[u8]> for Name {
    type Error = Wrong;

    fn try_from(s: &[u8]) -> Result<Name, Wrong> {
        let (stem, width) = match s {
            [stem @ .., b'f'] => (stem, Width::Single),
            [stem @ .., b'd'] => (stem, Width::Double),
            _ => return Err(Wrong::NoSuchName),
        };
        let function = match stem {
            b"fabs" => Function::Fabs,
            b"scalbn" => Function::Scalbn,
            b"sqrt" => Function::Sqrt,
            b"partial_sqrt" => Function::PartialSqrt,
            b"sort_pow" => Function::SortPow,
            b"pow" => Function::Pow,
            _ => return Err(Wrong::NoSuchName),
        };
        Ok(Name { function, width })
    }
}
