// The operands of a width and what is answered to them, a line for each word.
use pow::pow::Pow;
use root::root::Root;
use samples::{EXPONENTS, Samples};
use scale::scaling::Scale;
use std::{fmt, io};

// A word in all of its hexadecimal digits.
#[derive(Clone, Copy)]
struct Hex<W>(W);

impl<W: Samples> fmt::Display for Hex<W> {
    fn fmt<T: fmt::Write>(&self, f: &mut fmt::Formatter<T>) -> fmt::Result {
        let word = self.0.into();
        let digits = W::DIGITS;
        write!(f, "{word:0digits$x}")
    }
}

// The root of every word.
pub fn roots<F: Root>(rt: &impl Print) -> io::Result<()>
where
    F::Word: Samples,
{
    for &x in F::Word::WORDS {
        println!(rt; "{} {}", Hex(x), Hex(F::root(x)))?;
    }
    Ok(())
}

// Every word by every exponent.
pub fn scalings<F: Scale>(rt: &impl Print) -> io::Result<()>
where
    F::Word: Samples,
{
    for &x in F::Word::WORDS {
        print!(rt; "{}", Hex(x))?;
        for n in EXPONENTS {
            print!(rt; " {}", Hex(F::scaled(x, n)))?;
        }
        println!(rt)?;
    }
    Ok(())
}

// Every word to the power of every word.
pub fn powers<F: Pow>(rt: &impl Print) -> io::Result<()>
where
    F::Word: Samples,
{
    for &x in F::Word::WORDS {
        print!(rt; "{}", Hex(x))?;
        for &y in F::Word::WORDS {
            print!(rt; " {}", Hex(F::pow(x, y)))?;
        }
        println!(rt)?;
    }
    Ok(())
}
