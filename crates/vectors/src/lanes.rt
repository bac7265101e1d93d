// Tests of the steps of a lane, called one after another as a block calls them, from outside their crate.
use pow::lane::Lane;
use pow::steps::Chain;
use words::word::Word;

// A pair, and the word and the flag that its walk ended with in the place of those wanted.
#[derive(Debug, Drop)]
struct Other {
    pair: (u64, u64),
    end: (u64, u64),
}

// All eight steps. What is walked with is always clear, so that no NaN arises on the way.
fn walked<F: Chain>(x: F::Word, y: F::Word) -> Lane<F, F::Word> {
    let fresh = Lane {
        flag: F::Word::ZERO,
        w: x,
        e: y,
        s: F::ONE,
        hi: F::ONE,
        lo: F::ONE,
        r: F::ONE,
        t: F::ONE,
    };
    let entered = fresh.entered();
    let started = entered.started();
    let summed = started.with_series();
    let logged = summed.with_logarithm();
    let timed = logged.with_product();
    let turned = timed.turned();
    let halved = turned.with_parts();
    halved.ended()
}

// Where no word is given, the flag alone is looked at.
fn ends<F: Chain>(x: F::Word, y: F::Word, word: Option<F::Word>, flag: u64) -> Result<(), Other> {
    let l = walked::<F>(x, y);
    let end = (l.w.wide(), l.flag.wide());
    let wanted = match word {
        Some(r) => r.wide(),
        None => end.0,
    };
    if (end.0 == wanted) & (end.1 == flag) {
        Ok(())
    } else {
        Err(Other {
            pair: (x.wide(), y.wide()),
            end,
        })
    }
}

// The words are the original's powers. A pair that is not clear is flagged, and 1.5 to the 1.5 stands in the place of its
// power; one whose power is an infinity is flagged on the way, and one whose power is subnormal, with a z inside the
// limits, at the end.
#[test]
fn lanes_of_singles() -> Result<(), Other> {
    ends::<f32>(0x40490fdb, 0x402ccccd, Some(0x41aff3c4), 0)?;
    ends::<f32>(0x3ebd70a4, 0xc0533333, Some(0x41d4d367), 0)?;
    ends::<f32>(0x00000000, 0x402ccccd, Some(0x3feb26a9), 1)?;
    ends::<f32>(0x7149f2ca, 0x4114cccd, None, 1)?;
    ends::<f32>(0x3f028f5c, 0x43028000, None, 1)
}

#[test]
fn lanes_of_doubles() -> Result<(), Other> {
    ends::<f64>(
        0x400921fb54442d18,
        0x400599999999999a,
        Some(0x4035fe783ac62a1d),
        0,
    )?;
    ends::<f64>(
        0x3fd7ae147ae147ae,
        0xc00a666666666666,
        Some(0x403a9a6d0bc64c32),
        0,
    )?;
    ends::<f64>(
        0x0000000000000000,
        0x400599999999999a,
        Some(0x3ffd64d51e0db1c6),
        1,
    )?;
    ends::<f64>(0x7e37e43c8800759c, 0x402299999999999a, None, 1)?;
    ends::<f64>(0x3fe051eb851eb852, 0x4090760000000000, None, 1)
}
