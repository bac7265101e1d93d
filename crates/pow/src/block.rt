// The powers of 64 pairs at once. A single call waits for each step of the chain before it can take the next; here each
// step is a loop over the lanes of a room, by the chain's own functions, so that the steps of many pairs overlap and a
// compiler can take several at a time. The flagged pairs are raised by single calls at the end.
ghost use Rattle.std.specs.Prelude.{◌≡◌, ◌<◌, get_or, true, if◌then◌else◌};
ghost use Rattle.std.specs.Float.Ieee.{of_bits};
ghost use Rattle.power.specs.Chain.{far_of, product_of};
ghost use Rattle.power.specs.Power.{pow_of};
ghost use Rattle.power.specs.Stages.{Each, Ended, Full, clear, walked_with};
ghost use Rattle.pow.specs.Lanes.{Whole, filled, lane_at, put};
ghost use Rattle.pow.specs.Parts.{of, two_in};

use super::lane::Lane;
use super::pow::Pow;
use super::steps::Chain;
use words::word::Word;

// How many flagged pairs of a block make single calls faster than stages for all of it.
const CROWDED: u32 = 24;

// Room for the lanes of a block: an array for each field of them.
#[derive(Clone, Copy)]
pub struct Room<F, W> {
    pub flags: [W; 64],
    pub ws: [W; 64],
    pub es: [W; 64],
    pub ss: [F; 64],
    pub hs: [F; 64],
    pub ls: [F; 64],
    pub rs: [F; 64],
    pub ts: [F; 64],
}

impl<F: Chain> Room<F, F::Word> {
    pub fn new() -> Self
        ensures { result ≡ filled F.Word.ZERO F.ONE }
    {
        let word = F::Word::ZERO;
        let float = F::ONE;
        Room {
            flags: [word; 64],
            ws: [word; 64],
            es: [word; 64],
            ss: [float; 64],
            hs: [float; 64],
            ls: [float; 64],
            rs: [float; 64],
            ts: [float; 64],
        }
    }

    fn at(&self, i: usize) -> Lane<F, F::Word>
        requires { i < 64 }
        ensures { result ≡ lane_at F.Word.ZERO F.ONE self.now i }
    {
        Lane {
            flag: self.flags[i],
            w: self.ws[i],
            e: self.es[i],
            s: self.ss[i],
            hi: self.hs[i],
            lo: self.ls[i],
            r: self.rs[i],
            t: self.ts[i],
        }
    }

    // Each array is of 64.
    fn whole(self)
        ensures { Whole self }
    {}

    fn put(&mut self, i: usize, l: Lane<F, F::Word>)
        requires { i < 64 }
        ensures { self.new ≡ put self.old i l }
    {
        self.flags[i] = l.flag;
        self.ws[i] = l.w;
        self.es[i] = l.e;
        self.ss[i] = l.s;
        self.hs[i] = l.hi;
        self.ls[i] = l.lo;
        self.rs[i] = l.r;
        self.ts[i] = l.t;
    }

    // A stage: each lane takes the step. What a step leaves of a lane as it was is not written again in machine code.
    fn each<G: Fn(Lane<F, F::Word>) -> Lane<F, F::Word>>(&mut self, step: G)
        requires { Each (λ j. G.pre step (lane_at F.Word.ZERO F.ONE self.old j)) }
        ensures { Each (λ j. G.post step (lane_at F.Word.ZERO F.ONE self.old j) (lane_at F.Word.ZERO F.ONE self.new j)) }
    {
        self.whole();
        for i in 0..64 {
            self.put(i, step(self.at(i)));
        }
    }

    // The pairs to walk with. Returns how many are flagged.
    fn enter(&mut self, xs: &[F::Word], ys: &[F::Word]) -> u32
        requires { Full xs.now × Full ys.now }
        ensures { Each (λ j. let x = F.Word.number (get_or xs.now j F.Word.ZERO) in let y = F.Word.number (get_or ys.now j F.Word.ZERO) in
            let l = lane_at F.Word.ZERO F.ONE self.new j in let b = clear (of F.format F.width) x y in
            (F.Word.number l.flag ≡ (if b then 0 else 1)) × (F.Word.number l.w ≡ walked_with (of F.format F.width) b x) × (F.Word.number l.e ≡ walked_with (of F.format F.width) b y)) }
    {
        self.whole();
        let mut found: u32 = 0;
        for i in 0..64 {
            let l = Lane {
                w: xs[i],
                e: ys[i],
                ..self.at(i)
            };
            let m = l.entered();
            self.put(i, m);
            found += m.flag.wide() as u32;
        }
        found
    }

    // The chain up to p_h and p_l, for clear pairs.
    fn to_products(&mut self)
        requires { Each (λ j. let l = lane_at F.Word.ZERO F.ONE self.old j in clear (of F.format F.width) (F.Word.number l.w) (F.Word.number l.e) ≡ true) }
        ensures { Each (λ j. let l = lane_at F.Word.ZERO F.ONE self.old j in let r = lane_at F.Word.ZERO F.ONE self.new j in
            (two_in F.value r ≡ product_of (of F.format F.width) (of_bits F.format (F.Word.number l.e)) (far_of (of F.format F.width) (F.Word.number l.w))) × (r.flag ≡ l.flag)) }
    {
        self.each(Lane::started);
        self.each(Lane::with_series);
        self.each(Lane::with_logarithm);
        self.each(Lane::with_product);
    }

    // The last stage, which writes the words. Returns how many are flagged.
    fn end(&mut self, out: &mut [F::Word]) -> u32
        requires full { Full out.old }
        requires bits { Each (λ j. F.Word.number (lane_at F.Word.ZERO F.ONE self.old j).flag < 2) }
        ensures words { Each (λ j. let l = lane_at F.Word.ZERO F.ONE self.old j in let r = lane_at F.Word.ZERO F.ONE self.new j in
            Ended (of F.format F.width) (two_in F.value l) (F.Word.number l.w) (F.Word.number l.flag) (F.Word.number (get_or out.new j F.Word.ZERO)) (F.Word.number r.flag)) }
        ensures none { result ≡ 0 → Each (λ j. F.Word.number (lane_at F.Word.ZERO F.ONE self.new j).flag ≡ 0) }
    {
        self.whole();
        let mut found: u32 = 0;
        for i in 0..64 {
            let l = self.at(i);
            let m = l.ended();
            self.put(i, Lane { flag: m.flag, ..l });
            out[i] = m.w;
            found += m.flag.wide() as u32;
        }
        found
    }

    // The stages, for clear pairs: the word of a lane whose flag is 0 at the end is the pair's power. Returns how many are
    // flagged.
    fn walk(&mut self, out: &mut [F::Word]) -> u32
        requires full { Full out.old }
        requires clear { Each (λ j. let l = lane_at F.Word.ZERO F.ONE self.old j in (clear (of F.format F.width) (F.Word.number l.w) (F.Word.number l.e) ≡ true) × (F.Word.number l.flag < 2)) }
        ensures words { Each (λ j. let l = lane_at F.Word.ZERO F.ONE self.old j in let r = lane_at F.Word.ZERO F.ONE self.new j in
            F.Word.number r.flag ≡ 0 → (F.Word.number l.flag ≡ 0) × (F.Word.number (get_or out.new j F.Word.ZERO) ≡ pow_of (of F.format F.width) (F.Word.number l.w) (F.Word.number l.e))) }
        ensures none { result ≡ 0 → Each (λ j. F.Word.number (lane_at F.Word.ZERO F.ONE self.new j).flag ≡ 0) }
    {
        self.to_products();
        self.each(Lane::turned);
        self.each(Lane::with_parts);
        self.end(out)
    }
}

// Single calls for all of a block.
fn singly<F: Pow>(xs: &[F::Word], ys: &[F::Word], out: &mut [F::Word])
    requires { Full xs.now × Full ys.now × Full out.old }
    ensures { Each (λ j. get_or out.new j F.Word.ZERO ≡ F.pow (get_or xs.now j F.Word.ZERO) (get_or ys.now j F.Word.ZERO)) }
{
    for i in 0..64 {
        out[i] = F::pow(xs[i], ys[i]);
    }
}

// Single calls for the flagged lanes. Nothing is left to do where none is.
fn mend<F: Pow>(
    xs: &[F::Word],
    ys: &[F::Word],
    room: &Room<F, F::Word>,
    found: u32,
    out: &mut [F::Word],
)
    requires full { Full xs.now × Full ys.now × Full out.old }
    requires none { found ≡ 0 → Each (λ j. F.Word.number (lane_at F.Word.ZERO F.ONE room.now j).flag ≡ 0) }
    requires done { Each (λ j. F.Word.number (lane_at F.Word.ZERO F.ONE room.now j).flag ≡ 0
        → get_or out.old j F.Word.ZERO ≡ F.pow (get_or xs.now j F.Word.ZERO) (get_or ys.now j F.Word.ZERO)) }
    ensures { Each (λ j. get_or out.new j F.Word.ZERO ≡ F.pow (get_or xs.now j F.Word.ZERO) (get_or ys.now j F.Word.ZERO)) }
{
    if found == 0 {
        return;
    }
    for i in 0..64 {
        out[i] = if room.at(i).flag.wide() == 0 {
            out[i]
        } else {
            F::pow(xs[i], ys[i])
        };
    }
}

// The power of each of 64 pairs.
pub fn pow_block<F: Pow>(
    xs: &[F::Word],
    ys: &[F::Word],
    room: &mut Room<F, F::Word>,
    out: &mut [F::Word],
)
    requires { Full xs.now × Full ys.now × Full out.old }
    ensures { Each (λ j. get_or out.new j F.Word.ZERO ≡ F.pow (get_or xs.now j F.Word.ZERO) (get_or ys.now j F.Word.ZERO)) }
{
    if room.enter(xs, ys) > CROWDED {
        singly::<F>(xs, ys, out);
        return;
    }
    let found = room.walk(out);
    mend(xs, ys, room, found, out);
}
