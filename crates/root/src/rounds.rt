// The digit engine.
ghost use Rattle.root.specs.Engine.{Asked, Rounds};

// Q and the left-over.
#[derive(Clone, Copy)]
pub struct Digits {
    pub digits: u64,
    pub left: u64,
}

// The first k digits of the root of w, of p or p + 1 digits, and what is left. Each round halves r,
// the weight of its digit, and tries the digit: whether t is at most what is left, asked as whether the
// number before it is less, since a processor tells that from one flag and not from two. s is twice
// the digits found so far at that weight.
pub fn digit_rounds(w: u64, p: u32, k: u32) -> Digits
    requires { Asked p w k }
    ensures { Rounds p w k result.digits result.left }
{
    let mut left = w + w;
    let mut s: u64 = 0;
    let mut r: u64 = 1 << (p + 1);
    for _ in 0..k {
        r = r >> 1;
        let t = s + r;
        if s + (r - 1) < left {
            left = left - t;
            s = t + r;
        }
        left = left + left;
    }
    Digits {
        digits: s >> (p + 2 - k),
        left,
    }
}
