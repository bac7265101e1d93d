// What the sorting answers, and what becomes of an open power.

// The result's word; or an open result's sign, true for negative.
#[derive(Clone, Copy)]
pub enum Sorted<W> {
    Settled(W),
    Open(bool),
}

// An open power overflows, underflows, or is within the format.
#[derive(Clone, Copy)]
pub enum Fate {
    Over,
    Under,
    Within,
}
