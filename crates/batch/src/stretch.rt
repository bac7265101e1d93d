// Stretches of a batch: elements that are taken together. They are lent by their places: once chunks of the results are
// given back, no proof knows what the results hold.

// How many elements a stretch has.
pub const STRETCH: usize = 64;

// How many pairs at the end of a batch cost less by single calls than by a stretch that goes over pairs once more.
pub const REST: usize = 20;
