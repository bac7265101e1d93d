// The reader of a list that comes in pieces.
ghost use Rattle.std.specs.Prelude.{◌≡◌, true, ◌==◌, ◌∷◌, ◌++◌, position, MatchOption};
ghost use Rattle.lists.specs.Counts.{newline, plain};
ghost use Rattle.lists.specs.Reader.{Started, Fed, Finished};

use super::tally::{Line, Tally};

// What was found in the lines that ended, and the one that did not.
#[repr(C)]
#[derive(Clone, Copy)]
pub struct State {
    pub tally: Tally,
    pub line: Line,
}

// Before the first byte.
pub fn start() -> State
    ensures { Started result }
{
    let line = Line::empty();
    State {
        tally: Tally {
            lines: 0,
            agree: 0,
            malformed: 0,
            number: 0,
            first: line,
        },
        line,
    }
}

// After one piece more: it goes on with the line that is open, then come whole lines, and what is left is open.
pub fn feed(state: State, piece: &[u8]) -> State
    ensures { Fed state piece.now result }
{
    let mut tally = state.tally;
    let Some((end, mut rest)) = cut(piece) else {
        return State {
            tally: tally.settled(),
            line: state.line.longer(piece),
        };
    };
    tally.end(state.line.longer(end).text());
    while let Some((line, next)) = cut(rest) {
        tally.end(line);
        rest = next;
    }
    State {
        tally: tally.settled(),
        line: Line::empty().longer(rest),
    }
}

// The stream ends: bytes after the last newline, if any, are a line.
#[tactic(auto, unfolding(crate::specs::Reader::finished))]
pub fn finish(state: State) -> Tally
    ensures { Finished state result }
{
    let mut tally = state.tally;
    let text = state.line.text();
    if !text.is_empty() {
        tally.end(text);
    }
    tally.settled()
}

// The bytes before the first newline, and those after it.
#[tactic(auto, using(crate::proofs::Pieces::cut_none))]
fn cut(piece: &[u8]) -> Option<(&[u8], &[u8])>
    ensures { MatchOption result (plain piece.now ≡ true) (λ r. (plain r.0.now ≡ true) × (piece.now ≡ r.0.now ++ newline ∷ r.1.now)) }
{
    let end = line_end(piece)?;
    Some((&piece[..end], &piece[end + 1..]))
}

// Where the first newline stands.
fn line_end(piece: &[u8]) -> Option<usize>
    ensures { result ≡ position (λ b. b == newline) piece.now }
{
    piece.iter().position(|b| *b == b'\n')
}
