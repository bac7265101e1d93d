// The bytes of a line that are kept: at most KEPT of them, and zeros after, so that what was read says every one.
ghost use Rattle.std.specs.Prelude.{◌≡◌, ◌≤◌, [], ◌++◌, length, take};
ghost use Rattle.lists.specs.Reader.{kept, text_of, line_of};

use super::tally::{KEPT, Line};

impl Line {
    // No bytes.
    pub(crate) fn empty() -> Self
        ensures { result ≡ line_of [] }
    {
        Line {
            bytes: [0; KEPT],
            held: 0,
        }
    }

    // The bytes that count: no more than there are.
    pub fn text(&self) -> &[u8]
        ensures { result.now ≡ text_of self.now }
    {
        &self.bytes[..self.held.min(KEPT)]
    }

    // The line goes on with the bytes s, as far as there is room.
    pub(crate) fn longer(self, s: &[u8]) -> Self
        ensures value { result ≡ line_of (take kept (text_of self ++ s.now)) }
        ensures few { length (text_of self) ≤ kept }
    {
        let mut bytes = self.bytes;
        let open = self.held.min(KEPT);
        let more = s.len().min(KEPT - open);
        bytes[open..open + more].copy_from_slice(&s[..more]);
        Line {
            bytes,
            held: open + more,
        }
        .settled()
    }

    // The line as it is handed out: zeros stand after the bytes that count.
    pub(crate) fn settled(self) -> Self
        ensures { result ≡ line_of (text_of self) }
    {
        let mut bytes = self.bytes;
        let held = self.held.min(KEPT);
        bytes[held..].fill(0);
        Line { bytes, held }
    }
}
