// One line more: its verdict, and the counts after it.
ghost use Rattle.std.specs.Prelude.{◌≡◌};
ghost use Rattle.lists.specs.Judge.{root_judged};
ghost use Rattle.lists.specs.Reader.{ended, totals_of, tally_of};

use super::line::{Verdict, verdict_of};
use super::tally::{Line, Tally};

impl Tally {
    // A line ends.
    #[tactic(auto, using(crate::proofs::Report::kept_whole), unfolding(crate::specs::Reader::ended))]
    pub(crate) fn end(&mut self, line: &[u8])
        ensures { totals_of self.new ≡ ended root_judged (totals_of self.old) line.now }
    {
        self.lines = self.lines.saturating_add(1);
        match verdict_of(line) {
            Verdict::Malformed => self.malformed = self.malformed.saturating_add(1),
            Verdict::Agrees => self.agree = self.agree.saturating_add(1),
            Verdict::Disagrees => {
                if self.number == 0 {
                    self.number = self.lines;
                    self.first = Line::empty().longer(line);
                }
            }
        }
    }

    // The tally as it is handed out, with a settled line.
    pub(crate) fn settled(self) -> Self
        ensures { result ≡ tally_of (totals_of self) }
    {
        Tally {
            first: self.first.settled(),
            ..self
        }
    }
}
