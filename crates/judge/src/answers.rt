// The totals: counted, and as one number.
ghost use Rattle.std.specs.Prelude.{◌≡◌};
ghost use Rattle.verdict.specs.Given.{verdict_of};
ghost use Rattle.judge.specs.Totals.{totals_word, Countable, code_of, counted};

use crate::Totals;
use verdict::Verdict;

impl Totals {
    // With one verdict more.
    #[tactic(auto, unfolding(crate::specs::Totals::counted, minplus::specs::Verdict::record_with))]
    pub(crate) fn count(&mut self, verdict: Verdict)
        requires { Countable self.old }
        ensures { self.new ≡ counted self.old (code_of (verdict_of verdict)) }
    {
        match verdict {
            Verdict::Accepted => self.accepted += 1,
            Verdict::RefutedAt(_) | Verdict::RefutedByRate | Verdict::NotLeast => self.refuted += 1,
            Verdict::NotJudged => self.unjudged += 1,
        }
    }

    pub(crate) fn word(self) -> u64
        requires { Countable self }
        ensures { result ≡ totals_word self }
    {
        (self.accepted << Totals::ACCEPTED_AT)
            + (self.refuted << Totals::REFUTED_AT)
            + (self.unjudged << Totals::UNJUDGED_AT)
    }
}
