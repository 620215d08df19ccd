// One claim over its curves: the verdict.
#![tactic(auto)]

ghost use Rattle.std.specs.Prelude.{◌≡◌, true};
ghost use Rattle.minplus.specs.Verdict.{not_judged, record_on, record_with};
ghost use Rattle.curve.specs.Steps.{curve_from};
ghost use Rattle.curve.specs.Held.{steps_of};
ghost use Rattle.curve.specs.Claimed.{claim_of, claim_over};
ghost use Rattle.curve.specs.Lending.{ThirdLent, curve_lent};
ghost use Rattle.search.specs.Break.{Judgeable, break_of};
ghost use Rattle.verdict.specs.Given.{IsLater, LaterAsked, decided_of, judged_of, judgement, numbers_of, verdict_of};
ghost use Rattle.verdict.specs.Codes.{code_by, number_of};

use curve::lent::Lent;
use curve::rates::slower;
use curve::{Claim, Curve, Held, Operation, Ticks, Units};
use horizon::horizon_over;
use limits::{IllFormed, well_formed_claim};
use search::bounds::first_over;
use search::results::first_unlike;
use search::{Break, Compared, less_holds};
use splits::{Work, first_apart};

#[derive(Clone, Copy)]
pub enum Verdict {
    Accepted,
    RefutedAt(Break),
    RefutedByRate,
    NotLeast,
    NotJudged,
}

// A verdict, and how many ticks were tried for it.
#[derive(Clone, Copy)]
pub struct Decided {
    pub verdict: Verdict,
    pub tried: Ticks,
}

// A verdict's number in its record.
#[derive(Clone, Copy, PartialEq, Eq)]
pub enum Code {
    Accepted = 1,
    RefutedAt,
    RefutedByRate,
    NotLeast,
    NotJudged,
}

impl Code {
    pub fn number(self) -> u8
        ensures { result ≡ number_of self }
    {
        self as u8
    }
}

// A number that is no verdict's.
#[derive(Clone, Copy, PartialEq, Eq)]
pub struct UnknownCode;

impl TryFrom<u8> for Code {
    type Error = UnknownCode;

    ghost try_from_gives = { λ number given. given ≡ code_by number };

    #[tactic(auto, unfolding(crate::specs::Codes::code_by))]
    fn try_from(number: u8) -> Result<Code, UnknownCode> {
        match number {
            1 => Ok(Code::Accepted),
            2 => Ok(Code::RefutedAt),
            3 => Ok(Code::RefutedByRate),
            4 => Ok(Code::NotLeast),
            5 => Ok(Code::NotJudged),
            _ => Err(UnknownCode),
        }
    }
}

// The numbers of a verdict's record.
#[derive(Clone, Copy)]
pub struct Record {
    pub code: Code,
    pub tick: Ticks,
    pub left: Units,
    pub right: Units,
    pub tried: Ticks,
}

// Not judged: no tick is tried.
pub fn untried() -> Decided
    ensures { decided_of result ≡ record_with not_judged 0 }
{
    Decided {
        verdict: Verdict::NotJudged,
        tried: Ticks(0),
    }
}

// The first tried tick that breaks the claim's rule, of curves that are lent and known to be well formed. Kinds 1 to 3
// try the horizon too.
fn first_break(
    claim: Claim,
    itself: bool,
    f: Lent,
    g: Lent,
    h: Held,
    horizon: usize,
    work: &mut Work,
) -> Compared
    requires judgeable { Judgeable claim (steps_of f.held) (steps_of g.held) (steps_of h) horizon }
    requires one_curve { itself ≡ true → steps_of f.held ≡ steps_of g.held }
    ensures { result ≡ break_of (claim_over claim (curve_lent f.entry) (curve_lent g.entry) (curve_from (steps_of h.entry))) }
{
    match claim {
        Claim::Equals(operation) => {
            let h = Lent { held: h };
            match operation {
                Operation::Sum => first_unlike(false, f, g, h, horizon + 1),
                Operation::Minimum => first_unlike(true, f, g, h, horizon + 1),
                Operation::Convolution => first_apart(itself, f, g, h, horizon + 1, work),
            }
        }
        Claim::AtMost(deviation) | Claim::Exactly(deviation) => {
            first_over(deviation, f, g, horizon)
        }
    }
}

// The codes after the first break, in their order, of a claim that no tried tick breaks, whatever is claimed of its two
// curves.
#[tactic(auto, unfolding(minplus::specs::Verdict::codes_in_order, minplus::specs::Verdict::by_rate, minplus::specs::Verdict::less_holds))]
fn later_code(claim: Claim, f: Lent, g: Lent, horizon: usize) -> Verdict
    requires { LaterAsked claim (curve_lent f) (curve_lent g) horizon }
    ensures { IsLater (verdict_of result) claim (curve_lent f.entry) (curve_lent g.entry) }
{
    match claim {
        Claim::Equals(_) => Verdict::Accepted,
        Claim::AtMost(_) if slower(g.held.form, f.held.form) => Verdict::RefutedByRate,
        Claim::AtMost(_) => Verdict::Accepted,
        Claim::Exactly(_) if slower(g.held.form, f.held.form) => Verdict::RefutedByRate,
        Claim::Exactly(deviation) if less_holds(deviation, f, g, horizon) => Verdict::NotLeast,
        Claim::Exactly(_) => Verdict::Accepted,
    }
}

// The codes in their order, for a claim whose horizon is within the limit. How many ticks were tried is what the search
// for the first break has counted; the test of X-1 is not counted.
fn in_order(
    claim: Claim,
    itself: bool,
    f: Lent,
    g: Lent,
    h: Held,
    horizon: usize,
    work: &mut Work,
) -> Decided
    requires judgeable { Judgeable claim (steps_of f.held) (steps_of g.held) (steps_of h) horizon }
    requires one_curve { itself ≡ true → steps_of f.held ≡ steps_of g.held }
    ensures { decided_of result ≡ record_on (claim_over claim (curve_lent f.entry) (curve_lent g.entry) (curve_from (steps_of h.entry))) }
{
    let compared = first_break(claim, itself, f, g, h, horizon, work);
    let tried = compared.ticks;
    if let Some(broken) = compared.found {
        let verdict = Verdict::RefutedAt(broken);
        return Decided { verdict, tried };
    }
    let verdict = later_code(claim, f, g, horizon);
    Decided { verdict, tried }
}

// Of curves that are lent and known to be well formed, with what to work in, and whether left and right are said to be
// the same curve. Nothing is tried for a claim whose horizon is above the limit.
pub fn verdict_over(
    claim: Claim,
    itself: bool,
    f: Lent,
    g: Lent,
    h: Held,
    work: &mut Work,
) -> Decided
    requires third { ThirdLent claim (steps_of h) }
    requires one_curve { itself ≡ true → steps_of f.held ≡ steps_of g.held }
    ensures { decided_of result ≡ record_on (claim_over claim (curve_lent f.entry) (curve_lent g.entry) (curve_from (steps_of h.entry))) }
{
    let Some(horizon) = horizon_over(claim, f, g, h.form) else {
        return untried();
    };
    in_order(claim, itself, f, g, h, horizon.0 as usize, work)
}

// Of any claim. One that breaks a limit has no verdict. Here curves have no numbers, so that none is said to be the
// same as another.
pub fn verdict_on(claim: Claim, f: &Curve, g: &Curve, h: &Curve) -> Result<Decided, IllFormed>
    ensures { judged_of result ≡ judgement (claim_of claim f.now g.now h.now) }
{
    if !well_formed_claim(claim, f, g, h) {
        return Err(IllFormed);
    }
    let f = Lent { held: f.held() };
    let g = Lent { held: g.held() };
    let mut work = Work::new();
    Ok(verdict_over(claim, false, f, g, h.held(), &mut work))
}

// A record in which all between the code and the ticks tried is 0.
fn code_only(code: Code, tried: Ticks) -> Record
    ensures { result ≡ record { code = code; tick = record { 0 = 0 }; left = record { 0 = 0 }; right = record { 0 = 0 }; tried = tried } }
{
    Record {
        code,
        tick: Ticks(0),
        left: Units(0),
        right: Units(0),
        tried,
    }
}

impl From<Decided> for Record {
    ghost from_gives = { λ decided given. numbers_of given ≡ decided_of decided };

    #[tactic(auto, unfolding(minplus::specs::Verdict::record_with))]
    fn from(decided: Decided) -> Record {
        let tried = decided.tried;
        match decided.verdict {
            Verdict::Accepted => code_only(Code::Accepted, tried),
            Verdict::RefutedAt(Break { tick, left, right }) => Record {
                code: Code::RefutedAt,
                tick,
                left,
                right,
                tried,
            },
            Verdict::RefutedByRate => code_only(Code::RefutedByRate, tried),
            Verdict::NotLeast => code_only(Code::NotLeast, tried),
            Verdict::NotJudged => code_only(Code::NotJudged, tried),
        }
    }
}
