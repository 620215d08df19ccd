// Document 01's lines for an answer of the judge and its verdict buffer.
#![tactic(auto)]

ghost use Rattle.std.specs.Prelude.{◌+◌, ◌*◌, ◌^◌, ◌≤◌, ◌<◌, ◌≡◌, length};
ghost use Rattle.numbers.specs.Put.{put};
ghost use Rattle.report.specs.Lines.{max_line, max_words, TotalsFit, refuted_at, words_in, claim_line, claim_lines, total_line, certified_line, refused_line, report_in, totals_in};
ghost use Rattle.numbers.specs.Written.{Wrote};
ghost use Rattle.report.specs.Written.{IsPrefixLen};

use judge::Totals;
use numbers::number;
use text::{put_last_part, put_part, put_words};
use verdict::Code;

mod text;

// The longest line: `claim K refuted at N left V right W` with K of 5 digits, N of 10, V and W of 20.
pub const MAX_LINE: usize = 87;

#[tactic(auto, using(crate::specs::Lines::refuted_short))]
fn refuted_at(out: &mut [u8], at: usize, tick: u32, left: u64, right: u64) -> usize
    requires { at + max_words ≤ length out.old }
    ensures wrote { Wrote out.old at (refuted_at tick left right) out.new result }
    ensures upper_bound { result ≤ at + max_words }
{
    let after_tick = put_part(out, at, b" refuted at ", tick as u64);
    let after_left = put_part(out, after_tick, b" left ", left);
    put_last_part(out, after_left, b" right ", right)
}

// A code that no verdict has is not judged.
fn verdict_words(out: &mut [u8], at: usize, verdicts: &[u8], k: usize) -> usize
    requires max_words_in_bounds { at + max_words ≤ length out.old }
    requires k_bound { k < 10 ^ 5 }
    ensures wrote { Wrote out.old at (words_in verdicts.now k) out.new result }
    ensures upper_bound { result ≤ at + max_words }
{
    let record = Totals::RECORD * k;
    let code = Code::try_from(number::<1>(verdicts, record) as u8);
    match code.unwrap_or(Code::NotJudged) {
        Code::Accepted => put_words(out, at, b" accepted\n"),
        Code::RefutedAt => refuted_at(
            out,
            at,
            number::<4>(verdicts, record + 1) as u32,
            number::<8>(verdicts, record + 5),
            number::<8>(verdicts, record + 13),
        ),
        Code::RefutedByRate => put_words(out, at, b" refuted by rate\n"),
        Code::NotLeast => put_words(out, at, b" refuted not least\n"),
        Code::NotJudged => put_words(out, at, b" not judged\n"),
    }
}

fn claim_line(out: &mut [u8], at: usize, verdicts: &[u8], k: usize) -> usize
    requires max_line_in_bounds { at + max_line ≤ length out.old }
    requires k_bound { k < 10 ^ 5 }
    ensures wrote { Wrote out.old at (claim_line verdicts.now k) out.new result }
    ensures upper_bound { result ≤ at + max_line }
{
    let next = put_part(out, at, b"claim ", k as u64);
    verdict_words(out, next, verdicts, k)
}

fn claim_lines(out: &mut [u8], verdicts: &[u8], claims: usize) -> usize
    requires claims_in_bounds { max_line * claims ≤ length out.old }
    requires claims_bound { claims < 10 ^ 5 }
    ensures wrote { Wrote out.old 0 (claim_lines verdicts.now claims) out.new result }
    ensures upper_bound { result ≤ max_line * claims }
{
    let mut at = 0;
    for k in 0..claims {
        at = claim_line(out, at, verdicts, k);
    }
    at
}

#[tactic(auto, using(crate::specs::Lines::total_short))]
fn total_line(out: &mut [u8], at: usize, totals: Totals) -> usize
    requires max_line_in_bounds { at + max_line ≤ length out.old }
    requires totals_fit { TotalsFit totals.accepted totals.refuted totals.unjudged }
    ensures wrote { Wrote out.old at (total_line totals.accepted totals.refuted totals.unjudged) out.new result }
    ensures upper_bound { result ≤ at + max_line }
{
    let claims = totals.accepted + totals.refuted + totals.unjudged;
    let after_claims = put_part(out, at, b"total ", claims);
    let after_accepted = put_part(out, after_claims, b" accepted ", totals.accepted);
    let after_refuted = put_part(out, after_accepted, b" refuted ", totals.refuted);
    put_last_part(out, after_refuted, b" unjudged ", totals.unjudged)
}

#[tactic(auto, unfolding(crate::specs::Lines::certified_line))]
fn certified_line(out: &mut [u8], at: usize, claims: u64, accepted: u64) -> usize
    requires { at + max_line ≤ length out.old }
    ensures { Wrote out.old at (certified_line claims accepted) out.new result }
{
    if 1 <= claims && accepted == claims {
        put_words(out, at, b"certified yes\n")
    } else {
        put_words(out, at, b"certified no\n")
    }
}

fn refused_line(out: &mut [u8], refusal: u64, place: u64) -> usize
    requires max_line_in_bounds { max_line ≤ length out.old }
    requires refusal_bound { refusal < 2 ^ 8 }
    requires place_bound { place < 2 ^ 16 }
    ensures { Wrote out.old 0 (refused_line refusal place) out.new result }
{
    let after_refusal = put_part(out, 0, b"refused ", refusal);
    put_last_part(out, after_refusal, b" at ", place)
}

// The totals of an answer. Each but the last ends where the next begins.
fn totals_in(answer: u64) -> Totals
    ensures { result ≡ totals_in answer }
{
    Totals {
        accepted: (answer >> Totals::ACCEPTED_AT)
            % (1 << (Totals::REFUTED_AT - Totals::ACCEPTED_AT)),
        refuted: (answer >> Totals::REFUTED_AT) % (1 << (Totals::UNJUDGED_AT - Totals::REFUTED_AT)),
        unjudged: answer >> Totals::UNJUDGED_AT,
    }
}

// Where `out` has no room for as many lines of the longest kind, nothing is written and the answer is 0. A record that
// the verdict buffer does not have reads as not judged.
pub fn report(answer: u64, verdicts: &[u8], out: &mut [u8]) -> usize
    ensures prefix_len { IsPrefixLen result out.new }
    ensures value { result ≡ length (report_in (length out.old) answer verdicts.now) }
    ensures out_after { out.new ≡ put out.old 0 (report_in (length out.old) answer verdicts.now) }
{
    let totals = totals_in(answer);
    let claims = totals.accepted + totals.refuted + totals.unjudged;
    if (out.len() as u64) < MAX_LINE as u64 * (claims + 2) {
        return 0;
    }
    let refusal = answer % 256;
    if refusal != 0 {
        return refused_line(out, refusal, answer / 256 % 65_536);
    }
    let after_claims = claim_lines(out, verdicts, claims as usize);
    let after_total = total_line(out, after_claims, totals);
    certified_line(out, after_total, claims, totals.accepted)
}
