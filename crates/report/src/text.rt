// Text written from a place of lent bytes on. Each function answers the place after what it wrote.
ghost use Rattle.std.specs.Prelude.{◌+◌, ◌≤◌, ◌<◌, [], ◌∷◌, ◌++◌, length};
ghost use Rattle.report.specs.Text.{decimal};
ghost use Rattle.numbers.specs.Written.{Wrote};

#[tactic(auto, using(crate::specs::Written::wrote_byte))]
fn put_byte(out: &mut [u8], at: usize, byte: u8) -> usize
    requires { at < length out.old }
    ensures { Wrote out.old at (byte ∷ []) out.new result }
{
    out[at] = byte;
    at + 1
}

pub(crate) fn put_words(out: &mut [u8], at: usize, words: &[u8]) -> usize
    requires { at + length words.now ≤ length out.old }
    ensures { Wrote out.old at words.now out.new result }
{
    let end = at + words.len();
    out[at..end].copy_from_slice(words);
    end
}

fn put_number(out: &mut [u8], at: usize, n: u64) -> usize
    requires { at + length (decimal n) ≤ length out.old }
    ensures { Wrote out.old at (decimal n) out.new result }
{
    if n < 10 {
        return put_byte(out, at, b'0' + n as u8);
    }
    let last = put_number(out, at, n / 10);
    put_byte(out, last, b'0' + (n % 10) as u8)
}

// The words and the number after them.
pub(crate) fn put_part(out: &mut [u8], at: usize, words: &[u8], n: u64) -> usize
    requires { at + length words.now + length (decimal n) ≤ length out.old }
    ensures { Wrote out.old at (words.now ++ decimal n) out.new result }
{
    let next = put_words(out, at, words);
    put_number(out, next, n)
}

// The same at the end of a line.
pub(crate) fn put_last_part(out: &mut [u8], at: usize, words: &[u8], n: u64) -> usize
    requires { at + length words.now + length (decimal n) < length out.old }
    ensures { Wrote out.old at (words.now ++ decimal n ++ (10 ∷ [])) out.new result }
{
    let end = put_part(out, at, words, n);
    put_byte(out, end, b'\n')
}
