// Numbers in bytes, high byte first. Where the bytes end before the number does, it is 0.
#![tactic(auto)]

ghost use Rattle.std.specs.Prelude.{◌≡◌, ◌<◌, ◌^◌};
ghost use Rattle.numbers.specs.Numbers.{number_within};
ghost use Rattle.numbers.specs.Put.{put_whole, bytes_of};

// The number in the `W` bytes from `at` on. Nine bytes and more may not fit in its 64 bits, and are read as 0.
pub fn number<const W: usize>(bytes: &[u8], at: usize) -> u64
    ensures value { result ≡ number_within W bytes.now at }
    ensures upper_bound { result < 256 ^ W }
{
    if 8 < W {
        return 0;
    }
    let length = bytes.len();
    if length < W || length - W < at {
        return 0;
    }
    let mut number: u64 = 0;
    for byte in &bytes[at..at + W] {
        number = number * 256 + *byte as u64;
    }
    number
}

// The number's last `width` bytes, over those from `at` on; where they have no room, nothing is written.
pub fn put(out: &mut [u8], at: usize, width: usize, n: u64)
    ensures { out.new ≡ put_whole out.old at (bytes_of width n) }
{
    let length = out.len();
    if length < width || length - width < at {
        return;
    }
    let mut rest = n;
    for k in (0..width).rev() {
        out[at + k] = (rest % 256) as u8;
        rest /= 256;
    }
}
