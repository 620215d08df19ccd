// A stream or a file read into lent bytes, for the programs.
#![tactic(auto)]

ghost use Rattle.std.specs.Prelude.{◌<◌, ◌≤◌, IfOk, IfSome, length, take};
ghost use Rattle.std.specs.Io.{ReadsAtMost};
ghost use Rattle.std.specs.Io.KnownBytes.{Consumes, IsAtEnd};

use std::fs;
use std::io::{Read, Result};
use std::rt::Files;

// Reads until the bytes are full or the stream is at its end, and answers how many were read. The first clause says
// what `&buf[..n]` asks; the others, of a reader whose bytes are known, that these are the next n of them, and that
// fewer than asked are read at the end alone.
pub fn read_full<R: Read>(from: &mut R, buf: &mut [u8]) -> Result<usize>
    ensures count { ReadsAtMost result buf.new }
    ensures bytes { IfOk result (λ n. Consumes (R.remaining from.old) (R.remaining from.new) (take n buf.new)) }
    ensures end { IfOk result (λ n. n < length buf.new → IsAtEnd (R.remaining from.new)) }
{
    let mut done = 0;
    // No `for`: how many a turn reads is the reader's.
    while done < buf.len() {
        let n = from.read(&mut buf[done..])?;
        if n == 0 {
            break;
        }
        done += n;
    }
    Ok(done)
}

// Reads a file, as many bytes as there is room for, and answers how many were read. None where there is no such file; a
// name that is no text names none.
pub fn read_file(rt: &impl Files, name: &[u8], room: &mut [u8]) -> Result<Option<usize>>
    ensures { IfOk result (λ read. IfSome read (λ n. n ≤ length room.new)) }
{
    let Ok(name) = str::from_utf8(name) else {
        return Ok(None);
    };
    let Ok(mut file) = fs::open(rt, name) else {
        return Ok(None);
    };
    let n = read_full(&mut file, room)?;
    Ok(Some(n))
}
