// The four calls. Whatever is passed, each has its answer; a refused call leaves writer and bytes as they were.
ghost use Rattle.std.specs.Prelude.{◌≡◌};
ghost use Rattle.content.specs.Layout.{listed_of};
ghost use Rattle.writer.specs.Writing.{begin, add_curve, add_claim, close, called, written};

use crate::Writer;
use crate::fields::{put_claim, put_curve, put_end, put_version};
use content::claims::{statement_fault, third_width};
use content::curves::listed_fault;
use content::{Listed, Refusal, Statement};
use field::Tag;

// The version that is written.
const VERSION: u8 = 1;

impl Writer {
    pub fn begin(&mut self, out: &mut [u8]) -> Result<(), Refusal>
        ensures value { result ≡ (called (begin 1) self.old out.old).checked }
        ensures writer_after { self.new ≡ (called (begin 1) self.old out.old).writer }
        ensures out_after { out.new ≡ written (begin 1) self.old out.old }
    {
        let size = 4;
        self.admitted(Tag::Version, Ok(()), out.len(), size)?;
        put_version(out, self.state.place, VERSION);
        self.state.version = VERSION;
        self.state.place += size;
        Ok(())
    }

    // A curve of numbers of any size, with any list.
    pub fn add_curve(&mut self, out: &mut [u8], curve: Listed) -> Result<(), Refusal>
        ensures value { result ≡ (called (add_curve (listed_of curve.entry)) self.old out.old).checked }
        ensures writer_after { self.new ≡ (called (add_curve (listed_of curve.entry)) self.old out.old).writer }
        ensures out_after { out.new ≡ written (add_curve (listed_of curve.entry)) self.old out.old }
    {
        let size = 11 + 4 * curve.values.len();
        let fault = listed_fault(curve);
        self.admitted(Tag::Curve, fault, out.len(), size)?;
        put_curve(out, self.state.place, curve);
        self.state.curves += 1;
        self.state.place += size;
        Ok(())
    }

    // A claim of numbers of any size.
    pub fn add_claim(&mut self, out: &mut [u8], claim: Statement) -> Result<(), Refusal>
        ensures value { result ≡ (called (add_claim claim) self.old out.old).checked }
        ensures writer_after { self.new ≡ (called (add_claim claim) self.old out.old).writer }
        ensures out_after { out.new ≡ written (add_claim claim) self.old out.old }
    {
        let size = 6 + third_width(claim.kind);
        let fault = statement_fault(claim, self.state.curves);
        self.admitted(Tag::Claim, fault, out.len(), size)?;
        put_claim(out, self.state.place, claim);
        self.state.claims += 1;
        self.state.place += size;
        Ok(())
    }

    pub fn close(&mut self, out: &mut [u8]) -> Result<(), Refusal>
        ensures value { result ≡ (called close self.old out.old).checked }
        ensures writer_after { self.new ≡ (called close self.old out.old).writer }
        ensures out_after { out.new ≡ written close self.old out.old }
    {
        let size = 3;
        self.admitted(Tag::End, Ok(()), out.len(), size)?;
        put_end(out, self.state.place);
        self.state.place += size;
        self.closed = true;
        Ok(())
    }
}
