// What the four calls share: the tests before and after those of the arguments, and a field's bytes.
ghost use Rattle.std.specs.Prelude.{◌≡◌, ◌++◌, ◌+◌, ◌*◌, ◌≤◌, length};
ghost use Rattle.numbers.specs.Put.{bytes_of, put as put_at};
ghost use Rattle.content.specs.Layout.{listed_of, values_bytes};
ghost use Rattle.field.specs.Fields.{tag_number};
ghost use Rattle.writer.specs.Writing.{begin, add_curve, add_claim, close, call_field, first, order_fault, room_fault};

use crate::Writer;
use content::claims::third_width;
use content::{Listed, Refusal, Statement};
use field::Tag;
use field::steps::{full, in_order};
use numbers::put;

// So many bytes from a place on have room.
#[tactic(auto, unfolding(crate::specs::Writing::room_fault))]
fn room_fault(room: usize, place: usize, size: usize) -> Result<(), Refusal>
    ensures { result ≡ room_fault room place size }
{
    if room < size || room - size < place {
        return Err(Refusal::NoRoom);
    }
    Ok(())
}

impl Writer {
    // A field of this tag has its turn, and there are not too many of them.
    #[tactic(auto, unfolding(crate::specs::Writing::order_fault))]
    fn order_fault(self, tag: Tag) -> Result<(), Refusal>
        ensures { result ≡ order_fault self tag }
    {
        let state = self.state;
        if self.closed || !in_order(tag, state.version, state.claims) {
            return Err(Refusal::OutOfOrder);
        }
        if full(tag, state.curves, state.claims) {
            return Err(Refusal::TooMany);
        }
        Ok(())
    }

    // Document 01's order: a field's turn and count, then what is said of its arguments, and last its room. The first
    // refusal counts.
    pub(crate) fn admitted(
        self,
        tag: Tag,
        argument: Result<(), Refusal>,
        length: usize,
        size: usize,
    ) -> Result<(), Refusal>
        ensures { result ≡ first (order_fault self tag) (first argument (room_fault length self.state.place size)) }
    {
        self.order_fault(tag)?;
        argument?;
        room_fault(length, self.state.place, size)
    }
}

// Tag and length.
fn put_head(out: &mut [u8], place: usize, tag: Tag, content: usize)
    requires { place + 3 ≤ length out.old }
    ensures { out.new ≡ put_at out.old place (bytes_of 1 (tag_number tag) ++ bytes_of 2 content) }
{
    put(out, place, 1, tag.number() as u64);
    put(out, place + 1, 2, content as u64);
}

pub(crate) fn put_version(out: &mut [u8], place: usize, version: u8)
    requires { place + length (call_field (begin version)) ≤ length out.old }
    ensures { out.new ≡ put_at out.old place (call_field (begin version)) }
{
    put_head(out, place, Tag::Version, 1);
    put(out, place + 3, 1, version as u64);
}

fn put_values(out: &mut [u8], at: usize, values: &[u32])
    requires { at + 4 * length values.now ≤ length out.old }
    ensures { out.new ≡ put_at out.old at (values_bytes values.now) }
{
    for (n, value) in values.iter().enumerate() {
        put(out, at + 4 * n, 4, *value as u64);
    }
}

pub(crate) fn put_curve(out: &mut [u8], place: usize, curve: Listed)
    requires { place + length (call_field (add_curve (listed_of curve))) ≤ length out.old }
    ensures { out.new ≡ put_at out.old place (call_field (add_curve (listed_of curve.entry))) }
{
    put_head(out, place, Tag::Curve, 8 + 4 * curve.values.len());
    put(out, place + 3, 2, curve.rank);
    put(out, place + 5, 2, curve.period);
    put(out, place + 7, 4, curve.increment);
    put_values(out, place + 11, curve.values);
}

pub(crate) fn put_claim(out: &mut [u8], place: usize, claim: Statement)
    requires { place + length (call_field (add_claim claim)) ≤ length out.old }
    ensures { out.new ≡ put_at out.old place (call_field (add_claim claim)) }
{
    let width = third_width(claim.kind);
    put_head(out, place, Tag::Claim, 3 + width);
    put(out, place + 3, 1, claim.kind);
    put(out, place + 4, 1, claim.left);
    put(out, place + 5, 1, claim.right);
    put(out, place + 6, width, claim.third);
}

pub(crate) fn put_end(out: &mut [u8], place: usize)
    requires { place + length (call_field close) ≤ length out.old }
    ensures { out.new ≡ put_at out.old place (call_field close) }
{
    put_head(out, place, Tag::End, 0);
}
