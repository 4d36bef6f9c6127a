// The texts of certificates: JSON without spaces.
ghost use Rattle.std.specs.Prelude.{◌≡◌, ◌++◌, ◌∷◌, [], ⊤, ℕ, List, All, codes, OnOk, IfOk};
ghost use Rattle.std.specs.Fmt.{signed_decimal};
ghost use Rattle.std.specs.List.{join_by};
ghost use Rattle.plan_grid.specs.Bounds.{IsInRange};
ghost use Rattle.plan_cross.specs.Segment.{segment_seen};
ghost use Rattle.plan_wire.specs.Bounds.{EndsFit};
ghost use Rattle.plan_wire.specs.CertificateText.{certificate_text, listed, point_text, segment_text};
ghost use Rattle.plan_wire.specs.ReadBack.{HasPointsInRange, IsReadAs};
ghost use Rattle.plan_wire.specs.Seen.{certificate_seen};

use crate::no_memory::NoMemory;
use itoa::Buffer;
use plan_cross::{Certificate, Segment};
use plan_grid::Point;
use std::alloc::Global;

/// The text of a certificate, as `{"path":[[x,y,w],..]}` with three numbers for each point, or
/// `{"chain":[[x,y,w,x,y,w],..]}` with six for each segment: one end and then the other. It is read back as the same
/// certificate.
pub fn print_certificate(alloc: Global, certificate: &Certificate) -> Result<Vec<u8>, NoMemory>
    ensures text { IfOk result (λ text. text.items ≡ certificate_text (certificate_seen certificate.now)) }
    ensures read_back { IfOk result (λ text. IsReadAs text.items (certificate_seen certificate.now)) }
{
    let mut text = Vec::new(alloc);
    put_certificate(&mut text, certificate)?;
    Ok(text)
}

/// Appends the text of a certificate, as `print_certificate` tells it. Where memory runs out, a part of it may stand there.
pub fn put_certificate(text: &mut Vec<u8>, certificate: &Certificate) -> Result<(), NoMemory>
    ensures text { OnOk result (text.new.items ≡ text.old.items ++ certificate_text (certificate_seen certificate.now)) }
    ensures in_range { OnOk result (HasPointsInRange (certificate_seen certificate.now)) }
{
    match certificate {
        Certificate::Path(path) => put_object(text, b"{\"path\":", &path.points),
        Certificate::Blocked(chain) => put_object(text, b"{\"chain\":", &chain.segments),
    }
}

// What has a text as an element of a list.
trait Element {
    ghost text: { Self → List ℕ };

    // What holds of each.
    ghost Holds: { Self → Type 0 };

    // Appends the text.
    fn put(&self, out: &mut Vec<u8>) -> Result<(), NoMemory>
        ensures text { OnOk result (out.new.items ≡ out.old.items ++ text self.now) }
        ensures holds { Holds self.now };
}

impl Element for i64 {
    ghost text = { signed_decimal };

    ghost Holds = { λ _. ⊤ };

    fn put(&self, out: &mut Vec<u8>) -> Result<(), NoMemory> {
        let mut digits = Buffer::new();
        out.extend_from_slice(digits.format(*self).as_bytes())?;
        Ok(())
    }
}

impl Element for Point {
    ghost text = { point_text };

    ghost Holds = { IsInRange };

    fn put(&self, out: &mut Vec<u8>) -> Result<(), NoMemory> {
        put_list(out, &[self.x(), self.y(), self.w()])
    }
}

impl Element for Segment {
    ghost text = { λ s. segment_text (segment_seen s) };

    ghost Holds = { λ s. EndsFit (segment_seen s) };

    fn put(&self, out: &mut Vec<u8>) -> Result<(), NoMemory> {
        let (a, b) = (&self.a, &self.b);
        put_list(out, &[a.x(), a.y(), a.w(), b.x(), b.y(), b.w()])
    }
}

// Appends the brace and the name that an object begins with, its one list, and the brace that ends it.
fn put_object<T: Element>(out: &mut Vec<u8>, start: &[u8], items: &[T]) -> Result<(), NoMemory>
    ensures text { OnOk result (out.new.items ≡ out.old.items ++ (start.now ++ listed T.text items.now ++ codes "}")) }
    ensures holds { OnOk result (All T.Holds items.now) }
{
    out.extend_from_slice(start)?;
    put_list(out, items)?;
    put_byte(out, b'}')
}

// Appends the texts in brackets, with a comma between each and the next.
fn put_list<T: Element>(out: &mut Vec<u8>, items: &[T]) -> Result<(), NoMemory>
    ensures text { OnOk result (out.new.items ≡ out.old.items ++ listed T.text items.now) }
    ensures holds { OnOk result (All T.Holds items.now) }
{
    put_byte(out, b'[')?;
    put_joined(out, items)?;
    put_byte(out, b']')
}

// Appends the texts with a comma between each and the next.
fn put_joined<T: Element>(out: &mut Vec<u8>, items: &[T]) -> Result<(), NoMemory>
    ensures text { OnOk result (out.new.items ≡ out.old.items ++ join_by T.text (codes ",") items.now) }
    ensures holds { OnOk result (All T.Holds items.now) }
{
    let [first, rest @ ..] = items else {
        return Ok(());
    };
    first.put(out)?;
    for item in rest {
        put_byte(out, b',')?;
        item.put(out)?;
    }
    Ok(())
}

fn put_byte(out: &mut Vec<u8>, byte: u8) -> Result<(), NoMemory>
    ensures { OnOk result (out.new.items ≡ out.old.items ++ byte ∷ []) }
{
    out.push(byte).map_err(|_| NoMemory)
}
