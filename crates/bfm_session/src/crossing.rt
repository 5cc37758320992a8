ghost use Rattle.std.specs.List.{flat_map};
ghost use Rattle.bfm_base.specs.Account.{Sends};
ghost use Rattle.bfm_session.specs.CrossingText.{crossing_text, places_line, spaced, weights_line};

use bfm_base::{Failed, P3, Sink, send, send_pieces};
use bfm_geom::Weights;
use crossing_check::SetVerdict;
use itoa::Buffer;

/// Writes what a verdict says of a set of bond vectors: one line, or two where the set has a
/// crossing move. Where it answers `Failed`, a call of the sink failed, and it took a prefix of the
/// lines. The sink is not flushed.
pub fn crossing_lines<S: Sink>(verdict: &SetVerdict, sink: &mut S) -> Result<(), Failed>
    ensures { Sends result (S.account sink.old) (S.account sink.new) (crossing_text verdict.now) }
{
    match verdict {
        SetVerdict::Free => send(sink, b"crossing free\n"),
        SetVerdict::Crossing {
            b,
            dir,
            c,
            e,
            weights,
        } => {
            places_line(&[*b, dir.step(), *c, *e], sink)?;
            weights_line(*weights, sink)
        }
    }
}

/// Writes the line of a crossing move.
fn places_line<S: Sink>(places: &[P3], sink: &mut S) -> Result<(), Failed>
    ensures { Sends result (S.account sink.old) (S.account sink.new) (places_line places.now) }
{
    send(sink, b"crossing")?;
    spaced_places(places, sink)?;
    send(sink, b"\n")
}

/// Writes the components of places.
fn spaced_places<S: Sink>(places: &[P3], sink: &mut S) -> Result<(), Failed>
    ensures { Sends result (S.account sink.old) (S.account sink.new) (flat_map spaced places.now) }
{
    for place in places {
        spaced(*place, sink)?;
    }
    Ok(())
}

/// Writes the components of a place, each with a space before it.
fn spaced<S: Sink>(place: P3, sink: &mut S) -> Result<(), Failed>
    ensures { Sends result (S.account sink.old) (S.account sink.new) (spaced place) }
{
    let (mut x, mut y, mut z) = (Buffer::new(), Buffer::new(), Buffer::new());
    let x = x.format(place.x).as_bytes();
    let y = y.format(place.y).as_bytes();
    let z = z.format(place.z).as_bytes();
    send_pieces(sink, &[b" ", x, b" ", y, b" ", z])
}

/// Writes the line of weights.
fn weights_line<S: Sink>(weights: Weights, sink: &mut S) -> Result<(), Failed>
    ensures { Sends result (S.account sink.old) (S.account sink.new) (weights_line weights) }
{
    let (mut u, mut v, mut w) = (Buffer::new(), Buffer::new(), Buffer::new());
    let (mut p, mut q) = (Buffer::new(), Buffer::new());
    let u = u.format(weights.u).as_bytes();
    let v = v.format(weights.v).as_bytes();
    let w = w.format(weights.w).as_bytes();
    let p = p.format(weights.p).as_bytes();
    let q = q.format(weights.q).as_bytes();
    send_pieces(
        sink,
        &[b"weights ", u, b" ", v, b" ", w, b" ", p, b" ", q, b"\n"],
    )
}
