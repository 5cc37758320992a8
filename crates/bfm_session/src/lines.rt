ghost use Rattle.std.specs.List.{flat_map};
ghost use Rattle.bfm_base.specs.Account.{Sends};
ghost use Rattle.bfm_session.specs.NumberLines.{number_line, spaced_number};

use bfm_base::{Failed, Sink, send, send_pieces};
use itoa::Buffer;

/// Writes lines, each a name and numbers. The sink is not flushed.
pub fn number_lines<S: Sink>(sink: &mut S, lines: &[(&[u8], &[u64])]) -> Result<(), Failed>
    ensures { Sends result (S.account sink.old) (S.account sink.new) (flat_map (λ line. number_line line.0.now line.1.now) lines.now) }
{
    for (name, numbers) in lines {
        number_line(sink, name, numbers)?;
    }
    Ok(())
}

pub(crate) fn number_line<S: Sink>(sink: &mut S, name: &[u8], numbers: &[u64]) -> Result<(), Failed>
    ensures { Sends result (S.account sink.old) (S.account sink.new) (number_line name.now numbers.now) }
{
    send(sink, name)?;
    spaced_numbers(sink, numbers)?;
    send(sink, b"\n")
}

/// Writes numbers, each with a space before it.
fn spaced_numbers<S: Sink>(sink: &mut S, numbers: &[u64]) -> Result<(), Failed>
    ensures { Sends result (S.account sink.old) (S.account sink.new) (flat_map spaced_number numbers.now) }
{
    for n in numbers {
        spaced_number(sink, *n)?;
    }
    Ok(())
}

fn spaced_number<S: Sink>(sink: &mut S, n: u64) -> Result<(), Failed>
    ensures { Sends result (S.account sink.old) (S.account sink.new) (spaced_number n) }
{
    let mut number = Buffer::new();
    send_pieces(sink, &[b" ", number.format(n).as_bytes()])
}
