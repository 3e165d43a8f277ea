// Refusals, and a session that ends without a message.
ghost use Rattle.std.specs.Prelude.{◌≡◌, [], ◌∷◌};
ghost use Rattle.frame.specs.Refusals.{number_of};
ghost use Rattle.session_lines.specs.Lines.{session_line, ending_word, ending_numbers, ending_line, refused_line, abort_word, ended_word};
ghost use Rattle.text.specs.Line.{line_of, bytes_of, Placed};

use super::key::session_numbers;
use answer::{Ending, Rejection};
use frame::refusal::{Refusal, number};
use text::line::Line;
use transport::{Key, Kind};

// A refusal that ends no session and is answered by no Abort.
pub fn write_refused(out: &mut [u8], at: usize, refusal: Refusal) -> Option<usize>
    ensures { Placed out.old at (refused_line refusal) result out.new }
{
    let fields = [u64::from(number(refusal))];
    Line::plain(b"refused", &fields).write(out, at)
}

fn refusal_numbers(key: Key, refusal: Refusal) -> [u64; 3]
    ensures { result ≡ key.sa.0 ∷ key.session.0 ∷ number_of refusal ∷ [] }
{
    let [sa, session] = session_numbers(key);
    [sa, session, u64::from(number(refusal))]
}

// What a session ends with where a refusal ends it.
pub fn ending_numbers(ending: Ending) -> [u64; 3]
    ensures { result ≡ ending_numbers ending }
{
    refusal_numbers(ending.key, ending.refusal)
}

// The line with these numbers: an RTS sends Abort and a BAM nothing.
pub fn ending_line<'a>(kind: Kind, fields: &'a [u64]) -> Line<'a>
    ensures { bytes_of result ≡ line_of (ending_word kind) fields.now }
{
    match kind {
        Kind::Rts => Line::plain(b"send abort", fields),
        Kind::Bam => Line::plain(b"ended", fields),
    }
}

// A refusal ends a session.
pub fn write_ending(out: &mut [u8], at: usize, ending: Ending) -> Option<usize>
    ensures { Placed out.old at (ending_line ending) result out.new }
{
    let fields = ending_numbers(ending);
    ending_line(ending.kind, &fields).write(out, at)
}

// The originator's Abort ended the session.
pub fn write_aborted(out: &mut [u8], at: usize, key: Key) -> Option<usize>
    ensures { Placed out.old at (session_line ended_word key (0 ∷ [])) result out.new }
{
    let [sa, session] = session_numbers(key);
    let fields = [sa, session, 0];
    Line::plain(b"ended", &fields).write(out, at)
}

// The Abort that answers an RTS refused.
pub fn write_rejection(out: &mut [u8], at: usize, rejection: Rejection) -> Option<usize>
    ensures { Placed out.old at (session_line abort_word rejection.key (number_of rejection.refusal ∷ [])) result out.new }
{
    let fields = refusal_numbers(rejection.key, rejection.refusal);
    Line::plain(b"send abort", &fields).write(out, at)
}
