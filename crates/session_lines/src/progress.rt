// A session that opens and comes on.
ghost use Rattle.std.specs.Prelude.{[], ◌∷◌};
ghost use Rattle.session_lines.specs.Lines.{session_line, open_word, took_word, cts_word};
ghost use Rattle.text.specs.Line.{Placed};

use super::key::session_numbers;
use answer::Taken;
use text::line::Line;
use transport::Key;
use transport::cts::Cts;

// A BAM was accepted.
pub fn write_opened(out: &mut [u8], at: usize, key: Key) -> Option<usize>
    ensures { Placed out.old at (session_line open_word key []) result out.new }
{
    let fields = session_numbers(key);
    Line::plain(b"open", &fields).write(out, at)
}

// A segment was taken with no CTS due.
pub fn write_taken(out: &mut [u8], at: usize, taken: Taken) -> Option<usize>
    ensures { Placed out.old at (session_line took_word taken.key (taken.number.0 ∷ [])) result out.new }
{
    let [sa, session] = session_numbers(taken.key);
    let fields = [sa, session, u64::from(taken.number.0)];
    Line::plain(b"took", &fields).write(out, at)
}

// The CTS to send.
pub fn write_grant(out: &mut [u8], at: usize, cts: Cts) -> Option<usize>
    ensures { Placed out.old at (session_line cts_word cts.key (cts.next.0 ∷ cts.count ∷ [])) result out.new }
{
    let [sa, session] = session_numbers(cts.key);
    let fields = [sa, session, u64::from(cts.next.0), u64::from(cts.count)];
    Line::plain(b"send cts", &fields).write(out, at)
}
