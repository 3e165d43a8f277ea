// The lines of a frame's answer.
ghost use Rattle.report.specs.Lines.{answer_lines};
ghost use Rattle.text.specs.Line.{Placed};

use super::group::write_groups;
use answer::Answer;
use session_lines::ending::{write_aborted, write_ending, write_refused, write_rejection};
use session_lines::message::write_handed_over;
use session_lines::progress::{write_grant, write_opened, write_taken};

// The lines of the answer to a frame: its data, and the part of the store that the answer speaks of.
#[tactic(auto, unfolding(crate::specs::Lines::answer_lines))]
pub fn write_answer(
    out: &mut [u8],
    at: usize,
    frame: &[u8],
    answer: Answer,
    bytes: &[u8],
) -> Option<usize>
    ensures { Placed out.old at (answer_lines frame.now answer bytes.now) result out.new }
{
    match answer {
        Answer::Groups(route) => write_groups(out, at, route, frame),
        Answer::Opened(key) => write_opened(out, at, key),
        Answer::Taken(taken) => write_taken(out, at, taken),
        Answer::Grant(cts) => write_grant(out, at, cts),
        Answer::HandedOver(m) => write_handed_over(out, at, m, bytes),
        Answer::Aborted(key) => write_aborted(out, at, key),
        Answer::Ended(ending) => write_ending(out, at, ending),
        Answer::RefusedRts(rejection) => write_rejection(out, at, rejection),
        Answer::Refused(refusal) => write_refused(out, at, refusal),
    }
}
