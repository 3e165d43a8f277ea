// A Multi-PG frame read at a place, and judged whole (01, "Groups in one frame").
ghost use Rattle.std.specs.Prelude.{◌≡◌};
ghost use Rattle.multi_pg.specs.Groups.{step_at, judgement_of, groups_read};

use super::Group;
use super::header::{headed_by, pgn_of, service_of};
use frame::refusal::Refusal;

// The group at a place of a frame; none where the groups end.
pub fn step(frame: &[u8], at: usize) -> Result<Option<Group>, Refusal>
    ensures { result ≡ step_at frame.now at }
{
    if frame.len() <= at {
        return Ok(None);
    }
    let start = at + 4;
    let first = frame[at];
    match service_of(first) {
        Ok(None) => Ok(None),
        _ if frame.len() < start => Err(Refusal::HeaderCut),
        Err(refusal) => Err(refusal),
        Ok(Some(trailer)) => {
            let pgn = pgn_of(first, frame[at + 1], frame[at + 2]);
            let payload = usize::from(frame[at + 3]);
            headed_by(
                first,
                pgn,
                payload,
                trailer,
                start,
                start + payload <= frame.len(),
            )
        }
    }
}

// The judgement on a whole frame, before any group is given out: the first fault met refuses it.
pub fn judge(frame: &[u8]) -> Result<(), Refusal>
    ensures { result ≡ judgement_of (groups_read frame.now) }
{
    let mut at: usize = 0;
    while let Some(group) = step(frame, at)? {
        at = group.end();
    }
    Ok(())
}
