// What a frame or a reading makes of one session, by value (01, "Life of a session"). No slots and no store are known here.
#![tactic(auto)]

ghost use Rattle.std.specs.Prelude.{◌≡◌};
ghost use Rattle.session.specs.Decisions.{stays, refused};

pub mod announcement;
pub mod clock;
pub mod end;
pub mod segment;

use answer::Answer;
use frame::refusal::Refusal;
use progress::{Announced, Progress};

// An open session: what was announced, and how far it has come.
#[derive(Clone, Copy)]
pub struct Session {
    pub announced: Announced,
    pub progress: Progress,
}

// What becomes of a session, which opens as S and moves on to P; of a sender's transfer too.
#[derive(Clone, Copy)]
pub enum Change<S, P> {
    Stays,
    Opens(S),
    Moves(P),
    Ends,
}

// What becomes of the session, and what is answered. A transfer's step is a struct of its own: the two differ in what is answered, and the
// field's name says which end answers.
#[derive(Clone, Copy)]
pub struct Step {
    pub change: Change<Session, Progress>,
    pub answer: Answer,
}

impl Step {
    // An answer by which nothing changes.
    pub fn stays(answer: Answer) -> Step
        ensures { result ≡ stays answer }
    {
        Step {
            change: Change::Stays,
            answer,
        }
    }

    pub fn refused(n: Refusal) -> Step
        ensures { result ≡ refused n }
    {
        Step::stays(Answer::Refused(n))
    }
}
