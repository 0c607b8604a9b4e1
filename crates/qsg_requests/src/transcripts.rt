//! The answers of all actors.

ghost use Rattle.std.specs.Prelude.{◌≡◌, List};
ghost use Rattle.qsg_num.specs.declared.ids.Actor.{Actor};
ghost use Rattle.qsg_requests.specs.declared.transcript.Answer.{Answer};

use crate::transcript::Answer;
use qsg_num::Actor;

/// Who keeps what each actor of a group was answered, system tasks among them.
pub trait Transcripts {
    /// The answers of an actor, the first one first.
    ghost told: { Self → Actor → List Answer };

    /// These answers.
    fn transcript(&self, actor: Actor) -> &[Answer]
        ensures { result.now ≡ told self.now actor };
}
