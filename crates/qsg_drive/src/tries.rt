//! The first of several actors whose step moves.

ghost use Rattle.std.specs.Prelude.{◌≡◌, ◌++◌, IfOk, take, drop};
ghost use Rattle.qsg_drive.specs.Runs.{round_from};
ghost use Rattle.qsg_drive.specs.Tries.{moves, AreTried, IsTriedPace};

use crate::group::Group;
use crate::places::place_of;
use qsg_num::Actor;
use qsg_step::Step;
use std::alloc::{AllocError, Global};

/// Whether a step moved.
pub fn moves(step: Step) -> bool
    ensures { result ≡ moves step }
{
    match step {
        Step::Moved => true,
        Step::Waits(_) | Step::Done => false,
    }
}

/// Tries the steps of these actors in turn up to the first that moves, and says whether one does.
fn try_all<G: Group>(alloc: Global, group: &mut G, actors: &[Actor]) -> Result<bool, AllocError>
    ensures tried { IfOk result (λ moved. AreTried moved actors.now (G.state group.old) (G.state group.new)) }
    ensures pace { IfOk result (λ moved. IsTriedPace moved (G.left group.old) (G.left group.new)) }
{
    for actor in actors {
        if moves(group.step(alloc, *actor)?) {
            return Ok(true);
        }
    }
    Ok(false)
}

/// The same from that actor on, round to the front.
pub fn try_from<G: Group>(
    alloc: Global,
    group: &mut G,
    actors: &[Actor],
    from: Actor,
) -> Result<bool, AllocError>
    ensures tried { IfOk result (λ moved. AreTried moved (round_from from actors.now) (G.state group.old) (G.state group.new)) }
    ensures pace { IfOk result (λ moved. IsTriedPace moved (G.left group.old) (G.left group.new)) }
{
    let place = place_of(actors, from);
    let (front, back) = actors.split_at(place);
    if try_all(alloc, group, back)? {
        return Ok(true);
    }
    try_all(alloc, group, front)
}
