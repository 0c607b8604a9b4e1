//! A whole run.

ghost use Rattle.std.specs.Prelude.{◌<◌, List, length, IfOk, OnOk};
ghost use Rattle.qsg_drive.specs.Runs.{Made, IsRun, IsNewCourse};
ghost use Rattle.qsg_drive.specs.Turns.{IsTurn, IsTurnPace};

use crate::group::Group;
use crate::tries::{moves, try_from};
use qsg_num::Actor;
use qsg_schedule::{Chooser, Pick};
use std::alloc::{AllocError, Global};

/// Makes the step of a pick, where `quiet` rounds in a row didn't move before it; how many didn't after it. As many as
/// there are actors are told where no actor's step moves.
fn turn<G: Group>(
    alloc: Global,
    group: &mut G,
    actors: &[Actor],
    pick: Pick,
    quiet: usize,
) -> Result<usize, AllocError>
    requires { quiet < length actors.now }
    ensures turn { IfOk result (λ after. IsTurn pick actors.now quiet (G.state group.old) after (G.state group.new)) }
    ensures pace { IfOk result (λ after. IsTurnPace pick quiet (G.left group.old) after (G.left group.new)) }
{
    match pick {
        Pick::Exactly(actor) => {
            let _step = group.step(alloc, actor)?;
            Ok(0)
        }
        Pick::Round(actor) => {
            if moves(group.step(alloc, actor)?) {
                return Ok(0);
            }
            Ok(quiet + 1)
        }
        Pick::From(actor) => {
            if try_from(alloc, group, actors, actor)? {
                return Ok(0);
            }
            Ok(actors.len())
        }
    }
}

/// Runs a group to its end, by the picks of a chooser of these actors: until no actor's step moves, or memory is
/// wanting.
pub fn drive<G: Group>(
    alloc: Global,
    group: &mut G,
    chooser: Chooser,
    actors: &[Actor],
) -> Result<(), AllocError>
    requires some { 0 < length actors.now }
    requires new { IsNewCourse actors.now chooser }
    ensures { OnOk result ((path : List Made) × IsRun actors.now chooser (G.state group.old) path (G.state group.new)) }
{
    let mut chooser = chooser;
    let mut quiet = 0;
    while quiet < actors.len() {
        quiet = turn(alloc, group, actors, chooser.next(), quiet)?;
    }
    Ok(())
}
