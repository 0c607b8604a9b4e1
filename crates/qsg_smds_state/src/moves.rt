//! The table of moves, and the call.

ghost use Rattle.std.specs.Prelude.{◌≡◌, Option, Some, None, Ok, Err, OnOk, OnErr, IfOk, IfErr};
ghost use Rattle.qsg_repo.specs.Tables.{smds_at, with_smds};
ghost use Rattle.qsg_smds_state.specs.Moves.{moved};

use qsg_num::{Member, StructNo, Wanted};
use qsg_repo::{Access, Repo, Smds, Status};

/// A data set in this state can't be moved as was wanted.
#[derive(Clone, Copy, Debug, PartialEq, Eq)]
pub struct BadMove {
    pub from: Smds,
    pub wanted: Wanted,
}

/// Where a data set is moved; None where the table of moves has none.
fn moved(from: Smds, wanted: Wanted) -> Option<Smds>
    ensures { result ≡ moved from wanted }
{
    match (wanted, from.status) {
        (Wanted::StatusFailed, Status::Failed) => None,
        (Wanted::StatusFailed, _) => Some(Smds {
            access: Access::Suspended,
            status: Status::Failed,
        }),
        (Wanted::StatusRecovered, Status::Failed | Status::InRecover) => Some(Smds {
            access: Access::Enabled,
            status: Status::Recovered,
        }),
        (Wanted::StatusRecovered, _) => None,
        (Wanted::AccessDisabled, status) => Some(Smds {
            access: Access::Disabled,
            status,
        }),
        (Wanted::AccessEnabled, Status::Failed | Status::InRecover) => None,
        (Wanted::AccessEnabled, status) => Some(Smds {
            access: Access::Enabled,
            status,
        }),
    }
}

/// Moves the data set that a member has for a structure as the operator wants it, and answers its state then.
/// It answers BadMove, with nothing changed, exactly where the table of moves has none. Takes no memory.
pub fn reset(
    repo: &mut Repo,
    member: Member,
    structure: StructNo,
    wanted: Wanted,
) -> Result<Smds, BadMove>
    ensures moved { IfOk result (λ to. moved (smds_at member structure repo.old) wanted ≡ Some to) }
    ensures set { IfOk result (λ to. repo.new ≡ with_smds member structure to repo.old) }
    ensures no_move { OnErr result (moved (smds_at member structure repo.old) wanted ≡ None) }
    ensures told { IfErr result (λ bad. bad ≡ record { from = smds_at member structure repo.old; wanted = wanted }) }
    ensures unchanged { OnErr result (repo.new ≡ repo.old) }
{
    let from = repo.smds(member, structure);
    let to = moved(from, wanted).ok_or(BadMove { from, wanted })?;
    repo.set_smds(member, structure, to);
    Ok(to)
}
