//! Every row of the table of moves.

use super::*;
use qsg_num::{Member, StructNo, Wanted};
use qsg_repo::{Access, Repo, Smds, Status};
use std::test::Fail;

const fn smds(access: Access, status: Status) -> Smds {
    Smds { access, status }
}

#[test]
fn moves_are_those_of_the_table(rt: HostRuntime) -> Result<(), Fail> {
    let given_up = Some(smds(Access::Suspended, Status::Failed));
    let recovered = Some(smds(Access::Enabled, Status::Recovered));
    // status, whether access may be enabled, and what STATUS(FAILED) and STATUS(RECOVERED) give
    let rows = [
        (Status::New, true, given_up, None),
        (Status::Active, true, given_up, None),
        (Status::Empty, true, given_up, None),
        (Status::Failed, false, None, recovered),
        (Status::InRecover, false, given_up, recovered),
        (Status::Recovered, true, given_up, None),
    ];
    let mut repo = Repo::new(rt.alloc(), 3, 2, [true, false, false, false], 1)?;
    let (member, structure) = (Member::Two, StructNo::One);
    for (status, may_enable, to_failed, to_recovered) in rows {
        for access in [Access::Enabled, Access::Suspended, Access::Disabled] {
            let from = smds(access, status);
            let enabled = if may_enable {
                Some(smds(Access::Enabled, status))
            } else {
                None
            };
            let cases = [
                (Wanted::AccessEnabled, enabled),
                (Wanted::AccessDisabled, Some(smds(Access::Disabled, status))),
                (Wanted::StatusFailed, to_failed),
                (Wanted::StatusRecovered, to_recovered),
            ];
            for (wanted, to) in cases {
                repo.set_smds(member, structure, from);
                let want = to.ok_or(BadMove { from, wanted });
                assert_eq!(rt; reset(&mut repo, member, structure, wanted), want);
                assert_eq!(rt; repo.smds(member, structure), to.unwrap_or(from));
            }
        }
    }
    Ok(())
}
