//! Access and status of a data set.

ghost use Rattle.std.specs.Prelude.{◌≡◌, ℕ, map, ◌≤◌};
ghost use Rattle.std.specs.List.{list_any};
ghost use Rattle.qsg_repo.specs.Statuses.{used_smds, dirty_smds, done_smds, stopped_smds, is_failed_smds};

/// Whether a data set may be used.
#[derive(Clone, Copy, Debug, PartialEq, Eq)]
pub enum Access {
    Enabled,
    /// Not until the data set is recovered.
    Suspended,
    /// Not until the operator enables it.
    Disabled,
}

/// What is in a data set.
#[derive(Clone, Copy, Debug, PartialEq, Eq)]
pub enum Status {
    /// It wasn't used yet.
    New,
    /// It was used.
    Active,
    /// Its member stopped while no block was used.
    Empty,
    /// What it holds is lost.
    Failed,
    /// A RECOVER of its structure is in progress.
    InRecover,
    /// It was recovered and not used since.
    Recovered,
}

/// Access and status of the data set that a member has for a structure.
#[derive(Clone, Copy, Debug, PartialEq, Eq)]
pub struct Smds {
    pub access: Access,
    pub status: Status,
}

/// The data sets of a structure, one for each member.
#[derive(Clone, Copy, Debug, PartialEq, Eq)]
pub struct DataSets {
    pub members: [Smds; 8],
}

/// A data set at the start.
pub const NEW_SMDS: Smds = Smds {
    access: Access::Enabled,
    status: Status::New,
};

impl Smds {
    /// As it is once its member uses it.
    pub fn used(self) -> Smds
        ensures { result ≡ used_smds self }
    {
        match (self.access, self.status) {
            (Access::Enabled, Status::New | Status::Empty | Status::Recovered) => Smds {
                access: self.access,
                status: Status::Active,
            },
            _ => self,
        }
    }

    /// As it is once its member stopped with so many blocks used.
    pub fn stopped(self, used: u32) -> Smds
        ensures { result ≡ stopped_smds used self }
    {
        if used == 0 && matches!(self.status, Status::Active) {
            Smds {
                access: self.access,
                status: Status::Empty,
            }
        } else {
            self
        }
    }

    /// Whether what it holds is lost.
    fn is_failed(self) -> bool
        ensures { result ≡ is_failed_smds self }
    {
        matches!(self.status, Status::Failed)
    }

    /// As it is once a RECOVER of its structure begins.
    fn dirty(self) -> Smds
        ensures { result ≡ dirty_smds self }
    {
        if self.is_failed() {
            Smds {
                access: self.access,
                status: Status::InRecover,
            }
        } else {
            self
        }
    }

    /// As it is once that RECOVER ends, well or not.
    fn done(self, recovered: bool) -> Smds
        ensures { result ≡ done_smds recovered self }
    {
        match self.status {
            Status::InRecover => {
                if recovered {
                    Smds {
                        access: Access::Enabled,
                        status: Status::Recovered,
                    }
                } else {
                    Smds {
                        access: self.access,
                        status: Status::Failed,
                    }
                }
            }
            _ => self,
        }
    }
}

/// A RECOVER of the structure begins: answers whether a data set of it is failed.
pub fn make_dirty(row: &mut [Smds; 8]) -> bool
    ensures value { result ≡ list_any is_failed_smds row.old }
    ensures after { row.new ≡ map dirty_smds row.old }
{
    let was_failed = row.iter().any(|smds| smds.is_failed());
    for smds in row.iter_mut() {
        *smds = smds.dirty();
    }
    was_failed
}

/// A RECOVER of the structure ends.
pub fn make_done(row: &mut [Smds; 8], recovered: bool)
    ensures { row.new ≡ map (done_smds recovered) row.old }
{
    for smds in row.iter_mut() {
        *smds = smds.done(recovered);
    }
}
