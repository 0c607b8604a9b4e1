//! What a crash leaves.

ghost use Rattle.std.specs.Prelude.{◌≡◌, length};
ghost use Rattle.qsg_num.specs.declared.seats.Member.{Member};
ghost use Rattle.qsg_num.specs.Seats.{member_number};
ghost use Rattle.qsg_repo.specs.Tables.{low_of};
ghost use Rattle.qsg_manager.specs.Storage.{manager_in};
ghost use Rattle.qsg_logs.specs.Kept.{log_in};
ghost use Rattle.qsg_datasets.specs.Kept.{sets_of};
ghost use Rattle.qsg_parts.specs.Owned.{Owned};
ghost use Rattle.qsg_crash.specs.Crashes.{IsCrash};

/// A crash leaves the storage, the log and the data sets of each other member as they were, the low page of every member,
/// and how many members, logs and data sets the group has.
pub fn a_crash_leaves_other_members()
    ensures storage { (m k : Member) (p q : Owned) → IsCrash m p q → (member_number k ≡ member_number m → ⊥) → manager_in k q.managers ≡ manager_in k p.managers }
    ensures log { (m k : Member) (p q : Owned) → IsCrash m p q → (member_number k ≡ member_number m → ⊥) → log_in k q.logs ≡ log_in k p.logs }
    ensures datasets { (m k : Member) (p q : Owned) → IsCrash m p q → (member_number k ≡ member_number m → ⊥) → sets_of k q.datasets ≡ sets_of k p.datasets }
    ensures low { (m k : Member) (p q : Owned) → IsCrash m p q → low_of k q.repo ≡ low_of k p.repo }
    ensures members { (m : Member) (p q : Owned) → IsCrash m p q → length q.managers ≡ length p.managers }
    ensures logs { (m : Member) (p q : Owned) → IsCrash m p q → length q.logs ≡ length p.logs }
    ensures rows { (m : Member) (p q : Owned) → IsCrash m p q → length q.datasets ≡ length p.datasets }
{}
