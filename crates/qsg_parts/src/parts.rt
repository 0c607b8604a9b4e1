//! The parts of a group.

use qsg_datasets::DataSets;
use qsg_disk::Disk;
use qsg_logs::Logs;
use qsg_manager::{Managers, Structures};
use qsg_model::History;
use qsg_objects::Objects;
use qsg_repo::Repo;

/// What a group owns. Members, structures and tasks go by their numbers.
#[derive(Drop)]
pub struct Parts<D: Disk> {
    /// The list structures.
    pub structures: Structures,
    /// What members keep in their own storage.
    pub managers: Managers,
    /// The members' logs, with what members keep of them.
    pub logs: Logs<D>,
    /// The members' data sets, with what members keep of them.
    pub datasets: DataSets<D>,
    /// What all members share besides.
    pub repo: Repo,
    /// The definitions of structures and queues.
    pub objects: Objects,
    /// What happened.
    pub history: History,
}
