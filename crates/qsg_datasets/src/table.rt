//! The data sets of a group, by the numbers of members and structures.

ghost use Rattle.std.specs.Prelude.{◌≡◌, ◌≤◌, true, length, map};
ghost use Rattle.qsg_num.specs.Seats.{member_number, structure_number};
ghost use Rattle.qsg_dataset.specs.Contents.{extent_of};
ghost use Rattle.qsg_datasets.specs.Kept.{HasSet, IsKept, set_for, set_in, sets_of, with_set_for, with_set, with_sets_of, emptied, emptied_all};
ghost use Rattle.qsg_datasets.specs.Calls.{AreCut};

use crate::member_data_set::MemberDataSet;
use qsg_disk::Disk;
use qsg_num::{Member, StructNo};
use std::alloc::Global;
use std::marker::Model;

/// The data sets of a member, one for each structure, in order of the structures' numbers.
#[derive(Drop)]
pub struct MemberDataSets<D: Disk> {
    items: Vec<MemberDataSet<D>>,
}

impl<D: Disk> Model for MemberDataSets<D> {
    ghost use Rattle.std.specs.Prelude.{List};
    ghost use Rattle.qsg_datasets.specs.Kept.{KeptSet};

    ghost Value = { List KeptSet };

    ghost view = { λ s. s.items.items };
}

/// The data sets of a group. A call changes those of its member alone.
#[derive(Drop)]
pub struct DataSets<D: Disk> {
    items: Vec<MemberDataSets<D>>,
}

impl<D: Disk> Model for DataSets<D> {
    ghost use Rattle.std.specs.Prelude.{List};
    ghost use Rattle.qsg_datasets.specs.Kept.{KeptSet};

    ghost Value = { List (List KeptSet) };

    ghost view = { λ s. s.items.items };
}

/// The power of each device goes and comes back, and what their member keeps of them is gone.
fn cut_all<D: Disk>(alloc: Global, sets: &mut [MemberDataSet<D>], pick: u64)
    ensures { AreCut sets.old sets.new }
{
    for set in sets {
        set.cut(alloc, pick);
    }
}

/// What their member keeps of them is gone.
fn clear_all<D: Disk>(alloc: Global, sets: &mut [MemberDataSet<D>])
    ensures { sets.new ≡ map emptied sets.old }
{
    for set in sets {
        set.clear(alloc);
    }
}

impl<D: Disk> MemberDataSets<D> {
    ghost use Rattle.std.specs.Borrow.{Lends, sem};
    ghost use Rattle.qsg_datasets.specs.contracts.member_data_set.MemberDataSet.{the_row as set_row};
    ghost use Rattle.qsg_datasets.specs.contracts.table.MemberDataSets.{the_row};

    /// Those of a `Vec`, in order of their structures' numbers. Takes no memory.
    pub fn from_vec(items: Vec<MemberDataSet<D>>) -> Self
        ensures { result ≡ items.items }
    {
        MemberDataSets { items }
    }

    /// The `Vec` that holds them. Takes no memory.
    pub fn into_vec(self) -> Vec<MemberDataSet<D>>
        ensures { result.items ≡ self }
    {
        self.items
    }

    /// How many there are.
    pub fn len(&self) -> usize
        ensures { result ≡ length self.now }
    {
        self.items.len()
    }

    fn set(&self, structure: StructNo) -> &MemberDataSet<D>
        requires { structure_number structure ≤ length self.now }
        ensures { result.now ≡ set_for structure self.now }
    {
        &self.items[structure.index()]
    }

    fn set_mut(&mut self, structure: StructNo) -> &mut MemberDataSet<D>
        requires { structure_number structure ≤ length self.old }
        ensures* writes_back { sem 𝓛 (Lends (the_row D.row D.Disk) (set_row D.row D.Disk) self.entry result (λ set. with_set_for structure set self.old)) }
        ensures value { result.now ≡ set_for structure self.old }
    {
        &mut self.items[structure.index()]
    }

    fn cut(&mut self, alloc: Global, pick: u64)
        ensures { AreCut self.old self.new }
    {
        cut_all(alloc, &mut self.items, pick);
    }

    fn clear(&mut self, alloc: Global)
        ensures { self.new ≡ map emptied self.old }
    {
        clear_all(alloc, &mut self.items);
    }
}

impl<D: Disk> DataSets<D> {
    ghost use Rattle.std.specs.Borrow.{Lends, sem};
    ghost use Rattle.qsg_datasets.specs.contracts.member_data_set.MemberDataSet.{the_row as set_row};
    ghost use Rattle.qsg_datasets.specs.contracts.table.DataSets.{the_row};

    /// Those of a `Vec`, in order of their members' numbers. Takes no memory.
    pub fn from_vec(items: Vec<MemberDataSets<D>>) -> Self
        ensures { result ≡ items.items }
    {
        DataSets { items }
    }

    /// The `Vec` that holds them. Takes no memory.
    pub fn into_vec(self) -> Vec<MemberDataSets<D>>
        ensures { result.items ≡ self }
    {
        self.items
    }

    /// Of how many members there are any.
    pub fn len(&self) -> usize
        ensures { result ≡ length self.now }
    {
        self.items.len()
    }

    /// The data set of a member for a structure.
    pub fn set(&self, member: Member, structure: StructNo) -> &MemberDataSet<D>
        requires has { HasSet member structure self.now }
        ensures { result.now ≡ set_in member structure self.now }
    {
        self.items[member.index()].set(structure)
    }

    /// The data set of a member for a structure, for a call that changes it.
    pub fn set_mut(&mut self, member: Member, structure: StructNo) -> &mut MemberDataSet<D>
        requires has { HasSet member structure self.old }
        ensures* writes_back { sem 𝓛 (Lends (the_row D.row D.Disk) (set_row D.row D.Disk) self.entry result (λ set. with_set member structure set self.old)) }
        ensures value { result.now ≡ set_in member structure self.old }
    {
        self.items[member.index()].set_mut(structure)
    }

    /// What the data set of a member for a structure keeps.
    pub fn kept(&self, member: Member, structure: StructNo)
        requires has { HasSet member structure self.now }
        ensures { IsKept (set_in member structure self.now) }
    {
        self.set(member, structure).kept();
    }

    /// A device that tells its bytes tells all of them.
    pub fn whole(&self, member: Member, structure: StructNo)
        requires has { HasSet member structure self.now }
        ensures { (set_in member structure self.now).contents.tells ≡ true → length (set_in member structure self.now).contents.bytes ≡ extent_of (set_in member structure self.now).contents }
    {
        self.set(member, structure).whole();
    }

    /// The power of each device of a member's data sets goes and comes back, and what it keeps of them is gone. `pick`
    /// chooses among the values of bytes that have no safe one. Takes no memory.
    pub fn cut(&mut self, alloc: Global, member: Member, pick: u64)
        requires within { member_number member ≤ length self.old }
        ensures others { self.new ≡ with_sets_of member (sets_of member self.new) self.old }
        ensures cut { AreCut (sets_of member self.old) (sets_of member self.new) }
    {
        let sets = &mut self.items[member.index()];
        sets.cut(alloc, pick);
    }

    /// Drops what a member keeps of its data sets in its own storage. Takes no memory.
    pub fn clear(&mut self, alloc: Global, member: Member)
        requires within { member_number member ≤ length self.old }
        ensures { self.new ≡ emptied_all member self.old }
    {
        let sets = &mut self.items[member.index()];
        sets.clear(alloc);
    }
}
