//! The parts of a group before its first step.

ghost use Rattle.std.specs.Prelude.{◌≡◌, ◌<◌, ◌≤◌, ◌+◌, ◌++◌, ◌^◌, [], length, replicate, take, count_by, IfOk, OnOk};
ghost use Rattle.std.specs.List.{cons_option};
ghost use Rattle.qsg_steady.specs.Founding.{new_manager};
ghost use Rattle.qsg_sound.specs.Sound.{is_start};
ghost use Rattle.qsg_sysplex.specs.Starting.{structure_sized, new_structures, starts_in, starts_of, incarnations_of, recover_of, recovering, all_members, all_started, new_repo};

use qsg_lists::Structure;
use qsg_manager::{Manager, Managers, Structures, Tasks};
use qsg_num::{Actor, Incarnation, Member, StructNo};
use qsg_objects::{Directive, Directives, Objects, Size};
use qsg_repo::Repo;
use std::alloc::{AllocError, Global};

/// The members that a group may have.
pub const ALL_MEMBERS: [Member; 8] = [
    Member::One,
    Member::Two,
    Member::Three,
    Member::Four,
    Member::Five,
    Member::Six,
    Member::Seven,
    Member::Eight,
];

/// Adds the structure of a number, if there is a size for it.
fn push_structure(
    alloc: Global,
    items: &mut Vec<Structure>,
    sizes: &[Size],
    number: StructNo,
) -> Result<(), AllocError>
    ensures { OnOk result (items.new.items ≡ items.old.items ++ cons_option (structure_sized sizes.now number) []) }
{
    if let Some(size) = sizes.get(number.index()) {
        items.push(Structure::new(alloc, number, size.elements))?;
    }
    Ok(())
}

/// The structures of these sizes: active and empty.
pub fn new_structures(alloc: Global, sizes: &[Size]) -> Result<Structures, AllocError>
    ensures { IfOk result (λ s. s ≡ new_structures sizes.now) }
{
    let mut items = Vec::new(alloc);
    push_structure(alloc, &mut items, sizes, StructNo::One)?;
    push_structure(alloc, &mut items, sizes, StructNo::Two)?;
    push_structure(alloc, &mut items, sizes, StructNo::Three)?;
    push_structure(alloc, &mut items, sizes, StructNo::Four)?;
    Ok(Structures::from_vec(items))
}

/// A member that is up, in its first incarnation. Its tasks hold nothing.
fn new_manager(alloc: Global) -> Result<Manager, AllocError>
    ensures { IfOk result (λ m. m ≡ new_manager) }
{
    Ok(Manager {
        up: true,
        incarnation: Incarnation { number: 1 },
        next: 1,
        tasks: Tasks::new(alloc)?,
    })
}

/// So many of them.
pub fn new_managers(alloc: Global, members: usize) -> Result<Managers, AllocError>
    ensures { IfOk result (λ m. m ≡ replicate members new_manager) }
{
    let mut items = Vec::with_capacity(alloc, members)?;
    for _turn in 0..members {
        items.push(new_manager(alloc)?)?;
    }
    Ok(Managers::from_vec(items))
}

fn is_start(directive: &Directive) -> bool
    ensures { result ≡ is_start directive.now }
{
    matches!(directive, Directive::Start(_))
}

/// How many directives start a member.
fn starts_among(directives: &[Directive]) -> usize
    ensures { result ≡ count_by is_start directives.now }
{
    let mut starts = 0;
    for directive in directives {
        if is_start(directive) {
            starts += 1;
        }
    }
    starts
}

/// How many of the directives of an actor do.
fn starts_in(work: &(Actor, Directives)) -> usize
    ensures { result ≡ starts_in work.now }
{
    starts_among(work.1.as_slice())
}

/// How many of all directives do.
fn starts_of(works: &[(Actor, Directives)]) -> usize
    requires { starts_of works.now < 2 ^ 32 }
    ensures { result ≡ starts_of works.now }
{
    let mut starts = 0;
    for work in works {
        starts += starts_in(work);
    }
    starts
}

/// How many incarnations the members may have: each its first one, and one for each START.
pub fn incarnations_of(members: usize, works: &[(Actor, Directives)]) -> u32
    requires { incarnations_of members works.now < 2 ^ 32 }
    ensures { result ≡ incarnations_of members works.now }
{
    (members + starts_of(works)) as u32
}

/// Whether the messages of a structure may be persistent.
fn recover_of(objects: &Objects, number: StructNo) -> bool
    ensures { result ≡ recover_of number objects.now }
{
    match objects.structure(number) {
        Some(structure) => structure.definition.recover,
        None => false,
    }
}

/// Of each structure.
fn recovering(objects: &Objects) -> [bool; 4]
    ensures { result ≡ recovering objects.now }
{
    [
        recover_of(objects, StructNo::One),
        recover_of(objects, StructNo::Two),
        recover_of(objects, StructNo::Three),
        recover_of(objects, StructNo::Four),
    ]
}

/// Gives each of the first so many members its first incarnation.
fn start_all(repo: &mut Repo, members: usize)
    requires members { members ≤ 8 }
    requires none { repo.old.lives ≡ [] }
    requires starts { members ≤ repo.old.starts }
    ensures { repo.new ≡ all_started (take members all_members) repo.old }
{
    for index in 0..members {
        repo.started(ALL_MEMBERS[index]);
    }
}

/// The repository of so many members, each in its first incarnation, with room for so many incarnations.
pub fn new_repo(
    alloc: Global,
    members: usize,
    objects: &Objects,
    incarnations: u32,
) -> Result<Repo, AllocError>
    requires members { members ≤ 8 }
    requires each { members ≤ incarnations }
    ensures new { IfOk result (λ repo. repo ≡ new_repo members objects.now incarnations) }
    ensures structures { length objects.now.structures ≤ 4 }
{
    let structures = objects.structure_count() as u8;
    let recover = recovering(objects);
    let mut repo = Repo::new(alloc, members as u8, structures, recover, incarnations)?;
    start_all(&mut repo, members);
    Ok(repo)
}
