//! Every change keeps the laws, and what follows from them.

ghost use Rattle.std.specs.Prelude.{◌≡◌, ◌+◌, ◌≤◌, ℕ, [], Bool, None, Some, map, true, false};
ghost use Rattle.std.specs.List.{AllByRecursion};
ghost use Rattle.qsg_num.specs.declared.seats.Member.{Member};
ghost use Rattle.qsg_num.specs.declared.seats.StructNo.{StructNo};
ghost use Rattle.qsg_num.specs.declared.ids.Block.{Block};
ghost use Rattle.qsg_lists.specs.declared.parts.Entry.{Entry};
ghost use Rattle.qsg_lists.specs.declared.parts.Mark.{Mark};
ghost use Rattle.qsg_lists.specs.Settling.{marked, settled_entry};
ghost use Rattle.qsg_lists.specs.declared.parts.State.TheVariants.{Active};
ghost use Rattle.qsg_dataset.specs.Contents.{IsShut};
ghost use Rattle.qsg_datasets.specs.Kept.{used_in};
ghost use Rattle.qsg_manager.specs.Views.{Outside, body_of, held_of};
ghost use Rattle.qsg_blocks.specs.State.{Ground, IsThere, AreTold, stands, outside_of, listed, reserved, used_once, free_once};
ghost use Rattle.qsg_blocks.specs.Laws.{AreBlank, IsFitting, Laws};
ghost use Rattle.qsg_blocks.specs.Changes.{KeepsPlaces, Change};

/// The laws hold of an empty structure, while no member has a map or holds blocks, and no data set has a saved map.
pub fn an_empty_structure_keeps_the_laws()
    ensures { (g : Ground) → g.structure.state ≡ Active → g.structure.entries ≡ [] → ((m : Member) → (g.sets m).map ≡ None) →
        ((m : Member) → AreBlank (g.sets m).hands) → ((m : Member) → IsThere (g.sets m) → IsShut (g.sets m).contents.bytes) → Laws g }
{}

/// Over every device, blocks stay in range, and each body has as many as it needs.
pub fn every_change_keeps_blocks_fitting()
    ensures { (g h : Ground) → Change g h → IsFitting g → IsFitting h }
{}

/// Devices go on telling their bytes.
pub fn every_change_keeps_devices_telling()
    ensures { (g h : Ground) → Change g h → AreTold g.sets → AreTold h.sets }
{}

/// Where devices tell their bytes, each shared action leaves a state that obeys the laws.
pub fn every_change_keeps_the_laws()
    ensures { (g h : Ground) → Change g h → AreTold g.sets → IsFitting g → Laws g → Laws h }
{}

/// A change of a mark keeps an entry's place, and so does the end of a unit, which deletes only entries with their bodies
/// inside.
pub fn changes_of_marks_keep_places()
    ensures marks { (mark : Mark) → KeepsPlaces (λ e. Some (marked mark e)) }
    ensures settles { (commits : Bool) → KeepsPlaces (settled_entry commits) }
{}

/// No block is used twice: by two entries, an entry and a task, two tasks, or one of these while its owner's map has it
/// free.
pub fn no_block_has_two_users()
    ensures one { (g : Ground) (m : Member) (b : Block) → Laws g →
        listed m b g.structure.entries + reserved g.structure.epoch b (g.sets m).hands + free_once g.structure.epoch (g.posts m) (g.sets m) b ≤ 1 }
    ensures exact { (g : Ground) (m : Member) (b : Block) → Laws g → stands g.structure.state m (g.posts m) ≡ true →
        listed m b g.structure.entries + reserved g.structure.epoch b (g.sets m).hands ≡ used_once (used_in g.structure.epoch (g.sets m)) b }
{}

/// No action changes the body of an entry: of those that were there, and of those that are there then.
pub fn every_change_leaves_bodies()
    ensures before { (g h : Ground) → Change g h → AreTold g.sets → IsFitting g → Laws g →
        AllByRecursion (λ (e : Entry). body_of (outside_of h.sets) e.place ≡ body_of (outside_of g.sets) e.place) g.structure.entries }
    ensures after { (g h : Ground) → Change g h → AreTold g.sets → IsFitting g → Laws g →
        AllByRecursion (λ (e : Entry). body_of (outside_of h.sets) e.place ≡ body_of (outside_of g.sets) e.place) h.structure.entries }
    ensures held_before { (old new : Outside) (s : StructNo) (g h : Ground) → Change g h → AreTold g.sets → IsFitting g → Laws g →
        old s ≡ outside_of g.sets → new s ≡ outside_of h.sets → map (held_of new s) g.structure.entries ≡ map (held_of old s) g.structure.entries }
    ensures held_after { (old new : Outside) (s : StructNo) (g h : Ground) → Change g h → AreTold g.sets → IsFitting g → Laws g →
        old s ≡ outside_of g.sets → new s ≡ outside_of h.sets → map (held_of new s) h.structure.entries ≡ map (held_of old s) h.structure.entries }
{}
