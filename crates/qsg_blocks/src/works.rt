//! What works in progress have read, written or counted stays true, and what each of their steps adds to it.

ghost use Rattle.std.specs.Prelude.{◌≡◌, ◌≢◌, ◌+◌, ◌*◌, ◌-◌, ◌^◌, ◌<◌, ◌≤◌, ◌⊎◌, ℕ, List, [], ◌∷◌, ◌++◌, Option, Some, None, IfSome, Result, Ok, take, drop, length, map, find, slice_get, min, true, false, Bool};
ghost use Rattle.std.specs.List.{AllByRecursion};
ghost use Rattle.qsg_num.specs.declared.seats.Member.{Member};
ghost use Rattle.qsg_num.specs.declared.seats.TaskNo.{TaskNo};
ghost use Rattle.qsg_num.specs.declared.ids.Block.{Block};
ghost use Rattle.qsg_num.specs.declared.ids.EntryId.{EntryId};
ghost use Rattle.qsg_num.specs.declared.words.Failed.{Failed};
ghost use Rattle.qsg_disk.specs.Byte.{values, synced};
ghost use Rattle.qsg_lists.specs.declared.parts.Entry.{Entry};
ghost use Rattle.qsg_lists.specs.declared.parts.Place.TheVariants.{Offloaded};
ghost use Rattle.qsg_lists.specs.Entries.{entry_at, is_above, is_owned};
ghost use Rattle.qsg_lists.specs.Structures.{is_active};
ghost use Rattle.qsg_space.specs.Spaces.{free_count};
ghost use Rattle.qsg_dataset.specs.Contents.{block_bytes};
ghost use Rattle.qsg_dataset.specs.Steps.{SaveStep, ShutStep, Writes as WritesBytes};
ghost use Rattle.qsg_datasets.specs.declared.member_data_set.KeptMap.{KeptMap};
ghost use Rattle.qsg_datasets.specs.declared.member_data_set.Found.{Found};
ghost use Rattle.qsg_datasets.specs.Kept.{KeptSet, hand_of, used_in, taken, claimed, IsKept};
ghost use Rattle.qsg_datasets.specs.Calls.{IsStorageSame, IsLoaded};
ghost use Rattle.qsg_manager.specs.Views.{body_of};
ghost use Rattle.qsg_blocks.specs.State.{Ground, IsThere, AreTold, stands, body_at, outside_of, blocks_for};
ghost use Rattle.qsg_blocks.specs.Laws.{AreBlank, IsSafePlace, IsFitting, Laws};
ghost use Rattle.qsg_blocks.specs.Changes.{Change, MayWrite, MaySave, MaySync, IsMade, with_set, with_post, ended, blocks_of};
ghost use Rattle.qsg_blocks.specs.Works.{Reader, FitsRead, Writer, FitsHand, FitsWrite, IsOthers, Starter, FitsStart, IsOtherMembers, shuts_for, Stopper, FitsStop};

/// What was read of the body of an entry is its front, as long as the entry stands.
pub fn every_change_keeps_readers()
    ensures { (w : Reader) (g h : Ground) → Change g h → AreTold g.sets → IsFitting g → Laws g → FitsRead w g → FitsRead w h }
{}

/// A reader begins at an entry of an active structure, reads one block after another, and then has its body.
pub fn a_reader_reads_the_body()
    ensures begins { (g : Ground) (e : Entry) (owner : Member) (blocks : List Block) (n : ℕ) → Laws g → is_active g.structure.state ≡ true →
        entry_at e.id g.structure.entries ≡ Some e → e.place ≡ Offloaded owner blocks n →
        FitsRead (record { epoch = g.structure.epoch; id = e.id; owner = owner; blocks = blocks; size = n; count = 0; bytes = [] }) g }
    ensures goes_on { (w : Reader) (g : Ground) (b : Block) (bytes : List ℕ) → FitsRead w g → slice_get w.blocks w.count ≡ Some b →
        bytes ≡ values (block_bytes (g.sets w.owner).contents b.number (min (g.sets w.owner).contents.block_size (w.size - w.count * (g.sets w.owner).contents.block_size))) →
        FitsRead (record w { count = w.count + 1; bytes = w.bytes ++ bytes }) g }
    ensures whole { (w : Reader) (g : Ground) (e : Entry) → FitsRead w g → w.count ≡ length w.blocks → w.epoch ≡ g.structure.epoch →
        entry_at w.id g.structure.entries ≡ Some e → w.bytes ≡ body_of (outside_of g.sets) e.place }
{}

/// What a task has written into its blocks stays, and so does what it made safe; over every device it has its blocks.
pub fn every_change_keeps_writers()
    ensures written { (w : Writer) (g h : Ground) (c : Change g h) → IsOthers w.owner w.task g h c → AreTold g.sets → IsFitting g → Laws g → FitsWrite w g → FitsWrite w h }
    ensures hand { (w : Writer) (g h : Ground) (c : Change g h) → IsOthers w.owner w.task g h c → FitsHand w (g.sets w.owner) → FitsHand w (h.sets w.owner) }
{}

/// A writer takes as many blocks as its body needs, writes one after another and syncs; then its blocks read as the
/// body, and their bytes are safe.
pub fn a_writer_writes_the_body()
    ensures begins { (g : Ground) (m : Member) (t : TaskNo) (epoch n : ℕ) (body : List ℕ) → IsKept (g.sets m) →
        n ≡ blocks_for (g.sets m).contents.block_size (length body) → n ≤ free_count (used_in epoch (g.sets m)) →
        FitsWrite (record { owner = m; task = t; epoch = epoch; body = body; count = 0; synced = false }) (with_set m (taken t epoch n (g.sets m)) g) }
    ensures goes_on { (w : Writer) (g : Ground) (b : Block) (piece : List ℕ) (set : KeptSet) → AreTold g.sets → IsFitting g → Laws g → FitsWrite w g → w.synced ≡ false →
        slice_get (blocks_of w.owner w.task g) w.count ≡ Some b →
        piece ≡ take (g.sets w.owner).contents.block_size (drop (w.count * (g.sets w.owner).contents.block_size) w.body) →
        MayWrite g w.owner w.task b (length piece) set → values (block_bytes set.contents b.number (length piece)) ≡ piece →
        FitsWrite (record w { count = w.count + 1 }) (with_set w.owner set g) }
    ensures syncs { (w : Writer) (g : Ground) (set : KeptSet) → FitsWrite w g → IsStorageSame (g.sets w.owner) set →
        set.contents.bytes ≡ map synced (g.sets w.owner).contents.bytes →
        FitsWrite (record w { synced = true }) (with_set w.owner set g) }
    ensures whole { (w : Writer) (g : Ground) → IsKept (g.sets w.owner) → FitsWrite w g → w.epoch ≡ g.structure.epoch → w.synced ≡ true → w.count ≡ length (blocks_of w.owner w.task g) →
        (body_at (g.sets w.owner).contents (blocks_of w.owner w.task g) (length w.body) ≡ w.body) × IsSafePlace g.sets (Offloaded w.owner (blocks_of w.owner w.task g) (length w.body)) }
{}

/// The map that a START makes stays true of the entries that it has looked at.
pub fn every_change_keeps_starters()
    ensures { (w : Starter) (g h : Ground) (c : Change g h) → IsOtherMembers w.owner g h c → AreTold g.sets → IsFitting g → Laws g → FitsStart w g → FitsStart w h }
{}

/// A START begins with the map that its header has saved for the present epoch, or else with one of free blocks and
/// the least id; or without one, where the structure isn't active. It claims the blocks of one entry after another, in
/// order of ids. Where no entry is left, or its connection is lost, it has looked at all.
pub fn a_starter_counts_blocks()
    ensures loads { (g : Ground) (m : Member) (found : Found) (set : KeptSet) → AreTold g.sets → IsFitting g → Laws g → (g.posts m).up ≡ false → IsThere (g.sets m) →
        is_active g.structure.state ≡ true → g.structure.epoch < 2 ^ 32 → IsLoaded g.structure.epoch found (g.sets m) set → found.has_map ≡ true →
        FitsStart (record { owner = m; epoch = Some g.structure.epoch; place = None; shuts = shuts_for found.gate_open }) (with_set m set g) }
    ensures blank { (g : Ground) (m : Member) (found : Found) (set : KeptSet) → AreTold g.sets → Laws g → (g.posts m).up ≡ false → IsThere (g.sets m) → 1 ≤ length (g.sets m).contents.bytes →
        is_active g.structure.state ≡ true → IsLoaded g.structure.epoch found (g.sets m) set → found.has_map ≡ false →
        FitsStart (record { owner = m; epoch = Some g.structure.epoch; place = Some 0; shuts = shuts_for found.gate_open }) (with_set m set g) }
    ensures drops { (g : Ground) (m : Member) (epoch : ℕ) (found : Found) (loaded set : KeptSet) → AreTold g.sets → (g.posts m).up ≡ false → IsThere (g.sets m) → 1 ≤ length (g.sets m).contents.bytes →
        is_active g.structure.state ≡ false → IsLoaded epoch found (g.sets m) loaded → set.contents ≡ loaded.contents → set.map ≡ None →
        FitsStart (record { owner = m; epoch = None; place = None; shuts = shuts_for found.gate_open }) (with_set m set g) }
    ensures claims { (w : Starter) (g : Ground) (place : ℕ) (e : Entry) (blocks : List Block) (n : ℕ) → IsFitting g → Laws g → FitsStart w g → w.place ≡ Some place →
        find (is_above (record { number = place })) g.structure.entries ≡ Some e → e.place ≡ Offloaded w.owner blocks n →
        FitsStart (record w { place = Some e.id.number }) (with_set w.owner (claimed blocks (g.sets w.owner)) g) }
    ensures passes { (w : Starter) (g : Ground) (place : ℕ) (e : Entry) → Laws g → FitsStart w g → w.place ≡ Some place →
        find (is_above (record { number = place })) g.structure.entries ≡ Some e → is_owned w.owner e.place ≡ false →
        FitsStart (record w { place = Some e.id.number }) g }
    ensures ends { (w : Starter) (g : Ground) (place : ℕ) → FitsStart w g → w.place ≡ Some place →
        find (is_above (record { number = place })) g.structure.entries ≡ None → FitsStart (record w { place = None }) g }
    ensures loses { (w : Starter) (g : Ground) → FitsStart w g → (is_active g.structure.state ≡ true → w.epoch ≢ Some g.structure.epoch) → FitsStart (record w { place = None }) g }
{}

/// A START shuts its gate in two steps, the first of which it makes only where the gate doesn't read 0: whether that
/// step succeeds or not, the header may stand as it leaves it. Then it is ready.
pub fn a_starter_shuts_the_gate()
    ensures may { (w : Starter) (g : Ground) (result : Result (Unit {0}) Failed) (set : KeptSet) → Laws g → FitsStart w g → IsThere (g.sets w.owner) → w.shuts ≡ 0 →
        IsStorageSame (g.sets w.owner) set → ShutStep 1 result (g.sets w.owner).contents.bytes set.contents.bytes → MaySave g w.owner set }
    ensures writes { (w : Starter) (g : Ground) (one : Unit {0}) (set : KeptSet) → FitsStart w g → IsStorageSame (g.sets w.owner) set →
        ShutStep {E = Failed} 1 (Ok one) (g.sets w.owner).contents.bytes set.contents.bytes → FitsStart (record w { shuts = 1 }) (with_set w.owner set g) }
    ensures syncs { (w : Starter) (g : Ground) (one : Unit {0}) (set : KeptSet) → FitsStart w g → w.shuts ≡ 1 → IsStorageSame (g.sets w.owner) set →
        ShutStep {E = Failed} 2 (Ok one) (g.sets w.owner).contents.bytes set.contents.bytes → FitsStart (record w { shuts = 2 }) (with_set w.owner set g) }
    ensures ready { (w : Starter) (g : Ground) → FitsStart w g → w.shuts ≡ 2 → w.place ≡ None → IsMade w.owner (g.sets w.owner) g.structure }
{}

/// The map that a member had when it stopped stays true, and so does what of it is saved.
pub fn every_change_keeps_stoppers()
    ensures { (w : Stopper) (g h : Ground) (c : Change g h) → IsOtherMembers w.owner g h c → AreTold g.sets → IsFitting g → Laws g → FitsStop w g → FitsStop w h }
{}

/// A STOP begins with the map that the member has. Its steps save it, and whether they succeed or not, the header may
/// stand as they leave it.
pub fn a_stopper_saves_its_map()
    ensures begins { (g : Ground) (m : Member) → IsFitting g → Laws g → (g.posts m).up ≡ true → AreBlank (g.sets m).hands →
        (is_active g.structure.state ≡ false → stands g.structure.state m (g.posts m) ≡ false) →
        FitsStop (record { owner = m; steps = 0 }) (with_post m (ended (g.posts m)) g) }
    ensures writes { (w : Stopper) (g : Ground) (kept : KeptMap) (result : Result (Unit {0}) Failed) (set : KeptSet) → IsFitting g → FitsStop w g → IsThere (g.sets w.owner) →
        (g.sets w.owner).map ≡ Some kept → IsStorageSame (g.sets w.owner) set → (w.steps ≡ 0) ⊎ (w.steps ≡ 2) →
        SaveStep (w.steps + 1) kept.epoch kept.used result (g.sets w.owner).contents.bytes set.contents.bytes → MaySave g w.owner set }
    ensures goes_on { (w : Stopper) (g : Ground) (kept : KeptMap) (one : Unit {0}) (set : KeptSet) → FitsStop w g →
        (g.sets w.owner).map ≡ Some kept → IsStorageSame (g.sets w.owner) set → w.steps ≤ 3 →
        SaveStep {E = Failed} (w.steps + 1) kept.epoch kept.used (Ok one) (g.sets w.owner).contents.bytes set.contents.bytes →
        FitsStop (record w { steps = w.steps + 1 }) (with_set w.owner set g) }
{}
