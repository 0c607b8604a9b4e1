//! The picks of a whole run.

ghost use Rattle.std.specs.Prelude.{◌≡◌, ◌<◌, ◌≤◌, ◌-◌, ◌%◌, ℕ, List, length, slice_index_or};
ghost use Rattle.qsg_num.specs.declared.ids.Actor.{Actor};
ghost use Rattle.qsg_num.specs.declared.ids.Actor.TheVariants.{Operator};
ghost use Rattle.qsg_schedule.specs.declared.chooser.Pick.TheVariants.{Exactly, Round, From};
ghost use Rattle.qsg_schedule.specs.Course.{listed, seeded, pick, pick_at, turns_of};

/// A schedule gives each line's actor as often as its count says, and then all actors in order, again and again.
pub fn picks_of_a_schedule()
    ensures lines { (list : List (Actor × ℕ)) → (actors : List Actor) → (k : ℕ) → k < length (turns_of list) →
        pick_at (listed list actors 0) k ≡ Exactly (slice_index_or (turns_of list) k Operator) }
    ensures rounds { (list : List (Actor × ℕ)) → (actors : List Actor) → (k : ℕ) → length (turns_of list) ≤ k → 0 < length actors →
        pick_at (listed list actors 0) k ≡ Round (slice_index_or actors ((k - length (turns_of list)) % length actors) Operator) }
{}

/// The first draw of seed 0 among three actors is number 2, the third.
pub fn first_draw()
    ensures { (actors : List Actor) → length actors ≡ 3 → pick (seeded 0 actors) ≡ From (slice_index_or actors 2 Operator) }
{}
