//! What holds of the definitions for all histories.

ghost use Rattle.std.specs.Prelude.{◌≡◌, ◌≤◌, ℕ, [], ◌∷◌, ◌++◌, List, Bool, true, false, not, ◌||◌, filter, nat_lt, Option, Some, None};
ghost use Rattle.qsg_num.specs.declared.ids.UnitName.{UnitName};
ghost use Rattle.qsg_num.specs.declared.seats.StructNo.{StructNo};
ghost use Rattle.qsg_msg.specs.declared.message.Message.{Message};
ghost use Rattle.qsg_model.specs.declared.history.Item.{Item};
ghost use Rattle.qsg_model.specs.declared.history.Item.TheVariants as items;
ghost use Rattle.qsg_model.specs.declared.history.Op.{Op};
ghost use Rattle.qsg_model.specs.declared.history.Op.TheVariants as ops;
ghost use Rattle.qsg_model.specs.History.{held, held_after, is_of, count_of, purged_past, Legal};
ghost use Rattle.qsg_model.specs.Past.{message_at, AreInOrder, all_puts, was_put, was_got, past_of, after, held_at, Follows};

/// What a history holds is what its last item makes of what was held before it.
pub fn each_item_acts_on_what_was_held()
    ensures { (h : List Item) (i : Item) → held (h ++ i ∷ []) ≡ held_after h (held h) i }
{}

/// A loss keeps of its structure the persistent messages, and of others all.
pub fn losses_keep_what_is_persistent()
    ensures { (h : List Item) (s : StructNo) → held (h ++ items.Lost s ∷ []) ≡ filter (λ m. not (is_of s m) || m.persistent) (held h) }
{}

/// A purge keeps nothing of its structure, and of others all.
pub fn purges_keep_nothing()
    ensures { (h : List Item) (s : StructNo) → held (h ++ items.Purged s ∷ []) ≡ filter (λ m. not (is_of s m)) (held h) }
{}

/// The first unit's put is held.
pub fn a_put_is_held()
    ensures { (u : UnitName) (m : Message) → held (items.Unit u ((m.structure, ops.Put m) ∷ []) ∷ []) ≡ m ∷ [] }
{}

/// A later unit that gets it leaves nothing.
pub fn a_get_takes_what_was_put()
    ensures { (u v : UnitName) (m : Message) → held (items.Unit u ((m.structure, ops.Put m) ∷ []) ∷ items.Unit v ((m.structure, ops.Got m.id) ∷ []) ∷ []) ≡ [] }
{}

/// A unit that follows a legal history leaves a legal one.
pub fn a_unit_that_follows_leaves_a_legal_history()
    ensures { (h : List Item) (u : UnitName) (w : List (StructNo × Op)) → Legal h → Follows h u w → Legal (h ++ items.Unit u w ∷ []) }
{}

/// A loss or a purge leaves a legal history.
pub fn losses_and_purges_leave_a_legal_history()
    ensures lost { (h : List Item) (s : StructNo) → Legal h → Legal (h ++ items.Lost s ∷ []) }
    ensures purged { (h : List Item) (s : StructNo) → Legal h → Legal (h ++ items.Purged s ∷ []) }
{}

/// What a history leaves under a key is what its last item makes of what was left before it.
pub fn each_item_acts_on_what_was_left()
    ensures { (k : ℕ × ℕ) (h : List Item) (i : Item) → past_of k (h ++ i ∷ []) ≡ after k (past_of k h) i }
{}

/// A legal history holds the same as a list and key by key; as a list it is in order, with no key twice.
pub fn lists_and_keys_agree()
    ensures agree { (k : ℕ × ℕ) (h : List Item) → Legal h → message_at k (held h) ≡ held_at k h }
    ensures in_order { (h : List Item) → Legal h → AreInOrder (held h) }
{}

/// What no unit put isn't held.
pub fn what_was_not_put_is_not_held()
    ensures { (k : ℕ × ℕ) (h : List Item) → was_put k h ≡ false → held_at k h ≡ None }
{}

/// What a unit got isn't held, and a unit put it.
pub fn what_was_got_is_not_held()
    ensures unheld { (k : ℕ × ℕ) (h : List Item) → Legal h → was_got k h ≡ true → held_at k h ≡ None }
    ensures put { (k : ℕ × ℕ) (h : List Item) → Legal h → was_got k h ≡ true → was_put k h ≡ true }
{}

/// What is held is the message that a unit put.
pub fn what_is_held_was_put()
    ensures { (k : ℕ × ℕ) (h : List Item) (m : Message) → Legal h → held_at k h ≡ Some m → message_at k (all_puts h) ≡ Some m }
{}

/// The count under a key is the number of its structure's losses and purges, and its floor what that number was just
/// after the last purge: a purge exceeded an epoch exactly where the floor does.
pub fn losses_and_purges_are_counted()
    ensures count { (k : ℕ × ℕ) (h : List Item) → (past_of k h).count ≡ count_of k.0 h }
    ensures below { (k : ℕ × ℕ) (h : List Item) → (past_of k h).floor ≤ (past_of k h).count }
    ensures purged { (k : ℕ × ℕ) (h : List Item) (epoch : ℕ) → purged_past k.0 epoch 0 h ≡ nat_lt epoch (past_of k h).floor }
{}
