//! What look-ups find, and what a change of the entries leaves under each id.

ghost use Rattle.std.specs.Prelude.{◌≡◌, ◌≢◌, ◌+◌, ◌<◌, ◌≤◌, ℕ, Bool, true, false, List, [], ◌∷◌, ◌++◌, Option, Some, None, find, option_and_then};
ghost use Rattle.std.specs.List.{AllByRecursion};
ghost use Rattle.qsg_num.specs.declared.ids.EntryId.{EntryId};
ghost use Rattle.qsg_num.specs.declared.words.Delivery.{Delivery};
ghost use Rattle.qsg_lists.specs.declared.parts.Entry.{Entry};
ghost use Rattle.qsg_lists.specs.declared.parts.Selector.{Selector};
ghost use Rattle.qsg_lists.specs.Entries.{AreInOrder, KeepsId, entry_at, revise, first_of, waits_for, is_ahead, used_of, cost_of};
ghost use Rattle.qsg_lists.specs.Settling.{settled_entry};
ghost use Rattle.qsg_lists.specs.Taking.{got_by};
ghost use Rattle.qsg_num.specs.declared.ids.UnitName.{UnitName};

/// Under the id of an entry that was added stands that entry.
pub fn appended_is_found()
    ensures { (es : List Entry) (e : Entry) → entry_at e.id es ≡ None → entry_at e.id (es ++ e ∷ []) ≡ Some e }
{}

/// Under each other id stands what stood there.
pub fn appended_leaves_others()
    ensures { (id : EntryId) (es : List Entry) (e : Entry) → id ≢ e.id → entry_at id (es ++ e ∷ []) ≡ entry_at id es }
{}

/// Under the id of a revision stands what it made of the entry, if it stays.
pub fn revised_is_found()
    ensures { (id : EntryId) (f : Entry → Option Entry) (es : List Entry) → KeepsId f → AreInOrder es → entry_at id (revise id f es) ≡ option_and_then f (entry_at id es) }
{}

/// Under each other id stands what stood there.
pub fn revised_leaves_others()
    ensures { (id other : EntryId) (f : Entry → Option Entry) (es : List Entry) → KeepsId f → other ≢ id → entry_at other (revise id f es) ≡ entry_at other es }
{}

/// What settles and marks an entry keeps its id.
pub fn revisions_keep_ids()
    ensures settled { (commits : Bool) → KeepsId (settled_entry commits) }
    ensures got { (unit : UnitName) → KeepsId (λ e. Some (got_by unit e)) }
{}

/// Both changes keep the order of the entries.
pub fn order_is_kept()
    ensures appended { (es : List Entry) (e : Entry) → AreInOrder es → AllByRecursion (λ (x : Entry). x.id.number < e.id.number) es → AreInOrder (es ++ e ∷ []) }
    ensures revised { (id : EntryId) (f : Entry → Option Entry) (es : List Entry) → KeepsId f → AreInOrder es → AreInOrder (revise id f es) }
{}

/// Above the last id stands nothing.
pub fn none_above_the_last()
    ensures { (last id : EntryId) (es : List Entry) → AllByRecursion (λ (x : Entry). x.id.number ≤ last.number) es → last.number < id.number → entry_at id es ≡ None }
{}

/// An entry that a look-up by any test finds passes it, and is the entry of its id.
pub fn found_is_its_entry()
    ensures passes { (p : Entry → Bool) (es : List Entry) (e : Entry) → find p es ≡ Some e → p e ≡ true }
    ensures there { (p : Entry → Bool) (es : List Entry) (e : Entry) → AreInOrder es → find p es ≡ Some e → entry_at e.id es ≡ Some e }
{}

/// The entry of an id has that id.
pub fn entry_has_its_id()
    ensures { (id : EntryId) (es : List Entry) (e : Entry) → entry_at id es ≡ Some e → e.id ≡ id }
{}

/// A look-up by any test finds the entry of least id that passes it, and none exactly where none passes.
pub fn found_is_least()
    ensures least { (p : Entry → Bool) (es : List Entry) (e x : Entry) (id : EntryId) → AreInOrder es → find p es ≡ Some e → entry_at id es ≡ Some x → p x ≡ true → e.id.number ≤ x.id.number }
    ensures none { (p : Entry → Bool) (es : List Entry) (x : Entry) (id : EntryId) → find p es ≡ None → entry_at id es ≡ Some x → p x ≡ false }
{}

/// The entry that a get is given waits, none that waits is ahead of it, and there is none only where none waits.
pub fn first_is_the_least_that_waits()
    ensures waits { (queue : List ℕ) (order : Delivery) (select : Selector) (es : List Entry) (e : Entry) → first_of queue order select es ≡ Some e → waits_for queue select e ≡ true }
    ensures least { (queue : List ℕ) (order : Delivery) (select : Selector) (es : List Entry) (e x : Entry) (id : EntryId) → first_of queue order select es ≡ Some e → entry_at id es ≡ Some x → waits_for queue select x ≡ true → is_ahead order x e ≡ false }
    ensures none { (queue : List ℕ) (order : Delivery) (select : Selector) (es : List Entry) → first_of queue order select es ≡ None → AllByRecursion (λ x. waits_for queue select x ≡ false) es }
{}

/// The elements in use after an entry was added.
pub fn appended_is_used()
    ensures { (es : List Entry) (e : Entry) → used_of (es ++ e ∷ []) ≡ used_of es + cost_of e.place }
{}
