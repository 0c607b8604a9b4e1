//! Actions on structures and on what members keep are changes of the machine, which keep its laws.

ghost use Rattle.std.specs.Prelude.{ℕ, false, List, Option, Some};
ghost use Rattle.qsg_num.specs.declared.seats.Member.{Member};
ghost use Rattle.qsg_num.specs.declared.seats.StructNo.{StructNo};
ghost use Rattle.qsg_num.specs.declared.seats.TaskNo.{TaskNo};
ghost use Rattle.qsg_num.specs.declared.ids.UnitName.{UnitName};
ghost use Rattle.qsg_num.specs.declared.ids.EntryId.{EntryId};
ghost use Rattle.qsg_num.specs.declared.ids.PageNo.{PageNo};
ghost use Rattle.qsg_num.specs.declared.words.Delivery.{Delivery};
ghost use Rattle.qsg_msg.specs.declared.message.Message.{Message};
ghost use Rattle.qsg_model.specs.declared.history.Op.{Op};
ghost use Rattle.qsg_lists.specs.declared.parts.Connection.{Connection};
ghost use Rattle.qsg_lists.specs.declared.parts.Head.{Head};
ghost use Rattle.qsg_lists.specs.declared.parts.Place.{Place};
ghost use Rattle.qsg_lists.specs.declared.parts.Entry.{Entry};
ghost use Rattle.qsg_lists.specs.declared.parts.Selector.{Selector};
ghost use Rattle.qsg_lists.specs.Entries.{AreInOrder};
ghost use Rattle.qsg_lists.specs.Structures.{ListStructure};
ghost use Rattle.qsg_lists.specs.Writing.{written, next_id};
ghost use Rattle.qsg_lists.specs.Settling.{settle_answer, settled_entry, forget_answer, deleted, revised_if_done};
ghost use Rattle.qsg_group.specs.declared.tasks.Claim.{Claim};
ghost use Rattle.qsg_group.specs.declared.tasks.Stage.TheVariants.{Hardening};
ghost use Rattle.qsg_group.specs.Group.{Group};
ghost use Rattle.qsg_group.specs.Laws.{IsShelf, Laws};
ghost use Rattle.qsg_group.specs.Changes.{Change};
ghost use Rattle.qsg_manager.specs.declared.managers.Manager.{Manager};
ghost use Rattle.qsg_manager.specs.Facilities.{structure_in, with_structure};
ghost use Rattle.qsg_manager.specs.Storage.{task_at, with_task};
ghost use Rattle.qsg_manager.specs.Groups.{Rest, group_of};
ghost use Rattle.qsg_manager.specs.Putting.{with_put};
ghost use Rattle.qsg_manager.specs.Settles.{commits, further};
ghost use Rattle.qsg_manager.specs.Views.{Outside, shelf_of};
ghost use Rattle.qsg_manager.specs.Getting.{with_taken, with_found};
ghost use Rattle.qsg_manager.specs.Units.{with_name, with_stage, with_hardened, with_backed_out, with_dropped, with_idle};
ghost use Rattle.qsg_manager.specs.Rests.{with_unit, with_low};
ghost use Rattle.qsg_manager.specs.Actions.{MayWrite, MaySettleNext, MayTake, MayUngetEntry, MayDropGet, MayForgetEntry, MayDrawName, MayBeginUnit, MayHardenUnit, MayBackOutUnit, MayFinishUnit, MayTellLow, AreNamed};

/// The entry and the operation that `write_entry` leaves are the machine's put.
pub fn a_write_is_a_put()
    ensures { (rest : Rest) (structures : List ListStructure) (managers : List Manager) (u : UnitName) (t : TaskNo) (ops : List (StructNo × Op)) (claims : List Claim) (connection : Connection) (head : Head) (place : Place) (message : Message) →
        MayWrite rest.outside structures managers u t ops claims connection head place message →
        Change (group_of rest structures managers)
        (group_of rest (with_structure connection.structure (written (structure_in connection.structure structures) u head place) structures)
        (with_task u.member t (with_put connection message (next_id (structure_in connection.structure structures)) (task_at u.member t managers)) managers)) }
{}

/// What `settle_next` leaves of a structure and of its task is the machine's settle.
pub fn a_settle_is_a_change()
    ensures { (rest : Rest) (structures : List ListStructure) (managers : List Manager) (u : UnitName) (t : TaskNo) (claims : List Claim) (first : Option ℕ) (n : ℕ) (c : Claim) →
        MaySettleNext structures managers u t claims first n c →
        Change (group_of rest structures managers)
        (group_of rest (with_structure c.connection.structure (revised_if_done (settle_answer (structure_in c.connection.structure structures) c.connection c.id u) c.id (settled_entry (commits (task_at u.member t managers).stage)) (structure_in c.connection.structure structures)) structures)
        (with_task u.member t (record (task_at u.member t managers) { stage = further (task_at u.member t managers).stage }) managers)) }
{}

/// The entry and the operation that `get_entry` leaves, where it finds an entry, are the machine's get.
pub fn a_get_is_a_change()
    ensures { (rest : Rest) (structures : List ListStructure) (managers : List Manager) (u : UnitName) (t : TaskNo) (ops : List (StructNo × Op)) (claims : List Claim) (connection : Connection) (queue : List ℕ) (order : Delivery) (select : Selector) (e : Entry) →
        MayTake structures managers u t ops claims connection queue order select e →
        Change (group_of rest structures managers) (group_of rest (with_taken u connection (Some e) structures) (with_found u.member t connection (Some e) managers)) }
{}

/// What `unget_entry` leaves of a structure and of a task, where the connection is served, is the machine's unget.
pub fn an_unget_is_a_change()
    ensures { (rest : Rest) (structures : List ListStructure) (managers : List Manager) (u : UnitName) (t : TaskNo) (ops : List (StructNo × Op)) (claims : List Claim) (c : Claim) →
        MayUngetEntry structures managers u t ops claims c →
        Change (group_of rest structures managers)
        (group_of rest (with_structure c.connection.structure (revised_if_done (settle_answer (structure_in c.connection.structure structures) c.connection c.id u) c.id (settled_entry false) (structure_in c.connection.structure structures)) structures)
        (with_dropped u.member t managers)) }
{}

/// Where the connection of a unit's last get isn't served any more, what `drop_last` leaves of its task is the machine's
/// unget, too: by the laws the structure isn't active, so that none of its entries is pending.
pub fn a_dropped_get_is_a_change()
    ensures { (rest : Rest) (structures : List ListStructure) (managers : List Manager) (u : UnitName) (t : TaskNo) (ops : List (StructNo × Op)) (claims : List Claim) (c : Claim) →
        MayDropGet structures managers u t ops claims c → Laws (group_of rest structures managers) →
        Change (group_of rest structures managers) (group_of rest structures (with_dropped u.member t managers)) }
{}

/// What `forget_entry` leaves of a structure, where it deletes the entry, is the machine's forget.
pub fn a_forget_is_a_change()
    ensures { (rest : Rest) (structures : List ListStructure) (managers : List Manager) (connection : Connection) (id : EntryId) →
        MayForgetEntry structures connection id →
        Change (group_of rest structures managers)
        (group_of rest (with_structure connection.structure (revised_if_done (forget_answer (structure_in connection.structure structures) connection id) id deleted (structure_in connection.structure structures)) structures) managers) }
{}

/// A structure that the machine's laws see is in order of id.
pub fn shelves_are_in_order()
    ensures { (outside : Outside) (s : StructNo) (structure : ListStructure) → IsShelf s (shelf_of outside s structure) → AreInOrder structure.entries }
{}

/// What `draw_name` leaves of a member is the machine's draw.
pub fn a_draw_is_a_change()
    ensures { (rest : Rest) (structures : List ListStructure) (managers : List Manager) (m : Member) (t : TaskNo) →
        MayDrawName managers m t → Change (group_of rest structures managers) (group_of rest structures (with_name m t managers)) }
{}

/// What `begin_unit` leaves of a task is the machine's begin.
pub fn a_begin_is_a_change()
    ensures { (rest : Rest) (structures : List ListStructure) (managers : List Manager) (u : UnitName) (t : TaskNo) (ops : List (StructNo × Op)) (claims : List Claim) (first : PageNo) →
        MayBeginUnit rest.logs managers u t ops claims first →
        Change (group_of rest structures managers) (group_of rest structures (with_stage u.member t (Hardening first) managers)) }
{}

/// What `harden_unit` leaves of a task and of the history is the machine's harden, where the unit's run is in the log.
pub fn a_harden_is_a_change()
    ensures { (rest : Rest) (structures : List ListStructure) (managers : List Manager) (u : UnitName) (t : TaskNo) (ops : List (StructNo × Op)) (claims : List Claim) (first next : ℕ) →
        MayHardenUnit rest.logs managers u t ops claims first next →
        Change (group_of rest structures managers) (group_of (with_unit u ops claims first next rest) structures (with_hardened u.member t managers)) }
{}

/// What `back_out_unit` leaves of a task is the machine's backout.
pub fn a_backout_is_a_change()
    ensures { (rest : Rest) (structures : List ListStructure) (managers : List Manager) (u : UnitName) (t : TaskNo) (ops : List (StructNo × Op)) (claims : List Claim) →
        MayBackOutUnit managers u t ops claims → Change (group_of rest structures managers) (group_of rest structures (with_backed_out u.member t managers)) }
{}

/// What `finish_unit` leaves of a task is the machine's finish.
pub fn a_finish_is_a_change()
    ensures { (rest : Rest) (structures : List ListStructure) (managers : List Manager) (u : UnitName) (t : TaskNo) (claims : List Claim) (first : Option ℕ) (n : ℕ) →
        MayFinishUnit managers u t claims first n → Change (group_of rest structures managers) (group_of rest structures (with_idle u.member t managers)) }
{}

/// A member's low page may rise to any page that `first_needed` doesn't come before.
pub fn a_low_page_is_a_change()
    ensures { (rest : Rest) (structures : List ListStructure) (managers : List Manager) (m : Member) (page : ℕ) →
        MayTellLow rest managers m page → Change (group_of rest structures managers) (group_of (with_low m page rest) structures managers) }
{}

/// A task without a name holds nothing, whatever happens.
pub fn tasks_without_names_stay_idle()
    ensures { (g h : Group) → Change g h → AreNamed g.tasks → AreNamed h.tasks }
{}
