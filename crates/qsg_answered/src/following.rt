//! What follows where all answers fit, and logs tell their bytes.

ghost use Rattle.std.specs.Prelude.{◌≡◌, List, Contains};
ghost use Rattle.qsg_model.specs.declared.history.Item.TheVariants.{Unit as UnitOf};
ghost use Rattle.qsg_model.specs.declared.history.Op.{Op};
ghost use Rattle.qsg_num.specs.declared.ids.UnitName.{UnitName};
ghost use Rattle.qsg_num.specs.declared.seats.StructNo.{StructNo};
ghost use Rattle.qsg_steady.specs.Steady.{AreTelling};
ghost use Rattle.qsg_step.specs.States.{State};
ghost use Rattle.qsg_sound.specs.Sound.{IsSound};
ghost use Rattle.qsg_answered.specs.Belonging.{Belongs};
ghost use Rattle.qsg_answered.specs.Fits.{commits_of, AreFitting};
ghost use Rattle.qsg_answered.specs.Fresh.{AreShown, AreQuiet};

/// A unit of the history belongs to a COMMIT, and its operations are those that were pending there. The COMMIT was answered
/// with it, or was answered 2009 since its member ended after the unit was committed, or is in hand.
pub fn a_unit_has_what_was_pending()
    ensures { (s : State) (u : UnitName) (ops : List (StructNo × Op)) → IsSound s → AreTelling s.parts → AreFitting s → Contains s.parts.history.items (UnitOf u ops) → Belongs u ops s }
{}

/// It belongs to exactly one.
pub fn a_unit_belongs_to_one_commit()
    ensures { (s : State) (u : UnitName) (ops : List (StructNo × Op)) → IsSound s → AreTelling s.parts → (fits : AreFitting s) → Contains s.parts.history.items (UnitOf u ops) → commits_of fits.cut_off u s.courses s.works ≡ 1 }
{}

/// A message that the history holds, put by a unit whose COMMIT was answered, is in an entry that anyone may get, or that
/// a unit got which hasn't ended or whose mark no peer took off yet, while its structure is active.
pub fn what_was_delivered_is_shown()
    ensures { (s : State) → IsSound s → AreTelling s.parts → AreFitting s → AreShown s }
{}

/// Every entry of a structure on which no unit in hand has work may be got by anyone, or is removed, or has a mark of an
/// incarnation that failed and isn't resolved.
pub fn a_structure_at_rest_has_no_pending_entry()
    ensures { (s : State) → IsSound s → AreTelling s.parts → AreFitting s → AreQuiet s }
{}
