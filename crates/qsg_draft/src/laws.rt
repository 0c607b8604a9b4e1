//! What holds of the sections of every draft.

ghost use Rattle.std.specs.Prelude.{◌≡◌, false, List};
ghost use Rattle.std.specs.List.{list_any};
ghost use Rattle.qsg_num.specs.declared.ids.Actor.{Actor};
ghost use Rattle.qsg_objects.specs.declared.directives.Directive.{Directive};
ghost use Rattle.qsg_draft.specs.Lookups.{is_section};
ghost use Rattle.qsg_draft.specs.Additions.{inserted, extended};
ghost use Rattle.qsg_draft.specs.Plans.{works_of};
ghost use Rattle.qsg_draft.specs.Order.{AreInOrder, IsOperatorLast};

/// Sections stand in the order of their actors, one for each: a section of an actor that has none keeps that, a
/// directive keeps it, and so do the works of the plan, where the operator's pair is the last.
pub fn sections_stay_in_order()
    ensures opened { (a : Actor) (sections : List (Actor × List Directive)) → AreInOrder sections → list_any (is_section a) sections ≡ false → AreInOrder (inserted a sections) }
    ensures extended { (a : Actor) (d : Directive) (sections : List (Actor × List Directive)) → AreInOrder sections → AreInOrder (extended a d sections) }
    ensures works { (sections : List (Actor × List Directive)) → AreInOrder sections → AreInOrder (works_of sections) }
    ensures last { (sections : List (Actor × List Directive)) → AreInOrder sections → IsOperatorLast (works_of sections) }
{}
