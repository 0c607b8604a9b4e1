//! A group can work the plan of a script.

ghost use Rattle.std.specs.Prelude.{List, ℕ};
ghost use Rattle.qsg_objects.specs.declared.plans.Plan.{Plan};
ghost use Rattle.qsg_script.specs.Script.{IsPlan};
ghost use Rattle.qsg_sysplex.specs.Plans.{IsWorkable};
ghost use Rattle.qsg_plans.specs.Plans.{IsInRange};

/// The plan of a script is one that a group can work.
pub fn plans_of_scripts_are_workable()
    ensures { (bytes : List ℕ) (plan : Plan) → IsPlan bytes plan → IsWorkable plan }
{}

/// And all its numbers and actors are in their range.
pub fn plans_of_scripts_are_in_range()
    ensures { (bytes : List ℕ) (plan : Plan) → IsPlan bytes plan → IsInRange plan }
{}
