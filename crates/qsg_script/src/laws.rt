//! What holds of all scripts.

ghost use Rattle.std.specs.Prelude.{◌≡◌, List, ℕ};
ghost use Rattle.qsg_draft.specs.Order.{AreInOrder, IsOperatorLast};
ghost use Rattle.qsg_objects.specs.declared.plans.Plan.{Plan};
ghost use Rattle.qsg_script.specs.declared.faults.ScriptFault.{ScriptFault};
ghost use Rattle.qsg_script.specs.Script.{IsPlan, IsFirstFault};

/// Bytes are the script of at most one plan.
pub fn bytes_make_one_plan()
    ensures { (bytes : List ℕ) (a b : Plan) → IsPlan bytes a → IsPlan bytes b → a ≡ b }
{}

/// Bytes have at most one first fault.
pub fn bytes_have_one_fault()
    ensures { (bytes : List ℕ) (a b : ScriptFault) → IsFirstFault bytes a → IsFirstFault bytes b → a ≡ b }
{}

/// Bytes that are a plan have no fault.
pub fn bytes_are_a_plan_or_at_fault()
    ensures { (bytes : List ℕ) (plan : Plan) (fault : ScriptFault) → IsPlan bytes plan → IsFirstFault bytes fault → ⊥ }
{}

/// The works of a plan stand in the order of their actors, one for each, and the operator's is the last.
pub fn works_of_a_plan_stand_in_order()
    ensures order { (bytes : List ℕ) (plan : Plan) → IsPlan bytes plan → AreInOrder plan.works }
    ensures last { (bytes : List ℕ) (plan : Plan) → IsPlan bytes plan → IsOperatorLast plan.works }
{}
