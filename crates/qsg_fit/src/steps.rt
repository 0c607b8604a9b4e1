//! What each step of a request keeps.

ghost use Rattle.std.specs.Prelude.{ℕ, ◌+◌, ◌≤◌};
ghost use Rattle.qsg_parts.specs.Owned.{Owned};
ghost use Rattle.qsg_get.specs.Steps.{next_get};
ghost use Rattle.qsg_get.specs.Works.{Work as GetWork};
ghost use Rattle.qsg_put.specs.Steps.{next_put};
ghost use Rattle.qsg_put.specs.Works.{Work as PutWork};
ghost use Rattle.qsg_fit.specs.Outcomes.{IsPutOf, IsGetOf, IsSteadyAtPut, IsSteadyAtGet, KeepsPut, KeepsGet};

/// Each step of a put leaves the group steady, with one request more in progress or one more answered, and all other tasks
/// as they stood. A put that goes on fits how its task stands then; after its answer the task may have a further request.
pub fn a_step_of_a_put_keeps_the_group_steady()
    ensures { (answered busy : ℕ) (p : Owned) (work : PutWork) → answered + busy ≤ 2147483648 → IsSteadyAtPut answered busy work.phase p → IsPutOf work p → KeepsPut answered busy work.member work.task work.words p (next_put work p) }
{}

/// The same of each step of a get.
pub fn a_step_of_a_get_keeps_the_group_steady()
    ensures { (answered busy : ℕ) (p : Owned) (work : GetWork) → IsSteadyAtGet answered busy work.phase p → IsGetOf work p → KeepsGet answered busy work.member work.task p (next_get work p) }
{}
