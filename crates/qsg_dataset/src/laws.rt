//! What the steps that save a map leave, whether they succeed or not, and what a power cut between them leaves.

ghost use Rattle.std.specs.Prelude.{◌≡◌, ◌≢◌, ◌<◌, ◌≤◌, ◌^◌, ℕ, Bool, List, [], ◌∷◌, length, map, Result, Ok};
ghost use Rattle.qsg_num.specs.declared.words.Failed.{Failed};
ghost use Rattle.qsg_disk.specs.Byte.{Byte, safe_byte, EachPair, IsCut};
ghost use Rattle.qsg_dataset.specs.Headers.{spelling};
ghost use Rattle.qsg_dataset.specs.Contents.{gate_of, gate_value, IsSaved, IsShut, IsReady};
ghost use Rattle.qsg_dataset.specs.Steps.{SaveStep, ShutStep};

/// Until the gate is written, a gate that is safely shut stays so; and then no map is saved.
pub fn a_shut_gate_stays()
    ensures saving { (at epoch : ℕ) (used : List Bool) (result : Result (Unit {0}) Failed) (old new : List Byte) → at ≤ 2 → SaveStep at epoch used result old new → IsShut old → IsShut new }
    ensures shutting { (at : ℕ) (result : Result (Unit {0}) Failed) (old new : List Byte) → 2 ≤ at → ShutStep at result old new → IsShut old → IsShut new }
    ensures cut { (old new : List Byte) → EachPair IsCut old new → IsShut old → IsShut new }
    ensures unsaved { (epoch blocks : ℕ) (used : List Bool) (bytes : List Byte) → IsShut bytes → IsSaved epoch blocks used bytes → ⊥ }
{}

/// Once the first two steps that save a map have succeeded it is safely spelled.
pub fn a_map_gets_ready()
    ensures { (epoch : ℕ) (used : List Bool) (old written new : List Byte) (one two : Unit {0}) → SaveStep {E = Failed} 1 epoch used (Ok one) old written → SaveStep {E = Failed} 2 epoch used (Ok two) written new → IsReady epoch used new }
{}

/// A map that is safely spelled stays so through the steps that open and shut the gate, and through a power cut. So it
/// is the saved map wherever the gate isn't 0.
pub fn a_ready_map_stays()
    ensures saving { (at epoch : ℕ) (used : List Bool) (result : Result (Unit {0}) Failed) (old new : List Byte) → 2 ≤ at → SaveStep at epoch used result old new → IsReady epoch used old → IsReady epoch used new }
    ensures shutting { (at epoch : ℕ) (used : List Bool) (result : Result (Unit {0}) Failed) (old new : List Byte) → ShutStep at result old new → IsReady epoch used old → IsReady epoch used new }
    ensures cut { (epoch : ℕ) (used : List Bool) (old new : List Byte) → EachPair IsCut old new → IsReady epoch used old → IsReady epoch used new }
    ensures saved { (epoch : ℕ) (used : List Bool) (bytes : List Byte) → IsReady epoch used bytes → gate_value bytes ≢ 0 → IsSaved epoch (length used) used bytes }
{}

/// Once the last two steps have succeeded the gate is safely open, and once both steps that shut it have it is safely
/// shut.
pub fn the_gate_gets_safe()
    ensures open { (epoch : ℕ) (used : List Bool) (old written new : List Byte) (one two : Unit {0}) → SaveStep {E = Failed} 3 epoch used (Ok one) old written → SaveStep {E = Failed} 4 epoch used (Ok two) written new → gate_of new ≡ map safe_byte (1 ∷ []) }
    ensures shut { (old written new : List Byte) (one two : Unit {0}) → ShutStep {E = Failed} 1 (Ok one) old written → ShutStep {E = Failed} 2 (Ok two) written new → IsShut new }
{}

/// A spelling is one of one epoch, and of one map of so many blocks.
pub fn a_spelling_is_of_one_map()
    ensures epoch { (e f : ℕ) (used other : List Bool) → e < 2 ^ 32 → f < 2 ^ 32 → spelling e used ≡ spelling f other → e ≡ f }
    ensures map { (e f : ℕ) (used other : List Bool) → length used ≡ length other → length used ≤ 8192 → spelling e used ≡ spelling f other → used ≡ other }
{}
