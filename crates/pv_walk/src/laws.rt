//! Laws of operations on one object. Each function does nothing, and its contract is the law.
//!
//! An operation (the type `Operation`) is what a line of configuration asks of the object at one path. A make is `Make`
//! or `Renew`, a renewal is `Renew`, and an erasure is `Erase`. To run a list of operations is to do them in order. A
//! make is late if another operation comes before it. Operations that set nothing do not count for this, and after a
//! make only a renewal is late.
ghost use Rattle.std.specs.Prelude.{◌≡◌, ℕ, List, ◌∷◌, ◌++◌, take, true, false, Option, Some, None};
ghost use Rattle.std.specs.List.{list_all, list_any};
ghost use Rattle.pv_steps.specs.declared.object.Object.{Object as ObjectValue};
ghost use Rattle.pv_steps.specs.Objects.{object_state};
ghost use Rattle.pv_acl.specs.declared.part.Part.{Part as PartValue};
ghost use Rattle.pv_acl.specs.Parts.{part_of_mode, with_mode};
ghost use Rattle.pv_walk.specs.declared.object_state.ObjectState.{ObjectState as ObjectStateValue};
ghost use Rattle.pv_walk.specs.declared.operation.Operation.{Operation as OperationValue};
ghost use Rattle.pv_walk.specs.declared.operation.Operation.TheVariants.{Renew, Erase};
ghost use Rattle.pv_walk.specs.declared.operation.Test.{Test as TestValue};
ghost use Rattle.pv_walk.specs.Dividing.{parts};
ghost use Rattle.pv_walk.specs.Masks.{with_masked};
ghost use Rattle.pv_path.specs.Paths.{Path};
ghost use Rattle.pv_steps.specs.Trees.{Places};
ghost use Rattle.pv_steps.specs.Same.{object_states};
ghost use Rattle.pv_walk.specs.Nodes.{object_state_of, object_states_of};
ghost use Rattle.pv_walk.specs.Operations.{run, stays};
ghost use Rattle.pv_walk.specs.Reasons.{is_adjusting, sets_nothing, is_make, is_erasure, has_late_make, IsRepeatable};

/// States that doing the first few operations of a list and then all of them gives the same as doing all of them
/// once.
///
/// The premise is that the list is repeatable (`IsRepeatable`): for example, it appends no bytes. The law holds
/// whatever was there before.
pub fn first_operations_are_absorbed()
    ensures { (operations : List OperationValue) (k : ℕ) (b : Option ObjectStateValue) → IsRepeatable operations
        → run operations (run (take k operations) b) ≡ run operations b }
{}

/// States that an object that fails the test of the first renewal (`Renew`) of a list counts as absent. The list leaves
/// the same as if nothing was there.
///
/// The premise is that the operations before the renewal change nothing.
pub fn a_first_renewal_absorbs_what_was_there()
    ensures { (idle rest : List OperationValue) (test : TestValue) (new b : ObjectStateValue)
        → list_all (is_adjusting sets_nothing) idle ≡ true → stays test new.body b.body ≡ false
        → run (idle ++ Renew test new ∷ rest) (Some b) ≡ run (idle ++ Renew test new ∷ rest) None }
{}

/// States that a list that has an erasure (`Erase`) and no later make (`Make` or `Renew`) leaves nothing.
pub fn an_erasure_without_a_make_leaves_nothing()
    ensures { (before after : List OperationValue) (b : Option ObjectStateValue) → list_any is_make after ≡ false
        → run (before ++ Erase ∷ after) b ≡ None }
{}

/// States that a list with an erasure (`Erase`) leaves the same whatever was there before. So it does not have the
/// hazard of a late make: none of its makes counts as late.
pub fn a_list_with_an_erasure_leaves_the_same()
    ensures same { (operations : List OperationValue) (a b : Option ObjectStateValue) → list_any is_erasure operations ≡ true
        → run operations a ≡ run operations b }
    ensures quiet { (operations : List OperationValue) → list_any is_erasure operations ≡ true
        → has_late_make operations ≡ false }
{}

/// States that masking a mode takes nothing from the permissions of an object that has exactly this mode.
pub fn a_mask_takes_nothing_from_its_own_mode()
    ensures { (mode : ℕ) → with_masked mode (part_of_mode mode) ≡ part_of_mode mode }
{}

/// States that two definitions of an object without its timestamps compare alike. One sets the timestamps to 0
/// (`object_state`), and the other leaves them out (`object_state_of`). It holds for two objects, and for the objects
/// at one path of two trees.
pub fn objects_are_compared_without_stamps()
    ensures same { (a b : ObjectValue) → object_state a ≡ object_state b → object_state_of a ≡ object_state_of b }
    ensures back { (a b : ObjectValue) → object_state_of a ≡ object_state_of b → object_state a ≡ object_state b }
    ensures places_same { (t u : Places) (path : Path) → object_states t path ≡ object_states u path → object_states_of t path ≡ object_states_of u path }
    ensures places_back { (t u : Places) (path : Path) → object_states_of t path ≡ object_states_of u path → object_states t path ≡ object_states u path }
{}

/// States that operations that are divided into parts do the same as before, and that the parts are repeatable if
/// the operations are.
pub fn operations_do_the_same_in_parts()
    ensures same { (operations : List OperationValue) (b : Option ObjectStateValue) → run (parts operations) b ≡ run operations b }
    ensures quiet { (operations : List OperationValue) → IsRepeatable operations → IsRepeatable (parts operations) }
{}

/// States that masking a mode takes nothing from an ACL part that has the base entries of this mode.
pub fn a_mask_takes_nothing_from_a_part_with_its_mode()
    ensures { (mode : ℕ) (part : PartValue) → with_masked mode (with_mode mode part) ≡ with_mode mode part }
{}
