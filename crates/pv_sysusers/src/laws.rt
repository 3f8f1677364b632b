//! Laws of plans that are made again. Each function does nothing, and its contract is the law.
ghost use Rattle.std.specs.Prelude.{◌≡◌, ◌<◌, ◌^◌, ◌++◌, ℕ, Bool, List, Option, None, Ok};
ghost use Rattle.std.specs.List.{AllByRecursion};
ghost use Rattle.pv_requests.specs.declared.request.Request.{Request as RequestValue};
ghost use Rattle.pv_accounts.specs.InUse.{Ids};
ghost use Rattle.pv_text.specs.declared.place.Place.{Place as PlaceValue};
ghost use Rattle.pv_sysusers.specs.declared.needs.Account.{Account as AccountValue};
ghost use Rattle.pv_sysusers.specs.declared.needs.Need.{Need as NeedValue};
ghost use Rattle.pv_sysusers.specs.declared.path_ids.PathId.{PathId as PathIdValue};
ghost use Rattle.pv_sysusers.specs.declared.planned.Texts.{Texts as TextsValue};
ghost use Rattle.pv_requests.specs.Allowed.{IsAllowed};
ghost use Rattle.pv_sysusers.specs.Allowed.{AreOwners};
ghost use Rattle.pv_sysusers.specs.Finishing.{Finishes, IsPartWritten};
ghost use Rattle.pv_sysusers.specs.Plans.{AccountFiles, planned};
ghost use Rattle.pv_sysusers.specs.Groups.{decided_groups, no_groups};
ghost use Rattle.pv_sysusers.specs.Users.{decided_users, no_users};
ghost use Rattle.pv_sysusers.specs.Settled.{ids_made};

/// States that groups that are there stay: if new groups were decided and added, deciding again makes none and gives no
/// message.
///
/// This holds whatever the users, the fixed numbers and the pool are then. The premise is that a number was left for
/// each group.
pub fn groups_that_are_there_stay()
    ensures { (pooled again : ℕ → Bool) (users later : Ids) (fixed then : List ℕ → Option (ℕ × PlaceValue)) (groups : Ids) (needs : List NeedValue) →
        (decided_groups pooled users fixed groups needs).lacking ≡ None →
        decided_groups again later then (groups ++ (decided_groups pooled users fixed groups needs).made) needs ≡ no_groups }
{}

/// States that users that are there stay: if new users were decided and added, deciding again makes none and gives no
/// message.
///
/// This holds whatever the groups and the pool are then. The premise is that a number was left for each user.
pub fn users_that_are_there_stay()
    ensures { (pooled again : ℕ → Bool) (groups later users : Ids) (accounts : List AccountValue) →
        (decided_users pooled groups users accounts).lacking ≡ None →
        decided_users again later (users ++ ids_made (decided_users pooled groups users accounts).made) accounts ≡ no_users }
{}

/// States that a plan recovers: a plan of the same lines, made from the files that a stopped run left, gives the texts
/// that were planned.
///
/// The premises are these:
///
/// - The lines have only names, IDs, paths and texts that are allowed, and all owners are IDs.
/// - The first plan gave texts.
/// - Each file now has its old text or its planned one, and /etc/passwd has its planned text only if all files have.
///
/// The text of /etc/shadow holds the day. It is the planned text if the day is the same, or if the file already has its
/// planned text.
pub fn a_plan_among_new_files_gives_the_same_texts()
    ensures { (requests : List RequestValue) (taken : List (Option PathIdValue)) (files again : AccountFiles) (day later : ℕ) (texts : TextsValue) →
        AllByRecursion IsAllowed requests → AllByRecursion AreOwners taken → day < 2 ^ 64 →
        (planned requests taken files day).texts ≡ Ok texts → IsPartWritten files texts again →
        Finishes texts day later again (planned requests taken again later).texts }
{}
