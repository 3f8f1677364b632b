//! Laws of runs that were stopped, however often. Each function does nothing, and its contract is the law.
ghost use Rattle.std.specs.Prelude.{◌≡◌, ◌<◌, ◌^◌, ◌∷◌, [], ℕ, List, Option, Some};
ghost use Rattle.pv_sysusers.specs.Accounted.{accounted};
ghost use Rattle.pv_folder.specs.Opening.{IsOpened};
ghost use Rattle.pv_folder.specs.Content.{Content, IsContent, held};
ghost use Rattle.pv_image.specs.Images.{IsImage};
ghost use Rattle.pv_path.specs.Paths.{Path};
ghost use Rattle.provision_run.specs.Phases.{phases_of};
ghost use Rattle.pv_steps.specs.Same.{Same};
ghost use Rattle.pv_steps.specs.Trees.{Files};
ghost use Rattle.pv_text.specs.Facts.{Values};
ghost use Rattle.pv_words.specs.declared.options.Options.{Options as OptionsValue};
ghost use Rattle.provision_run.specs.declared.outcome.Outcome.{Outcome as OutcomeValue};
ghost use Rattle.provision_run.specs.declared.task.Task.TheVariants.{Accounts, Phases};
ghost use Rattle.provision_run.specs.Accounts.{run_requests};
ghost use Rattle.provision_run.specs.declared.phase.Phase.TheVariants.{Create};
ghost use Rattle.provision_run.specs.FolderKills.{HasKilledOn, IsMergedBack, SayAll};
ghost use Rattle.provision_run.specs.FolderStops.{AreFolders, HasEndedOn, HaveStoppedOn, IsCalmOn};
ghost use Rattle.provision_run.specs.OnFolder.{HasWrittenOn, HoldsAlways, HostState};
ghost use Rattle.provision_run.specs.Phased.{phased, run_lines};
ghost use Rattle.provision_run.specs.Rereading.{ArePlain, ArePlainRequests, MayRepeat};
ghost use Rattle.provision_run.specs.Stops.{AreImages, EndAlikeAfter, HasEndedOver, HaveStopped, HaveStoppedOver, IsCalm, IsCalmOver};
ghost use Rattle.provision_run.specs.Tasks.{task_of};
ghost use Rattle.provision_run.specs.Words.{moment_of};

/// States that a complete run after one or more stopped runs leaves the same tree as one complete run from the first
/// tree.
///
/// Each stopped run is over the tree that the run before it left, and reads its lines from this tree. The runs may be
/// at any times. "The same" leaves out timestamps and staging names. The two clauses are these:
///
/// - `phases` is about creating, removing or purging alone, and about the boot command.
/// - `accounts` says that /etc/group, /etc/gshadow and /etc/passwd get the same texts. If all runs are on one day, the
///   trees are the same.
///
/// The premises of `phases` are these:
///
/// - For creating and for the boot command, no line has a hazard. For the boot command, no line copies either.
/// - For removing or purging alone, no line has the hazard `input`.
/// - For creating, a complete run refuses no line, from each tree from which a run begins.
/// - For the boot command, a complete removal from each such tree leaves nothing unfinished, and creating over the tree
///   that it leaves refuses no line.
///
/// A premise of both clauses is about FILE arguments. Each one that begins with a slash and is a valid path must name
/// an input path. Input paths are those at and below the folders of tmpfiles.d(5), /etc/passwd and /etc/group. For
/// accounts it must name a path in a folder of sysusers.d(5).
pub fn trees_of_stopped_runs_recover()
    ensures phases { (options : OptionsValue) (facts : Values) (moments : List ℕ) (moment first later : ℕ) (t u : Files)
        → task_of options ≡ Phases → ArePlain options → MayRepeat (phases_of options) (run_lines options facts t)
        → HaveStopped options facts (moment ∷ moments) t u → IsCalm options facts u
        → Same (phased options facts later u) (phased options facts first t) }
    ensures accounts { (options : OptionsValue) (facts : Values) (moments : List ℕ) (moment first later : ℕ) (t u : Files)
        → task_of options ≡ Accounts → ArePlainRequests options → HaveStopped options facts (moment ∷ moments) t u
        → EndAlikeAfter first (later ∷ moment ∷ moments)
        (accounted (run_requests options facts t) first t) (accounted (run_requests options facts u) later u) }
{}

/// States the same as [`trees_of_stopped_runs_recover`] of what `provision` writes: each run reads the output of the
/// run before it.
///
/// The words of all runs mean the same except for the limit and the time. The output of the last, complete run and that
/// of one complete run over the first input are images of the same tree, and of the same facts. After accounts, the
/// trees have the same texts of the account files. The premises are those of [`trees_of_stopped_runs_recover`].
pub fn outputs_of_stopped_runs_recover()
    ensures phases { (options : OptionsValue) (moments : List ℕ) (moment first later : ℕ) (input last out again : List ℕ)
        (facts : Values) (t : Files) → IsImage input facts t
        → task_of options ≡ Phases → ArePlain options → MayRepeat (phases_of options) (run_lines options facts t)
        → HaveStoppedOver options (moment ∷ moments) input last → IsCalmOver options last
        → HasEndedOver options first input out → HasEndedOver options later last again
        → AreImages (λ one two. Same two one) out again }
    ensures accounts { (options : OptionsValue) (moments : List ℕ) (moment first later : ℕ) (input last out again : List ℕ)
        (facts : Values) (t : Files) → IsImage input facts t
        → task_of options ≡ Accounts → ArePlainRequests options
        → HaveStoppedOver options (moment ∷ moments) input last
        → HasEndedOver options first input out → HasEndedOver options later last again
        → AreImages (EndAlikeAfter first (later ∷ moment ∷ moments)) out again }
{}

/// States the same as [`trees_of_stopped_runs_recover`] of runs on a folder of a host whose content is known.
///
/// Each run begins with what the run before it left in the folder. The words of all runs mean the same except for the
/// limit and the time. A run counts as stopped in three cases: it was stopped at its limit, a step of it failed on the
/// host, or memory ran out. In each case the folder was closed. The last, complete run leaves in the folder the facts
/// of one complete run and the same tree. The premises are those of [`trees_of_stopped_runs_recover`].
pub fn folders_of_stopped_runs_recover()
    ensures phases { (options : OptionsValue) (folder : Path) (moments : List ℕ) (moment first later : ℕ)
        (old last one again : Content) (facts : Values) (t : Files) → IsOpened folder old facts t
        → task_of options ≡ Phases → ArePlain options → MayRepeat (phases_of options) (run_lines options facts t)
        → HaveStoppedOn options folder (moment ∷ moments) old last → IsCalmOn options folder last
        → HasEndedOn options folder first old one → HasEndedOn options folder later last again
        → AreFolders (λ one two. Same two one) folder old one again }
    ensures accounts { (options : OptionsValue) (folder : Path) (moments : List ℕ) (moment first later : ℕ)
        (old last one again : Content) (facts : Values) (t : Files) → IsOpened folder old facts t
        → task_of options ≡ Accounts → ArePlainRequests options
        → HaveStoppedOn options folder (moment ∷ moments) old last
        → HasEndedOn options folder first old one → HasEndedOn options folder later last again
        → AreFolders (EndAlikeAfter first (later ∷ moment ∷ moments)) folder old one again }
{}

/// States that a run on a folder always has an intermediate tree there, whatever the outcome.
///
/// "Always" means before the first change that the run asks of the host, between any two changes, and after the last
/// one. Then the folder has the directories and files of an intermediate tree of the run. Its manifest is the old one
/// until all steps are done. If the run asks for no change, the content stays as it is.
///
/// The premises are that the content of the host is known, and that each object in it lies in a directory. A further
/// premise is that the time of the run is below 2^64 microseconds.
pub fn a_run_on_a_folder_always_holds_an_intermediate_tree()
    ensures { (folder : Path) (options : OptionsValue) (clock_micros : ℕ) (content : Content) (old new : HostState) (found : OutcomeValue)
        (before after : Option (List ℕ)) → moment_of options clock_micros < 2 ^ 64 → IsContent (held content) → old.content ≡ Some content
        → HasWrittenOn folder options clock_micros old new found before after
        → HoldsAlways folder options clock_micros content old new }
{}

/// States that a run of creating on a folder recovers after a kill, under more premises than after a stop.
///
/// The run was killed between two changes that it asked of the host, before the new manifest was in its place. A
/// complete run then leaves the facts of one complete run and the same tree, except for timestamps and staging names. A
/// premise is that creating refuses no line from the first tree, and from the tree that the folder is opened with after
/// the kill. Each clause has further premises:
///
/// - `merged_back`: the premises of [`trees_of_stopped_runs_recover`] for creating hold. The old manifest, merged with
///   the real objects, gives the tree after some of the steps, except for timestamps.
/// - `lines_say_all`: the same lines are read, and none of them copies. At each path, the operations of the lines give
///   the same result on the object that merging gives and on the object that was there at the start.
pub fn folders_of_killed_runs_recover()
    ensures merged_back { (options : OptionsValue) (folder : Path) (moment first later : ℕ) (old new one again : Content) (facts : Values) (t v : Files)
        → IsOpened folder old facts t → IsOpened folder new facts v
        → task_of options ≡ Phases → phases_of options ≡ Create ∷ [] → ArePlain options → MayRepeat (phases_of options) (run_lines options facts t)
        → (killed : HasKilledOn options folder moment old new) → IsMergedBack options folder moment old new killed v
        → IsCalm options facts t → IsCalm options facts v
        → HasEndedOn options folder first old one → HasEndedOn options folder later new again
        → AreFolders (λ one two. Same two one) folder old one again }
    ensures lines_say_all { (options : OptionsValue) (folder : Path) (moment first later : ℕ) (old new one again : Content) (facts : Values) (t v : Files)
        → IsOpened folder old facts t → IsOpened folder new facts v
        → task_of options ≡ Phases → phases_of options ≡ Create ∷ [] → HasKilledOn options folder moment old new
        → run_lines options facts v ≡ run_lines options facts t → SayAll (run_lines options facts t) t v
        → IsCalm options facts t → IsCalm options facts v
        → HasEndedOn options folder first old one → HasEndedOn options folder later new again
        → AreFolders (λ one two. Same two one) folder old one again }
{}
