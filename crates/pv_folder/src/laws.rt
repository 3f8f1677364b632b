//! Laws of folders that are opened or closed. Each function does nothing, and its contract is the law.
ghost use Rattle.std.specs.Prelude.{◌≡◌, ◌<◌, ◌^◌, ℕ, List, Some, None, take};
ghost use Rattle.pv_path.specs.Paths.{Path};
ghost use Rattle.pv_steps.specs.declared.step.Step.{Step};
ghost use Rattle.pv_steps.specs.Runs.{after_all};
ghost use Rattle.pv_steps.specs.Trees.{Files, IsTree};
ghost use Rattle.pv_text.specs.Facts.{Values};
ghost use Rattle.pv_folder.specs.Content.{Content, IsContent, held};
ghost use Rattle.pv_folder.specs.Folders.{manifest_path};
ghost use Rattle.pv_folder.specs.Keeping.{IsClosed, Keeps};
ghost use Rattle.pv_folder.specs.Manifest.{IsManifest};
ghost use Rattle.pv_folder.specs.Merge.{merged};
ghost use Rattle.pv_folder.specs.Made.{all_changed};
ghost use Rattle.pv_folder.specs.Moments.{CanBeDone, IsBetween, real_part, run_changes};
ghost use Rattle.pv_folder.specs.Opening.{IsOpened, Says, fault_among, objects_below};

/// States that a folder that was opened has exactly the directories and files of the tree that it was opened with.
pub fn an_opened_folder_keeps_its_tree()
    ensures { (folder : Path) (content : Content) (facts : Values) (tree : Files) →
        IsOpened folder content facts tree → IsContent (held content) → Keeps folder tree content }
{}

/// States that a folder that was closed is opened again with the same facts and the same tree.
///
/// The premises are that the folder had exactly the directories and files of the tree, and that the manifest is an
/// image of the facts and the tree. A further premise is that nothing below `tree` is an odd object or beyond the
/// limits of `read_folder`.
pub fn a_closed_folder_is_opened_again()
    ensures { (folder : Path) (old new : Content) (facts : Values) (files : Files) → Keeps folder files old
        → IsManifest facts files → IsClosed folder facts files (Some old) (Some new)
        → fault_among 0 0 (objects_below folder new) ≡ None → IsOpened folder new facts files }
{}

/// States that the directory `tree` of a folder has the directories and files of an intermediate tree at any moment
/// of a run.
///
/// A moment lies before the first change that the run asks of its host, between two of these changes, or after the last
/// one. The manifest is as before until the last change, which replaces it.
pub fn a_folder_always_holds_an_intermediate_tree()
    ensures { (folder : Path) (old : Content) (t : Files) (steps : List Step) (now n : ℕ) (text : List ℕ) → now < 2 ^ 64 → IsTree t
        → Keeps folder t old → CanBeDone t steps now
        → IsBetween folder t steps now text (held old) (all_changed (take n (run_changes folder t steps now text)) (held old)) }
{}

/// States that an interrupted folder is opened with the old facts, and with the old manifest merged with an
/// intermediate tree.
///
/// The premise is that the old manifest is still there. A directory or file has its owners, its mode and all else
/// from the old manifest's object of its kind at its path, if there is one. A link, a FIFO or a device is there if
/// the old manifest has it, nothing real is at its path, and its parent is a real directory.
pub fn an_interrupted_folder_is_opened_as_merged()
    ensures { (folder : Path) (old new : Content) (t : Files) (steps : List Step) (now : ℕ) (text : List ℕ) (facts : Values) (tree : Files)
        → IsBetween folder t steps now text (held old) (held new) → held new (manifest_path folder) ≡ held old (manifest_path folder)
        → IsOpened folder new facts tree
        → (manifest : Files) × (Says folder old facts manifest
        × ((n : ℕ) × (tree ≡ merged manifest (real_part (after_all t (take n steps) now))))) }
{}
