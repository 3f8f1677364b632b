//! Laws of the choice of configuration files. Each function does nothing; its contract is the law.
ghost use Rattle.std.specs.Prelude.{◌≡◌, ℕ, List};
ghost use Rattle.std.specs.List.{AllByRecursion};
ghost use Rattle.pv_text.specs.declared.tool.Tool.{Tool as ToolValue};
ghost use Rattle.pv_steps.specs.Trees.{Files};
ghost use Rattle.pv_layers.specs.Choices.{chosen};
ghost use Rattle.pv_layers.specs.Folders.{folders};
ghost use Rattle.pv_layers.specs.Inputs.{is_within, AreInput, IsPlain, SameContent};

/// States that the choice of files depends only on the presence, kinds and payloads of objects in the tool's folders.
///
/// If two trees have the same of these at and below the folders, the tool chooses the same files in both and adds the
/// same messages. The premise is that each word that can be read as an absolute path is a path in the folders.
pub fn the_choice_depends_on_the_folders()
    ensures { (t u : Files) (tool : ToolValue) (words : List (List ℕ)) → SameContent (is_within (folders tool)) t u
        → AllByRecursion (IsPlain (is_within (folders tool))) words → chosen t tool words ≡ chosen u tool words }
{}

/// States that all chosen files are in the folders of the tool.
///
/// The premise is that each word that can be read as an absolute path is a path in the folders.
pub fn the_chosen_stand_in_the_folders()
    ensures { (files : Files) (tool : ToolValue) (words : List (List ℕ)) → AllByRecursion (IsPlain (is_within (folders tool))) words
        → AreInput (is_within (folders tool)) (chosen files tool words).files }
{}
