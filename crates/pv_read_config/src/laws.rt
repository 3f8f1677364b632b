//! Laws of configurations. Each function does nothing; its contract is the law.
ghost use Rattle.std.specs.Prelude.{◌≡◌, ℕ, false, true, List};
ghost use Rattle.std.specs.List.{AllByRecursion};
ghost use Rattle.pv_path.specs.Paths.{Path};
ghost use Rattle.pv_steps.specs.declared.step.Step.{Step as StepValue};
ghost use Rattle.pv_steps.specs.Content.{AreOutside, alters};
ghost use Rattle.pv_steps.specs.Runs.{after_all, Along};
ghost use Rattle.pv_steps.specs.Trees.{Files, IsTree};
ghost use Rattle.pv_layers.specs.Inputs.{IsPlain, SameContent};
ghost use Rattle.pv_text.specs.Facts.{Values};
ghost use Rattle.pv_requests.specs.Allowed.{IsAllowed};
ghost use Rattle.pv_layers.specs.Places.{is_input};
ghost use Rattle.pv_read_config.specs.Inputs.{is_request_input};
ghost use Rattle.pv_read_config.specs.Known.{configured};
ghost use Rattle.pv_read_config.specs.Requested.{requested};

/// States that the configuration of systemd-tmpfiles depends only on the presence, kinds and payloads of objects at
/// input paths.
///
/// If two trees have the same of these at input paths, their configurations are the same. The premise is that each word
/// that can be read as an absolute path is an input path.
pub fn a_configuration_depends_on_input_paths()
    ensures { (t u : Files) (facts : Values) (words : List (List ℕ)) → SameContent is_input t u
        → AllByRecursion (IsPlain is_input) words → configured t facts words ≡ configured u facts words }
{}

/// States that steps leave the configuration of systemd-tmpfiles the same if they alter nothing at input paths.
///
/// To alter is to create, remove or rewrite the object at a path. The premise is that each word that can be read as an
/// absolute path is an input path.
pub fn steps_elsewhere_leave_the_configuration()
    ensures { (files : Files) (steps : List StepValue) (now : ℕ) (facts : Values) (words : List (List ℕ))
        → ((path : Path) → is_input path ≡ true → AllByRecursion (λ step. alters step path ≡ false) steps)
        → AllByRecursion (IsPlain is_input) words
        → configured (after_all files steps now) facts words ≡ configured files facts words }
{}

/// States that a run whose steps are outside of input paths leaves the configuration of systemd-tmpfiles the same.
///
/// Such a run may also move an object with nothing below it to a path above an input path, as when it makes an absent
/// `/run`. The premises are:
/// - Each step is possible and has an effect when it is done, and the tree is well-formed before and after it.
/// - Each word that can be read as an absolute path is an input path.
pub fn a_run_outside_leaves_the_configuration()
    ensures { (files : Files) (steps : List StepValue) (now : ℕ) (facts : Values) (words : List (List ℕ))
        → Along IsTree files steps now → AreOutside is_input files steps now
        → AllByRecursion (IsPlain is_input) words
        → configured (after_all files steps now) facts words ≡ configured files facts words }
{}

/// States that the requests of systemd-sysusers depend only on the presence, kinds and payloads of objects in its
/// folders.
///
/// If two trees have the same of these at and below the folders, their requests are the same. The premise is that each
/// word that can be read as an absolute path is a path in the folders.
pub fn requests_depend_on_their_folders()
    ensures { (t u : Files) (facts : Values) (words : List (List ℕ)) → SameContent is_request_input t u
        → AllByRecursion (IsPlain is_request_input) words → requested t facts words ≡ requested u facts words }
{}

/// States that each request that is read has only names, IDs, paths and texts that are allowed (sysusers.d(5)).
pub fn each_request_is_allowed()
    ensures { (files : Files) (facts : Values) (words : List (List ℕ)) → AllByRecursion IsAllowed (requested files facts words).lines }
{}
