//! Laws of images: bytes have at most one meaning, and a text that was written reads back as what it was written
//! from. Each function does nothing, and its contract is the law.
ghost use Rattle.std.specs.Prelude.{◌≡◌, ℕ, List};
ghost use Rattle.pv_steps.specs.Trees.{Files};
ghost use Rattle.pv_text.specs.Facts.{Values};
ghost use Rattle.pv_image.specs.declared.image_fault.ImageFault.{ImageFault as Fault};
ghost use Rattle.pv_image.specs.declared.version.Version.TheVariants.{One, Two};
ghost use Rattle.pv_image.specs.Spelling.{old_text_of, text_of};
ghost use Rattle.pv_image.specs.Images.{HasImageFault, HaveText, IsImage, Spells, What};

/// States that a line of an image spells at most one thing.
pub fn line_says_one_thing()
    ensures { (text : List ℕ) (a b : What) → Spells text a → Spells text b → a ≡ b }
{}

/// States that bytes are an image of at most one tree with its facts.
pub fn bytes_are_one_image()
    ensures { (bytes : List ℕ) (f g : Values) (t u : Files) →
        IsImage bytes f t → IsImage bytes g u → (f ≡ g) × (t ≡ u) }
{}

/// States that bytes that are an image have no defect.
pub fn image_has_no_fault()
    ensures { (bytes : List ℕ) (facts : Values) (files : Files) (f : Fault) →
        IsImage bytes facts files → HasImageFault bytes f → ⊥ }
{}

/// States that bytes have at most one first defect.
pub fn bytes_have_one_fault()
    ensures { (bytes : List ℕ) (f g : Fault) → HasImageFault bytes f → HasImageFault bytes g → f ≡ g }
{}

/// States that the text of facts and a tree in version 2 is an image of them.
///
/// The premise `HaveText` says that the map from paths to objects is a tree, and that each fact has a letter and a
/// value that facts can have.
pub fn text_is_an_image()
    ensures { (facts : Values) (files : Files) → HaveText Two facts files →
        IsImage (text_of facts files) facts files }
{}

/// States that the text of facts and a tree in version 2 is an image of nothing else. So reading it gives the same
/// facts and the same tree again.
pub fn text_is_read_again()
    ensures { (facts : Values) (files : Files) → HaveText Two facts files → (g : Values) (t : Files) →
        IsImage (text_of facts files) g t → (g ≡ facts) × (t ≡ files) }
{}

/// States that the text of facts and a tree in version 1 is an image of them, and of nothing else.
///
/// A premise is that the tree has neither extended attributes nor file attribute flags. So reading a text of version 1
/// gives the same facts and the same tree again.
pub fn an_old_text_is_an_image()
    ensures image { (facts : Values) (files : Files) → HaveText One facts files →
        IsImage (old_text_of facts files) facts files }
    ensures alone { (facts : Values) (files : Files) → HaveText One facts files → (g : Values) (t : Files) →
        IsImage (old_text_of facts files) g t → (g ≡ facts) × (t ≡ files) }
{}
