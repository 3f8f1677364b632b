//! Laws of heads. Each function does nothing, and its contract is the law.
ghost use Rattle.std.specs.Prelude.{◌≡◌, Bool, List, true};
ghost use Rattle.pv_path.specs.Paths.{Path};
ghost use Rattle.pv_glob.specs.declared.element.Element.{Element};
ghost use Rattle.pv_glob.specs.Meeting.{are_met};
ghost use Rattle.pv_overlap.specs.Heads.{head_of_all, related};

/// States that if two patterns share a path, the head of one is a prefix of the head of the other.
///
/// For each pattern, the paths below those that it matches may count too.
pub fn patterns_that_meet_have_related_heads()
    ensures { (a : List (List (List Element))) (a_below : Bool) (b : List (List (List Element))) (b_below : Bool) (path : Path) → are_met a a_below b b_below path ≡ true → related (head_of_all a) (head_of_all b) ≡ true }
{}
