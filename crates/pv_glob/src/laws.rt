//! Laws of patterns. Each function does nothing, and its contract is the law.
ghost use Rattle.std.specs.Prelude.{◌≡◌, ◌≤◌, true, false, [], ◌∷◌, length, Ok};
ghost use Rattle.pv_path.specs.Paths.{Path, has_names, has_staging};
ghost use Rattle.pv_glob.specs.Escaping.{escaped_path};
ghost use Rattle.pv_glob.specs.Matching.{literal_of};
ghost use Rattle.pv_glob.specs.Parsing.{pattern_of};

/// States that a path, with a backslash before each of `\ * ? [ { }`, spells the pattern that matches this path
/// alone.
///
/// It holds for every path without a staging name whose text has at most 4,095 bytes with these backslashes.
pub fn an_escaped_path_spells_its_literal()
    ensures { (path : Path) → has_names path ≡ true → has_staging path ≡ false
        → length (escaped_path path) ≤ 4095 → pattern_of (escaped_path path) ≡ Ok (literal_of path ∷ []) }
{}
