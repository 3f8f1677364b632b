//! Laws of active lines, of their order and of what they ask. Each function does nothing; its contract is the law.
ghost use Rattle.std.specs.Prelude.{◌≡◌, ℕ, Bool, List, Option, [], true, false};
ghost use Rattle.pv_lines.specs.Lines.{IsLine};
ghost use Rattle.pv_lines.specs.declared.line.Line.{Line as LineValue};
ghost use Rattle.pv_path.specs.Paths.{Path};
ghost use Rattle.pv_steps.specs.Trees.{Files};
ghost use Rattle.pv_table.specs.Active.{active, are_distinct, in_create_order};
ghost use Rattle.pv_table.specs.Asked.{operations};
ghost use Rattle.pv_table.specs.Created.{RefusesNoLine};
ghost use Rattle.pv_table.specs.Orders.{IsCreateOrder};
ghost use Rattle.pv_table.specs.Reaching.{governs};

/// States that no two active lines make or copy an object at one path.
pub fn active_lines_make_different_paths()
    ensures { (boot : Bool) (prefix exclude : Option Path) (lines : List LineValue) →
        are_distinct (active boot prefix exclude lines) ≡ true }
{}

/// States that in the create order a line for a directory comes before the lines for what is below it.
///
/// Each line that makes or copies comes once, before all other such lines whose paths are below its own. Then come
/// the lines that adjust, in their listing order.
pub fn what_lies_above_comes_first()
    ensures { (lines : List LineValue) → IsCreateOrder lines (in_create_order lines) }
{}

/// States that a line that was read asks for no operation at a path that it does not govern.
///
/// A line governs the paths that it reaches, and the directories above an object that it makes or copies.
pub fn a_line_asks_nothing_elsewhere()
    ensures { (line : LineValue) (q : Path) → IsLine line → governs line q ≡ false → operations line q ≡ [] }
{}

/// States that whether creating refuses a line does not depend on the time of the run.
pub fn refusing_no_line_does_not_depend_on_the_moment()
    ensures { (lines : List LineValue) (now later : ℕ) (t : Files) → RefusesNoLine lines now t → RefusesNoLine lines later t }
{}
