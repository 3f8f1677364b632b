//! Laws of ages. Each function does nothing; its contract is the law.
ghost use Rattle.std.specs.Prelude.{◌≡◌, ℕ, ◌<◌, ◌^◌, List, ◌∷◌, Ok};
ghost use Rattle.pv_age.specs.declared.unit.Unit.{Unit as UnitValue};
ghost use Rattle.pv_age.specs.Printing.{micros_together, printed};
ghost use Rattle.pv_age.specs.Sums.{micros_of};

/// States that numbers with units, printed one after another, read back as their sum in microseconds.
///
/// The law is for one or more numbers, each printed in decimal with the shortest name of its unit (`us`, `ms`, `s`,
/// `m`, `h`, `d`, `w`). Its premise is that the sum is below 2^64.
pub fn printed_numbers_with_units_read_back_as_their_sum()
    ensures { (pair : ℕ × UnitValue) (pairs : List (ℕ × UnitValue)) → micros_together (pair ∷ pairs) < 2 ^ 64
        → micros_of (printed (pair ∷ pairs)) ≡ Ok (micros_together (pair ∷ pairs)) }
{}
