//! Whether everything that was to be done over a tree was carried out.
ghost use Rattle.std.specs.Prelude.{◌≡◌, Bool, ◌||◌};
ghost use Rattle.pv_steps.specs.Courses.{carried_of};

/// The outcome of a phase, or of a part of it: whether everything was carried out.
#[derive(Clone, Copy)]
pub enum Carried {
    /// Everything was carried out. What was left as it was on purpose counts as carried out, and so does a refusal
    /// that is to be ignored.
    Whole,
    /// Something was refused, or something that was to be removed could not be removed.
    NotCarriedOut,
}

impl Carried {
    /// Returns `NotCarriedOut` if something was refused or could not be removed, otherwise `Whole`.
    pub fn of(refused: bool) -> Carried
        ensures { result ≡ carried_of refused }
    {
        if refused {
            Carried::NotCarriedOut
        } else {
            Carried::Whole
        }
    }

    /// Combines two outcomes: gives `NotCarriedOut` if at least one of them is `NotCarriedOut`, otherwise `Whole`.
    pub fn and(self, one: Carried) -> Carried
        ensures { (a b : Bool) → self ≡ carried_of a → one ≡ carried_of b → result ≡ carried_of (a || b) }
    {
        match one {
            Carried::Whole => self,
            Carried::NotCarriedOut => Carried::NotCarriedOut,
        }
    }
}
