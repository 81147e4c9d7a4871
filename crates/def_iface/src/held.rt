//! A definition of whichever kind: of windows, controls, lists or menus.
ghost use Rattle.std.specs.Prelude.{◌≡◌};

use crate::Stage;

/// What holds of a definition of whichever kind: it means a value, of which its stage is a part.
pub trait Held: Drop {
    ghost use Rattle.def_iface.specs.declared.window_def.Stage.{Stage};

    /// What a definition of this kind is, as a value.
    ghost Meaning: { Type 0 };

    /// What it is.
    ghost meaning: { Self → Meaning };

    /// Where one stands in its life.
    ghost stage_of: { Meaning → Stage };

    /// The second answers as the first did.
    ghost IsAlike: { Meaning → Meaning → Type 0 };

    /// Where the definition stands in its life.
    fn stage(&self) -> Stage
        ensures { result ≡ stage_of (meaning self.now) };

    /// Ends a Live definition's use. It answers as it did.
    fn dispose(&mut self)
        requires { stage_of (meaning self.old) ≡ Stage.Live }
        ensures closed { stage_of (meaning self.new) ≡ Stage.Closed }
        ensures same { IsAlike (meaning self.old) (meaning self.new) };
}
