//! Laws of pictures.
ghost use Rattle.std.specs.Prelude.{◌≡◌, ◌++◌, ◌∷◌, [], List, ℕ, Bool};
ghost use Rattle.tb_geom.specs.declared.point.Point.{Point};
ghost use Rattle.draw_port.specs.declared.shapes.Op.{Op};
ghost use Rattle.draw_port.specs.Ops.{op_value, picture_value};

/// One more operation makes its bit of what those before it made.
#[tactic(auto, using(crate::proofs::PictureLemmas::one_more))]
pub fn operations_go_on()
    ensures { (font : List ℕ) (ops : List Op) (op : Op) (p : Point) (d : Bool)
        → picture_value font (ops ++ op ∷ []) p d ≡ op_value font op p (picture_value font ops p d) }
{}
