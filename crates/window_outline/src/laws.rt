//! What outlines look like, pixel by pixel.
ghost use Rattle.std.specs.Prelude.{◌≡◌, true, Some};
ghost use Rattle.tb_geom.specs.declared.point.Point.{Point};
ghost use Rattle.tb_geom.specs.Points.{plus, minus};
ghost use Rattle.draw_port.specs.Ops.{frame_holds};
ghost use Rattle.def_iface.specs.Lines.{line_holds};
ghost use Rattle.desk_call.specs.declared.outline.SizeLimits.{SizeLimits};
ghost use Rattle.vis_update.specs.Records.{WindowRecord};
ghost use Rattle.window_mgr.specs.FullDesk.{FullDesk};
ghost use Rattle.window_outline.specs.Outlining.{drag_lines, grow_lines, grown, in_gray};

/// With the mouse in the gray region, the outline of a dragged window has the outermost pixels of its structure's box, moved
/// by the way that the mouse has come.
#[tactic(auto, using(crate::proofs::LineMoves::dragged_pixels))]
pub fn a_dragged_outline_is_a_moved_frame()
    ensures { (desk : FullDesk) (w : WindowRecord) (from to p : Point) → in_gray desk to ≡ true
        → line_holds (drag_lines desk (Some w) from to) p
        ≡ frame_holds (w.definition.bounds w.size) (minus p (plus w.place (minus to from))) }
{}

/// The outline of a window that is grown has the pixels of the lines that its definition gives for the size, where the window
/// lies.
#[tactic(auto, using(crate::proofs::LineMoves::grown_pixels))]
pub fn a_grown_outline_is_its_definitions()
    ensures { (limits : SizeLimits) (w : WindowRecord) (from to p : Point)
        → line_holds (grow_lines limits (Some w) from to) p
        ≡ line_holds (w.definition.grow_lines (grown limits w.size (minus to from))) (minus p w.place) }
{}
