//! The outline on the map in front of the windows' screen.
ghost use Rattle.std.specs.Prelude.{◌≡◌};
ghost use Rattle.def_iface.specs.Lines.{AreApart};
ghost use Rattle.desk_call.specs.Outlines.{IsOutlineKept};
ghost use Rattle.overlay.specs.Outlines.{IsOutlined};
ghost use Rattle.window_outline.specs.ShownOutlines.{IsOutlineShown};

use desk_call::Activity;
use overlay::Overlay;
use tb_geom::Rect;
use window_mgr::WindowManager;

/// Shows the outline that is open now, if one is, in place of that which was open before, on the map in front of these
/// windows' screen. It takes no memory.
pub fn show_outline(front: &mut Overlay, windows: &WindowManager, before: Activity, after: Activity)
    requires width { front.old.front.width ≡ windows.now.screen.width }
    requires height { front.old.front.height ≡ windows.now.screen.height }
    requires kept { IsOutlineKept before }
    requires shown { IsOutlineShown before windows.now front.old }
    requires outline { IsOutlineKept after }
    ensures width { front.new.front.width ≡ windows.now.screen.width }
    ensures height { front.new.front.height ≡ windows.now.screen.height }
    ensures shown { IsOutlineShown after windows.now front.new }
{
    match after {
        Activity::Dragging(dragged) => show_lines(front, windows, before, &dragged.outline),
        Activity::Growing(grown) => show_lines(front, windows, before, &grown.outline),
        _ => {}
    }
}

/// Shows the outline of these lines.
fn show_lines(front: &mut Overlay, windows: &WindowManager, before: Activity, lines: &[Rect; 8])
    requires width { front.old.front.width ≡ windows.now.screen.width }
    requires height { front.old.front.height ≡ windows.now.screen.height }
    requires kept { IsOutlineKept before }
    requires shown { IsOutlineShown before windows.now front.old }
    requires apart { AreApart lines.now }
    ensures { IsOutlined windows.now.bar.rows lines.now windows.now.screen front.new.front }
{
    let bar = windows.parts().bar;
    match before {
        Activity::Dragging(old) => front.outline_again(bar, &old.outline, lines),
        Activity::Growing(old) => front.outline_again(bar, &old.outline, lines),
        _ => front.outline(windows.screen(), bar, lines),
    }
}
