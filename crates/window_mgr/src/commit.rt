//! What a plan says, drawn on the screen.
ghost use Rattle.std.specs.Prelude.{◌≡◌, map, All, length};
ghost use Rattle.vis_update.specs.Plans.{areas_then};
ghost use Rattle.vis_update.specs.Records.{record_of};
ghost use Rattle.window_mgr.specs.Commits.{ArePainted, IsPlanDrawn, erased, redrawn};
ghost use Rattle.window_mgr.specs.Whole.{IsSettled};
ghost use Rattle.window_paint.specs.Writes.{IsWrittenBy};

use crate::WindowManager;
use bit_blit::fill;
use bit_map::{BitMap, Mode};
use def_iface::{Defined, TakenWindow};
use desk_ground::DESKTOP;
use strike_font::Font;
use tb_geom::Point;
use vis_update::{Plan, Repaint, settle};
use window_list::WindowList;
use window_paint::{move_content, paint_part};

impl WindowManager {
    /// Draws what a plan says, once the windows are as they are to be, and keeps their areas.
    pub(crate) fn commit(&mut self, plan: Plan, by: Option<Point>)
        requires settled { All IsSettled (map (record_of ⟦<TakenWindow as Defined>⟧.loan)
            self.old.windows.records.items) }
        requires parts { length plan.parts.items ≡ length self.old.windows.records.items }
        ensures drawn { IsPlanDrawn plan by self.old.font
            (map (record_of ⟦<TakenWindow as Defined>⟧.loan) self.old.windows.records.items) self.old.screen
            self.new.screen }
        ensures areas { self.new.areas.items ≡ areas_then self.old.areas.items plan.areas.items }
        ensures desktop { self.new.desktop ≡ plan.desktop }
        ensures others { self.new ≡ record self.old {
          screen = self.new.screen;
          areas = self.new.areas;
          desktop = self.new.desktop;
        } }
    {
        move_content(&mut self.screen, &plan.copied, by);
        let origin = Point { h: 0, v: 0 };
        fill(
            &mut self.screen,
            &plan.uncovered,
            origin,
            DESKTOP,
            Mode::Copy,
        );
        paint_parts(&mut self.screen, &self.windows, &plan.parts, &self.font);
        settle(&mut self.areas, plan.areas);
        self.desktop = plan.desktop;
    }
}

/// Paints the parts of windows: makes what of their content is new white, and draws their frames.
fn paint_parts(screen: &mut BitMap, windows: &WindowList, parts: &[Repaint], font: &Font)
    requires settled { All IsSettled (map (record_of ⟦<TakenWindow as Defined>⟧.loan) windows.now.records.items) }
    requires parts { length parts.now ≡ length windows.now.records.items }
    ensures painted { ArePainted font.now (map (record_of ⟦<TakenWindow as Defined>⟧.loan) windows.now.records.items)
        parts.now
        screen.old screen.new }
    ensures written { IsWrittenBy (erased parts.now) (redrawn parts.now) screen.old screen.new }
{
    for at in 0..windows.len() {
        let part = &parts[at];
        paint_part(screen, &part.erase, &part.redraw, windows.at(at), font);
    }
}
