//! The calls that ask whose a point is, and which window is in front.
ghost use Rattle.std.specs.Prelude.{◌≡◌, if◌then◌else◌, Ok, Err, Some, [], position, true};
ghost use Rattle.tb_geom.specs.declared.refusal.Refusal.TheVariants.{OutOfRange};
ghost use Rattle.tb_geom.specs.Points.{minus};
ghost use Rattle.tb_geom.specs.Rects.{in_plane};
ghost use Rattle.def_iface.specs.WindowNews.{no_news};
ghost use Rattle.vis_update.specs.Areas.{area_has};
ghost use Rattle.window_mgr.specs.Finding.{found_at, part_of_hit};
ghost use Rattle.vis_update.specs.Records.{record_of};
ghost use Rattle.window_mgr.specs.Whole.{IsSettled};

use crate::{DeskWindows, Found, WindowManager, WindowPart};
use def_iface::{Defined, Hit, TakenWindow};
use tb_geom::{Point, Refusal};
use window_list::{Window, local};

impl WindowManager {
    /// Whose the point of the screen is. OutOfRange where it lies outside the range of coordinates.
    pub fn find_window(&self, point: Point) -> Result<Found, Refusal>
        requires { ⟦<Self as DeskWindows>⟧.IsKept self.now }
        ensures { result ≡ (if in_plane point
            then Ok (found_at (⟦<Self as DeskWindows>⟧.desk self.now []) point)
            else Err OutOfRange) }
    {
        if point.is_in_range() {
            Ok(self.found_at(point))
        } else {
            Err(Refusal::OutOfRange)
        }
    }

    /// Whose the point is.
    fn found_at(&self, point: Point) -> Found
        requires asked { ⟦<Self as DeskWindows>⟧.IsKept self.now }
        requires in_plane { in_plane point ≡ true }
        ensures { result ≡ found_at (⟦<Self as DeskWindows>⟧.desk self.now []) point }
    {
        if !self.screen.bounds().contains(point) {
            return Found {
                part: WindowPart::InDesk,
                window: None,
            };
        }
        if point.v < self.bar.rows {
            return Found {
                part: WindowPart::InMenuBar,
                window: None,
            };
        }
        match self.window_at(point) {
            Some(at) => found(self.windows.at(at), point),
            None => Found {
                part: WindowPart::InDesk,
                window: None,
            },
        }
    }

    /// The index of the window that owns the pixel.
    fn window_at(&self, point: Point) -> Option<usize>
        ensures { result ≡ position (area_has point) self.now.areas.items }
    {
        for at in 0..self.areas.len() {
            if self.areas[at].has(point) {
                return Some(at);
            }
        }
        None
    }
}

/// The window, and the part of it that the point of the screen lies in.
fn found(window: &Window, point: Point) -> Found
    requires settled { IsSettled (record_of ⟦<TakenWindow as Defined>⟧.loan window.now) }
    requires in_plane { in_plane point ≡ true }
    ensures { result ≡ record {
      part = part_of_hit ((⟦<TakenWindow as Defined>⟧.loan window.now.taken).definition.hit no_news
          (minus point window.now.place));
      window = Some window.now.serial;
    } }
{
    Found {
        part: part_of_hit(window.taken.hit(local(point, window.place))),
        window: Some(window.serial),
    }
}

/// The part that FindWindow answers where a definition answers this hit.
fn part_of_hit(hit: Hit) -> WindowPart
    ensures { result ≡ part_of_hit hit }
{
    match hit {
        Hit::NoHit => WindowPart::InDesk,
        Hit::InContent => WindowPart::InContent,
        Hit::InDrag => WindowPart::InDrag,
        Hit::InGrow => WindowPart::InGrow,
        Hit::InGoAway => WindowPart::InGoAway,
        Hit::InZoomIn => WindowPart::InZoomIn,
        Hit::InZoomOut => WindowPart::InZoomOut,
    }
}
