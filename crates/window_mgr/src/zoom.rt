//! The call that zooms a window.
ghost use Rattle.std.specs.Prelude.{◌≡◌, [], true, pos, ◌+ℤ◌, ◌-ℤ◌, OnErr};
ghost use Rattle.desk_call.specs.declared.window.WindowCall.TheVariants as asks;
ghost use Rattle.desk_ground.specs.Screens.{is_screen};
ghost use Rattle.vis_update.specs.Records.{record_of};
ghost use Rattle.window_mgr.specs.Placings.{zoom_target};
ghost use Rattle.window_mgr.specs.Step.{IsWindowStep};

use crate::standing::may_stand;
use crate::{DeskWindows, WindowManager, WindowReply, Zoom, ZoomWindow};
use def_iface::{Defined, Size, TakenWindow};
use tb_geom::{Point, Rect, Refusal};
use window_list::{Placement, UserState, Window, local};

impl WindowManager {
    /// Zooms a window, and tells its definition. One that is zoomed so already stays.
    pub(crate) fn zoom_window(&mut self, zoom: ZoomWindow) -> Result<WindowReply, Refusal>
        requires { ⟦<Self as DeskWindows>⟧.IsKept self.old }
        ensures step { ⟦<Self as DeskWindows>⟧.LeavesState (IsWindowStep (asks.Zoom zoom) result) self.old self.new }
        ensures quiet { OnErr result (self.new.screen ≡ self.old.screen) }
    {
        let Some(at) = self.find(zoom.window) else {
            return Err(Refusal::NoSuchWindow);
        };
        let Some(direction) = zoom.direction() else {
            return Err(Refusal::OutOfRange);
        };
        let found = self.windows.at(at);
        let Some(placement) = self.zoom_target(direction, found) else {
            return Ok(WindowReply::Done);
        };
        if !may_stand(found, placement.place, placement.size) {
            return Err(Refusal::OutOfRange);
        }
        let by = local(placement.place, found.place);
        self.place_window(at, placement, Some(by))
    }

    /// How a window lies once it is zoomed, or None where it is zoomed so already.
    fn zoom_target(&self, direction: Zoom, window: &Window) -> Option<Placement>
        requires { ⟦<Self as DeskWindows>⟧.IsKept self.now }
        ensures { result ≡ zoom_target direction window.now.user_state
            (⟦<Self as DeskWindows>⟧.desk self.now [])
            (record_of ⟦<TakenWindow as Defined>⟧.loan window.now) }
    {
        match (direction, window.user_state) {
            (Zoom::Out, None) => {
                let kept = UserState {
                    place: window.place,
                    size: window.size,
                };
                let UserState { place, size } = standard_state(self.screen.bounds(), self.bar.rows);
                Some(Placement {
                    place,
                    size,
                    user_state: Some(kept),
                })
            }
            (Zoom::In, Some(UserState { place, size })) => Some(Placement {
                place,
                size,
                user_state: None,
            }),
            _ => None,
        }
    }
}

/// The place and size of a window that is zoomed out, on a screen with so many rows of menu bar.
fn standard_state(bounds: Rect, bar: i32) -> UserState
    requires { is_screen bounds.right bounds.bottom bar ≡ true }
    ensures { result ≡ record {
      place = record { h = pos 1; v = bar +ℤ pos 19 };
      size = record { width = bounds.right -ℤ pos 2; height = (bounds.bottom -ℤ bar) -ℤ pos 20 };
    } }
{
    UserState {
        place: Point { h: 1, v: bar + 19 },
        size: Size {
            width: bounds.right - 2,
            height: bounds.bottom - bar - 20,
        },
    }
}
