//! The scroll bars of a new list, as controls that are to be made.
ghost use Rattle.std.specs.Prelude.{◌≡◌, true, if◌then◌else◌};
ghost use Rattle.def_iface.specs.ControlMeaning.{is_control_size};
ghost use Rattle.list_mgr.specs.ListRefusals.{size_of};
ghost use Rattle.list_mgr.specs.NewBars.{bar_control, bar_ticket, horizontal_in, vertical_in};

use crate::judging::{SCROLL, size_of};
use control_mgr::Ticket;
use control_values::ControlValues;
use desk_call::{NewControl, NewList};
use draw_port::ShortText;
use list_cells::ListCells;
use list_view::ListView;
use tb_geom::{BytesRef, Point, Rect};

/// A scroll bar of a new list: where it lies in its window, and how it is set.
#[derive(Clone, Copy)]
pub(crate) struct Bar {
    pub rect: Rect,
    pub values: ControlValues,
}

/// The vertical scroll bar of a list with these cells in this view.
pub(crate) fn vertical_bar(view: ListView, cells: &ListCells) -> Bar
    ensures { result ≡ vertical_in view cells.now }
{
    Bar {
        rect: view.vertical_bar(),
        values: view.vertical_values(cells.rows()),
    }
}

/// Its horizontal scroll bar.
pub(crate) fn horizontal_bar(view: ListView, cells: &ListCells) -> Bar
    ensures { result ≡ horizontal_in view cells.now }
{
    Bar {
        rect: view.horizontal_bar(),
        values: view.horizontal_values(cells.columns()),
    }
}

/// The vertical scroll bar where that is wanted, and else the horizontal one.
pub(crate) fn wanted_bar(new: &NewList<'_>, view: ListView, cells: &ListCells) -> Bar
    ensures { result ≡ (if new.now.vertical_bar then vertical_in view cells.now else horizontal_in view cells.now) }
{
    if new.vertical_bar {
        vertical_bar(view, cells)
    } else {
        horizontal_bar(view, cells)
    }
}

impl Bar {
    /// The control of this window that is to be made.
    pub(crate) fn control(&self, window: u64) -> NewControl<'static>
        requires { is_control_size (size_of self.now.rect) ≡ true }
        ensures { result ≡ bar_control window self.now }
    {
        NewControl {
            window,
            kind: BytesRef::new(SCROLL),
            place: Point {
                h: self.rect.left,
                v: self.rect.top,
            },
            size: size_of(self.rect),
            shown: true,
            minimum: i32::from(self.values.minimum()),
            maximum: i32::from(self.values.maximum()),
            value: i32::from(self.values.value()),
            title: BytesRef::new(b""),
        }
    }

    /// What that is given, in the window at this index, with this serial and its layer at this place.
    pub(crate) fn ticket(&self, window: usize, serial: u64, layer: usize) -> Ticket
        ensures { result ≡ bar_ticket window serial layer self.now }
    {
        Ticket {
            window,
            serial,
            values: self.values,
            title: ShortText::shortened(b""),
            layer,
        }
    }
}
