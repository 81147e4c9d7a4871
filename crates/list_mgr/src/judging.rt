//! A new list judged: why it is refused, and what it is given where nothing but its definitions and memory can refuse it.
ghost use Rattle.std.specs.Prelude.{◌≡◌, None, Some, IfOk, IfErr, MatchResult, is_ok, true};
ghost use Rattle.tb_geom.specs.Refusals.{first_refusal};
ghost use Rattle.def_iface.specs.ControlMeaning.{is_control_size};
ghost use Rattle.list_cells.specs.Clicks.{flags_number};
ghost use Rattle.window_items.specs.Items.{serial_after};
ghost use Rattle.list_view.specs.Views.{IsView};
ghost use Rattle.vis_update.specs.Records.{WindowRecord};
ghost use Rattle.control_mgr.specs.Laying.{definition_if};
ghost use Rattle.list_mgr.specs.ListRefusals.{bars_wanted, have_room, lacks_kind, list_form_refusals, may_bar_be_in, may_view_be_in, size_of, view_of};
ghost use Rattle.list_mgr.specs.Making.{IsListTicket, judged_by, lie_refusals, number_refusals, room_refusals};

use crate::{Lists, ListsOnStock};
use control_mgr::{Controls, MOST_CONTROLS, may_be_placed};
use def_iface::{
    ControlStock, Defined, ListStock, Size, Stocked, TakenControl, TakenList, TakenWindow,
};
use desk_call::{ListCall, NewList};
use list_cells::{ListCells, SelectionFlags};
use list_view::{Axis, ListView};
use tb_geom::{Point, Rect, Refusal};
use window_mgr::{DeskWindows, WindowManager};

/// As many lists as a window may have.
pub const MOST_LISTS: usize = 8;

/// The kind of controls that scroll bars are of.
pub(crate) const SCROLL: &[u8] = b"scroll";

/// What a new list is given, where nothing but its definitions and memory can refuse it.
#[derive(Clone, Copy)]
pub(crate) struct ListTicket {
    /// The index of its window, counted from the front.
    pub window: usize,
    /// The next serial of lists.
    pub serial: u64,
    pub flags: SelectionFlags,
    pub view: ListView,
    /// How many controls its window has.
    pub controls: usize,
    /// The next serial of controls, if one is left.
    pub bar: Option<u64>,
}

/// Why a call is refused whatever is open: the stock has no such kind of lists, or none of scroll bars though one is wanted.
pub fn form_refusal(call: &ListCall<'_>, stock: &ListStock, bars: &ControlStock) -> Option<Refusal>
    ensures { result ≡ first_refusal (list_form_refusals call.now
        (⟦<ListStock as Stocked>⟧.slots stock.now) (⟦<ControlStock as Stocked>⟧.slots bars.now)) }
{
    match call {
        ListCall::New(new) if lacks_kind(new, stock, bars) => Some(Refusal::NoSuchName),
        _ => None,
    }
}

/// Whether the stocks have no such kind of lists, or none of scroll bars though one is wanted.
pub(crate) fn lacks_kind(new: &NewList<'_>, stock: &ListStock, bars: &ControlStock) -> bool
    ensures { result ≡ lacks_kind new.now
        (⟦<ListStock as Stocked>⟧.slots stock.now) (⟦<ControlStock as Stocked>⟧.slots bars.now) }
{
    !stock.has(new.kind.as_slice()) || (bars_wanted(new) > 0 && !bars.has(SCROLL))
}

/// How many scroll bars are wanted.
fn bars_wanted(new: &NewList<'_>) -> usize
    ensures { result ≡ bars_wanted new.now }
{
    usize::from(new.vertical_bar) + usize::from(new.horizontal_bar)
}

/// The view of a new list in a window that lies there. OutOfRange where its sizes or those of its cells are out of their range,
/// or it would leave the range of coordinates, in its window or on the screen.
fn view_in(new: &NewList<'_>, window: Point) -> Result<ListView, Refusal>
    ensures made { IfOk result (λ view. view ≡ view_of new.now) }
    ensures in_range { (w : WindowRecord) → w.place ≡ window → is_ok result ≡ may_view_be_in new.now (Some w) }
    ensures good { IfOk result IsView }
    ensures refused { IfErr result (λ e. e ≡ Refusal.OutOfRange) }
{
    let across = Axis {
        start: new.place.h,
        length: new.size.width,
        cell: new.cell_size.width,
    };
    let down = Axis {
        start: new.place.v,
        length: new.size.height,
        cell: new.cell_size.height,
    };
    let view = ListView::new(across, down)?;
    let _there = view.rect().offset(window.h, window.v)?;
    Ok(view)
}

/// The width and the height of a scroll bar's rectangle.
pub(crate) fn size_of(bar: Rect) -> Size
    requires { is_control_size (size_of bar) ≡ true }
    ensures { result ≡ size_of bar }
{
    Size {
        width: bar.right - bar.left,
        height: bar.bottom - bar.top,
    }
}

/// Whether a scroll bar, if it is wanted, may lie there in a window that lies there, with this definition or with none.
fn may_bar_be_in(wanted: bool, taken: Option<&TakenControl>, bar: Rect, window: Point) -> bool
    requires { is_control_size (size_of bar) ≡ true }
    ensures { (w : WindowRecord) → w.place ≡ window
        → result ≡ may_bar_be_in wanted (definition_if ⟦<TakenControl as Defined>⟧.loan taken.entry) bar (Some w) }
{
    let corner = Point {
        h: bar.left,
        v: bar.top,
    };
    !wanted || may_be_placed(taken, corner, size_of(bar), window)
}

/// The view of a new list in a window that lies there, where its scroll bars too may lie so, with these definitions or with none.
fn view_with_bars(
    new: &NewList<'_>,
    window: Point,
    vertical: Option<&TakenControl>,
    horizontal: Option<&TakenControl>,
) -> Result<ListView, Refusal>
    ensures { (w : WindowRecord) → w.place ≡ window
        → let refusals = lie_refusals new.now (definition_if ⟦<TakenControl as Defined>⟧.loan vertical.entry)
        (definition_if ⟦<TakenControl as Defined>⟧.loan horizontal.entry) (Some w) in
        MatchResult result (λ view. (view ≡ view_of new.now) × (first_refusal refusals ≡ None))
        (λ e. first_refusal refusals ≡ Some e) }
{
    let view = view_in(new, window)?;
    let down = may_bar_be_in(new.vertical_bar, vertical, view.vertical_bar(), window);
    let across = may_bar_be_in(
        new.horizontal_bar,
        horizontal,
        view.horizontal_bar(),
        window,
    );
    if down && across {
        Ok(view)
    } else {
        Err(Refusal::OutOfRange)
    }
}

/// The flags of a new list, where it may have them and as many cells as it is to have.
fn flags_of(new: &NewList<'_>) -> Result<SelectionFlags, Refusal>
    ensures { MatchResult result
        (λ flags. (flags_number flags ≡ new.now.flags) × (first_refusal (number_refusals new.now) ≡ None))
        (λ e. first_refusal (number_refusals new.now) ≡ Some e) }
{
    let flags = SelectionFlags::of_number(new.flags)?;
    match ListCells::new_refusal(new.columns, new.rows) {
        Some(refusal) => Err(refusal),
        None => Ok(flags),
    }
}

/// The serial after this one, if there is one.
pub(crate) fn serial_after(serial: u64) -> Option<u64>
    ensures { result ≡ serial_after serial }
{
    serial.checked_add(1)
}

/// Whether so many controls can be made of a window that has so many, one after the other: it may have them, and a serial is left
/// for each.
fn have_room(wanted: usize, count: usize, next: Option<u64>) -> bool
    ensures { result ≡ have_room wanted count next }
{
    let mut left = wanted;
    let mut count = count;
    let mut next = next;
    while left > 0 {
        match next {
            Some(serial) if count < MOST_CONTROLS => next = serial_after(serial),
            _ => return false,
        }
        count += 1;
        left -= 1;
    }
    true
}

impl Lists<TakenList> {
    /// The serial of a new list, where its window may have it and its scroll bars beside so many controls.
    fn serial_for(
        &self,
        new: &NewList<'_>,
        controls: usize,
        next_control: Option<u64>,
    ) -> Result<u64, Refusal>
        ensures { let refusals = room_refusals new.now controls next_control
            (⟦<Self as ListsOnStock>⟧.records self.now) self.now.list.next in
            MatchResult result (λ serial. (self.now.list.next ≡ Some serial) × (first_refusal refusals ≡ None))
            (λ e. first_refusal refusals ≡ Some e) }
    {
        if self.list.count(new.window) >= MOST_LISTS {
            return Err(Refusal::TooMany);
        }
        if !have_room(bars_wanted(new), controls, next_control) {
            return Err(Refusal::TooMany);
        }
        match self.list.next {
            Some(serial) => Ok(serial),
            None => Err(Refusal::TooMany),
        }
    }

    /// What a new list is given, where nothing but its definitions and memory can refuse it. Its bars are judged with these
    /// definitions, or with none.
    pub(crate) fn judge(
        &self,
        windows: &WindowManager,
        controls: &Controls<TakenControl>,
        new: &NewList<'_>,
        vertical: Option<&TakenControl>,
        horizontal: Option<&TakenControl>,
    ) -> Result<ListTicket, Refusal>
        requires { ⟦<WindowManager as DeskWindows>⟧.IsKept windows.now }
        ensures { let v = definition_if ⟦<TakenControl as Defined>⟧.loan vertical.entry in
            let h = definition_if ⟦<TakenControl as Defined>⟧.loan horizontal.entry in
            MatchResult result
            (IsListTicket ⟦<TakenWindow as Defined>⟧.loan ⟦<TakenControl as Defined>⟧.loan ⟦<TakenList as Defined>⟧.loan
            new.now v h windows.now controls.now self.now)
            (λ e. judged_by ⟦<TakenWindow as Defined>⟧.loan ⟦<TakenControl as Defined>⟧.loan
            ⟦<TakenList as Defined>⟧.loan
            new.now v h windows.now controls.now self.now ≡ Some e) }
    {
        let Some(window) = windows.find(new.window) else {
            return Err(Refusal::NoSuchWindow);
        };
        let there = windows.list().at(window).place;
        let view = view_with_bars(new, there, vertical, horizontal)?;
        let flags = flags_of(new)?;
        let count = controls.count(new.window);
        let bar = controls.next_serial();
        let serial = self.serial_for(new, count, bar)?;
        Ok(ListTicket {
            window,
            serial,
            flags,
            view,
            controls: count,
            bar,
        })
    }
}
