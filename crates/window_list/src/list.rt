//! The windows of a desk, which of them is active, and the serial of the next.
ghost use Rattle.std.specs.Prelude.{◌≡◌, true, ◌<◌, ◌≤◌, nat_lt, ◌==◌, [], ◌∷◌, length, map, if◌then◌else◌, position};
ghost use Rattle.std.specs.Prelude.{slice_index_or, slice_get, Some, None, OnOk, OnErr, IfErr, IfNone, IfSome};
ghost use Rattle.std.specs.List.{remove, list_all, prefix_len};
ghost use Rattle.std.specs.Option.{option_map};
ghost use Rattle.tb_geom.specs.Rects.{in_plane};
ghost use Rattle.def_iface.specs.WindowMeaning.{is_fitting};
ghost use Rattle.window_list.specs.Holders.{fits_at};
ghost use Rattle.window_list.specs.Classes.{front_place, back_place};
ghost use Rattle.window_list.specs.Ranks.{moved_item};
ghost use Rattle.window_list.specs.Lists.{has_serial, floats, leads, first_leading, with_new, dimmed, relit};
ghost use Rattle.window_list.specs.Lists.{serial_after, map_ranked, edit_at, IsLastBox, with_stand, with_picture};
ghost use Rattle.window_list.specs.Lists.{with_layers, with_origin, with_operation, IsPlacedAt};
ghost use Rattle.window_list.specs.Changes.{keeps_size, has_short_title, IsNotifiedAt};

use crate::{Layers, Placement, Ranks, UserState, Window};
use def_iface::{Defined, Stage, TakenWindow, WindowChange};
use draw_port::{Op, Picture};
use std::alloc::{AllocError, Global};
use tb_geom::{Point, Rect, Refusal};

/// Windows from front to back.
#[derive(Drop)]
pub struct WindowList {
    pub(crate) records: Ranks<Window>,
    pub(crate) active: Option<u64>,
    /// The serial of the next window, or none where all are used.
    pub(crate) next: Option<u64>,
}

impl WindowList {
    /// A list of no windows, which are to lie here; the first will have the serial 1.
    pub fn new(records: Ranks<Window>) -> WindowList
        requires { records.items ≡ [] }
        ensures windows { result.records.items ≡ [] }
        ensures active { result.active ≡ None }
        ensures next { result.next ≡ Some 1 }
    {
        WindowList {
            records,
            active: None,
            next: Some(1),
        }
    }

    /// How many windows there are.
    pub fn len(&self) -> usize
        ensures { result ≡ length self.now.records.items }
    {
        self.records.len()
    }

    /// The serial of the active window.
    pub fn active(&self) -> Option<u64>
        ensures { result ≡ self.now.active }
    {
        self.active
    }

    /// The serial of the next window, or none where all are used.
    pub fn next(&self) -> Option<u64>
        ensures { result ≡ self.now.next }
    {
        self.next
    }

    /// The window at an index, counted from the front.
    pub fn at(&self, at: usize) -> &Window
        requires { at < length self.now.records.items }
        ensures { result.now ≡ slice_index_or self.now.records.items at result.now }
    {
        self.records.at(at)
    }

    /// The index of the first window of this serial.
    pub fn find(&self, serial: u64) -> Option<usize>
        ensures { result ≡ position (has_serial serial) self.now.records.items }
    {
        for at in 0..self.len() {
            if self.at(at).serial == serial {
                return Some(at);
            }
        }
        None
    }

    /// The serial of the first visible ordinary window.
    pub fn front(&self) -> Option<u64>
        ensures { result ≡ first_leading self.now.records.items }
    {
        for at in 0..self.len() {
            let window = self.at(at);
            if window.leads() {
                return Some(window.serial);
            }
        }
        None
    }

    /// Makes room for one window more.
    pub fn reserve(&mut self) -> Result<(), AllocError>
        ensures items { self.new.records.items ≡ self.old.records.items }
        ensures room { OnOk result (length self.new.records.items < self.new.records.capacity) }
        ensures others { self.new ≡ record self.old { records = self.new.records } }
    {
        self.records.reserve()
    }

    /// The index at the front of a class, counted without the window at this index: in front of all where it is the class of
    /// those that float, else behind those that float in front. Of no window's index, all are counted.
    pub fn class_front(&self, floating: bool, without: usize) -> usize
        ensures place { result ≡ front_place floats floating (remove self.now.records.items without) }
        ensures low { result ≤ length (remove self.now.records.items without) }
    {
        if floating {
            0
        } else {
            self.floating_without(without)
        }
    }

    /// The index at the back of a class, counted without the window at this index: behind those that float in front where
    /// it is their class, else behind all.
    pub fn class_back(&self, floating: bool, without: usize) -> usize
        requires { without < length self.now.records.items }
        ensures place { result ≡ back_place floats floating (remove self.now.records.items without) }
        ensures low { result ≤ length (remove self.now.records.items without) }
    {
        if floating {
            self.floating_without(without)
        } else {
            self.len() - 1
        }
    }

    /// How many windows float, from the front on to the first that does not, counted without the window at this index.
    fn floating_without(&self, without: usize) -> usize
        ensures count { result ≡ prefix_len floats (remove self.now.records.items without) }
        ensures low { result ≤ length (remove self.now.records.items without) }
    {
        let mut count = 0;
        for at in 0..self.len() {
            if at != without {
                if !self.at(at).floating {
                    return count;
                }
                count += 1;
            }
        }
        count
    }

    /// Puts a new window, which has the next serial, at the front of its class, where there is room. A visible ordinary one
    /// becomes the active one, in place of the window that was.
    pub fn add(&mut self, window: Window)
        requires room { length self.old.records.items < self.old.records.capacity }
        requires next { self.old.next ≡ Some window.serial }
        ensures { self.new ≡ record {
          records = record {
            items = with_new self.old.active window self.old.records.items;
            capacity = self.old.records.capacity;
          };
          active = if leads window then Some window.serial else self.old.active;
          next = serial_after window.serial;
        } }
    {
        let at = self.class_front(window.floating, self.len());
        self.next = serial_after(window.serial);
        if window.leads() {
            self.dim();
            self.active = Some(window.serial);
        }
        self.records.insert(at, window);
    }

    /// Takes the highlighting from the active window.
    fn dim(&mut self)
        ensures { self.new ≡ record self.old { records = map_ranked (dimmed self.old.active) self.old.records } }
    {
        let active = self.active;
        for at in 0..self.len() {
            let window = self.records.at_mut(at);
            window.dim(active);
        }
    }

    /// Takes the window at this index out.
    pub fn remove(&mut self, at: usize) -> Window
        requires { at < length self.old.records.items }
        ensures value { result ≡ slice_index_or self.old.records.items at result }
        ensures items { self.new.records.items ≡ remove self.old.records.items at }
        ensures others { self.new ≡ record self.old { records = self.new.records } }
    {
        self.records.remove(at)
    }

    /// Moves the window at an index to another, counted without it.
    pub fn move_to(&mut self, from: usize, to: usize)
        requires from { from < length self.old.records.items }
        requires to { to < length self.old.records.items }
        ensures items { self.new.records.items ≡ moved_item self.old.records.items from to }
        ensures others { self.new ≡ record self.old { records = self.new.records } }
    {
        self.records.place(from, to);
    }

    /// Sets where the window at this index stands, whether it is visible, and what it goes back to where it is zoomed.
    pub fn set_stand(&mut self, at: usize, place: Point, shown: bool, user_state: Option<UserState>)
        requires within { at < length self.old.records.items }
        requires placed { in_plane place ≡ true }
        requires fit { IfSome (slice_get self.old.records.items at)
            (λ w. list_all (fits_at place) w.layers.layers ≡ true) }
        ensures { self.new ≡ record self.old {
          records =
              edit_at (with_stand place shown user_state) at self.old.records;
        } }
    {
        let window = self.records.at_mut(at);
        window.layers.go_to(place);
        window.place = place;
        window.shown = shown;
        window.user_state = user_state;
    }

    /// Gives the window at this index another place and size, and tells its definition the size and whether it is zoomed.
    pub fn set_placement(&mut self, at: usize, placement: Placement)
        requires within { at < length self.old.records.items }
        requires live { IfSome (slice_get self.old.records.items at)
            (λ w. (⟦<TakenWindow as Defined>⟧.loan w.taken).definition.stage ≡ Stage.Live) }
        requires fits { IfSome (slice_get self.old.records.items at)
            (λ w. is_fitting (⟦<TakenWindow as Defined>⟧.loan w.taken).definition placement.size ≡ true) }
        requires placed { in_plane placement.place ≡ true }
        requires fit { IfSome (slice_get self.old.records.items at)
            (λ w. list_all (fits_at placement.place) w.layers.layers ≡ true) }
        ensures placed { IfSome (slice_get self.old.records.items at) (λ w. IsPlacedAt ⟦<TakenWindow as Defined>⟧.loan
            at placement w self.old.records.items self.new.records.items) }
        ensures others { self.new ≡ record self.old { records = self.new.records } }
    {
        let is_zoomed = placement.user_state.is_some();
        let window = self.records.at_mut(at);
        let _damage = window.taken.told(WindowChange::Resized(placement.size));
        let _damage = window.taken.told(WindowChange::Zoomed(is_zoomed));
        window.layers.go_to(placement.place);
        window.place = placement.place;
        window.size = placement.size;
        window.user_state = placement.user_state;
        window.heard.zoomed = is_zoomed;
    }

    /// Gives the window at this index another picture, whose 0 0 is to lie there in the window.
    pub fn set_picture(&mut self, at: usize, picture: Picture, origin: Point)
        requires { at < length self.old.records.items }
        ensures { self.new ≡ record self.old { records = edit_at (with_picture picture origin) at self.old.records } }
    {
        let window = self.records.at_mut(at);
        window.picture = picture;
        window.origin = origin;
    }

    /// Gives the window at this index other layers in front of its picture, which lie where it does.
    pub fn set_layers(&mut self, at: usize, layers: Layers)
        requires within { at < length self.old.records.items }
        ensures { self.new ≡ record self.old { records = edit_at (with_layers layers) at self.old.records } }
    {
        let window = self.records.at_mut(at);
        window.layers = layers;
    }

    /// Puts the 0 0 of the picture of the window at this index elsewhere in the window.
    pub fn set_origin(&mut self, at: usize, origin: Point)
        requires { at < length self.old.records.items }
        ensures { self.new ≡ record self.old { records = edit_at (with_origin origin) at self.old.records } }
    {
        let window = self.records.at_mut(at);
        window.origin = origin;
    }

    /// Adds an operation behind all others of the picture of the window at this index. What refuses
    /// it leaves the list as it was.
    pub fn push_operation(&mut self, at: usize, operation: Op) -> Result<(), Refusal>
        requires { at < length self.old.records.items }
        ensures added { OnOk result
            (self.new ≡ record self.old { records = edit_at (with_operation operation) at self.old.records }) }
        ensures kept { OnErr result (self.new ≡ self.old) }
        ensures refused { IfErr result (λ e. IfSome (slice_get self.old.records.items at) (λ w.
            e ≡ (if nat_lt (length w.picture) 1024 then Refusal.NoMemory else Refusal.TooMany))) }
    {
        let window = self.records.at_mut(at);
        window.picture.push(operation)
    }

    /// Makes the window of this serial the active one and highlights it; the window that was active
    /// before, if it is another, loses its highlighting. With None no window is active.
    pub fn set_active(&mut self, active: Option<u64>)
        ensures { self.new ≡ record self.old {
          records = map_ranked (relit self.old.active active) self.old.records;
          active = active;
        } }
    {
        let former = self.active;
        for at in 0..self.len() {
            let window = self.records.at_mut(at);
            window.relight(former, active);
        }
        self.active = active;
    }

    /// Notifies the definition of the window at this index of a change, which the record keeps. The answer is the damage,
    /// local to the window: in every font the definition's pictures before and after are equal outside it. A change of
    /// the size is `set_placement`'s, and a title has at most 255 bytes.
    pub fn notify(&mut self, at: usize, change: WindowChange<'_>) -> Rect
        requires within { at < length self.old.records.items }
        requires size { keeps_size change ≡ true }
        requires title { has_short_title change ≡ true }
        requires live { IfSome (slice_get self.old.records.items at)
            (λ w. (⟦<TakenWindow as Defined>⟧.loan w.taken).definition.stage ≡ Stage.Live) }
        requires fits { IfSome (slice_get self.old.records.items at)
            (λ w. is_fitting (⟦<TakenWindow as Defined>⟧.loan w.taken).definition
            (⟦<TakenWindow as Defined>⟧.loan w.taken).definition.size ≡ true) }
        ensures told { IfSome (slice_get self.old.records.items at) (λ w. IsNotifiedAt ⟦<TakenWindow as Defined>⟧.loan
            at change.entry result w self.old.records.items self.new.records.items) }
        ensures others { self.new ≡ record self.old { records = self.new.records } }
    {
        let window = self.records.at_mut(at);
        window.keep(change);
        window.taken.told(change)
    }

    /// Takes the rearmost window's definition out and ends the window, or answers None where no window
    /// is left.
    pub fn next_box(&mut self) -> Option<TakenWindow>
        ensures taken { IfSome result (λ taken. IsLastBox self.old.records.items taken self.new.records.items) }
        ensures none { IfNone result (self.old.records.items ≡ []) }
        ensures others { self.new ≡ record self.old { records = self.new.records } }
    {
        let count = self.len();
        if count == 0 {
            return None;
        }
        let Window { taken, .. } = self.records.remove(count - 1);
        Some(taken)
    }
}

/// The serial of the window after this one, if there can be one.
fn serial_after(serial: u64) -> Option<u64>
    ensures { result ≡ serial_after serial }
{
    serial.checked_add(1)
}
