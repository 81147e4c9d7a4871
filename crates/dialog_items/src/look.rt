//! How items stand in their window, and which of them the mouse and the keys find.
ghost use Rattle.std.specs.Prelude.{◌≡◌, ◌≤◌, ◌<◌, ◌^◌, length, IfSome};
ghost use Rattle.dialog_items.specs.Items.{look_of};
ghost use Rattle.dialog_items.specs.Finding.{answers, first_button, has_point, is_default_look, is_pressed, is_pressed_default};
ghost use Rattle.dialog_items.specs.Finding.{is_shown_edit, item_at, last_index, number_of, return_item};
ghost use Rattle.dialog_items.specs.Finding.{shown_edit_from, tab_after, tab_before, tab_item};
ghost use Rattle.std.specs.List.{list_any, position};

use crate::item::Item;
use crate::kind::ItemKind;
use tb_geom::{Point, Rect};

/// How an item stands in its window at a time: the desk makes one for each item of a window, in the order of their numbers.
#[derive(Clone, Copy, Debug, PartialEq, Eq)]
pub struct ItemLook {
    pub kind: ItemKind,
    pub enabled: bool,
    /// An empty item is not shown.
    pub shown: bool,
    /// In the window's coordinates.
    pub rect: Rect,
    /// Whether it is a control that is highlighted as inactive.
    pub inactive: bool,
}

impl ItemLook {
    /// The look of an item, with what its layer says.
    pub fn new(item: &Item, shown: bool, rect: Rect, inactive: bool) -> ItemLook
        ensures { result ≡ look_of item.now shown rect inactive }
    {
        ItemLook {
            kind: item.kind,
            enabled: item.enabled,
            shown,
            rect,
            inactive,
        }
    }

    /// Whether a click at a point of the window lies on the item.
    fn has_point(&self, point: Point) -> bool
        ensures { result ≡ has_point point self.now }
    {
        self.shown && self.rect.contains(point)
    }

    /// Whether it is a button that can be pressed: shown, enabled and not inactive.
    fn answers(&self) -> bool
        ensures { result ≡ answers self.now }
    {
        self.shown && (self.enabled && !self.inactive)
    }

    /// Whether it is of the kind `Default`.
    fn is_default(&self) -> bool
        ensures { result ≡ is_default_look self.now }
    {
        match self.kind {
            ItemKind::Default => true,
            _ => false,
        }
    }

    /// Whether it is of that kind and can be pressed.
    fn is_pressed_default(&self) -> bool
        ensures { result ≡ is_pressed_default self.now }
    {
        self.is_default() && self.answers()
    }

    /// Whether it is a simple button that can be pressed.
    fn is_pressed(&self) -> bool
        ensures { result ≡ is_pressed self.now }
    {
        match self.kind {
            ItemKind::Button => self.answers(),
            _ => false,
        }
    }

    /// Whether it is an edit item that is shown.
    fn is_shown_edit(&self) -> bool
        ensures { result ≡ is_shown_edit self.now }
    {
        match self.kind {
            ItemKind::Edit => self.shown,
            _ => false,
        }
    }
}

/// The number of an item by its index, and 0 of none.
fn number_of(at: Option<usize>) -> usize
    requires { IfSome at (λ i. i < 2 ^ 63) }
    ensures { result ≡ number_of at }
{
    match at {
        Some(at) => at + 1,
        None => 0,
    }
}

/// The index of the first item that is shown and whose rectangle holds the point.
fn first_with_point(looks: &[ItemLook], point: Point) -> Option<usize>
    ensures first { result ≡ position (has_point point) looks.now }
    ensures within { IfSome result (λ at. at < length looks.now) }
{
    looks.iter().position(|look| look.has_point(point))
}

/// The index of the first default button that can be pressed.
fn first_default(looks: &[ItemLook]) -> Option<usize>
    ensures first { result ≡ position is_pressed_default looks.now }
    ensures within { IfSome result (λ at. at < length looks.now) }
{
    looks.iter().position(|look| look.is_pressed_default())
}

/// The index of the first edit item that is shown.
fn first_shown_edit(looks: &[ItemLook]) -> Option<usize>
    ensures first { result ≡ position is_shown_edit looks.now }
    ensures within { IfSome result (λ at. at < length looks.now) }
{
    looks.iter().position(|look| look.is_shown_edit())
}

/// The index of the last edit item that is shown.
fn last_shown_edit(looks: &[ItemLook]) -> Option<usize>
    ensures last { result ≡ last_index looks.now }
    ensures within { IfSome result (λ at. at < length looks.now) }
{
    let mut last = None;
    for (at, look) in looks.iter().enumerate() {
        if look.is_shown_edit() {
            last = Some(at);
        }
    }
    last
}

/// Whether there is a default button, shown or not.
fn has_default(looks: &[ItemLook]) -> bool
    ensures { result ≡ list_any is_default_look looks.now }
{
    looks.iter().any(|look| look.is_default())
}

/// The item at a point of the window (FindDItem): the first, in the order of numbers, that is shown and whose rectangle holds the
/// point, enabled or not; 0 where there is none.
pub fn item_at(looks: &[ItemLook], point: Point) -> usize
    ensures { result ≡ item_at looks.now point }
{
    number_of(first_with_point(looks, point))
}

/// The item that Return and Enter stand for (ModalDialog): the first of the kind `Default` that is shown, enabled and not
/// inactive. Where the window has no item of that kind, item 1, if it is a simple button and these hold of it; else 0.
pub fn return_item(looks: &[ItemLook]) -> usize
    ensures { result ≡ return_item looks.now }
{
    if has_default(looks) {
        number_of(first_default(looks))
    } else {
        first_button(looks)
    }
}

/// Item 1, if it is a simple button that can be pressed, and else 0.
fn first_button(looks: &[ItemLook]) -> usize
    ensures { result ≡ first_button looks.now }
{
    match looks.first() {
        Some(look) => look.is_pressed() as usize,
        None => 0,
    }
}

/// The item that Tab goes to from the edited item, or from none, which is 0: the shown edit item after it by numbers, and past the
/// last from the first again; with Shift, the one before it, and before the first from the last. 0 where no edit item is shown.
pub fn tab_item(looks: &[ItemLook], edited: usize, shift: bool) -> usize
    requires { edited ≤ length looks.now }
    ensures { result ≡ tab_item looks.now edited shift }
{
    if shift {
        item_before(looks, edited)
    } else {
        item_after(looks, edited)
    }
}

/// The index of the first shown edit item from an index on.
fn shown_edit_from(looks: &[ItemLook], start: usize) -> Option<usize>
    requires { start ≤ length looks.now }
    ensures first { result ≡ shown_edit_from looks.now start }
    ensures within { IfSome result (λ at. at < length looks.now) }
{
    match first_shown_edit(&looks[start..]) {
        Some(at) => Some(start + at),
        None => None,
    }
}

/// The shown edit item after an item, and past the last from the first again.
fn item_after(looks: &[ItemLook], edited: usize) -> usize
    requires { edited ≤ length looks.now }
    ensures { result ≡ tab_after looks.now edited }
{
    match shown_edit_from(looks, edited) {
        Some(at) => number_of(Some(at)),
        None => number_of(first_shown_edit(looks)),
    }
}

/// The shown edit item before an item, and before the first from the last.
fn item_before(looks: &[ItemLook], edited: usize) -> usize
    requires { edited ≤ length looks.now }
    ensures { result ≡ tab_before looks.now edited }
{
    match last_shown_edit(&looks[..edited.saturating_sub(1)]) {
        Some(at) => number_of(Some(at)),
        None => number_of(last_shown_edit(looks)),
    }
}
