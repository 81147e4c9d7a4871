//! The kinds of items.
ghost use Rattle.std.specs.Prelude.{◌≡◌, ◌+ℤ◌, ◌-ℤ◌, pos, true, IfNone, IfSome};
ghost use Rattle.tb_geom.specs.Rects.{is_coordinate, is_in_range};
ghost use Rattle.dialog_items.specs.Kinds.{kind_name, kind_type, sort_of, item_rect, layer_rect, ring_around, within_ring};

use crate::item::LayerSort;
use tb_geom::Rect;

/// What an item is (*Inside Macintosh* I, "The Dialog Manager", "Item Types").
#[derive(Clone, Copy, Debug, PartialEq, Eq)]
pub enum ItemKind {
    /// A simple button.
    Button,
    /// A check box.
    Check,
    /// A radio button.
    Radio,
    /// The button that Return and Enter stand for, with a ring around it.
    Default,
    /// An icon.
    Icon,
    /// A text that is not edited.
    Static,
    /// A text that is edited, with a frame around it.
    Edit,
    /// An item that the program draws.
    User,
}

impl ItemKind {
    /// Its item type, without itemDisable: 4 for both kinds of buttons, 5, 6, 32, 8, 16 and 0.
    pub fn type_number(self) -> u8
        ensures { result ≡ kind_type self }
    {
        match self {
            ItemKind::Button => 4,
            ItemKind::Check => 5,
            ItemKind::Radio => 6,
            ItemKind::Default => 4,
            ItemKind::Icon => 32,
            ItemKind::Static => 8,
            ItemKind::Edit => 16,
            ItemKind::User => 0,
        }
    }

    /// Its name in scripts.
    pub fn name(self) -> &'static str
        ensures { result.now ≡ kind_name self }
    {
        match self {
            ItemKind::Button => "button",
            ItemKind::Check => "check",
            ItemKind::Radio => "radio",
            ItemKind::Default => "default",
            ItemKind::Icon => "icon",
            ItemKind::Static => "static",
            ItemKind::Edit => "edit",
            ItemKind::User => "user",
        }
    }

    /// The kind with this name, letter by letter; None of any other word.
    pub fn of_name(name: &[u8]) -> Option<ItemKind>
        ensures found { IfSome result (λ kind. kind_name kind ≡ name.now) }
        ensures unknown { IfNone result ((kind : ItemKind) → kind_name kind ≡ name.now → ⊥) }
    {
        match name {
            b"button" => Some(ItemKind::Button),
            b"check" => Some(ItemKind::Check),
            b"radio" => Some(ItemKind::Radio),
            b"default" => Some(ItemKind::Default),
            b"icon" => Some(ItemKind::Icon),
            b"static" => Some(ItemKind::Static),
            b"edit" => Some(ItemKind::Edit),
            b"user" => Some(ItemKind::User),
            _ => None,
        }
    }

    /// Of which sort its layer is: none of a user item.
    pub fn layer_sort(self) -> Option<LayerSort>
        ensures { result ≡ sort_of self }
    {
        match self {
            ItemKind::Static => Some(LayerSort::Text),
            ItemKind::Edit => Some(LayerSort::Text),
            ItemKind::User => None,
            _ => Some(LayerSort::Control),
        }
    }

    /// The rectangle of the layer of an item of this kind by the item's own: that of a default button has room for a ring of 4
    /// pixels around it.
    pub fn layer_rect(self, rect: Rect) -> Rect
        requires { is_in_range rect ≡ true }
        ensures { result ≡ layer_rect self rect }
    {
        match self {
            ItemKind::Default => ring_around(rect),
            _ => rect,
        }
    }

    /// The rectangle of an item of this kind by that of its layer, as it is computed: the right of a default button may lie
    /// left of its left.
    pub fn item_rect(self, layer: Rect) -> Rect
        requires { is_in_range layer ≡ true }
        ensures { result ≡ item_rect self layer }
    {
        match self {
            ItemKind::Default => within_ring(layer),
            _ => layer,
        }
    }
}

/// The number 4 below a coordinate.
fn less_ring(x: i32) -> i32
    requires { is_coordinate x ≡ true }
    ensures { result ≡ x -ℤ pos 4 }
{
    x - 4
}

/// The number 4 above a coordinate.
fn more_ring(x: i32) -> i32
    requires { is_coordinate x ≡ true }
    ensures { result ≡ x +ℤ pos 4 }
{
    x + 4
}

/// The rectangle with 4 more pixels at each side.
fn ring_around(rect: Rect) -> Rect
    requires { is_in_range rect ≡ true }
    ensures { result ≡ ring_around rect }
{
    Rect {
        left: less_ring(rect.left),
        top: less_ring(rect.top),
        right: more_ring(rect.right),
        bottom: more_ring(rect.bottom),
    }
}

/// The rectangle with 4 pixels less at each side.
fn within_ring(rect: Rect) -> Rect
    requires { is_in_range rect ≡ true }
    ensures { result ≡ within_ring rect }
{
    Rect {
        left: more_ring(rect.left),
        top: more_ring(rect.top),
        right: less_ring(rect.right),
        bottom: less_ring(rect.bottom),
    }
}
