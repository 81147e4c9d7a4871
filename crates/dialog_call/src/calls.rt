//! What a Toolbox can be asked about the items of dialogs, and what it answers.
ghost use Rattle.std.specs.Prelude.{◌≡◌};
ghost use Rattle.dialog_call.specs.Asking.{asks};
ghost use Rattle.dialog_call.specs.ItemForms.{has_form, icon_bytes};

use def_iface::Size;
use dialog_items::ItemKind;
use tb_geom::{BytesRef, Point, Rect};

/// A call about the items of dialogs (*Inside Macintosh* I, "The Dialog Manager"; volumes IV and V, the same chapter; *Macintosh
/// Toolbox Essentials*, "Dialog Manager"). Any window may have items. A window is named by its serial, and an item by its number
/// in its window, which counts from 1 in the order of making and never changes. Numbers are as they were asked for, judged by
/// nobody. One that names no window is NoSuchWindow, and one that names no item of it NoSuchItem. Points are in the window's own
/// coordinates, and lie in the range of coordinates; else they are OutOfRange.
#[derive(Drop)]
pub enum DialogCall<'a> {
    /// Makes an item of a window, behind all items that the window has (NewDialog, by the item list). Its control or its text
    /// record is made as `ControlCall::New` and `TextCall::New` make one, and is drawn. Bytes that have not the form of the kind
    /// are BadSyntax, and a kind of controls that the stock has not is NoSuchName, also while something is open. OutOfRange where
    /// the item or its layer leaves its range, TooLong where there are more than 255 bytes, or more than 32000 with the texts of
    /// ParamText, TooMany where the window has 64 items, or as many of the layer's sort as it may have, NoDefinition where the
    /// stock has no definition of the kind left.
    New(NewItem<'a>),
    /// Sets the four texts that `^0` to `^3` stand for in static texts that are made or set from then on (ParamText). TooLong
    /// where one has more than 255 bytes. It takes no memory.
    SetParams(ParamBytes<'a>),
    /// Puts bytes in the place of an item's text (SetIText): those of a static text with the texts of ParamText. An item whose
    /// text record was disposed of stays as it is. OutOfRange where the item is no text, TooLong where there are more than 255
    /// bytes, or more than 32000 with the texts of ParamText.
    SetText(ItemBytes<'a>),
    /// Enables an item, or disables it (SetDItem). Nothing is drawn.
    Enable(ItemFlag),
    /// Shows an item (ShowDItem): its control or its text record is shown, and drawn also where it was shown already. One whose
    /// layer was disposed of stays as it is.
    Show(ItemOf),
    /// Hides an item (HideDItem). Where it is the edited one, its text record becomes inactive, and none is edited then.
    Hide(ItemOf),
    /// Edits an item, and selects the bytes of its text between two offsets, or up to the end of the text (SelIText). OutOfRange
    /// unless it is an edit item that is shown, and 0 <= start <= end <= 32767.
    Select(SelectItem),
    /// Makes the text record of the edited item active or inactive, where an item is edited (DialogSelect, activate events).
    Activate(DialogFlag),
    /// The mouse was pressed at a point (ModalDialog, DialogSelect). An edit item there is edited, and a selection opens in it;
    /// the tracking of a control there that is enabled begins, where a part of it has the point. The mode is that of a
    /// `TextCall::Click`: 0, 1 or 2, and else OutOfRange.
    Click(ClickDialog),
    /// A key was typed (ModalDialog, DialogSelect). With the command key it is nobody's. Return and Enter stand for a button,
    /// Tab goes to the next edit item, with the shift key to the one before, and selects its text, and any other key is typed in
    /// the edited item. OutOfRange where the code does not lie in 0..=255 or the modifiers not in 0..=65535, TooLong where the
    /// text would have more than 32000 bytes.
    Key(DialogKey),
    /// The type of an item, which layer it has, and where it lies (GetDItem).
    Get(ItemOf),
    /// How many items a window has, and which is edited.
    Info(u64),
    /// Which item lies at a point: the first, by numbers, that is shown and whose rectangle has it, enabled or not (FindDItem).
    Find(FindItem),
}

impl DialogCall<'_> {
    /// Whether it asks, and leaves all as it is. Such a call may come at any time.
    pub fn asks(&self) -> bool
        ensures { result ≡ asks self.now }
    {
        match self {
            DialogCall::Get(_) | DialogCall::Info(_) | DialogCall::Find(_) => true,
            _ => false,
        }
    }
}

/// An item to be made (*Inside Macintosh* I, "The Dialog Manager": an item list).
#[derive(Drop)]
pub struct NewItem<'a> {
    /// The serial of its window.
    pub window: u64,
    pub kind: ItemKind,
    /// Where its top left corner lies in the window.
    pub place: Point,
    /// Its width and its height, each in 1..=1024; with the ring of a default button too.
    pub size: Size,
    pub enabled: bool,
    /// Its title, its text, or the bytes of its image, row after row. A user item has none.
    pub bytes: BytesRef<'a>,
}

impl NewItem<'_> {
    /// Whether the bytes have the form of the kind: an icon has `(width + 7) / 8` for each row, and a user item none.
    pub fn has_form(&self) -> bool
        ensures { result ≡ has_form self.now }
    {
        match self.kind {
            ItemKind::Icon => self.bytes.as_slice().len() as u64 == icon_bytes(self.size),
            ItemKind::User => self.bytes.as_slice().is_empty(),
            _ => true,
        }
    }
}

/// How many bytes the image of an icon of this size has: none where it has no column or no row.
fn icon_bytes(size: Size) -> u64
    ensures { result ≡ icon_bytes size }
{
    let columns = size.width.max(0) as u64;
    let rows = size.height.max(0) as u64;
    rows * ((columns + 7) / 8)
}

/// The four texts of ParamText, each of at most 255 bytes.
#[derive(Drop)]
pub struct ParamBytes<'a> {
    pub first: BytesRef<'a>,
    pub second: BytesRef<'a>,
    pub third: BytesRef<'a>,
    pub fourth: BytesRef<'a>,
}

/// An item of a window.
#[derive(Clone, Copy, Debug, PartialEq, Eq)]
pub struct ItemOf {
    pub window: u64,
    /// From 1 on.
    pub item: usize,
}

/// An item, and bytes for it.
#[derive(Drop)]
pub struct ItemBytes<'a> {
    pub item: ItemOf,
    /// At most 255 bytes.
    pub bytes: BytesRef<'a>,
}

/// An item, and whether it is to be so.
#[derive(Clone, Copy, Debug, PartialEq, Eq)]
pub struct ItemFlag {
    pub item: ItemOf,
    pub flag: bool,
}

/// An item that is to be edited, and what of its text is to be selected.
#[derive(Clone, Copy, Debug, PartialEq, Eq)]
pub struct SelectItem {
    pub item: ItemOf,
    pub start: i32,
    pub end: i32,
}

/// A window, and whether the text record of its edited item is to be active.
#[derive(Clone, Copy, Debug, PartialEq, Eq)]
pub struct DialogFlag {
    pub window: u64,
    pub flag: bool,
}

/// A click of the mouse in a window with items.
#[derive(Clone, Copy, Debug, PartialEq, Eq)]
pub struct ClickDialog {
    pub window: u64,
    pub point: Point,
    pub mode: i32,
}

/// A point of a window, at which an item is looked for.
#[derive(Clone, Copy, Debug, PartialEq, Eq)]
pub struct FindItem {
    pub window: u64,
    pub point: Point,
}

/// A key that is typed in a window with items.
#[derive(Clone, Copy, Debug, PartialEq, Eq)]
pub struct DialogKey {
    pub window: u64,
    /// The character code, in 0..=255.
    pub code: i32,
    /// The flags of the modifier keys, as an event has them, in 0..=65535.
    pub modifiers: i32,
}

/// What is told of an item.
#[derive(Clone, Copy, Debug, PartialEq, Eq)]
pub struct ItemInfo {
    /// Its item type, with itemDisable, 128, where it is not enabled.
    pub number: u8,
    /// The serial of its control or text record, and 0 where it has none.
    pub layer: u64,
    /// Where it lies in its window, as its control or text record lies; of one whose layer was disposed of all sides are 0. The
    /// right of a narrow default button lies left of its left.
    pub rect: Rect,
}

/// What is told of the items of a window.
#[derive(Clone, Copy, Debug, PartialEq, Eq)]
pub struct DialogInfo {
    /// How many there are.
    pub items: usize,
    /// The number of the edited item, and 0 where none is edited.
    pub edited: usize,
}

/// What a click did.
#[derive(Clone, Copy, Debug, PartialEq, Eq)]
pub struct DialogClick {
    /// The number of the item that was hit, and 0 where none was.
    pub item: usize,
    /// Whether the tracking of a control or a selection opened.
    pub begun: bool,
}

/// What a `DialogCall` answers.
#[derive(Clone, Copy, Debug, PartialEq, Eq)]
pub enum DialogReply {
    /// It was done, and nothing is asked.
    Done,
    /// The number of the new item.
    Made(usize),
    /// What a click did.
    Clicked(DialogClick),
    /// The number of the item that a key means, or that lies at a point, and 0 where there is none.
    Item(usize),
    Info(ItemInfo),
    Counts(DialogInfo),
}
