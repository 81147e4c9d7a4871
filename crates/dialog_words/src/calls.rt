//! The words that follow a verb for the items of dialogs.
ghost use Rattle.std.specs.Prelude.{◌≡◌};
ghost use Rattle.line_words.specs.Shapes.{reading};
ghost use Rattle.dialog_words.specs.DialogWords.{activate_shape, alone_shape, click_shape, dialog_shape, enable_shape, find_shape};
ghost use Rattle.dialog_words.specs.DialogWords.{formed, item_at, key_shape, kind_of, new_shape, params_shape, select_shape, text_shape};

use crate::DialogVerb;
use def_iface::Size;
use dialog_call::{
    ClickDialog, DialogCall, DialogFlag, DialogKey, FindItem, ItemBytes, ItemFlag, ItemOf, NewItem,
    ParamBytes, SelectItem,
};
use dialog_items::ItemKind;
use line_words::Words;
use tb_geom::{BytesRef, Refusal};

impl DialogVerb {
    /// What is asked by the words that follow.
    #[tactic(auto, using(line_words::proofs::Mapped::reading_mapped), unfolding(crate::specs::DialogWords::dialog_shape))]
    pub fn call<'a>(self, words: Words<'a>) -> Result<DialogCall<'a>, Refusal>
        ensures { result ≡ reading (dialog_shape self) words.entry }
    {
        match self {
            DialogVerb::New => new_item(words),
            DialogVerb::SetParams => set_params(words),
            DialogVerb::SetText => set_text(words),
            DialogVerb::Enable => enable(words),
            DialogVerb::Show => Ok(DialogCall::Show(last_item(words)?)),
            DialogVerb::Hide => Ok(DialogCall::Hide(last_item(words)?)),
            DialogVerb::Select => select(words),
            DialogVerb::Activate => activate(words),
            DialogVerb::Click => click(words),
            DialogVerb::Key => key(words),
            DialogVerb::Get => Ok(DialogCall::Get(last_item(words)?)),
            DialogVerb::Info => Ok(DialogCall::Info(words.last_serial()?)),
            DialogVerb::Find => find(words),
        }
    }
}

/// An item of a window, and the words after it.
fn item<'a>(words: Words<'a>) -> Result<(ItemOf, Words<'a>), Refusal>
    ensures { result ≡ item_at words.entry }
{
    let (window, words) = words.serial()?;
    let (number, words) = words.serial()?;
    let item = number as usize;
    Ok((ItemOf { window, item }, words))
}

/// An item of a window, and nothing after it.
fn last_item(words: Words<'_>) -> Result<ItemOf, Refusal>
    ensures { result ≡ reading alone_shape words.entry }
{
    let (item, rest) = item(words)?;
    rest.end()?;
    Ok(item)
}

/// The words after `ditem`: a window, a kind, the place and the size of the item, whether it is enabled, and bytes that have the form
/// of the kind.
fn new_item<'a>(words: Words<'a>) -> Result<DialogCall<'a>, Refusal>
    ensures { result ≡ reading new_shape words.entry }
{
    let (window, words) = words.serial()?;
    let (kind, words) = words.name()?;
    let (place, words) = words.point()?;
    let (width, words) = words.number()?;
    let (height, words) = words.number()?;
    let (enabled, words) = words.flag()?;
    let bytes = words.last_bytes()?;
    let kind = kind_of(&kind).ok_or(Refusal::NoSuchName)?;
    formed(NewItem {
        window,
        kind,
        place,
        size: Size { width, height },
        enabled,
        bytes,
    })
}

/// The kind of items with this name.
fn kind_of(name: &BytesRef<'_>) -> Option<ItemKind>
    ensures { result ≡ kind_of name.now }
{
    ItemKind::of_name(name.as_slice())
}

/// What is asked by an item whose bytes have the form of its kind.
fn formed<'a>(new: NewItem<'a>) -> Result<DialogCall<'a>, Refusal>
    ensures { result ≡ formed new.entry }
{
    if new.has_form() {
        Ok(DialogCall::New(new))
    } else {
        Err(Refusal::BadSyntax)
    }
}

/// The words after `param`: four texts.
fn set_params<'a>(words: Words<'a>) -> Result<DialogCall<'a>, Refusal>
    ensures { result ≡ reading params_shape words.entry }
{
    let (first, words) = words.bytes()?;
    let (second, words) = words.bytes()?;
    let (third, words) = words.bytes()?;
    let fourth = words.last_bytes()?;
    Ok(DialogCall::SetParams(ParamBytes {
        first,
        second,
        third,
        fourth,
    }))
}

/// The words after `dtext`: an item, and bytes for it.
fn set_text<'a>(words: Words<'a>) -> Result<DialogCall<'a>, Refusal>
    ensures { result ≡ reading text_shape words.entry }
{
    let (item, words) = item(words)?;
    let bytes = words.last_bytes()?;
    Ok(DialogCall::SetText(ItemBytes { item, bytes }))
}

/// The words after `denable`: an item, and whether it is to be enabled.
fn enable<'a>(words: Words<'a>) -> Result<DialogCall<'a>, Refusal>
    ensures { result ≡ reading enable_shape words.entry }
{
    let (item, words) = item(words)?;
    let flag = words.last_flag()?;
    Ok(DialogCall::Enable(ItemFlag { item, flag }))
}

/// The words after `dselect`: an item, and two offsets.
fn select<'a>(words: Words<'a>) -> Result<DialogCall<'a>, Refusal>
    ensures { result ≡ reading select_shape words.entry }
{
    let (item, words) = item(words)?;
    let (start, words) = words.number()?;
    let end = words.last_number()?;
    Ok(DialogCall::Select(SelectItem { item, start, end }))
}

/// The words after `dactive`: a window, and whether its edited item is to be active.
fn activate<'a>(words: Words<'a>) -> Result<DialogCall<'a>, Refusal>
    ensures { result ≡ reading activate_shape words.entry }
{
    let (window, words) = words.serial()?;
    let flag = words.last_flag()?;
    Ok(DialogCall::Activate(DialogFlag { window, flag }))
}

/// The words after `dclick`: a window, a point of it, and how is selected.
fn click<'a>(words: Words<'a>) -> Result<DialogCall<'a>, Refusal>
    ensures { result ≡ reading click_shape words.entry }
{
    let (window, words) = words.serial()?;
    let (point, words) = words.point()?;
    let mode = words.last_number()?;
    Ok(DialogCall::Click(ClickDialog {
        window,
        point,
        mode,
    }))
}

/// The words after `dkey`: a window, a character code, and modifiers.
fn key<'a>(words: Words<'a>) -> Result<DialogCall<'a>, Refusal>
    ensures { result ≡ reading key_shape words.entry }
{
    let (window, words) = words.serial()?;
    let (code, words) = words.number()?;
    let modifiers = words.last_number()?;
    Ok(DialogCall::Key(DialogKey {
        window,
        code,
        modifiers,
    }))
}

/// The words after `dfind`: a window, and a point of it.
fn find<'a>(words: Words<'a>) -> Result<DialogCall<'a>, Refusal>
    ensures { result ≡ reading find_shape words.entry }
{
    let (window, words) = words.serial()?;
    let point = words.last_point()?;
    Ok(DialogCall::Find(FindItem { window, point }))
}
