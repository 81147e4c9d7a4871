//! Cells of lists.
ghost use Rattle.std.specs.Prelude.{◌≡◌, true, IfOk};
ghost use Rattle.def_iface.specs.ControlMeaning.{is_control_size};
ghost use Rattle.std_mldef.specs.Lists.{std_list_meaning};

use crate::checksum::Checksum;
use crate::sizes::{GROUPS, Widths, is_fitting_size, sizes};
use crate::tools::{ORIGIN, Tools, WHOLE};
use anyhow::Result;
use bit_map::BitMap;
use def_iface::{ListChange, ListDef, Size, Stage};
use draw_port::{Canvas, ShortText};
use std_mldef::StdList;
use tb_geom::Refusal;

/// What a cell holds, whether it is selected, and whether empty ones are highlighted where they are selected.
#[derive(Clone, Copy)]
struct Cell {
    name: &'static str,
    bytes: &'static [u8],
    selected: bool,
    nil_hilited: bool,
}

/// A cell, in the order of its fields.
macro_rules! cell {
    ($name:expr, $bytes:expr, $selected:expr, $nil_hilited:expr) => {
        Cell {
            name: $name,
            bytes: $bytes,
            selected: $selected,
            nil_hilited: $nil_hilited,
        }
    };
}

/// The cells that are drawn.
const CELLS: [Cell; 6] = [
    cell!("plain", b"Ag", false, true),
    cell!("selected", b"Ag", true, false),
    cell!("long", b"Jig, saw\x07!", true, true),
    cell!("empty", b"", false, true),
    cell!("empty-selected", b"", true, true),
    cell!("empty-dark", b"", true, false),
];

/// The size that a list is told at first.
const FIRST_SIZE: Size = Size {
    width: 3,
    height: 9,
};

/// A list of cells of this size, which was told something else before. OutOfRange where no cell may have it.
fn list_of(size: Size, nil_hilited: bool) -> Result<StdList, Refusal>
    ensures live { IfOk result (λ list. (std_list_meaning list).stage ≡ Stage.Live) }
    ensures told { IfOk result (λ list. is_control_size (std_list_meaning list).size ≡ true) }
{
    if !is_fitting_size(size) {
        return Err(Refusal::OutOfRange);
    }
    let mut list = StdList::new();
    list.begin();
    list.told(ListChange::Resized(FIRST_SIZE));
    list.told(ListChange::NilHilited(!nil_hilited));
    list.told(ListChange::Resized(size));
    list.told(ListChange::NilHilited(nil_hilited));
    Ok(list)
}

/// Adds the picture of a cell of this size, and what it is once it is highlighted and once it is highlighted again.
fn add_cell(sum: &mut Checksum, tools: Tools<'_>, cell: &Cell, size: Size) -> Result<(), Refusal> {
    let list = list_of(size, cell.nil_hilited)?;
    let bytes = ShortText::new(cell.bytes)?;
    let mut map = BitMap::new(tools.alloc, size.width, size.height)?;
    let mut canvas = Canvas {
        map: &mut map,
        clip: size.rect(),
        origin: ORIGIN,
        cut: &WHOLE,
        font: tools.font,
    };
    list.draw_cell(bytes.as_slice(), cell.selected, &mut canvas);
    sum.add_map(canvas.map);
    list.hilite_cell(bytes.as_slice(), &mut canvas);
    sum.add_map(canvas.map);
    list.hilite_cell(bytes.as_slice(), &mut canvas);
    sum.add_map(canvas.map);
    Ok(())
}

/// The checksum of cells of these widths.
fn sum_of(tools: Tools<'_>, cell: &Cell, widths: Widths) -> Result<u32, Refusal> {
    let mut sum = Checksum::new();
    for size in &sizes(tools.alloc, widths, true)? {
        add_cell(&mut sum, tools, cell, *size)?;
    }
    Ok(sum.sum)
}

/// Prints a line for each cell and group of widths.
pub fn print(rt: &impl Print, tools: Tools<'_>) -> Result<()> {
    for cell in CELLS {
        for widths in GROUPS {
            let sum = sum_of(tools, &cell, widths)?;
            println!(rt; "cell {} {} {sum}", cell.name, widths.first)?;
        }
    }
    Ok(())
}
