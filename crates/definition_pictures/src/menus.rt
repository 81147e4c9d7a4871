//! Menus.

use crate::checksum::Checksum;
use crate::tools::{ORIGIN, Tools, WHOLE};
use anyhow::Result;
use bit_map::BitMap;
use def_iface::{MenuChange, MenuDef, Size};
use draw_port::Canvas;
use menu_record::Menu;
use std::alloc::Global;
use std_mldef::StdMenu;
use tb_geom::{Point, Refusal};

/// How many items the menus have.
const COUNTS: [u8; 8] = [0, 1, 2, 3, 5, 8, 16, 31];

/// The texts of the items, in turn: with marks, keys and dividing lines, disabled ones, and characters that the font lacks.
const ITEMS: [&[u8]; 9] = [
    b"Ag",
    b"Open/O",
    b"-",
    b"(Dim!*/d",
    b"!\x12\x80y",
    b"(-",
    b"Quit it",
    b"-/x!v",
    b"/1",
];

/// The highlighted items of which pictures are drawn, besides none: those up to this one, and the last of 31.
const LAST_LIT: u8 = 8;

/// A menu of so many items.
fn menu_of(alloc: Global, count: u8, enabled: bool) -> Result<Menu, Refusal> {
    let mut menu = Menu::new(alloc, 1, b"Menu")?;
    for place in 0..count {
        menu.items.append(ITEMS[usize::from(place % 9)])?;
    }
    menu.set_enabled(0, enabled)?;
    Ok(menu)
}

/// Adds the picture of a menu of this size with this item highlighted.
fn add_picture(
    sum: &mut Checksum,
    tools: Tools<'_>,
    menu: &Menu,
    lit: Option<u8>,
) -> Result<(), Refusal> {
    let mut definition = StdMenu::new();
    definition.begin();
    definition.told(MenuChange::Highlighted(Some(2)));
    definition.told(MenuChange::Highlighted(lit));
    let size = definition.size(menu, tools.font);
    let mut map = BitMap::new(tools.alloc, size.width, size.height)?;
    let mut canvas = Canvas {
        map: &mut map,
        clip: size.rect(),
        origin: ORIGIN,
        cut: &WHOLE,
        font: tools.font,
    };
    definition.draw(menu, &mut canvas);
    sum.add_map(&map);
    Ok(())
}

/// The checksum of the pictures of a menu of so many items.
fn sum_of_pictures(tools: Tools<'_>, menu: &Menu, count: u8) -> Result<u32, Refusal> {
    let mut sum = Checksum::new();
    add_picture(&mut sum, tools, menu, None)?;
    for number in 1..=count {
        if number <= LAST_LIT || number == 31 {
            add_picture(&mut sum, tools, menu, Some(number))?;
        }
    }
    Ok(sum.sum)
}

/// The checksum of the items, or 0, that the points of a menu choose, with those up to two pixels outside.
fn sum_of_choices(tools: Tools<'_>, menu: &Menu) -> u32 {
    let definition = StdMenu::new();
    let size = definition.size(menu, tools.font);
    let mut sum = Checksum::new();
    for v in -2..size.height + 2 {
        for h in -2..size.width + 2 {
            let item = definition.choose(menu, tools.font, Point { h, v });
            sum.add(u32::from(item.unwrap_or(0)));
        }
    }
    sum.sum
}

/// Prints three lines for each menu: its size, and the checksums.
pub fn print(rt: &impl Print, tools: Tools<'_>) -> Result<()> {
    for count in COUNTS {
        for enabled in [true, false] {
            let menu = menu_of(tools.alloc, count, enabled)?;
            let Size { width, height } = StdMenu::new().size(&menu, tools.font);
            let look = sum_of_pictures(tools, &menu, count)?;
            let choice = sum_of_choices(tools, &menu);
            println!(rt; "menu {count} {enabled} size {width} {height}")?;
            println!(rt; "menu {count} {enabled} look {look}")?;
            println!(rt; "menu {count} {enabled} choice {choice}")?;
        }
    }
    Ok(())
}
