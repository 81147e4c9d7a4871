//! Buttons of each kind, icons, check boxes and radio buttons.
ghost use Rattle.std.specs.Prelude.{◌≡◌};

use crate::checksum::Checksum;
use crate::controls::{Numbers, add_picture, begin};
use crate::sizes::{GROUPS, Widths, sizes};
use crate::tools::Tools;
use anyhow::Result;
use def_iface::{ControlDef, Size, Stage};
use std_cdef::{StdButton, StdCheck, StdDefaultButton, StdIcon, StdRoundButton, Variation};
use tb_geom::Refusal;

/// What is drawn.
#[derive(Clone, Copy)]
enum Kind {
    Button,
    RoundButton,
    DefaultButton,
    Icon,
    Check,
    Radio,
}

/// The kinds with their names and the part codes that they have.
const KINDS: [(Kind, &str, i32); 6] = [
    (Kind::Button, "button", 10),
    (Kind::RoundButton, "rbutton", 10),
    (Kind::DefaultButton, "default-button", 10),
    (Kind::Icon, "icon-image", 10),
    (Kind::Check, "check", 11),
    (Kind::Radio, "radio", 11),
];

/// The part code of a part that none of them has.
const OTHER_PART: i32 = 20;

/// The title of each but icons.
const TITLE: &[u8] = b"Ag";

/// The bytes of each icon.
const IMAGE: &[u8] =
    b"The rows of an icon are the bytes of its title, each of whole bytes, the high bit left";

/// Adds the picture of a Fresh control.
fn add_fresh<C: ControlDef>(
    sum: &mut Checksum,
    tools: Tools<'_>,
    fresh: C,
    title: &[u8],
    size: Size,
    numbers: Numbers,
) -> Result<(), Refusal>
    requires { (C.control_meaning fresh).stage ≡ Stage.Fresh }
{
    let mut control = fresh;
    begin(&mut control, size, title, numbers)?;
    add_picture(sum, tools, &control, size)
}

/// Adds the picture of a control of this kind.
fn add_kind(
    sum: &mut Checksum,
    tools: Tools<'_>,
    kind: Kind,
    size: Size,
    numbers: Numbers,
) -> Result<(), Refusal> {
    match kind {
        Kind::Button => add_fresh(sum, tools, StdButton::new(), TITLE, size, numbers),
        Kind::RoundButton => add_fresh(sum, tools, StdRoundButton::new(), TITLE, size, numbers),
        Kind::DefaultButton => {
            let button = StdDefaultButton::new();
            add_fresh(sum, tools, button, TITLE, size, numbers)
        }
        Kind::Icon => add_fresh(sum, tools, StdIcon::new(), IMAGE, size, numbers),
        Kind::Check => {
            let check = StdCheck::new(Variation::CheckBox);
            add_fresh(sum, tools, check, TITLE, size, numbers)
        }
        Kind::Radio => {
            let radio = StdCheck::new(Variation::RadioButton);
            add_fresh(sum, tools, radio, TITLE, size, numbers)
        }
    }
}

/// The checksum of the pictures of these widths. Where the control is off and not highlighted, all sizes are drawn.
fn sum_of(tools: Tools<'_>, kind: Kind, widths: Widths, numbers: Numbers) -> Result<u32, Refusal> {
    let few = numbers.value != 0 || numbers.highlight != 0;
    let mut sum = Checksum::new();
    for size in &sizes(tools.alloc, widths, few)? {
        add_kind(&mut sum, tools, kind, *size, numbers)?;
    }
    Ok(sum.sum)
}

/// Prints the lines of a kind with these numbers.
fn print_case(
    rt: &impl Print,
    tools: Tools<'_>,
    kind: Kind,
    name: &str,
    numbers: Numbers,
) -> Result<()> {
    let Numbers {
        value,
        highlight,
        ..
    } = numbers;
    for widths in GROUPS {
        let sum = sum_of(tools, kind, widths, numbers)?;
        println!(rt; "{name} {value} {highlight} {} {sum}", widths.first)?;
    }
    Ok(())
}

/// Prints a line for each kind, value, highlight and group of widths.
pub fn print(rt: &impl Print, tools: Tools<'_>) -> Result<()> {
    for (kind, name, part) in KINDS {
        for value in 0..=1 {
            for highlight in [0, part, OTHER_PART, 255] {
                let numbers = Numbers {
                    minimum: 0,
                    maximum: 1,
                    value,
                    highlight,
                };
                print_case(rt, tools, kind, name, numbers)?;
            }
        }
    }
    Ok(())
}
