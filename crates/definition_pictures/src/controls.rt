//! Controls: what they are told, and their pictures.
ghost use Rattle.std.specs.Prelude.{◌≡◌, true, OnOk};
ghost use Rattle.def_iface.specs.ControlMeaning.{is_fitting_control};

use crate::checksum::Checksum;
use crate::sizes::is_fitting_size;
use crate::tools::{ORIGIN, Tools, WHOLE};
use bit_map::BitMap;
use control_values::{ControlValues, Highlight};
use def_iface::{ControlChange, ControlDef, Size, Stage};
use draw_port::Canvas;
use tb_geom::Refusal;

/// The numbers of a control: the minimum, the maximum, the value, and how it is highlighted.
#[derive(Clone, Copy)]
pub struct Numbers {
    pub minimum: i32,
    pub maximum: i32,
    pub value: i32,
    pub highlight: i32,
}

/// What controls are told at first, all of which is replaced.
const FIRST: Numbers = Numbers {
    minimum: 1,
    maximum: 9,
    value: 5,
    highlight: 20,
};

/// The size that they are told at first.
const FIRST_SIZE: Size = Size {
    width: 50,
    height: 7,
};

/// Whether the control may have this size.
fn fits<C: ControlDef>(control: &C, size: Size) -> bool
    ensures { result ≡ is_fitting_control (C.control_meaning control.now) size }
{
    is_fitting_size(size) && control.bounds(size).is_in_range()
}

/// Tells a Live control its size, its title and its numbers. OutOfRange where they are no size or no numbers of a control.
fn tell<C: ControlDef>(
    control: &mut C,
    size: Size,
    title: &[u8],
    numbers: Numbers,
) -> Result<(), Refusal>
    requires { (C.control_meaning control.old).stage ≡ Stage.Live }
    ensures live { (C.control_meaning control.new).stage ≡ Stage.Live }
    ensures told { OnOk result (is_fitting_control (C.control_meaning control.new) (C.control_meaning control.new).size
        ≡ true) }
{
    let values = ControlValues::new(numbers.minimum, numbers.maximum, numbers.value)?;
    let highlight = Highlight::of_number(numbers.highlight)?;
    if !fits(control, size) {
        return Err(Refusal::OutOfRange);
    }
    control.told(&ControlChange::Resized(size));
    control.told(&ControlChange::Titled(title));
    control.told(&ControlChange::Set(values));
    control.told(&ControlChange::Highlighted(highlight));
    Ok(())
}

/// Makes a Fresh control Live, and tells it something else and then this.
pub fn begin<C: ControlDef>(
    control: &mut C,
    size: Size,
    title: &[u8],
    numbers: Numbers,
) -> Result<(), Refusal>
    requires { (C.control_meaning control.old).stage ≡ Stage.Fresh }
    ensures live { (C.control_meaning control.new).stage ≡ Stage.Live }
    ensures told { OnOk result (is_fitting_control (C.control_meaning control.new) (C.control_meaning control.new).size
        ≡ true) }
{
    control.begin();
    tell(control, FIRST_SIZE, b"First", FIRST)?;
    tell(control, size, title, numbers)
}

/// Adds the picture of a control of this size.
pub fn add_picture<C: ControlDef>(
    sum: &mut Checksum,
    tools: Tools<'_>,
    control: &C,
    size: Size,
) -> Result<(), Refusal>
    requires live { (C.control_meaning control.now).stage ≡ Stage.Live }
    requires told { is_fitting_control (C.control_meaning control.now) (C.control_meaning control.now).size ≡ true }
{
    let mut map = BitMap::new(tools.alloc, size.width, size.height)?;
    let mut canvas = Canvas {
        map: &mut map,
        clip: size.rect(),
        origin: ORIGIN,
        cut: &WHOLE,
        font: tools.font,
    };
    control.draw(&mut canvas);
    sum.add_map(&map);
    Ok(())
}
