//! What all that is drawn needs.

use draw_port::Cut;
use std::alloc::Global;
use strike_font::Font;
use tb_geom::Point;

/// The memory of the maps, and the font of the texts.
#[derive(Clone, Copy)]
pub struct Tools<'a> {
    pub alloc: Global,
    pub font: &'a Font,
}

/// The top left pixel of a map, where all that is drawn has its own 0 0.
pub const ORIGIN: Point = Point { h: 0, v: 0 };

/// A cut that takes nothing away.
pub const WHOLE: Cut<'static> = Cut {
    inside: [None; 3],
    outside: None,
};
