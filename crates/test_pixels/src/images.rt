//! Maps of 8 by 8 pixels, and their images as text.

use bit_map::{BitMap, Mode, Pattern};
use draw_port::{Canvas, Cut, Op, Picture, Shade, Shape};
use std::alloc::{AllocError, Global};
use strike_font::Font;
use tb_geom::{Point, Rect, Refusal};

/// The cut that leaves all pixels.
pub const NOTHING_CUT: Cut<'static> = Cut {
    inside: [None; 3],
    outside: None,
};

/// The sides of a map.
const WHOLE: Rect = Rect {
    left: 0,
    top: 0,
    right: 8,
    bottom: 8,
};

/// The first 8 columns of the first 8 rows of a map as text, row by row, with a space after each row: 1 where a pixel is black,
/// and 0 where it is white or the map lacks it.
pub fn image_of(alloc: Global, map: &BitMap) -> Result<Vec<u8>, AllocError> {
    let mut rows = Vec::new(alloc);
    for v in 0..8 {
        for h in 0..8 {
            let point = Point { h, v };
            let is_black = map.bounds().contains(point) && map.get(point);
            rows.push(if is_black { b'1' } else { b'0' })?;
        }
        rows.push(b' ')?;
    }
    Ok(rows)
}

/// Whether an image has these rows.
pub fn shows(image: &[u8], rows: &str) -> bool {
    image == rows.as_bytes()
}

/// The image of a picture on a white map of 8 by 8 pixels. The canvas's own 0 0 is the map's, and nothing is cut.
pub fn drawn(alloc: Global, font: &Font, picture: &Picture) -> Result<Vec<u8>, Refusal> {
    let mut map = BitMap::new(alloc, 8, 8)?;
    let mut canvas = Canvas {
        map: &mut map,
        clip: WHOLE,
        origin: Point { h: 0, v: 0 },
        cut: &NOTHING_CUT,
        font,
    };
    canvas.paint_picture(picture);
    Ok(image_of(alloc, &map)?)
}

/// Puts a shape without a clip at the end of a picture.
pub fn push(picture: &mut Picture, shape: Shape) -> Result<(), Refusal> {
    picture.push(Op { clip: None, shape })
}

/// A pattern and the mode that it is drawn by.
pub fn shade(pattern: Pattern, mode: Mode) -> Shade {
    Shade { pattern, mode }
}
