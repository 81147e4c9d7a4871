//! Areas: rectangles added and taken away, one after another.
ghost use Rattle.std.specs.Prelude.{◌≡◌, true, if◌then◌else◌, All, IfOk};
ghost use Rattle.tb_geom.specs.declared.point.Point.{Point};
ghost use Rattle.tb_geom.specs.Rects.{rect_holds, is_in_range};
ghost use Rattle.tb_geom.specs.Pixels.{holds};
ghost use Rattle.looks.specs.Areas.{area_holds, pieced, piece_fits, added_rect, removed_rect, only};

use scan_region::Region;
use std::alloc::{AllocError, Global};
use tb_geom::{Point, Rect};

/// A rectangle that is added to an area, or taken away from it.
#[derive(Clone, Copy, Debug, PartialEq, Eq)]
pub struct Piece {
    /// A piece that is off changes nothing.
    pub on: bool,
    pub rect: Rect,
    /// Whether it is added.
    pub adds: bool,
}

impl Piece {
    /// A rectangle that is added.
    pub fn added(rect: Rect) -> Piece
        ensures { result ≡ added_rect rect }
    {
        Piece {
            on: true,
            rect,
            adds: true,
        }
    }

    /// A rectangle that is taken away.
    pub fn removed(rect: Rect) -> Piece
        ensures { result ≡ removed_rect rect }
    {
        Piece {
            on: true,
            rect,
            adds: false,
        }
    }

    /// The piece, where the test holds, and off where it does not.
    pub fn only(self, test: bool) -> Piece
        ensures { result ≡ only test self }
    {
        Piece { on: test, ..self }
    }
}

/// Whether the area has the point.
pub fn area_has(pieces: &[Piece], point: Point) -> bool
    ensures { result ≡ area_holds pieces.now point }
{
    let mut held = false;
    for piece in pieces {
        if piece.on && piece.rect.contains(point) {
            held = piece.adds;
        }
    }
    held
}

/// The area as a region.
pub fn area_region(alloc: Global, pieces: &[Piece]) -> Result<Region, AllocError>
    requires { All (λ piece. piece_fits piece ≡ true) pieces.now }
    ensures { IfOk result (λ r. (p : Point) → holds r p ≡ area_holds pieces.now p) }
{
    let mut region = Region::empty(alloc);
    for piece in pieces {
        region = with_piece(alloc, region, *piece)?;
    }
    Ok(region)
}

/// The region after a piece.
fn with_piece(alloc: Global, region: Region, piece: Piece) -> Result<Region, AllocError>
    requires { piece_fits piece ≡ true }
    ensures { IfOk result (λ r. (p : Point) → holds r p ≡ pieced p (holds region p) piece) }
{
    if piece.on {
        changed(alloc, region, piece.rect, piece.adds)
    } else {
        Ok(region)
    }
}

/// The region with a rectangle added or taken away.
fn changed(alloc: Global, region: Region, rect: Rect, adds: bool) -> Result<Region, AllocError>
    requires { is_in_range rect ≡ true }
    ensures { IfOk result (λ r. (p : Point) → holds r p ≡ (if rect_holds rect p then adds else holds region p)) }
{
    let other = Region::from_rect_in_range(alloc, rect)?;
    if !adds {
        return region.less(alloc, &other);
    }
    region.joined(alloc, other)
}
