//! The walk over the cells that show.
ghost use Rattle.std.specs.Prelude.{◌≡◌, ◌<◌, ◌&&◌, pos, true};
ghost use Rattle.tb_geom.specs.Points.{plus};
ghost use Rattle.tb_geom.specs.Rects.{in_plane, rect_holds};
ghost use Rattle.bit_blit.specs.Draws.{Draws};
ghost use Rattle.draw_port.specs.Canvases.{canvas_holds, canvas_point, SameFrame};
ghost use Rattle.list_cells.specs.Grids.{is_cell};
ghost use Rattle.list_view.specs.Axes.{IsNear};
ghost use Rattle.list_view.specs.Views.{IsCell, cell_rect};
ghost use Rattle.list_view.specs.Shown.{in_cell};
ghost use Rattle.list_view.specs.Walks.{AreDrawn, is_in_row, shown_value};

use crate::ListView;
use crate::pens::CellPen;
use draw_port::{Canvas, placed_within};
use list_cells::{Cell, ListCells};
use tb_geom::Point;

/// Where the corner of a cell lies on the map, where the 0 0 of its window lies at `origin`.
fn corner_place(origin: Point, corner: Point) -> Point
    requires origin { in_plane origin ≡ true }
    requires across { IsNear corner.h }
    requires down { IsNear corner.v }
    ensures { result ≡ plus origin corner }
{
    Point {
        h: origin.h + corner.h,
        v: origin.v + corner.v,
    }
}

/// The cell of a column and a row.
fn cell_in(column: usize, row: usize) -> Cell
    requires column { column < 4096 }
    requires row { row < 4096 }
    ensures { result ≡ record { column = pos column; row = pos row } }
{
    Cell {
        column: column as i32,
        row: row as i32,
    }
}

/// Draws a cell where it shows on a canvas whose origin is the 0 0 of the window.
fn draw_cell<P: CellPen>(
    pen: &P,
    view: ListView,
    cells: &ListCells,
    cell: Cell,
    canvas: &mut Canvas<'_>,
)
    requires ready { P.is_ready pen.now }
    requires cell { is_cell cells.now cell ≡ true }
    requires small { IsCell cell }
    requires origin { in_plane canvas.old.origin ≡ true }
    ensures same_map { canvas.new.map.ghost_name ≡ canvas.old.map.ghost_name }
    ensures same_frame { SameFrame canvas.old canvas.new }
    ensures drawn { Draws (λ p. canvas_holds canvas.old p && rect_holds (cell_rect view cell)
        (canvas_point canvas.old p))
        (λ p d. P.value pen.now cells.now canvas.old.font.now cell (in_cell view cell (canvas_point canvas.old p)) d)
        canvas.old.map.now canvas.new.map.now }
{
    let clip = placed_within(canvas.clip, view.cell_rect(cell), canvas.origin);
    if clip.is_empty() {
        return;
    }
    let corner = view.cell_corner(cell);
    let mut there = Canvas {
        map: &mut *canvas.map,
        clip,
        origin: corner_place(canvas.origin, corner),
        cut: canvas.cut,
        font: canvas.font,
    };
    pen.draw(cells, cell, &mut there);
}

/// Draws the cells of a row that show.
fn draw_row<P: CellPen>(
    pen: &P,
    view: ListView,
    cells: &ListCells,
    row: usize,
    canvas: &mut Canvas<'_>,
)
    requires ready { P.is_ready pen.now }
    requires row { row < cells.now.rows }
    requires few { row < 4096 }
    requires origin { in_plane canvas.old.origin ≡ true }
    ensures same_map { canvas.new.map.ghost_name ≡ canvas.old.map.ghost_name }
    ensures same_frame { SameFrame canvas.old canvas.new }
    ensures drawn { AreDrawn canvas.old (P.value pen.now cells.now) view cells.now (is_in_row row)
        canvas.old.map.now canvas.new.map.now }
{
    let first = view.first().column as usize;
    for column in first..view.columns_end(cells.columns()) {
        draw_cell(pen, view, cells, cell_in(column, row), canvas);
    }
}

/// Draws the cells that show: each pixel of the canvas gets what the pen makes of its bit by the cell that lies there.
pub(crate) fn draw_rows<P: CellPen>(
    pen: &P,
    view: ListView,
    cells: &ListCells,
    canvas: &mut Canvas<'_>,
)
    requires ready { P.is_ready pen.now }
    requires origin { in_plane canvas.old.origin ≡ true }
    ensures same_map { canvas.new.map.ghost_name ≡ canvas.old.map.ghost_name }
    ensures same_frame { SameFrame canvas.old canvas.new }
    ensures drawn { Draws (canvas_holds canvas.old)
        (λ p d. shown_value (P.value pen.now cells.now canvas.old.font.now) view cells.now (canvas_point canvas.old p)
        d)
        canvas.old.map.now canvas.new.map.now }
{
    let first = view.first().row as usize;
    for row in first..view.rows_end(cells.rows()) {
        draw_row(pen, view, cells, row, canvas);
    }
}
