//! Frames of windows, and what of their content is new.
ghost use Rattle.std.specs.Prelude.{◌≡◌, ◌&&◌, true, false};
ghost use Rattle.tb_geom.specs.declared.point.Point.{Point};
ghost use Rattle.tb_geom.specs.Points.{minus};
ghost use Rattle.tb_geom.specs.Pixels.{holds};
ghost use Rattle.tb_geom.specs.Rects.{in_plane, is_in_range, moved_rect, rect_holds};
ghost use Rattle.bit_blit.specs.Draws.{Draws, DrawsOnce, IsWritten};
ghost use Rattle.def_iface.specs.WindowMeaning.{is_fitting};
ghost use Rattle.def_iface.specs.WindowNews.{no_news};
ghost use Rattle.window_paint.specs.Frames.{IsPlaced, IsPainted};
ghost use Rattle.window_paint.specs.Writes.{IsWrittenBy, one};

use bit_blit::{cut_inside, fill};
use bit_map::{BitMap, Mode, Pattern};
use def_iface::{Defined, Stage, TakenWindow};
use draw_port::Canvas;
use scan_region::Region;
use strike_font::Font;
use tb_geom::{Point, Rect};
use window_list::Window;

/// Draws a window's frame on the pixels of a region of the screen that lie within a rectangle of the window. The region lies
/// in the window's structure.
pub fn paint_frame(map: &mut BitMap, region: &Region, window: &Window, within: Rect, font: &Font)
    requires placed { IsPlaced window.now.place window.now.size
        (⟦<TakenWindow as Defined>⟧.loan window.now.taken).definition }
    requires inside { (p : Point) → holds region.now p ≡ true
        → (⟦<TakenWindow as Defined>⟧.loan window.now.taken).definition.structure window.now.size
        (minus p window.now.place) ≡ true }
    ensures drawn { Draws (λ p. holds region.now p && rect_holds within (minus p window.now.place))
        (λ p _. (⟦<TakenWindow as Defined>⟧.loan window.now.taken).definition.picture no_news font.now
        (minus p window.now.place))
        map.old map.new }
    ensures written { IsWritten (λ p. holds region.now p && rect_holds within (minus p window.now.place)) map.old map.new }
    ensures near { (p : Point) → holds region.now p ≡ true → in_plane (minus p window.now.place) ≡ true }
{
    let clip = on_screen(window, within);
    draw_clipped(map, region, clip, window, font);
}

/// Makes what of a window's content is new white, and draws its frame on what of that is to be drawn. Both regions are of
/// the screen; of a pixel that both have, the frame is drawn.
pub fn paint_part(map: &mut BitMap, new: &Region, frame: &Region, window: &Window, font: &Font)
    requires placed { in_plane window.now.place ≡ true }
    requires live { (⟦<TakenWindow as Defined>⟧.loan window.now.taken).definition.stage ≡ Stage.Live }
    requires told { is_fitting (⟦<TakenWindow as Defined>⟧.loan window.now.taken).definition
        (⟦<TakenWindow as Defined>⟧.loan window.now.taken).definition.size ≡ true }
    ensures painted { IsPainted font.now (⟦<TakenWindow as Defined>⟧.loan window.now.taken).definition window.now.place
        new.now frame.now
        map.old map.new }
    ensures written { IsWrittenBy (λ p. one (holds new.now p)) (holds frame.now) map.old map.new }
{
    whiten(map, new);
    let clip = frame.bbox();
    draw_clipped(map, frame, clip, window, font);
}

/// Makes the pixels of a region white, if it has any.
fn whiten(map: &mut BitMap, region: &Region)
    ensures { DrawsOnce (holds region.now) (λ p old. false) map.old map.new }
{
    if region.is_empty() {
        return;
    }
    let origin = Point { h: 0, v: 0 };
    fill(map, region, origin, Pattern::WHITE, Mode::Copy);
}

/// Draws a window's frame on the pixels of a region of the screen that lie within a rectangle of the screen, if any do.
fn draw_clipped(map: &mut BitMap, region: &Region, clip: Rect, window: &Window, font: &Font)
    requires placed { in_plane window.now.place ≡ true }
    requires live { (⟦<TakenWindow as Defined>⟧.loan window.now.taken).definition.stage ≡ Stage.Live }
    requires told { is_fitting (⟦<TakenWindow as Defined>⟧.loan window.now.taken).definition
        (⟦<TakenWindow as Defined>⟧.loan window.now.taken).definition.size ≡ true }
    ensures drawn { Draws (λ p. rect_holds clip p && holds region.now p)
        (λ p _. (⟦<TakenWindow as Defined>⟧.loan window.now.taken).definition.picture no_news font.now
        (minus p window.now.place))
        map.old map.new }
    ensures written { IsWritten (λ p. rect_holds clip p && holds region.now p) map.old map.new }
{
    if !region.meets_rect(clip) {
        return;
    }
    let cut = cut_inside(region);
    let mut canvas = Canvas {
        map,
        clip,
        origin: window.place,
        cut: &cut,
        font,
    };
    window.taken.draw(&mut canvas);
}

/// Where a rectangle of a window lies on the screen, as far as the box of the window's structure goes.
fn on_screen(window: &Window, rect: Rect) -> Rect
    requires { IsPlaced window.now.place window.now.size (⟦<TakenWindow as Defined>⟧.loan window.now.taken).definition }
    ensures pixels { (p : Point) → (⟦<TakenWindow as Defined>⟧.loan window.now.taken).definition.structure
        window.now.size (minus p window.now.place) ≡ true
        → rect_holds result p ≡ rect_holds rect (minus p window.now.place) }
    ensures near { (p : Point) → (⟦<TakenWindow as Defined>⟧.loan window.now.taken).definition.structure
        window.now.size (minus p window.now.place) ≡ true → in_plane (minus p window.now.place) ≡ true }
{
    moved(rect.sect(window.taken.bounds(window.size)), window.place)
}

/// The rectangle, moved so far, which leaves all sides in range.
fn moved(rect: Rect, by: Point) -> Rect
    requires { is_in_range (moved_rect rect by.h by.v) ≡ true }
    ensures { result ≡ moved_rect rect by.h by.v }
{
    rect.offset(by.h, by.v).unwrap()
}
