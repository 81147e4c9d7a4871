//! A text record.
ghost use Rattle.std.specs.Prelude.{◌≡◌, ◌≤◌, ◌≤ℤ◌, ◌+ℤ◌, true, length, IfOk, IfErr, if◌then◌else◌, pos, negsuc};
ghost use Rattle.text_record.specs.Placings.{is_placing, box_of, IsPlacing};
ghost use Rattle.text_record.specs.Texts.{placing_of, new_record, lines_of};

use crate::lined::LinedText;
use crate::metrics::Metrics;
use crate::placing::{Justification, Placing, widened};
use std::alloc::Global;
use std::marker::Model;
use tb_geom::{Rect, Refusal};
use text_lines::{ByteWidths, TextLine};

/// A text in lines, as it stands in a window and is selected. Contracts see a `Record`.
#[derive(Drop)]
pub struct TextRecord {
    pub(crate) text: LinedText,
    pub(crate) ascent: u16,
    pub(crate) height: u16,
    pub(crate) left: i32,
    pub(crate) top: i32,
    pub(crate) view: Rect,
    pub(crate) justification: Justification,
    pub(crate) start: usize,
    pub(crate) end: usize,
    pub(crate) framed: bool,
    pub(crate) shown: bool,
    pub(crate) active: bool,
    pub(crate) caret: bool,
}

impl Model for TextRecord {
    ghost use Rattle.text_record.specs.Texts.{Record, IsRecord};

    ghost Value = { Record };

    ghost view = { λ r. record {
      text = r.text;
      ascent = r.ascent;
      height = r.height;
      left = r.left;
      top = r.top;
      view = r.view;
      justification = r.justification;
      start = r.start;
      end = r.end;
      framed = r.framed;
      shown = r.shown;
      active = r.active;
      caret = r.caret;
    } };

    ghost invariant = { λ r. IsRecord (record {
      text = r.text;
      ascent = r.ascent;
      height = r.height;
      left = r.left;
      top = r.top;
      view = r.view;
      justification = r.justification;
      start = r.start;
      end = r.end;
      framed = r.framed;
      shown = r.shown;
      active = r.active;
      caret = r.caret;
    }) };
}

impl TextRecord {
    /// A record without text, which is shown and not active (TENew). The widths of all bytes and the metrics are those of
    /// the font. OutOfRange where a text may not stand so, NoMemory where there is no memory for a line.
    pub fn new(
        alloc: Global,
        widths: &ByteWidths,
        metrics: Metrics,
        placing: Placing,
        justification: Justification,
        wrap: bool,
        framed: bool,
    ) -> Result<TextRecord, Refusal>
        ensures made { IfOk result (λ made. made ≡ new_record widths.now metrics placing justification wrap framed) }
        ensures allowed { IfOk result (λ _. is_placing framed placing ≡ true) }
        ensures refused { IfErr result (λ e.
            e ≡ (if is_placing framed placing then Refusal.NoMemory else Refusal.OutOfRange)) }
    {
        if !placing.is_allowed(framed) {
            return Err(Refusal::OutOfRange);
        }
        let text = LinedText::new(alloc, widths, placing.width, wrap)?;
        Ok(TextRecord {
            text,
            ascent: metrics.ascent,
            height: metrics.line_height(),
            left: placing.left,
            top: placing.top,
            view: placing.view,
            justification,
            start: 0,
            end: 0,
            framed,
            shown: true,
            active: false,
            caret: true,
        })
    }

    /// Where the text stands.
    pub fn placing(&self) -> Placing
        ensures value { result ≡ placing_of self.now }
        ensures numbers { IsPlacing result.left result.top result.width result.view }
    {
        Placing {
            left: self.left,
            top: self.top,
            width: self.text.width(),
            view: self.view,
        }
    }

    /// The bytes, at most 32000.
    pub fn bytes(&self) -> &[u8]
        ensures bytes { result.now ≡ self.now.text.bytes }
        ensures short { length result.now ≤ 32000 }
    {
        self.text.bytes()
    }

    /// The lines. There is one more behind a return at the end, without bytes.
    pub fn lines(&self) -> &[TextLine]
        ensures { result.now ≡ lines_of self.now.text }
    {
        self.text.lines()
    }

    /// The selection: the offset of its first byte, and the one behind its last byte.
    pub fn selection(&self) -> (usize, usize)
        ensures selection { result ≡ (self.now.start, self.now.end) }
        ensures order { result.0 ≤ result.1 }
        ensures within { result.1 ≤ length self.now.text.bytes }
        ensures short { length self.now.text.bytes ≤ 32000 }
    {
        (self.start, self.end)
    }

    /// How high a line is, in pixels: 1..=381.
    pub fn line_height(&self) -> u16
        ensures value { result ≡ self.now.height }
        ensures from { 1 ≤ result }
        ensures to { result ≤ 381 }
    {
        self.height
    }

    /// How far below its top the baseline of a line lies, in pixels: at most 127.
    pub fn ascent(&self) -> u16
        ensures value { result ≡ self.now.ascent }
        ensures to { result ≤ 127 }
    {
        self.ascent
    }

    /// Where lines stand in the destination.
    pub fn justification(&self) -> Justification
        ensures { result ≡ self.now.justification }
    {
        self.justification
    }

    /// Whether lines wrap.
    pub fn wraps(&self) -> bool
        ensures { result ≡ self.now.text.wrap }
    {
        self.text.wraps()
    }

    /// Whether the view has a frame round it.
    pub fn is_framed(&self) -> bool
        ensures { result ≡ self.now.framed }
    {
        self.framed
    }

    /// Whether the record is shown.
    pub fn is_shown(&self) -> bool
        ensures { result ≡ self.now.shown }
    {
        self.shown
    }

    /// Whether the record is active: its selection or its caret shows.
    pub fn is_active(&self) -> bool
        ensures { result ≡ self.now.active }
    {
        self.active
    }

    /// Whether the caret is on.
    pub fn has_caret(&self) -> bool
        ensures { result ≡ self.now.caret }
    {
        self.caret
    }

    /// The box: the view, or where framed the view with 3 columns and rows more on each side.
    pub fn bounds(&self) -> Rect
        ensures sides { result ≡ box_of self.now.framed self.now.view }
        ensures left_from { negsuc 16386 ≤ℤ result.left }
        ensures right_to { result.right ≤ℤ pos 16386 }
        ensures top_from { negsuc 16386 ≤ℤ result.top }
        ensures bottom_to { result.bottom ≤ℤ pos 16386 }
        ensures columns { (result.left +ℤ pos 1) ≤ℤ result.right }
        ensures rows { (result.top +ℤ pos 1) ≤ℤ result.bottom }
    {
        if self.framed {
            widened(self.view)
        } else {
            self.view
        }
    }
}
