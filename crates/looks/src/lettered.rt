//! Steps with texts of their own, drawn over what stands there.
ghost use Rattle.std.specs.Prelude.{◌≡◌, ◌≤◌, length, All};
ghost use Rattle.bit_blit.specs.Draws.{Draws};
ghost use Rattle.draw_port.specs.Canvases.{canvas_holds, canvas_point, SameFrame};
ghost use Rattle.looks.specs.Lettered.{lettered_value, has_short_text};

use crate::paint::draw_step;
use crate::step::Step;
use draw_port::Canvas;
use std::marker::Model;

/// A text that is lent. Contracts see the list of its characters.
#[derive(Drop)]
pub struct Label<'a> {
    characters: &'a [u8],
}

impl<'a> Model for Label<'a> {
    ghost use Rattle.std.specs.Prelude.{List, ℕ};

    ghost Value = { List ℕ };

    ghost view = { λ l. l.characters.now };
}

impl<'a> Label<'a> {
    /// This text.
    pub fn new(characters: &'a [u8]) -> Label<'a>
        ensures { result ≡ characters.entry.now }
    {
        Label { characters }
    }

    /// Its characters.
    pub fn as_slice(&self) -> &'a [u8]
        ensures { result.now ≡ self.now }
    {
        self.characters
    }
}

/// A step, and the text that it may show.
#[derive(Drop)]
pub struct Lettered<'a> {
    /// At most 65535 characters.
    pub text: Label<'a>,
    pub step: Step,
}

/// Draws steps one after another over what stands there, each with its own text in the canvas's font.
pub fn draw_lettered(canvas: &mut Canvas<'_>, steps: &[Lettered<'_>])
    requires { All has_short_text steps.now }
    ensures same_map { canvas.new.map.ghost_name ≡ canvas.old.map.ghost_name }
    ensures same_frame { SameFrame canvas.old canvas.new }
    ensures drawn { Draws (canvas_holds canvas.old)
        (λ p d. lettered_value canvas.old.font.now steps.now (canvas_point canvas.old p) d)
        canvas.old.map.now canvas.new.map.now }
{
    for lettered in steps {
        draw_step(canvas, lettered.step, lettered.text.as_slice());
    }
}
