//! How high lines are.
ghost use Rattle.std.specs.Prelude.{◌≡◌, ◌≤◌};
ghost use Rattle.text_record.specs.Placings.{line_height};

/// What a font says of the height of lines, in pixels: how much of a line lies above its baseline, how much below, and
/// how much between it and the next (*Inside Macintosh* I, "The Font Manager"). Each is at most 127.
#[derive(Clone, Copy, Drop)]
pub struct Metrics {
    pub ascent: u16,
    pub descent: u16,
    pub leading: u16,
    ghost ascent_to: { ascent ≤ 127 },
    ghost descent_to: { descent ≤ 127 },
    ghost leading_to: { leading ≤ 127 },
}

impl Metrics {
    /// The height of a line: all three together, and at least 1.
    pub fn line_height(self) -> u16
        ensures value { result ≡ line_height self.ascent self.descent self.leading }
        ensures from { 1 ≤ result }
        ensures to { result ≤ 381 }
    {
        (self.ascent + self.descent + self.leading).max(1)
    }
}
