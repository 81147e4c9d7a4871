//! Ovals, by the centres of pixels.
ghost use Rattle.std.specs.Prelude.{◌≡◌, ℕ, ◌+◌, ◌-◌, ◌*◌, ◌<◌, ◌≤◌, nat_le};
ghost use Rattle.shape_strips.specs.Ovals.{in_oval, away};

/// An oval, by its size in pixels. Places in it are counted in half pixels from its middle, so that the centre of each
/// pixel is at whole numbers.
#[derive(Clone, Copy)]
pub struct Oval {
    pub width: u64,
    pub height: u64,
    ghost narrow: { width < 32768 },
    ghost low: { height < 32768 },
}

impl Oval {
    /// Whether the place lies in the oval. The sums stay below 2^61.
    fn contains(self, x: u64, y: u64) -> bool
        requires across { x ≤ self.width }
        requires down { y ≤ self.height }
        ensures { result ≡ in_oval self.width self.height x y }
    {
        let across = x * self.height;
        let down = y * self.width;
        let both = self.width * self.height;
        across * across + down * down <= both * both
    }

    /// How many pixels a row lacks on either side, where the centres of its pixels lie `y` half pixels above or below
    /// the middle. Toward the middle pixels stay in, so that the first one that is in is found by halving.
    pub fn lacking(self, y: u64) -> u64
        requires { y ≤ self.height }
        ensures few { result ≤ self.width }
        ensures edge { (i : ℕ) → in_oval self.width self.height (self.width - 1 - 2 * i) y ≡ nat_le result i }
    {
        let mut low = 0;
        let mut high = self.width / 2;
        while low < high {
            let middle = (low + high) / 2;
            if self.contains(self.width - 1 - 2 * middle, y) {
                high = middle;
            } else {
                low = middle + 1;
            }
        }
        low
    }
}

/// How far, in half pixels, the centre of a column lies from the middle of the oval of the nearer corner, which is
/// `corner` columns wide; 0 between the corners. The shape has `before` columns left of this one and `after` right of
/// it. So too with rows.
pub fn away(corner: u64, before: u64, after: u64) -> u64
    requires before { before < 32768 }
    requires after { after < 32768 }
    ensures { result ≡ away corner before after }
{
    corner.saturating_sub(1 + 2 * before.min(after))
}
