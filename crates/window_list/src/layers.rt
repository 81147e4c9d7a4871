//! The list, its changes, and the one loop that says what each layer owns.
ghost use Rattle.std.specs.Prelude.{◌≡◌, ◌<◌, ◌≤◌, true, None, Some, All, [], length, slice_index_or, IfOk, IfSome};
ghost use Rattle.std.specs.List.{insert, remove, list_all};
ghost use Rattle.tb_geom.specs.declared.point.Point.{Point};
ghost use Rattle.tb_geom.specs.Points.{minus};
ghost use Rattle.tb_geom.specs.Pixels.{holds};
ghost use Rattle.tb_geom.specs.Rects.{in_plane};
ghost use Rattle.window_list.specs.Holders.{is_covered, belongs_to, layer_index, part_at, fits_at, ArePartsApart, IsLayerAt};
ghost use Rattle.window_list.specs.LayerChanges.{with_shape, is_gained, reshaped};

use crate::layer::{Layer, LayerShape};
use crate::moves::{local, move_all, move_by};
use desk_layers::Part;
use scan_region::Region;
use std::alloc::{AllocError, Global};
use std::marker::Model;
use tb_geom::Point;

/// The layers of a window from front to back, with what each owns of the screen where the window lies.
#[derive(Drop)]
pub struct Layers {
    /// Where the window's own 0 0 lies on the screen.
    place: Point,
    layers: Vec<Layer>,
    owned: Vec<Region>,
    covered: Region,
}

/// The layers after a change, with what other layers and the picture gain by it, on the screen.
#[derive(Drop)]
pub struct Relaid {
    pub layers: Layers,
    pub gained: Region,
}

impl Model for Layers {
    ghost use Rattle.std.specs.Prelude.{◌≡◌, true, All, List, vec_len, refl};
    ghost use Rattle.std.specs.Coded.{code_by, coded×, coded_list};
    ghost use Rattle.tb_geom.specs.declared.point.Point.{Point};
    ghost use Rattle.tb_geom.specs.Points.{minus};
    ghost use Rattle.tb_geom.specs.Pixels.{holds};
    ghost use Rattle.tb_geom.specs.Rects.{in_plane};
    ghost use Rattle.tb_geom.specs.contracts.point.Point as point;
    ghost use Rattle.window_list.specs.declared.layer.Layer.{Layer};
    ghost use Rattle.window_list.specs.contracts.layer.Layer as layer;
    ghost use Rattle.window_list.specs.Holders.{PlacedLayers, is_covered, IsLayerAt};
    ghost use Rattle.window_list.specs.Owned.{AreOwned};

    ghost Value = { PlacedLayers };

    ghost coded = { code_by (Point × List Layer) (coded× point.the_row.coded (coded_list layer.the_row.coded))
        (λ s. (s.place, s.layers)) (λ p. record { place = p.0; layers = p.1 }) (λ _. refl) };

    ghost view = { λ s. record { place = s.place; layers = s.layers.items } };

    ghost invariant = { λ s. record {
      placed : in_plane s.place ≡ true;
      lie : All (IsLayerAt s.place) s.layers.items;
      owned : AreOwned s.place s.layers.items s.owned.items;
      many : vec_len s.owned ≡ vec_len s.layers;
      covered : (p : Point) → holds s.covered p ≡ is_covered s.layers.items (minus p s.place);
    } };
}

impl Layers {
    /// No layers, of a window at this place.
    pub fn new(alloc: Global, place: Point) -> Layers
        requires { in_plane place ≡ true }
        ensures { result ≡ record { place = place; layers = [] } }
    {
        Layers {
            place,
            layers: Vec::new(alloc),
            owned: Vec::new(alloc),
            covered: Region::empty(alloc),
        }
    }

    /// How many layers there are.
    pub fn len(&self) -> usize
        ensures { result ≡ length self.now.layers }
    {
        self.layers.len()
    }

    /// The layer at this index.
    pub fn at(&self, at: usize) -> &Layer
        requires { at < length self.now.layers }
        ensures { result.now ≡ slice_index_or self.now.layers at result.now }
    {
        &self.layers[at]
    }

    /// Where the layer of this part stands, if there is one.
    pub fn find(&self, part: Part) -> Option<usize>
        ensures first { result ≡ layer_index part self.now.layers }
        ensures within { IfSome result (λ at. at < length self.now.layers) }
    {
        self.layers.iter().position(|layer| layer.part.is(part))
    }

    /// What the layer at this index owns of the screen, as far as its window's content reaches there.
    pub fn owned(&self, at: usize) -> &Region
        requires within { at < length self.now.layers }
        requires apart { ArePartsApart self.now.layers }
        ensures { (l : Layer) → l ≡ slice_index_or self.now.layers at l → (p : Point)
            → holds result.now p ≡ belongs_to l.part self.now.layers (minus p self.now.place) }
    {
        &self.owned[at]
    }

    /// What of the screen the layers own together: all that is not the picture's.
    pub fn covered(&self) -> &Region
        ensures { (p : Point) → holds result.now p ≡ is_covered self.now.layers (minus p self.now.place) }
    {
        &self.covered
    }

    /// The part that a pixel of the content belongs to, given in the window's own coordinates.
    pub fn part_at(&self, point: Point) -> Part
        ensures { result ≡ part_at self.now.layers point }
    {
        part_among(self.layers.as_slice(), point)
    }

    /// Whether each layer's box lies in the range of coordinates where the window is at this place.
    pub fn fit_at(&self, place: Point) -> bool
        ensures { result ≡ list_all (fits_at place) self.now.layers }
    {
        all_fit(self.layers.as_slice(), place)
    }

    /// Moves all to where the window is at this place.
    pub fn go_to(&mut self, place: Point)
        requires placed { in_plane place ≡ true }
        requires fit { list_all (fits_at place) self.old.layers ≡ true }
        ensures { self.new ≡ record self.old { place = place } }
    {
        let by = local(place, self.place);
        move_all(self.owned.as_mut_slice(), by);
        move_by(&mut self.covered, by);
        self.place = place;
    }

    /// The layers with one more before the one at this index, or behind all. It is to be drawn afresh, and takes pixels from
    /// others alone, so nothing is gained.
    pub fn with(&self, alloc: Global, at: usize, layer: Layer) -> Result<Relaid, AllocError>
        requires at { at ≤ length self.now.layers }
        requires lies { IsLayerAt self.now.place layer }
        ensures layers { IfOk result (λ r. r.layers ≡ record self.now { layers = insert self.now.layers at layer }) }
        ensures gained { IfOk result (λ r. (p : Point) → holds r.gained p
            ≡ is_gained (Some layer.part) self.now.layers r.layers.layers (minus p self.now.place)) }
    {
        let mut layers = copied(alloc, self.layers.as_slice())?;
        layers.insert(at, layer)?;
        let layers = made(alloc, self.place, layers)?;
        let gained = Region::empty(alloc);
        Ok(Relaid { layers, gained })
    }

    /// The layers where the one at this index is shown or not, and lies here, and is to be drawn afresh.
    pub fn with_shape(
        &self,
        alloc: Global,
        at: usize,
        shape: LayerShape,
    ) -> Result<Relaid, AllocError>
        requires at { at < length self.now.layers }
        requires lies { (l : Layer) → l ≡ slice_index_or self.now.layers at l
            → IsLayerAt self.now.place (with_shape shape l) }
        requires apart { ArePartsApart self.now.layers }
        ensures layers { IfOk result (λ r. r.layers ≡ record self.now { layers = reshaped shape at self.now.layers }) }
        ensures gained { IfOk result (λ r. (l : Layer) → l ≡ slice_index_or self.now.layers at l → (p : Point)
            → holds r.gained p ≡ is_gained (Some l.part) self.now.layers r.layers.layers (minus p self.now.place)) }
    {
        let layers = rewritten(alloc, self.layers.as_slice(), at, shape)?;
        let layers = made(alloc, self.place, layers)?;
        let gained = self.owned(at).diff(alloc, layers.owned(at))?;
        Ok(Relaid { layers, gained })
    }

    /// The layers without the one at this index.
    pub fn without(&self, alloc: Global, at: usize) -> Result<Relaid, AllocError>
        requires at { at < length self.now.layers }
        requires apart { ArePartsApart self.now.layers }
        ensures layers { IfOk result (λ r. r.layers ≡ record self.now { layers = remove self.now.layers at }) }
        ensures gained { IfOk result (λ r. (p : Point) → holds r.gained p
            ≡ is_gained None self.now.layers r.layers.layers (minus p self.now.place)) }
    {
        let mut layers = copied(alloc, self.layers.as_slice())?;
        let _gone = layers.remove(at);
        let layers = made(alloc, self.place, layers)?;
        let gained = self.owned(at).copy(alloc)?;
        Ok(Relaid { layers, gained })
    }
}

/// The part of the first of these layers that is shown and holds the pixel, or the picture.
fn part_among(layers: &[Layer], point: Point) -> Part
    ensures { result ≡ part_at layers.now point }
{
    for at in 0..layers.len() {
        if layers[at].has(point) {
            return layers[at].part;
        }
    }
    Part::Picture
}

/// Whether each layer's box lies in the range of coordinates where their window is at this place.
fn all_fit(layers: &[Layer], place: Point) -> bool
    ensures { result ≡ list_all (fits_at place) layers.now }
{
    for layer in layers {
        if !layer.fits_at(place) {
            return false;
        }
    }
    true
}

/// The same layers once more, where the one at this index is shown or not, and lies here.
fn rewritten(
    alloc: Global,
    layers: &[Layer],
    at: usize,
    shape: LayerShape,
) -> Result<Vec<Layer>, AllocError>
    requires { at < length layers.now }
    ensures { IfOk result (λ new. new.items ≡ reshaped shape at layers.now) }
{
    let mut new = copied(alloc, layers)?;
    let part = layers[at].part;
    new[at] = Layer {
        part,
        shown: shape.shown,
        region: shape.region,
        bounds: shape.bounds,
    };
    Ok(new)
}

/// The same layers once more.
fn copied(alloc: Global, layers: &[Layer]) -> Result<Vec<Layer>, AllocError>
    ensures { IfOk result (λ copies. copies.items ≡ layers.now) }
{
    let mut copies = Vec::with_capacity(alloc, layers.len())?;
    for layer in layers {
        let copy = layer.copy(alloc)?;
        copies.push(copy).unwrap();
    }
    Ok(copies)
}

/// These layers of a window at this place, with what each owns: from front to back each takes what those in front of it
/// leave.
fn made(alloc: Global, place: Point, layers: Vec<Layer>) -> Result<Layers, AllocError>
    requires placed { in_plane place ≡ true }
    requires lie { All (IsLayerAt place) layers.items }
    ensures { IfOk result (λ made. made ≡ record { place = place; layers = layers.items }) }
{
    let mut owned = Vec::with_capacity(alloc, layers.len())?;
    let mut covered = Region::empty(alloc);
    for at in 0..layers.len() {
        let own = layers[at].taken(alloc, place, &covered)?;
        covered = covered.union(alloc, &own)?;
        owned.push(own).unwrap();
    }
    Ok(Layers {
        place,
        layers,
        owned,
        covered,
    })
}
