//! What the definitions of polygons say.
ghost use Rattle.std.specs.Prelude.{◌≡◌, List, [], ◌∷◌, ◌++◌};
ghost use Rattle.tb_geom.specs.declared.point.Point.{Point};
ghost use Rattle.region_rows.specs.Edges.{differ};
ghost use Rattle.shape_region.specs.Polygons.{polygon_holds};

/// A polygon that is cut in two along a chord, from one of its points to another, is the odd sum of the two.
#[tactic(auto, using(crate::proofs::PolygonLemmas::cut_by_chord))]
pub fn polygons_are_cut_along_chords()
    ensures { (before : List Point) (a : Point) (middle : List Point) (b : Point) (after : List Point) (p : Point)
        → polygon_holds (before ++ (a ∷ (middle ++ (b ∷ after)))) p
        ≡ differ (polygon_holds (before ++ (a ∷ (b ∷ after))) p) (polygon_holds (a ∷ (middle ++ (b ∷ []))) p) }
{}
