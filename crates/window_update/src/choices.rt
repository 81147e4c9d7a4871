//! What is left of a window's update region, for each choice of the kinds of layers that are drawn of it.
ghost use Rattle.std.specs.Prelude.{◌≡◌, ◌&&◌, ◌||◌, not, true, false, IfOk};
ghost use Rattle.tb_geom.specs.declared.point.Point.{Point};
ghost use Rattle.tb_geom.specs.Pixels.{holds};
ghost use Rattle.desk_layers.specs.declared.part.Part.TheVariants as part;
ghost use Rattle.window_list.specs.Holders.{ArePartsApart};
ghost use Rattle.window_paint.specs.Kinds.{is_of, is_kind_there};
ghost use Rattle.window_update.specs.Choosing.{has_kind, with_kind, left_for, IsFurther, AreChoicesOf};

use crate::LayerKind;
use scan_region::Region;
use std::alloc::{AllocError, Global};
use std::mem;
use window_list::Window;
use window_paint::is_of;

/// A choice of kinds of layers.
#[derive(Clone, Copy)]
pub struct Kinds {
    pub(crate) picture: bool,
    pub(crate) texts: bool,
    pub(crate) lists: bool,
    pub(crate) controls: bool,
}

/// An update region, cut in two, on the screen.
#[derive(Drop)]
pub struct Split {
    /// What of it the layers of one kind have, or of two.
    pub(crate) own: Region,
    /// What the others have.
    pub(crate) rest: Region,
}

/// While an update is open, the kinds that were drawn so far, and what is left of the update region once others are
/// drawn too. Three kinds leave what the fourth has, two leave what the two others have, one leaves what the others have, and all
/// leave nothing; so each draw finds its region ready, and takes no memory.
#[derive(Drop)]
pub struct Choices {
    pub(crate) alloc: Global,
    pub(crate) drawn: Kinds,
    pub(crate) picture: Split,
    pub(crate) texts: Split,
    pub(crate) lists: Split,
    pub(crate) controls: Split,
    /// Cut in what the picture and the text records have, and the rest.
    pub(crate) with_texts: Split,
    /// Cut in what the picture and the lists have, and the rest.
    pub(crate) with_lists: Split,
    /// Cut in what the picture and the controls have, and the rest.
    pub(crate) with_controls: Split,
}

impl Split {
    /// That of an empty region.
    fn empty(alloc: Global) -> Split {
        Split {
            own: Region::empty(alloc),
            rest: Region::empty(alloc),
        }
    }

    /// That of a region, of which this is what the layers of the kind have.
    fn of(alloc: Global, update: &Region, own: Region) -> Result<Split, AllocError>
        ensures own { IfOk result (λ s. s.own ≡ own) }
        ensures rest { IfOk result (λ s. (p : Point) → holds s.rest p ≡ (holds update.now p && not (holds own p))) }
    {
        let rest = update.diff(alloc, &own)?;
        Ok(Split { own, rest })
    }

    /// That of a region, of which these two are cut, in what the two kinds have and the rest.
    fn joined(
        alloc: Global,
        update: &Region,
        one: &Split,
        other: &Split,
    ) -> Result<Split, AllocError>
        ensures own { IfOk result (λ s. (p : Point) → holds s.own p ≡ (holds one.now.own p || holds other.now.own p)) }
        ensures rest { IfOk result (λ s. (p : Point) → holds s.rest p
            ≡ (holds update.now p && not (holds one.now.own p || holds other.now.own p))) }
    {
        let own = one.own.union(alloc, &other.own)?;
        let rest = update.diff(alloc, &own)?;
        Ok(Split { own, rest })
    }
}

impl Choices {
    /// Those where no update is open.
    pub(crate) fn none(alloc: Global) -> Choices {
        Choices {
            alloc,
            drawn: Kinds {
                picture: false,
                texts: false,
                lists: false,
                controls: false,
            },
            picture: Split::empty(alloc),
            texts: Split::empty(alloc),
            lists: Split::empty(alloc),
            controls: Split::empty(alloc),
            with_texts: Split::empty(alloc),
            with_lists: Split::empty(alloc),
            with_controls: Split::empty(alloc),
        }
    }

    /// Those of this update region of a window, of which nothing is drawn yet.
    pub(crate) fn of(alloc: Global, window: &Window, update: &Region) -> Result<Choices, AllocError>
        requires apart { ArePartsApart window.now.layers.layers }
        ensures { IfOk result (AreChoicesOf window.now update.now) }
    {
        let picture = update.diff(alloc, window.layers.covered())?;
        let texts = part_of(alloc, window, LayerKind::Texts, update)?;
        let lists = part_of(alloc, window, LayerKind::Lists, update)?;
        let controls = part_of(alloc, window, LayerKind::Controls, update)?;
        let picture = Split::of(alloc, update, picture)?;
        let texts = Split::of(alloc, update, texts)?;
        let lists = Split::of(alloc, update, lists)?;
        let controls = Split::of(alloc, update, controls)?;
        let with_texts = Split::joined(alloc, update, &picture, &texts)?;
        let with_lists = Split::joined(alloc, update, &picture, &lists)?;
        let with_controls = Split::joined(alloc, update, &picture, &controls)?;
        Ok(Choices {
            alloc,
            drawn: Kinds {
                picture: false,
                texts: false,
                lists: false,
                controls: false,
            },
            picture,
            texts,
            lists,
            controls,
            with_texts,
            with_lists,
            with_controls,
        })
    }

    /// Whether the layers of this kind were drawn.
    pub(crate) fn has_drawn(&self, kind: LayerKind) -> bool
        ensures { result ≡ has_kind self.now.drawn kind }
    {
        match kind {
            LayerKind::Picture => self.drawn.picture,
            LayerKind::Texts => self.drawn.texts,
            LayerKind::Lists => self.drawn.lists,
            LayerKind::Controls => self.drawn.controls,
        }
    }

    /// Counts the layers of this kind as drawn, and gives what is then left of the update region.
    pub(crate) fn draw(&mut self, kind: LayerKind) -> Region
        ensures drawn { self.new.drawn ≡ with_kind kind self.old.drawn }
        ensures left { (p : Point) → holds result p ≡ left_for self.old (with_kind kind self.old.drawn) p }
        ensures others { (k : Kinds) → IsFurther (with_kind kind self.old.drawn) k
            → left_for self.new k ≡ left_for self.old k }
    {
        match kind {
            LayerKind::Picture => self.drawn.picture = true,
            LayerKind::Texts => self.drawn.texts = true,
            LayerKind::Lists => self.drawn.lists = true,
            LayerKind::Controls => self.drawn.controls = true,
        }
        self.take()
    }

    /// What is left of the update region once the kinds are drawn that were.
    fn take(&mut self) -> Region
        ensures drawn { self.new.drawn ≡ self.old.drawn }
        ensures left { (p : Point) → holds result p ≡ left_for self.old self.old.drawn p }
        ensures others { (k : Kinds) → IsFurther self.old.drawn k → left_for self.new k ≡ left_for self.old k }
    {
        let nothing = Region::empty(self.alloc);
        let Kinds {
            picture,
            texts,
            lists,
            controls,
        } = self.drawn;
        match (picture, texts, lists, controls) {
            (true, false, false, false) => mem::replace(&mut self.picture.rest, nothing),
            (false, true, false, false) => mem::replace(&mut self.texts.rest, nothing),
            (false, false, true, false) => mem::replace(&mut self.lists.rest, nothing),
            (false, false, false, true) => mem::replace(&mut self.controls.rest, nothing),
            (true, true, false, false) => mem::replace(&mut self.with_texts.rest, nothing),
            (true, false, true, false) => mem::replace(&mut self.with_lists.rest, nothing),
            (true, false, false, true) => mem::replace(&mut self.with_controls.rest, nothing),
            (false, true, true, false) => mem::replace(&mut self.with_controls.own, nothing),
            (false, true, false, true) => mem::replace(&mut self.with_lists.own, nothing),
            (false, false, true, true) => mem::replace(&mut self.with_texts.own, nothing),
            (false, true, true, true) => mem::replace(&mut self.picture.own, nothing),
            (true, false, true, true) => mem::replace(&mut self.texts.own, nothing),
            (true, true, false, true) => mem::replace(&mut self.lists.own, nothing),
            (true, true, true, false) => mem::replace(&mut self.controls.own, nothing),
            _ => nothing,
        }
    }
}

/// What of a region of the screen a window's text records have, its lists or its controls.
fn part_of(
    alloc: Global,
    window: &Window,
    kind: LayerKind,
    region: &Region,
) -> Result<Region, AllocError>
    requires apart { ArePartsApart window.now.layers.layers }
    requires kind { is_of kind part.Picture ≡ false }
    ensures { IfOk result (λ own. (p : Point) → holds own p ≡ (holds region.now p && is_kind_there kind window.now p)) }
{
    let mut owned = Region::empty(alloc);
    for at in 0..window.layers.len() {
        if is_of(kind, window.layers.at(at).part) {
            owned = owned.union(alloc, window.layers.owned(at))?;
        }
    }
    region.sect(alloc, &owned)
}
