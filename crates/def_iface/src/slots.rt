//! The stock of one kind of thing: slots of definitions, taken for use and put back.
ghost use Rattle.std.specs.Prelude.{◌≡◌, ◌++◌, ◌∷◌, [], List, Some, None, IfOk, IfErr, OnOk, OnErr, IfSome, IsSome};
ghost use Rattle.std.specs.Prelude.{IsSomeAnd, All, true, slice_get};
ghost use Rattle.def_iface.specs.Slots.{SlotOf, slot_view, slot_views, loan_by, slots_by, is_kind, has_kind, offers, first_offer, is_left};
ghost use Rattle.def_iface.specs.Slots.{IsTaken, IsNotTaken, IsPutBack, IsIdle, IsFull};

use crate::{Held, Stage, Taken};
use std::alloc::Global;
use tb_geom::Refusal;

/// A slot for definitions of a kind.
#[derive(Drop)]
struct Slot<T> {
    kind: Vec<u8>,
    held: Option<T>,
}

/// Slots of definitions, each for a kind that goes by its name. A definition that was taken keeps its slot's number for as long
/// as it is out, and its slot stays empty.
#[derive(Drop)]
pub struct Slots<T> {
    alloc: Global,
    slots: Vec<Slot<T>>,
}

/// Such slots as contracts see them: a list, each with its definition as a value.
pub trait Stocked {
    /// What a definition of their kind is, as a value.
    ghost Meaning: { Type 0 };

    /// The slots, in the order in which they were added.
    ghost slots: { Self → List (SlotOf Meaning) };
}

/// A definition that comes back as it was, and why.
#[derive(Drop)]
pub struct Returned<T> {
    /// Why it was not taken in.
    pub refusal: Refusal,
    /// The definition that was handed in.
    pub definition: T,
}

impl<T: Held> Slot<T> {
    /// Whether the slot is for the kind.
    fn is_kind(&self, kind: &[u8]) -> bool
        ensures { result ≡ is_kind kind.now (slot_view self.now) }
    {
        self.kind.as_slice() == kind
    }

    /// Whether the slot is for the kind, and holds a Fresh definition.
    fn offers(&self, kind: &[u8]) -> bool
        ensures { result ≡ offers (λ d. T.stage_of (T.meaning d)) kind.now (slot_view self.now) }
    {
        match &self.held {
            Some(definition) => self.is_kind(kind) && definition.stage() == Stage::Fresh,
            None => false,
        }
    }

    /// Takes the definition out.
    fn empty(&mut self) -> T
        requires { IsSome self.old.held }
        ensures held { self.old.held ≡ Some result }
        ensures left { self.new ≡ record self.old { held = None } }
    {
        self.held.take().unwrap()
    }
}

impl<T: Held> Slots<T> {
    /// No slot.
    pub fn new(alloc: Global) -> Slots<T>
        ensures empty { slots_by T.meaning result ≡ [] }
        ensures full { All (IsFull T.stage_of) (slots_by T.meaning result) }
    {
        Slots {
            alloc,
            slots: Vec::new(alloc),
        }
    }

    /// Adds a slot for the kind, behind all others, with a Fresh definition in it. Where memory is refused the definition comes
    /// back, and the slots are as they were.
    pub fn add(&mut self, kind: &[u8], definition: T) -> Result<(), Returned<T>>
        requires { T.stage_of (T.meaning definition) ≡ Stage.Fresh }
        ensures added { OnOk result (slots_by T.meaning self.new
            ≡ slots_by T.meaning self.old ++ record { kind = kind.now; held = Some (T.meaning definition) } ∷ []) }
        ensures full { OnOk result (All (IsFull T.stage_of) (slots_by T.meaning self.old)
            → All (IsFull T.stage_of) (slots_by T.meaning self.new)) }
        ensures returned { IfErr result (λ e. (e.refusal ≡ Refusal.NoMemory) × (e.definition ≡ definition)) }
        ensures kept { OnErr result (slots_by T.meaning self.new ≡ slots_by T.meaning self.old) }
    {
        match self.push(kind, definition) {
            Ok(()) => Ok(()),
            Err(definition) => Err(Returned {
                refusal: Refusal::NoMemory,
                definition,
            }),
        }
    }

    /// Adds a slot for the kind, behind all others, with this definition in it, if memory is not refused.
    fn push(&mut self, kind: &[u8], definition: T) -> Result<(), T>
        ensures added { OnOk result (slot_views self.new.slots.items
            ≡ slot_views self.old.slots.items ++ record { kind = kind.now; held = Some definition } ∷ []) }
        ensures returned { IfErr result (λ d. d ≡ definition) }
        ensures kept { OnErr result (slot_views self.new.slots.items ≡ slot_views self.old.slots.items) }
    {
        let Ok(kind) = Vec::from_slice(self.alloc, kind) else {
            return Err(definition);
        };
        let slot = Slot {
            kind,
            held: Some(definition),
        };
        match self.slots.push(slot) {
            Ok(()) => Ok(()),
            Err(failed) => {
                let Slot { kind: _, held } = failed.value;
                Err(held.unwrap())
            }
        }
    }

    /// Whether some slot, empty or not, is for the kind.
    pub fn has(&self, kind: &[u8]) -> bool
        ensures { result ≡ has_kind kind.now (slots_by T.meaning self.now) }
    {
        for slot in &self.slots {
            if slot.is_kind(kind) {
                return true;
            }
        }
        false
    }

    /// The place of the first slot that offers the kind.
    fn first_offer(&self, kind: &[u8]) -> Option<usize>
        ensures value { result ≡ first_offer T.stage_of kind.now (slots_by T.meaning self.now) }
        ensures offered { IfSome result (λ at. IsSomeAnd (slice_get self.now.slots.items at)
            (λ s. offers (λ d. T.stage_of (T.meaning d)) kind.now (slot_view s) ≡ true)) }
    {
        for (at, slot) in self.slots.iter().enumerate() {
            if slot.offers(kind) {
                return Some(at);
            }
        }
        None
    }

    /// Takes the first Fresh definition of the kind out of its slot, which stays empty until `put_back`. NoSuchName where no
    /// slot is for the kind, NoDefinition where none of those that are holds a Fresh one; the slots are then as they were.
    pub fn take(&mut self, kind: &[u8]) -> Result<Taken<T>, Refusal>
        ensures taken { IfOk result (λ t. IsTaken T.stage_of kind.now (loan_by T.meaning t)
            (slots_by T.meaning self.old) (slots_by T.meaning self.new)) }
        ensures left { IfOk result (λ t. is_left t.slot (slots_by T.meaning self.new) ≡ true) }
        ensures refused { IfErr result (IsNotTaken T.stage_of kind.now (slots_by T.meaning self.old)) }
        ensures kept { OnErr result (slots_by T.meaning self.new ≡ slots_by T.meaning self.old) }
    {
        match self.first_offer(kind) {
            Some(slot) => {
                let definition = self.slots[slot].empty();
                Ok(Taken { definition, slot })
            }
            None if self.has(kind) => Err(Refusal::NoDefinition),
            None => Err(Refusal::NoSuchName),
        }
    }

    /// Puts a definition that is Fresh or Closed back into the slot that it came from. One that is Closed stays there, and is
    /// not taken again.
    pub fn put_back(&mut self, taken: Taken<T>)
        requires idle { IsIdle T.stage_of (T.meaning taken.definition) }
        requires left { is_left taken.slot (slots_by T.meaning self.old) ≡ true }
        ensures { IsPutBack (loan_by T.meaning taken) (slots_by T.meaning self.old) (slots_by T.meaning self.new) }
    {
        let Taken { definition, slot } = taken;
        let slot = &mut self.slots[slot];
        slot.held = Some(definition);
    }
}
