//! The places that pointers point to.

use crate::place::{NO_BASES, NamedPlace, PlaceKind, PlaceText};
use debug_variables::{FrameVariables, ImageObjects, Neighbor, VariableName};
use pointer_provenance::{Pointed, Shadow};
use std::alloc::{AllocError, Global};

/// How many places there are besides those of the image before those are looked for that nothing
/// points to.
const FIRST_LIMIT: usize = 16_384;

/// How many there are at most. One takes some 150 bytes.
const MOST: usize = 262_144;

/// The places: a page, the variables of the image, and those of frames that run, or that a pointer
/// is still to.
#[derive(Drop)]
pub(crate) struct PlaceTable {
    places: Vec<NamedPlace>,
    /// How many are of the image.
    fixed: usize,
    /// The indices of places that were given up.
    unused: Vec<usize>,
    /// How many there may be before some are given up.
    limit: usize,
    /// Whether no more are entered: nearly all are pointed to.
    is_closed: bool,
}

/// The index of the page.
pub(crate) const PAGE: usize = 0;

/// The index of the first variable of the image.
const FIRST_OBJECT: usize = 1;

impl PlaceTable {
    /// The page and the variables of an image.
    pub(crate) fn new(
        alloc: Global,
        objects: &ImageObjects,
        variables: &FrameVariables,
    ) -> Result<PlaceTable, AllocError> {
        let mut places = Vec::new(alloc);
        places.push(fixed_place(PlaceText {
            kind: PlaceKind::Page,
            start: 0,
            end: 0,
            name: VariableName::NONE,
            declaration: None,
            function: None,
        }))?;
        for object in objects.all() {
            let place = fixed_place(PlaceText {
                kind: PlaceKind::Object,
                start: object.start,
                end: object.end,
                name: object.name,
                declaration: variables.declaration_at(object.start),
                function: None,
            });
            places.push(NamedPlace {
                is_marked: object.is_marked,
                before: neighbor(objects, variables, object.start),
                ..place
            })?;
        }
        let fixed = places.len();
        Ok(PlaceTable {
            places,
            fixed,
            unused: Vec::new(alloc),
            limit: fixed.saturating_add(FIRST_LIMIT),
            is_closed: false,
        })
    }

    /// The index of a variable of the image, by its number.
    pub(crate) fn of_object(number: usize) -> usize {
        number.saturating_add(FIRST_OBJECT)
    }

    /// The place at an index.
    pub(crate) fn get(&self, index: usize) -> Option<&NamedPlace> {
        self.places.get(index)
    }

    /// The place at an index, to be changed.
    pub(crate) fn get_mut(&mut self, index: usize) -> Option<&mut NamedPlace> {
        self.places.get_mut(index)
    }

    /// Enters that SP was moved to an address by a pointer to the place at an index: if that is a
    /// block which begins there, it has bounds from now on.
    pub(crate) fn open_block(&mut self, index: usize, sp: u64) {
        let Some(place) = self.places.get_mut(index) else {
            return;
        };
        if place.text.kind == PlaceKind::Block && place.text.start == sp {
            place.is_marked = false;
            place.is_exact = true;
            place.before = Neighbor::Nothing;
        }
    }

    /// Enters a place of a frame, and returns its index; `None` where there are too many.
    pub(crate) fn enter(
        &mut self,
        alloc: Global,
        shadow: &Shadow,
        place: NamedPlace,
    ) -> Result<Option<usize>, AllocError> {
        let is_full = self.unused.is_empty() && self.places.len() >= self.limit;
        if is_full && !self.is_closed {
            self.give_up(alloc, shadow)?;
        }
        if let Some(index) = self.unused.pop() {
            if let Some(old) = self.places.get_mut(index) {
                *old = place;
                return Ok(Some(index));
            }
        }
        let index = self.places.len();
        if index >= self.limit {
            return Ok(None);
        }
        self.places.push(place)?;
        Ok(Some(index))
    }

    /// Gives up the places of frames that returned, to which nothing points, and allows for more
    /// where these are few.
    fn give_up(&mut self, alloc: Global, shadow: &Shadow) -> Result<(), AllocError> {
        let mut marks = vec![in alloc; false; self.places.len()]?;
        shadow.mark(Pointed::Places, marks.as_mut_slice());
        for (index, place) in self.places.iter().enumerate() {
            let is_pointed = marks.get(index) == Some(&true);
            if index >= self.fixed && !place.is_live && !is_pointed {
                self.unused.push(index)?;
            }
        }
        if self.unused.len() < self.limit / 4 {
            self.is_closed = self.limit >= MOST;
            self.limit = self.limit.saturating_mul(2).min(MOST);
        }
        Ok(())
    }
}

/// The variable of the image that ends at an address.
fn neighbor(objects: &ImageObjects, variables: &FrameVariables, addr: u64) -> Neighbor {
    match objects.ending_at(addr) {
        Some(object) => Neighbor::of(variables.is_single_at(object.start)),
        None => Neighbor::Nothing,
    }
}

/// A place that is there as long as the image.
fn fixed_place(text: PlaceText) -> NamedPlace {
    NamedPlace {
        text,
        limit: text.end,
        is_live: true,
        is_exact: false,
        is_unsure: false,
        is_marked: false,
        bases: NO_BASES,
        before: Neighbor::Nothing,
        scope: None,
        next: None,
    }
}
