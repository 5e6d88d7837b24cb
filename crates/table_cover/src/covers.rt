//! Covers that were met.
ghost use Rattle.std.specs.Prelude.{◌≡◌, IfSome};

use crate::cover::Cover;
use std::alloc::Global;

/// How many covers are remembered.
const PLACES: usize = 4096;

/// Covers that were met, of which later ones that are the same take the rows. Each has one place, by its rows, and the last
/// of a place is remembered there.
#[derive(Drop)]
pub struct Covers {
    alloc: Global,
    places: Vec<Cover>,
}

impl Covers {
    /// No covers.
    pub fn new(alloc: Global) -> Covers {
        Covers {
            alloc,
            places: Vec::new(alloc),
        }
    }

    /// The cover that is remembered at this place, if it is the same.
    fn met(&self, place: usize, cover: &Cover) -> Option<Cover>
        ensures { IfSome result (λ met. met ≡ cover.now) }
    {
        match self.places.get(place) {
            Some(met) if met.same(cover) => met.copy(self.alloc).ok(),
            _ => None,
        }
    }

    /// Remembers the cover at this place, if there is memory for it.
    fn remember(&mut self, place: usize, cover: &Cover) {
        for _place in self.places.len()..PLACES {
            if self.places.push(Cover::new(self.alloc, 0)).is_err() {
                return;
            }
        }
        if let Some(met) = self.places.get_mut(place) {
            if let Ok(cover) = cover.copy(self.alloc) {
                *met = cover;
            }
        }
    }

    /// The same cover. It shares the rows of one that was met before, where one that is the same is remembered.
    pub fn share(&mut self, cover: Cover) -> Cover
        ensures { result ≡ cover }
    {
        let place = cover.mix() as usize % PLACES;
        match self.met(place, &cover) {
            Some(met) => met,
            None => {
                self.remember(place, &cover);
                cover
            }
        }
    }
}
