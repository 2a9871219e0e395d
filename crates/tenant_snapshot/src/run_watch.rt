//! The watch of a run from a snapshot.

use crate::edge_map::{CountedEdges, EdgeMap};
use crate::exact_watch::{ExactFinding, ExactWatch};
use heap_bounds::Bounds;

/// The watch of a run: one counts its branches alone, one judges its accesses too.
#[derive(Drop)]
pub enum RunWatch<'a> {
    /// Its branches are counted.
    Edges(CountedEdges<'a>),
    /// They are counted, and its accesses are judged.
    Exact(ExactWatch<'a>),
}

impl<'a> RunWatch<'a> {
    /// Counts branches where there is a map, and judges accesses where there are chunks.
    pub fn new(map: Option<EdgeMap<'a>>, chunks: Option<Bounds>) -> RunWatch<'a> {
        RunWatch::shown_after(0, map, chunks)
    }

    /// Watches as `new` does, but judges the accesses of the first so many steps only as far as one
    /// may be wrong.
    pub fn shown_after(
        steps: u64,
        map: Option<EdgeMap<'a>>,
        chunks: Option<Bounds>,
    ) -> RunWatch<'a> {
        match chunks {
            Some(chunks) => RunWatch::Exact(ExactWatch::shown_after(steps, chunks, map)),
            None => RunWatch::Edges(CountedEdges { map }),
        }
    }

    /// The first access that goes beyond its chunk, if accesses are judged and there was one.
    pub fn finding(&self) -> Option<ExactFinding> {
        match self {
            RunWatch::Edges(_) => None,
            RunWatch::Exact(watch) => watch.finding(),
        }
    }

    /// After how many steps accesses begin of which one may be wrong, if there are any.
    pub fn suspect(&self) -> Option<u64> {
        match self {
            RunWatch::Edges(_) => None,
            RunWatch::Exact(watch) => watch.suspect(),
        }
    }

    /// Whether nothing was missed of what is watched.
    pub fn is_complete(&self) -> bool {
        match self {
            RunWatch::Edges(_) => true,
            RunWatch::Exact(watch) => watch.is_complete(),
        }
    }

    /// The chunks that the tenant has now; none where they are not followed, or one could not be
    /// entered.
    pub fn into_chunks(self) -> Option<Bounds> {
        match self {
            RunWatch::Edges(_) => None,
            RunWatch::Exact(watch) => watch.into_chunks(),
        }
    }
}
