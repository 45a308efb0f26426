// Choice points, of which the last is the newest.
ghost use Rattle.std.specs.Prelude.{◌≡◌, ◌≤◌, ◌<◌, ◌+◌, ◌∷◌, ◌++◌, [], ℕ, List, length, reverse, IfOk, IfSome, MatchOption};
ghost use Rattle.prog_data.specs.declared.programs.Program.{Program};
ghost use Rattle.clause_index.specs.declared.keys.Key.{Key};
ghost use Rattle.term_heap.specs.Changes.{Change};
ghost use Rattle.engine_state.specs.declared.tasks.Link.{Link};
ghost use Rattle.engine_state.specs.Stacks.{width, height_of, shortened, cut_points, IsTaken};
ghost use Rattle.engine_state.specs.Views.{as_alternative, as_point, as_points};
ghost use Rattle.engine_state.specs.Newest.{IsNewest};
ghost use Rattle.engine_state.specs.Moments.{links_held, notes_held, HasMoments, MayBecome, HasItsMoment};

use crate::tasks::{Exit, Row};
use clause_index::Key;
use term_core::NoMemory;

/// A call with clauses left to be tried: its exit, the height before them, and the link behind it.
#[derive(Clone, Copy, Drop)]
pub struct Pending {
    pub exit: Exit,
    pub height: u64,
    pub rest: u64,
}

/// What failure goes back to.
#[derive(Clone, Copy, Drop)]
pub enum Alternative {
    /// A link.
    Resumes(u64),
    /// The clauses of a call that are selected by a key, from a place on, before another.
    Retries(Key, u64, u64, Pending),
    /// A call's predicate, its comp conditions, and whether it was exited.
    Marks(u64, Row, bool),
}

/// An alternative, with the length of the trail and the numbers of links and notes when it was made, and how many choices were below it.
#[derive(Clone, Copy, Drop)]
pub struct ChoicePoint {
    pub trail: u64,
    pub links: u64,
    pub notes: u64,
    pub below: u64,
    pub alternative: Alternative,
}

impl ChoicePoint {
    /// The same with another alternative.
    pub(crate) fn with(self, alternative: Alternative) -> ChoicePoint
        ensures { result ≡ record self { alternative = alternative } }
    {
        ChoicePoint {
            trail: self.trail,
            links: self.links,
            notes: self.notes,
            below: self.below,
            alternative,
        }
    }
}

/// The newest choice point, if there is one.
pub(crate) fn newest(points: &[ChoicePoint]) -> Option<ChoicePoint>
    ensures { MatchOption result (points.now ≡ []) (IsNewest points.now) }
{
    if points.is_empty() {
        return None;
    }
    Some(points[points.len() - 1])
}

/// How many links the choice points hold.
pub(crate) fn held_links(points: &[ChoicePoint]) -> u64
    ensures { result ≡ links_held (reverse points.now) }
{
    match newest(points) {
        None => 0,
        Some(point) => point.links,
    }
}

/// How many notes the choice points hold.
pub(crate) fn held_notes(points: &[ChoicePoint]) -> u64
    ensures { result ≡ notes_held (reverse points.now) }
{
    match newest(points) {
        None => 0,
        Some(point) => point.notes,
    }
}

// How many choices an alternative stands for.
fn width(alternative: &Alternative) -> u64
    ensures { (index : List (List Key)) (notes : List ℕ) → result ≡ width (as_alternative index notes alternative.now) }
{
    match alternative {
        Alternative::Resumes(_) => 1,
        Alternative::Retries(_, next, end, _) => (*end).saturating_sub(*next),
        Alternative::Marks(_, _, _) => 1,
    }
}

/// How many choices there are.
///
/// # Errors
///
/// Only where no number of 64 bits tells it.
pub(crate) fn height(points: &[ChoicePoint]) -> Result<u64, NoMemory>
    ensures { (index : List (List Key)) (notes : List ℕ) → IfOk result (λ h. h ≡ height_of (as_points index notes points.now)) }
{
    match newest(points) {
        None => Ok(0),
        Some(point) => match point.below.checked_add(width(&point.alternative)) {
            None => Err(NoMemory),
            Some(height) => Ok(height),
        },
    }
}

// An alternative with only so many of its clauses left, the last ones.
fn shortened(alternative: Alternative, left: u64) -> Alternative
    ensures shortened { (index : List (List Key)) (notes : List ℕ) → as_alternative index notes result ≡ shortened left (as_alternative index notes alternative) }
    ensures may { (program : Program) → 0 < left → MayBecome program alternative result }
{
    match alternative {
        Alternative::Resumes(rest) => Alternative::Resumes(rest),
        Alternative::Retries(key, next, end, call) => {
            Alternative::Retries(key, next.max(end.saturating_sub(left)), end, call)
        }
        Alternative::Marks(pred, conds, exited) => Alternative::Marks(pred, conds, exited),
    }
}

/// Takes the newest choices off, also those within one choice point, until that many are left.
pub(crate) fn cut_points(points: &mut Vec<ChoicePoint>, height: u64)
    ensures cut { (index : List (List Key)) (notes : List ℕ) → as_points index notes points.new.items ≡ cut_points height (as_points index notes points.old.items) }
    ensures moments { (program : Program) (query : ℕ) (changes : List Change) (notes : List ℕ) (links : List Link) → HasMoments program query changes notes links points.old.items → HasMoments program query changes notes links points.new.items }
{
    while let Some(point) = newest(points.as_slice()) {
        if point.below < height {
            let last = points.len() - 1;
            points[last] = point.with(shortened(point.alternative, height - point.below));
            return;
        }
        points.pop();
    }
}

/// Takes the newest choice off, as a choice point of its own.
pub(crate) fn take_newest(points: &mut Vec<ChoicePoint>) -> Option<ChoicePoint>
    ensures taken { (index : List (List Key)) (notes : List ℕ) → MatchOption result (as_points index notes points.old.items ≡ []) (λ p. IsTaken (as_points index notes points.old.items) (as_point index notes p) (as_points index notes points.new.items)) }
    ensures back { (program : Program) (query : ℕ) (changes : List Change) (notes : List ℕ) (links : List Link) → HasMoments program query changes notes links points.old.items → IfSome result (λ p. HasItsMoment program query changes notes links p points.new.items) }
{
    match newest(points.as_slice()) {
        None => None,
        Some(point) => match point.alternative {
            Alternative::Resumes(_) => {
                points.pop();
                Some(point)
            }
            Alternative::Marks(_, _, _) => {
                points.pop();
                Some(point)
            }
            Alternative::Retries(key, next, end, call) => {
                if end.saturating_sub(next) <= 1 {
                    points.pop();
                    return Some(point);
                }
                let last = points.len() - 1;
                points[last] = point.with(Alternative::Retries(key, next + 1, end, call));
                Some(point.with(Alternative::Retries(key, next, next + 1, call)))
            }
        },
    }
}
