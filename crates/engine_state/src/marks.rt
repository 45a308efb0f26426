// Marks among the choice points.
ghost use Rattle.std.specs.Prelude.{◌≡◌, ℕ, List, MatchOption};
ghost use Rattle.prog_data.specs.declared.programs.Program.{Program};
ghost use Rattle.clause_index.specs.declared.keys.Key.{Key};
ghost use Rattle.term_heap.specs.Changes.{Change};
ghost use Rattle.engine_state.specs.declared.tasks.Link.{Link};
ghost use Rattle.engine_state.specs.Stacks.{exited_alternative, exit_points, mark_in, mark_at_height};
ghost use Rattle.engine_state.specs.Views.{as_alternative, as_marked, as_points};
ghost use Rattle.engine_state.specs.Newest.{AreRising, AreElsewhere, IsFound};
ghost use Rattle.engine_state.specs.Moments.{HasMoments, MayBecome};
ghost use Rattle.engine_state.specs.Notes.{IsRowWithin, IsAlternativeNoted, ArePointsNoted};

use crate::points::{Alternative, ChoicePoint};
use crate::tasks::Row;

// The place of the choice point with so many choices below it, if there is one.
fn place_at(points: &[ChoicePoint], height: u64) -> Option<usize>
    requires { AreRising points.now }
    ensures { MatchOption result (AreElsewhere height points.now) (IsFound height points.now) }
{
    let mut low = 0usize;
    let mut high = points.len();
    'halves: while low < high {
        let middle = low + (high - low) / 2;
        let below = points[middle].below;
        if below == height {
            return Some(middle);
        }
        if below < height {
            low = middle + 1;
        } else {
            high = middle;
        }
    }
    None
}

/// The conditions of a mark, and whether it was exited.
#[derive(Clone, Copy, Drop)]
pub struct Marked {
    pub conds: Row,
    pub exited: bool,
}

// What an alternative has of a mark.
fn mark_in(alternative: Alternative) -> Marked
    ensures mark { (index : List (List Key)) (notes : List ℕ) → as_marked notes result ≡ mark_in (as_alternative index notes alternative) }
    ensures noted { (held : ℕ) → IsAlternativeNoted held alternative → IsRowWithin held result.conds }
{
    let none = Row { first: 0, count: 0 };
    match alternative {
        Alternative::Resumes(_) => Marked {
            conds: none,
            exited: false,
        },
        Alternative::Retries(_, _, _, _) => Marked {
            conds: none,
            exited: false,
        },
        Alternative::Marks(_, conds, exited) => Marked { conds, exited },
    }
}

/// The conditions of the mark with so many choices below it, and whether it was exited. Where there is no such mark there are none.
pub(crate) fn mark_at(points: &[ChoicePoint], height: u64) -> Marked
    requires { AreRising points.now }
    ensures mark { (index : List (List Key)) (notes : List ℕ) → as_marked notes result ≡ mark_at_height height (as_points index notes points.now) }
    ensures noted { (held : ℕ) → ArePointsNoted held points.now → IsRowWithin held result.conds }
{
    match place_at(points, height) {
        None => Marked {
            conds: Row { first: 0, count: 0 },
            exited: false,
        },
        Some(place) => {
            let point = points[place];
            mark_in(point.alternative)
        }
    }
}

// An alternative, exited where it is a mark.
fn exited(alternative: Alternative) -> Alternative
    ensures exited { (index : List (List Key)) (notes : List ℕ) → as_alternative index notes result ≡ exited_alternative (as_alternative index notes alternative) }
    ensures may { (program : Program) → MayBecome program alternative result }
{
    match alternative {
        Alternative::Resumes(rest) => Alternative::Resumes(rest),
        Alternative::Retries(key, next, end, call) => Alternative::Retries(key, next, end, call),
        Alternative::Marks(pred, conds, _) => Alternative::Marks(pred, conds, true),
    }
}

/// Exits the mark with so many choices below it, if there is one.
pub(crate) fn exit_mark(points: &mut Vec<ChoicePoint>, height: u64)
    requires { AreRising points.old.items }
    ensures exited { (index : List (List Key)) (notes : List ℕ) → as_points index notes points.new.items ≡ exit_points height (as_points index notes points.old.items) }
    ensures moments { (program : Program) (query : ℕ) (changes : List Change) (notes : List ℕ) (links : List Link) → HasMoments program query changes notes links points.old.items → HasMoments program query changes notes links points.new.items }
{
    match place_at(points.as_slice(), height) {
        None => {}
        Some(place) => {
            let point = points[place];
            points[place] = point.with(exited(point.alternative));
        }
    }
}
