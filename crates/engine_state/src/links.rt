// Links with what is to be done, numbered from 1.
ghost use Rattle.std.specs.Prelude.{◌≡◌, ◌≤◌, ◌∷◌, ◌++◌, [], ℕ, List, length, reverse, take, max, IfOk, OnOk, OnErr, IfSome, MatchOption};
ghost use Rattle.prog_data.specs.declared.programs.Program.{Program};
ghost use Rattle.term_heap.specs.Changes.{Change, size_of};
ghost use Rattle.engine_state.specs.Engines.{chain};
ghost use Rattle.engine_state.specs.Stacks.{IsPushed};
ghost use Rattle.engine_state.specs.Views.{as_task, as_links, LeadDown};
ghost use Rattle.engine_state.specs.Notes.{IsTaskNoted};
ghost use Rattle.engine_state.specs.Moments.{links_held, notes_held, notes_used, IsTaskPlaced, IsLinkPlaced, ArePlaced, HasMoments};
ghost use Rattle.engine_state.specs.Kept.{IsLetGo};

use crate::points::{ChoicePoint, held_links, held_notes};
use crate::tasks::Link;
use term_core::NoMemory;

/// Adds a link, and tells its number. Links above those that it leads on to, and above those that are held, are let go.
///
/// # Errors
///
/// Only for want of memory. Those links are let go then too.
pub(crate) fn push_link<'p>(
    links: &mut Vec<Link<'p>>,
    held: u64,
    link: Link<'p>,
) -> Result<u64, NoMemory>
    requires next { link.next ≤ length links.old.items }
    requires held { held ≤ length links.old.items }
    requires down { LeadDown (reverse links.old.items) }
    ensures pushed { (notes : List ℕ) → IfOk result (λ k. IsPushed held link.entry.next (as_links notes links.old.items) (as_task notes link.entry.task) k (as_links notes links.new.items)) }
    ensures down { LeadDown (reverse links.new.items) }
    ensures moments { (program : Program) (query : ℕ) (changes : List Change) (notes : List ℕ) (points : List ChoicePoint) → HasMoments program query changes notes links.old.items points → links_held (reverse points) ≤ held →
        IsTaskPlaced program (size_of changes) link.entry.task → IsTaskNoted (length notes) link.entry.task → link.entry.notes ≡ length notes → OnOk result (HasMoments program query changes notes links.new.items points) }
    ensures err { OnErr result (links.new.items ≡ take (max held link.entry.next) links.old.items) }
{
    links.truncate(held.max(link.next) as usize);
    links.push(link)?;
    Ok(links.len() as u64)
}

/// The link with a number, if there is one.
pub(crate) fn link_at<'p>(links: &[Link<'p>], number: u64) -> Option<Link<'p>>
    requires { LeadDown (reverse links.now) }
    ensures tasks { (notes : List ℕ) → MatchOption result (chain (as_links notes links.now) number ≡ []) (λ l. chain (as_links notes links.now) number ≡ as_task notes l.task ∷ chain (as_links notes links.now) l.next) }
    ensures placed { (program : Program) (cells notes : ℕ) → ArePlaced program cells notes (reverse links.now) → IfSome result (IsLinkPlaced program cells notes (length links.now)) }
{
    if number == 0 {
        return None;
    }
    if number > links.len() as u64 {
        return None;
    }
    Some(links[number as usize - 1])
}

// How many notes links and choice points use.
fn used_notes(links: &[Link], points: &[ChoicePoint]) -> u64
    ensures { result ≡ max (notes_held (reverse points.now)) (notes_used (reverse links.now)) }
{
    let held = held_notes(points);
    if links.is_empty() {
        return held;
    }
    let link = links[links.len() - 1];
    held.max(link.notes)
}

/// Lets go of links above those of the tasks from one on and those that choice points hold, and then of notes that none of these use.
pub(crate) fn let_go<'p>(
    links: &mut Vec<Link<'p>>,
    notes: &mut Vec<u64>,
    points: &[ChoicePoint],
    rest: u64,
)
    ensures { (program : Program) (query : ℕ) (changes : List Change) → HasMoments program query changes notes.old.items links.old.items points.now → rest ≤ length links.old.items →
        IsLetGo program query changes rest notes.old.items links.old.items points.now notes.new.items links.new.items }
{
    links.truncate(held_links(points).max(rest) as usize);
    notes.truncate(used_notes(links.as_slice(), points) as usize);
}
