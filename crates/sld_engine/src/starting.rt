// The start of a run.
ghost use Rattle.std.specs.Prelude.{◌≡◌, ◌≤◌, ◌^◌, Some, IfOk, MatchOption};
ghost use Rattle.term_core.specs.Terms.{above};
ghost use Rattle.prog_data.specs.Goals.{called_by};
ghost use Rattle.prog_data.specs.Programs.{IsProgram};
ghost use Rattle.sld_engine.specs.Starts.{arguments_row, HasStarted};

use clause_index::Index;
use engine_moves::relied_law;
use engine_state::{Engine, Row, Stage};
use prog_data::{Place, Program};
use std::alloc::Global;
use term_core::{NIL, NoMemory, Term};
use term_heap::{Cell, Heap};

// A number above all variables of the term, where it fits.
fn above(term: &Term) -> Option<u64>
    ensures { MatchOption result (2 ^ 64 ≤ above term.now) (λ n. n ≡ above term.now) }
{
    match term {
        Term::Var(v) => v.checked_add(1),
        Term::Int(_) | Term::Atom(_) => Some(0),
        Term::Node(_, parts) => {
            let mut highest = 0;
            for part in parts.as_slice() {
                let here = above(part)?;
                if here > highest {
                    highest = here;
                }
            }
            Some(highest)
        }
    }
}

// The places of the arguments of a compound's cell.
fn arguments_row(cell: Cell) -> Row
    ensures { result ≡ arguments_row cell }
{
    match cell {
        Cell::Node(_, count, first) => Row { first, count },
        Cell::Free | Cell::Ref(_) | Cell::Int(_) | Cell::Atom(_) => Row { first: 0, count: 0 },
    }
}

/// An engine, and the stage in which it is.
#[derive(Drop)]
pub(crate) struct Start<'p> {
    pub engine: Engine<'p>,
    pub stage: Stage<'p>,
}

/// The engine of a run of a query before its first event: its clauses get an index, the query is put into cells, and its call of the predicate is due.
///
/// # Errors
///
/// Only for want of memory.
pub(crate) fn start_engine<'p>(
    alloc: Global,
    program: &'p Program,
    pred: u64,
    query: &Term,
) -> Result<Start<'p>, NoMemory>
    requires program { IsProgram program.now }
    requires called { called_by program.now query.now ≡ Some pred }
    ensures { IfOk result (λ s. HasStarted program.now pred query.now s.engine s.stage) }
{
    relied_law();
    let variables = match above(query) {
        Some(variables) => variables,
        None => return Err(NoMemory),
    };
    let mut heap = Heap::new(alloc);
    heap.fresh(variables)?;
    let place = heap.load(alloc, query, 0)?;
    let _size = heap.len();
    let root = heap.root(place);
    let args = arguments_row(heap.cell(root));
    let index = Index::make(alloc, program)?;
    let engine = Engine {
        program,
        index,
        heap,
        links: Vec::new(alloc),
        notes: Vec::new(alloc),
        points: Vec::new(alloc),
        calls: 0,
        query: place,
    };
    let nowhere = Place { file: NIL, line: 0 };
    let stage = Stage::Calling(pred, args, 0, nowhere, 0);
    Ok(Start { engine, stage })
}
