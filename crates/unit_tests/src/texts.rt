// Terms by their texts.
use ciao_reader::{ReadFault, Sentence, read_goal};
use std::alloc::Global;
use term_core::{Names, NoMemory, OpTable, Term};

// The term that a text is with the standard operators; none where it is not read.
pub(crate) fn term_of(
    alloc: Global,
    names: &mut Names,
    text: &str,
) -> Result<Option<Term>, NoMemory> {
    let ops = OpTable::standard(alloc)?;
    match read_goal(alloc, names, &ops, text) {
        Ok(Sentence { term, .. }) => Ok(Some(term)),
        Err(ReadFault::NoMemory) => Err(NoMemory),
        Err(_) => Ok(None),
    }
}
