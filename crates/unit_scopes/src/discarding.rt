// What has clauses behind expansions, let go. Such a clause is as deep as it has calls: so it goes without recursion.
use crate::sources::Source;
use ciao_reader::Sentence;
use regtype_grammar::{RegType, TypeModule};
use sqlite_items::Items;
use term_core::discard;

/// Lets sentences go, however deep they are.
pub(crate) fn discard_sentences(sentences: &mut Items<Sentence>) {
    while let Some(sentence) = sentences.pop() {
        let Sentence { term, .. } = sentence;
        discard(term);
    }
}

/// Lets types go, however deep their clauses are.
pub(crate) fn discard_types(types: &mut Items<RegType>) {
    while let Some(one) = types.pop() {
        let mut one = one;
        discard_sentences(&mut one.clauses);
    }
}

/// Lets the types of units go, however deep their clauses are.
pub fn discard_modules(modules: Items<TypeModule>) {
    let mut left = modules;
    while let Some(one) = left.pop() {
        let mut one = one;
        discard_types(&mut one.types);
    }
}

/// Lets go what is held of units, however deep their clauses are.
pub fn discard_sources(sources: Items<Source>) {
    let mut left = sources;
    while let Some(source) = left.pop() {
        let mut source = source;
        discard_sentences(&mut source.parts.clauses);
    }
}
