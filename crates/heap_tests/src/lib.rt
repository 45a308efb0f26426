//! Cells of a heap, unification and properties on them: what no clause says.
#![tactic(auto)]

#[cfg(test)]
mod cells;
#[cfg(test)]
mod heads;
#[cfg(test)]
mod properties;
#[cfg(test)]
mod unification;
