//! Assertions and their conditions, sets of files, expansions, arithmetic and properties: what no clause says.
#![tactic(auto)]

#[cfg(test)]
mod arithmetic;
#[cfg(test)]
mod assertions;
#[cfg(test)]
mod file_sets;
#[cfg(test)]
mod functions;
#[cfg(test)]
mod generated;
#[cfg(test)]
mod grammar_rules;
#[cfg(test)]
mod normal;
#[cfg(test)]
mod properties;
#[cfg(test)]
mod texts;
