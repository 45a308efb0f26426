//! Relations of grammar names, values of terms, transfer and statuses: what no clause says.
#![tactic(auto)]

#[cfg(test)]
mod builtins;
#[cfg(test)]
mod conditions;
#[cfg(test)]
mod goal_ranges;
#[cfg(test)]
mod grammars;
#[cfg(test)]
mod long_lists;
#[cfg(test)]
mod name_relations;
#[cfg(test)]
mod program_ranges;
#[cfg(test)]
mod programs;
#[cfg(test)]
mod tables;
#[cfg(test)]
mod values;
#[cfg(test)]
mod words;
