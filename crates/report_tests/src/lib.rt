//! Instrumented programs, and the texts of runs, reports and expansions: what no clause says.
#![tactic(auto)]

#[cfg(test)]
mod expansions;
#[cfg(test)]
mod instrumented;
#[cfg(test)]
mod programs;
#[cfg(test)]
mod reports;
#[cfg(test)]
mod runs;
