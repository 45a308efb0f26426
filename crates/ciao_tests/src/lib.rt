//! The tool over files and a sink in memory: what no clause says.
#![tactic(auto)]

#[cfg(test)]
mod assertions;
#[cfg(test)]
mod builtins;
#[cfg(test)]
mod clauses;
#[cfg(test)]
mod computations;
#[cfg(test)]
mod control;
#[cfg(test)]
mod devices;
#[cfg(test)]
mod entries;
#[cfg(test)]
mod imports;
#[cfg(test)]
mod limits;
#[cfg(test)]
mod packages;
#[cfg(test)]
mod programs;
#[cfg(test)]
mod properties;
#[cfg(test)]
mod reading;
#[cfg(test)]
mod refusals;
#[cfg(test)]
mod runs;
#[cfg(test)]
mod sets;
#[cfg(test)]
mod types;
#[cfg(test)]
mod undefined;
