//! Regular types of modules as texts: what no clause says.
#![tactic(auto)]

#[cfg(test)]
mod declarations;
#[cfg(test)]
mod grammars;
#[cfg(test)]
mod lists;
#[cfg(test)]
mod modules;
#[cfg(test)]
mod sizes;
#[cfg(test)]
mod visible;
