//! Terms, devices, tokens and sentences: what no clause says.
#![tactic(auto)]

#[cfg(test)]
mod devices;
#[cfg(test)]
mod operands;
#[cfg(test)]
mod printing;
#[cfg(test)]
mod scanning;
#[cfg(test)]
mod sentences;
#[cfg(test)]
mod terms;
