//! What tests and cases share: nodes from JSON text, with their members in order. It also has tests of maps, nodes,
//! values and masks of schemas: printed texts, worked examples, and each call once without allocation failures.
#![tactic(auto)]

#[cfg(test)]
mod looks;
#[cfg(test)]
mod maps;
#[cfg(test)]
mod masks;
#[cfg(test)]
mod nodes;
#[cfg(test)]
mod recursion;
#[cfg(test)]
mod texts;
pub mod trees;
#[cfg(test)]
mod values;
