//! Tests of what users name at the root of `openapiv3`, where they need code.
//!
//! Values are built, printed, compared, iterated over or matched on. The examples of the README and of doc comments are
//! here, too. What JSON text is cleaned to is tested by the files of `openapi_cases`.
#![tactic(auto)]

#[cfg(test)]
mod built;
#[cfg(test)]
mod compared;
#[cfg(test)]
mod doc_examples;
#[cfg(test)]
mod extended;
#[cfg(test)]
mod iterators;
#[cfg(test)]
mod listed;
#[cfg(test)]
mod loops;
#[cfg(test)]
mod made;
#[cfg(test)]
mod parameters;
#[cfg(test)]
mod printed;
#[cfg(test)]
mod read;
#[cfg(test)]
mod readme;
#[cfg(test)]
mod readme_tests;
#[cfg(test)]
mod refused;
#[cfg(test)]
mod resolved;
#[cfg(test)]
mod rewritten;
#[cfg(test)]
mod values;
#[cfg(test)]
mod walked;
