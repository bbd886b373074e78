//! The objects of OpenAPI 3.0, defined once: the table of each object, and one interpreter of tables. It defines which
//! nodes conform to an object, what is read from a node, what a value is written as, and what is wrong with a node that
//! does not conform.
//!
//! All of this is in `specs/`, as definitions that the contracts of the crates above cite and that never run.
//! `DocumentTables`, `PathTables`, `ParameterTables`, `ResponseTables`, `SecurityTables` and `SchemaTables` hold the
//! tables. `Kind` defines what a row may require, and `Conforms`, `Read`, `Print`, `Faults` and `Unwritable` interpret
//! them. The only functions are those of [`laws`], each of which has a law of these definitions as its contract.
#![tactic(auto)]

pub mod laws;
