#![tactic(auto)]
//! Nodes from JSON text (RFC 8259), JSON text from nodes, and the positions of values in a text.
mod batch;
mod by_value;
mod copy;
mod fault;
mod first_tokens;
mod in_order;
mod members;
mod number;
mod place;
mod points;
mod position;
mod pretty;
mod read;
mod scan;
mod unread;
mod write;
mod zeros;

pub use batch::positions_of;
pub use by_value::node_from_json;
pub use copy::copied_place;
pub use fault::JsonFault;
pub use in_order::node_from_json_in_order;
pub use position::{Point, Position, position_of};
pub use pretty::{pretty_from_node, pretty_from_node_in_order};
pub use write::{json_from_node, json_from_node_in_order};
pub use zeros::{ReplacedNumber, WithZeros, node_with_zeros_in_order};
