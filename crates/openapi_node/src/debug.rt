//! What `{:?}` prints of a node.
use crate::node::{Node, Shape};
use std::fmt;
use std::fmt::Write;

// The shape and the content, in the words of `serde_json::Value`. The members of an object keep their order.
impl fmt::Debug for Node {
    fn fmt<W: fmt::Write>(&self, f: &mut fmt::Formatter<W>) -> fmt::Result {
        match &self.shape {
            Shape::Null => f.write_str("Null"),
            Shape::Flag(value) => write!(f, "Bool({value})"),
            Shape::Whole(value) => write!(f, "Number({value})"),
            Shape::Text(value) => write!(f, "String({value:?})"),
            Shape::List(items) => {
                f.write_str("Array ")?;
                let mut list = f.debug_list();
                for item in items {
                    list.entry(item);
                }
                list.finish()
            }
            Shape::Object(members) => {
                f.write_str("Object ")?;
                let mut map = f.debug_map();
                for i in 0..members.len() {
                    let (name, member) = members.entry_at(i);
                    map.entry(&name, member);
                }
                map.finish()
            }
        }
    }
}
