#![tactic(auto)]
//! Reading and writing by field tables.
//!
//! It has the traits of types that are read from nodes and written as nodes. It also reads and writes the fields of an
//! object by their modes, the same for every type.
mod boxes;
mod classes;
mod either;
mod entries;
mod formats;
mod from_node;
mod implied;
mod joined;
mod lists;
mod macros;
mod maps;
mod memory;
mod names;
mod nulls;
mod numbers;
mod object;
mod place;
mod presence;
mod put_rows;
mod reading;
mod references;
mod results;
mod rows;
mod scalars;
mod settle;
mod status_codes;
mod tags;
mod to_node;
mod words;
mod writing;

pub use classes::{class_entries, extensions, put_class, put_extensions};
pub use either::{Either, decided, decider, put_first, put_second};
pub use entries::{put_entries, read_entries};
pub use from_node::FromNode;
pub use implied::{Implied, or_implied, put_implied};
pub use joined::join;
pub use lists::{items, write_items};
pub use maps::write_map;
pub use memory::{boxed, push};
pub use names::{AllNames, ClassNames, Extensions, Names};
pub use nulls::Nullable;
pub use object::{HasSlots, Object, Record};
pub use place::at_name;
pub use presence::{as_member, present_view};
pub use put_rows::{put, put_nullable, put_optional, put_required, put_value};
pub use reading::{members_at, members_shown, put_read};
pub use references::{Referable, read_reference, write_reference};
pub use results::{as_item, in_inner_box, in_outer_box};
pub use rows::{nullable, optional, required};
pub use settle::Settle;
pub use tags::{put_tag, tag};
pub use to_node::ToNode;
pub use words::{read_word, write_word};
pub use writing::{
    append, as_some, only_row, put_decided, put_row, put_written, record_rows, whole_object,
};
