//! From JSON text to nodes, in one pass over its tokens.
ghost use Rattle.std.specs.Prelude.{◌<◌, length, IfOk, OnOk};
ghost use Rattle.json.specs.Json.{value, items, members};
ghost use Rattle.openapi_json.specs.Gathered.{entries_in, IsInOrder};
ghost use Rattle.openapi_json.specs.Reading.{IsTreeOfText, ReadsItems, ReadsMembers, ReadsTree};

use crate::members::Members;
use crate::number::whole_of;
use crate::unread::Unread;
use json::{Reader, Scratch, Token};
use openapi_node::Node;
use std::alloc::Global;

/// How deep arrays and objects may nest, as for `serde_json`.
pub(crate) const MAX_DEPTH: usize = 127;

/// Reads the node of bytes that are JSON text whose numbers are whole, with the members of each object in the order of
/// their names, and of one name the last. It returns [`Unread::Other`] for other bytes, and does not find out why.
pub(crate) fn read_bytes(alloc: Global, bytes: &[u8]) -> Result<Node, Unread>
    ensures { IfOk result (IsTreeOfText bytes.now) }
{
    let Ok(text) = simdutf8::compat::from_utf8(bytes) else {
        return Err(Unread::Other);
    };
    let mut scratch = Scratch::new(alloc);
    read_all(alloc, text, &mut scratch)
}

/// Reads the node that a whole text is.
fn read_all(alloc: Global, text: &str, scratch: &mut Scratch) -> Result<Node, Unread>
    ensures { IfOk result (IsTreeOfText text.now) }
{
    let Ok(mut reader) = Reader::new(text, scratch) else {
        return Err(Unread::Memory);
    };
    let node = read_node(alloc, &mut reader, MAX_DEPTH)?;
    if reader.next().is_some() {
        return Err(Unread::Other);
    }
    Ok(node)
}

#[cycle(read)]
fn read_node(alloc: Global, reader: &mut Reader<'_>, depth: usize) -> Result<Node, Unread>
    ensures ok { IfOk result (λ n. ReadsTree (value depth reader.old) n reader.new) }
    ensures shorter { OnOk result (length reader.new < length reader.old) }
{
    let token = reader.next().ok_or(Unread::Other)?;
    match token {
        Token::String(text) => Ok(Node::text(String::from_str(alloc, text)?)),
        Token::Number(text) => match whole_of(text) {
            Some(whole) => Ok(Node::whole(whole)),
            None => Err(Unread::Other),
        },
        Token::Bool(flag) => Ok(Node::flag(flag)),
        Token::Null => Ok(Node::null()),
        Token::EndObject | Token::EndArray | Token::Key(_) | Token::Bad => Err(Unread::Other),
        Token::BeginArray => {
            if depth == 0 {
                return Err(Unread::Other);
            }
            Ok(Node::list(read_items(alloc, reader, depth - 1)?))
        }
        Token::BeginObject => {
            if depth == 0 {
                return Err(Unread::Other);
            }
            let members = read_members(alloc, reader, depth - 1)?;
            Ok(Node::object(members.into_map(alloc)?))
        }
    }
}

#[cycle(read)]
fn read_items(alloc: Global, reader: &mut Reader<'_>, depth: usize) -> Result<Vec<Node>, Unread>
    ensures ok { IfOk result (λ v. ReadsItems (items (value depth) (length reader.old) reader.old) v.items
        reader.new) }
    ensures shorter { OnOk result (length reader.new < length reader.old) }
{
    let mut found = Vec::new(alloc);
    'items: while !reader.take_end_array() {
        let item = read_node(alloc, reader, depth)?;
        found.push(item)?;
    }
    Ok(found)
}

#[cycle(read)]
fn read_members(alloc: Global, reader: &mut Reader<'_>, depth: usize) -> Result<Members, Unread>
    ensures ok { IfOk result (λ m. ReadsMembers (members (value depth) (length reader.old) reader.old) (entries_in m)
        reader.new) }
    ensures order { IfOk result IsInOrder }
    ensures shorter { OnOk result (length reader.new < length reader.old) }
{
    let mut found = Members::new(alloc);
    'members: while let Some(name) = reader.next_key()? {
        let key = String::from_str(alloc, name)?;
        let member = read_node(alloc, reader, depth)?;
        found = found.with(alloc, key, member)?;
    }
    Ok(found)
}
