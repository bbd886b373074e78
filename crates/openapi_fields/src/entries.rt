//! The entries of a map or of a class of names, one after another.
ghost use Rattle.std.specs.Prelude.{◌≡◌, ◌+◌, ◌≤◌, ◌*◌, ℕ, true, None, List, ◌++◌, OnOk, IfErr};
ghost use Rattle.openapi_map.specs.Entries.{get};
ghost use Rattle.openapi_tables.specs.Lists.{every};
ghost use Rattle.openapi_fields.specs.Entries.{chosen, entries_size, EntriesReadAs};
ghost use Rattle.openapi_fields.specs.Entries.{written_entries, all_whole, EntriesNotWritable};
ghost use Rattle.openapi_fields.specs.Returned.{RisesBy};

use crate::from_node::FromNode;
use crate::names::Names;
use crate::put_rows::put_value;
use crate::reading::put_read;
use crate::to_node::ToNode;
use openapi_node::{Cause, Fault, Members, OrderedMap, Result, Steps};
use std::alloc::Global;

/// Reads the members whose names are in a set, in order.
///
/// # Errors
///
/// Returns the fault of a value that `T` can't be read from, with its location in the object. An allocation failure has
/// `Cause::Memory` and the empty location.
pub fn read_entries<N: Names, T: FromNode + Drop>(
    alloc: Global,
    members: &Members,
    steps: &mut Steps,
) -> Result<OrderedMap<T>>
    ensures reads { EntriesReadAs T.form_of result T.kind (chosen N.test members.now) }
    ensures count { RisesBy steps.old steps.new (3 * entries_size (chosen N.test members.now)) }
{
    let mut values = OrderedMap::new(alloc);
    for i in 0..members.len() {
        let (name, node) = members.entry_at(i);
        if !N::contains(name) {
            continue;
        }
        match put_read(alloc, &mut values, name, T::from_node(alloc, node, steps)) {
            Ok(()) => {}
            Err(fault) => return Err(fault),
        }
    }
    Ok(values)
}

/// Writes entries whose names all have to be in a set, in order, behind the existing members.
///
/// # Errors
///
/// Returns `Cause::NameNotWritable` at a name that is not in the set, or at the location of a name or a status code
/// inside a value that would not be read again. An allocation failure has `Cause::Memory` and the empty location.
pub fn put_entries<N: Names, T: ToNode>(
    alloc: Global,
    out: &mut Members,
    values: &OrderedMap<T>,
) -> Result<()>
    requires { (n : List ℕ) → N.test n ≡ true → get n out.old ≡ None }
    ensures ok { OnOk result (out.new ≡ out.old ++ written_entries T.form_of T.kind values.now) }
    ensures names { OnOk result (every (λ e. N.test e.0) values.now ≡ true) }
    ensures whole { OnOk result (all_whole T.form_of T.kind values.now ≡ true) }
    ensures err { IfErr result (λ f. EntriesNotWritable N.test T.form_of T.kind f values.now) }
{
    for i in 0..values.len() {
        let (name, value) = values.entry_at(i);
        if !N::contains(name) {
            return Err(Fault::new(alloc, Cause::NameNotWritable).at_name(alloc, name));
        }
        match put_value(alloc, out, name, value) {
            Ok(()) => {}
            Err(fault) => return Err(fault),
        }
    }
    Ok(())
}
