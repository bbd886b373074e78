//! Normalized and stable values, by way of the typed object. Each step drops what the step before it made, so that at
//! most two forms of an input are in memory: its JSON value, the object, or the normalized value. For a stable value
//! there are three: the input, the normalized value, and an object.
ghost use Rattle.std.specs.Prelude.{◌≡◌, ◌≢◌, ◌⊎◌, IfOk, IfErr, true, false};
ghost use Rattle.openapi_text.specs.Texts.{IsFaultOf, kind_of, rewritten};
ghost use Rattle.openapi_fields.specs.Settled.{settled};
ghost use Rattle.openapi_tables.specs.Conforms.{conforms};
ghost use Rattle.openapi_tables.specs.Print.{clean, print};
ghost use Rattle.openapi_tables.specs.Read.{form};
ghost use Rattle.openapi_tables.specs.Tables.{final_tables};

use crate::fault::RunFault;
use openapi_documents::OpenAPI;
use openapi_fields::{FromNode, Settle, ToNode};
use openapi_metadata::Tag;
use openapi_node::{Cause, Fault, Node, Steps};
use openapi_schema::Schema;
use std::alloc::Global;
use std::str::FromStr;

/// The object that a JSON value holds, and what is made of it.
#[derive(Clone, Copy, Debug, PartialEq, Eq)]
pub enum Rewriting {
    /// A Tag Object (OpenAPI 3.0.3, section 4.7.22) is cleaned.
    Tag,
    /// A Schema Object (OpenAPI 3.0.3, section 4.7.24) is cleaned.
    Schema,
    /// An OpenAPI Object (OpenAPI 3.0.3, section 4.7.1), a whole document, is cleaned.
    Document,
    /// A whole document is settled: cleaned twice, after which cleaning changes nothing.
    Settle,
}

impl FromStr for Rewriting {
    type Err = ();

    ghost use Rattle.openapi_text.specs.Texts.{IsRewritingOf};

    ghost from_str_gives = { IsRewritingOf };

    /// Returns the rewriting that a word names: `tag`, `schema`, `document` or `settle`.
    ///
    /// # Errors
    ///
    /// Returns `()` for any other word.
    fn from_str(word: &str) -> Result<Rewriting, ()> {
        match word {
            "tag" => Ok(Rewriting::Tag),
            "schema" => Ok(Rewriting::Schema),
            "document" => Ok(Rewriting::Document),
            "settle" => Ok(Rewriting::Settle),
            _ => Err(()),
        }
    }
}

/// Returns the value that a rewriting makes of the object in a value.
///
/// # Errors
///
/// Returns [`RunFault::Refused`] with a location and a rule that is broken there if the value does not conform, or
/// [`RunFault::Memory`] if an allocation fails.
pub fn rewrite(
    alloc: Global,
    rewriting: Rewriting,
    node: Node,
    steps: &mut Steps,
) -> Result<Node, RunFault>
    ensures ok { IfOk result (λ n. (conforms final_tables (kind_of rewriting) node ≡ true)
        × (n ≡ rewritten rewriting node)) }
    ensures err { IfErr result (IsFaultOf (kind_of rewriting) node) }
{
    match rewriting {
        Rewriting::Tag => cleaned_tree::<Tag>(alloc, node, steps),
        Rewriting::Schema => cleaned_tree::<Schema>(alloc, node, steps),
        Rewriting::Document => cleaned_tree::<OpenAPI>(alloc, node, steps),
        Rewriting::Settle => settled_tree::<OpenAPI>(alloc, node, steps),
    }
}

/// Returns the normalized value of the object that a value holds: read and written once.
///
/// # Errors
///
/// Returns [`RunFault::Refused`] with a location and a rule that is broken there if the value does not conform, or
/// [`RunFault::Memory`] if an allocation fails.
pub fn cleaned_tree<T: ToNode + Drop>(
    alloc: Global,
    node: Node,
    steps: &mut Steps,
) -> Result<Node, RunFault>
    ensures ok { IfOk result (λ n. (conforms final_tables T.FromNode.kind node ≡ true)
        × (n ≡ clean final_tables T.FromNode.kind node)) }
    ensures err { IfErr result (IsFaultOf T.FromNode.kind node) }
{
    let object = read_object::<T>(alloc, node, steps)?;
    tree_of_object(alloc, &object)
}

/// Returns the value of an object in stable form: normalized twice, after which normalizing changes nothing.
///
/// # Errors
///
/// Returns [`RunFault::Refused`] with a location and a rule that is broken there if the value does not conform, or
/// [`RunFault::Memory`] if an allocation fails.
#[tactic(auto, using(crate::proofs::Refusals::not_conforming))]
pub fn settled_tree<T: ToNode + Drop>(
    alloc: Global,
    node: Node,
    steps: &mut Steps,
) -> Result<Node, RunFault>
    ensures ok { IfOk result (λ n. (conforms final_tables T.FromNode.kind node ≡ true)
        × (n ≡ settled T.FromNode.kind node)) }
    ensures err { IfErr result (IsFaultOf T.FromNode.kind node) }
{
    match T::settle(alloc, &node, steps) {
        Ok(settled) => Ok(settled),
        Err(fault) => Err(refusal(fault)),
    }
}

/// Returns the object in a value.
///
/// # Errors
///
/// Returns [`RunFault::Refused`] with a location and a rule that is broken there if the value does not conform, or
/// [`RunFault::Memory`] if an allocation fails.
#[tactic(auto, using(crate::proofs::Refusals::not_conforming))]
pub fn read_object<T: FromNode + Drop>(
    alloc: Global,
    node: Node,
    steps: &mut Steps,
) -> Result<T, RunFault>
    ensures ok { IfOk result (λ x. (conforms final_tables T.kind node ≡ true)
        × (form final_tables T.kind node ≡ T.form_of x)) }
    ensures err { IfErr result (IsFaultOf T.kind node) }
{
    match T::from_node(alloc, &node, steps) {
        Ok(object) => Ok(object),
        Err(fault) => Err(refusal(fault)),
    }
}

/// Returns the error of a fault. An allocation failure has a variant of its own.
fn refusal(fault: Fault) -> RunFault
    ensures memory { fault.cause ≡ Cause.Memory → result ≡ RunFault.Memory }
    ensures other { fault.cause ≢ Cause.Memory → result ≡ RunFault.Refused fault }
{
    match fault.cause {
        Cause::Memory => RunFault::Memory,
        _ => RunFault::Refused(fault),
    }
}

/// Returns the node that an object is written as.
fn tree_of_object<T: ToNode>(alloc: Global, object: &T) -> Result<Node, RunFault>
    ensures ok { IfOk result (λ n. n ≡ print final_tables T.FromNode.kind (T.FromNode.form_of object.now)) }
    ensures err { IfErr result (λ e. e ≡ RunFault.Memory) }
{
    match object.to_node(alloc) {
        Ok(node) => Ok(node),
        Err(_) => Err(RunFault::Memory),
    }
}
