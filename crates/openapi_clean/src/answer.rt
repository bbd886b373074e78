//! The output for an input. Each step drops what the step before it made, and the first drops the input. So at most two
//! forms of it are in memory (see `openapi_text`).
ghost use Rattle.std.specs.Prelude.{◌≡◌, ◌++◌, ◌∷◌, [], string_bytes, IfOk, IfErr, OnOk, true};
ghost use Rattle.openapi_clean.specs.Commands.{kind_of};
ghost use Rattle.openapi_clean.specs.Output.{IsAnswer, lines_of, operation_line, text_for};
ghost use Rattle.openapi_tables.specs.Conforms.{conforms};
ghost use Rattle.openapi_tables.specs.Operations.{ops};
ghost use Rattle.openapi_tables.specs.Read.{form};
ghost use Rattle.openapi_tables.specs.Tables.{final_tables};
ghost use Rattle.openapi_text.specs.Texts.{Explains, IsFaultOf, rewritten, text_in};
ghost use Rattle.openapi_text.specs.Texts as texts;

use crate::command::Command;
use openapi_documents::OpenAPI;
use openapi_fields::FromNode;
use openapi_node::{Node, Steps};
use openapi_text::{Layout, Rewriting, RunFault, read_object, read_tree, rewrite, text_of};
use std::alloc::Global;
use std::mem;

/// Returns the output of a command for the bytes of an input, which are dropped once they are read.
///
/// # Errors
///
/// Returns [`RunFault::NotJson`] if the bytes are not JSON. Returns [`RunFault::Refused`] if a number is not whole or
/// the value does not conform, and [`RunFault::Memory`] if an allocation fails.
pub fn answer(
    alloc: Global,
    command: Command,
    bytes: Vec<u8>,
    steps: &mut Steps,
) -> Result<String, RunFault>
    ensures ok { IfOk result (λ text. IsAnswer command bytes.items (string_bytes text)) }
    ensures err { IfErr result (Explains Layout.ByName (kind_of command) bytes.items) }
{
    let node = read_tree(alloc, Layout::ByName, bytes.as_slice())?;
    drop(bytes);
    answer_tree(alloc, command, node, steps)
}

/// Returns the text that answers a command on a node.
fn answer_tree(
    alloc: Global,
    command: Command,
    node: Node,
    steps: &mut Steps,
) -> Result<String, RunFault>
    ensures ok { IfOk result (λ text. (conforms final_tables (kind_of command) node ≡ true)
        × (string_bytes text ≡ text_for command node)) }
    ensures err { IfErr result (IsFaultOf (kind_of command) node) }
{
    match command {
        Command::Tag => line(alloc, Rewriting::Tag, node, steps),
        Command::Schema => line(alloc, Rewriting::Schema, node, steps),
        Command::Document => line(alloc, Rewriting::Document, node, steps),
        Command::Settle => line(alloc, Rewriting::Settle, node, steps),
        Command::Operations => lines_of_object::<OpenAPI>(alloc, node, steps),
    }
}

/// Returns the line of what a node is rewritten to.
fn line(
    alloc: Global,
    rewriting: Rewriting,
    node: Node,
    steps: &mut Steps,
) -> Result<String, RunFault>
    ensures ok { IfOk result (λ text. (conforms final_tables (texts.kind_of rewriting) node ≡ true)
        × (string_bytes text ≡ text_in Layout.ByName (rewritten rewriting node))) }
    ensures err { IfErr result (IsFaultOf (texts.kind_of rewriting) node) }
{
    let node = rewrite(alloc, rewriting, node, steps)?;
    let text = text_of(alloc, &node, Layout::ByName, steps);
    // The program ends with this line, so dropping the node would only cost time.
    mem::forget(node);
    text
}

/// Returns the lines of what is read as a `T`.
fn lines_of_object<T: Lines + Drop>(
    alloc: Global,
    node: Node,
    steps: &mut Steps,
) -> Result<String, RunFault>
    ensures ok { IfOk result (λ text. (conforms final_tables T.FromNode.kind node ≡ true)
        × (string_bytes text ≡ T.lines_of_form (form final_tables T.FromNode.kind node))) }
    ensures err { IfErr result (IsFaultOf T.FromNode.kind node) }
{
    let object = read_object::<T>(alloc, node, steps)?;
    let lines = object.lines(alloc);
    mem::forget(object);
    lines
}

/// What is printed as lines of text.
trait Lines: FromNode {
    ghost use Rattle.std.specs.Prelude.{◌≡◌, ℕ, List, string_bytes, IfOk, IfErr};
    ghost use Rattle.openapi_tables.specs.Form.{Form};

    /// The lines of what has a form.
    ghost lines_of_form: { Form → List ℕ };

    /// Returns the lines of the object.
    fn lines(&self, alloc: Global) -> Result<String, RunFault>
        ensures ok { IfOk result (λ text. string_bytes text ≡ lines_of_form (Self.form_of self.now)) }
        ensures err { IfErr result (λ e. e ≡ RunFault.Memory) };
}

impl Lines for OpenAPI {
    ghost lines_of_form = { λ f. lines_of (ops f) };

    /// Returns a line for each operation: its method, a space, its path.
    fn lines(&self, alloc: Global) -> Result<String, RunFault> {
        let mut text = String::new(alloc);
        for (path, method, _) in self.operations() {
            push_line(&mut text, method, path)?;
        }
        Ok(text)
    }
}

/// Adds the line of an operation.
fn push_line(text: &mut String, method: &str, path: &str) -> Result<(), RunFault>
    ensures ok { OnOk result (string_bytes text.new ≡ string_bytes text.old ++ operation_line path.now method.now) }
    ensures err { IfErr result (λ e. e ≡ RunFault.Memory) }
{
    text.push_str(method)?;
    text.push(' ')?;
    text.push_str(path)?;
    text.push('\n')?;
    Ok(())
}
