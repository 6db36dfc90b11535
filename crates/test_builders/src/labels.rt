//! Names whose texts are in a table.

use air_core::{Element, Name, NamespaceExt};
use std::alloc::Global;
use std::string::ToString;
use test_airs::Label;
use test_lines::words::count_of;
use test_lines::{Fault, Why};

// Adds a name's text.
fn show_name<N: Name>(alloc: Global, name: N, text: &mut String) -> Result<(), Fault>
    requires { N.can_evaluate name }
{
    let shown = name.evaluate()?.to_string(alloc)?;
    text.push_str(shown.as_str())?;
    Ok(())
}

/// Adds the text of a name under namespaces.
pub fn names(alloc: Global, call: &[&str], text: &mut String) -> Result<(), Fault> {
    match call {
        ["of", name] => show_name(alloc, Label::new(*name), text),
        ["name", space, name] => {
            show_name(alloc, Label::new(*space).name(Label::new(*name)), text)
        }
        ["join_name", outer, inner, name] => {
            let space = Label::new(*outer).join(Label::new(*inner));
            show_name(alloc, space.name(Label::new(*name)), text)
        }
        ["element", space, place] => {
            let element = Element(count_of(*place)?);
            show_name(alloc, Label::new(*space).name(element), text)
        }
        _ => Err(Fault::Unreadable(Why::NoSuchCall)),
    }
}
