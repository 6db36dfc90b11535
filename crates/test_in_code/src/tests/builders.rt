//! Errors through `?`, and names given as literals or by closures.

use air_core::{AirError, BoundaryEnd, BoundaryIoError, Element, Lazy, Name, NamespaceExt};
use air_field::{MatrixError, RingError};
use std::alloc::{AllocError, Global};
use std::string::ToString;
use std::test::Fail;

#[test]
fn errors_from_below_keep_what_they_say(rt: HostRuntime) -> Result<(), Fail> {
    let twice = BoundaryIoError::DuplicateCell {
        column: 4,
        end: BoundaryEnd::Last,
    };
    let ragged = MatrixError::Ragged { len: 3, width: 2 };
    for (made, wanted) in [
        (AirError::from(AllocError), AirError::Memory),
        (
            AirError::from(RingError::DegreeOverflow),
            AirError::DegreeOverflow,
        ),
        (
            AirError::from(ragged),
            AirError::Ragged { len: 3, width: 2 },
        ),
        (AirError::from(twice), AirError::Boundary(twice)),
    ] {
        assert_eq!(rt; made, wanted);
    }
    assert_eq!(rt;
        AirError::from(twice).to_string(rt.alloc())?.as_str(),
        "boundary-IO declares column 4 twice on the Last row"
    );
    Ok(())
}

// Adds the text of a name, in brackets.
fn add_name<N: Name>(name: N, text: &mut String) -> Result<(), Fail>
    requires { N.can_evaluate name }
{
    let shown = name.evaluate()?;
    write!(text, "[{shown}]")?;
    Ok(())
}

// Adds the text of the name `outer::inner`. (Only this function names the nested type: calls with less nested types are
// proved sooner.)
fn add_under<A: NamespaceExt, N: Name>(outer: A, inner: N, text: &mut String) -> Result<(), Fail>
    requires outer { A.can_evaluate outer }
    requires inner { N.can_evaluate inner }
{
    add_name(outer.name(inner), text)
}

// Adds the texts of all kinds of names under namespaces.
fn add_names(alloc: Global, text: &mut String) -> Result<(), Fail> {
    add_under("outer".join("mid"), "leaf", text)?;
    add_under("", "", text)?;
    add_under("z", Element(12), text)?;
    let column = 4;
    let lazy = Lazy(move || format!(in alloc; "column {column}"));
    add_under("row", lazy, text)
}

#[test]
fn names_stand_under_namespaces(rt: HostRuntime) -> Result<(), Fail> {
    let mut text = String::new(rt.alloc());
    add_names(rt.alloc(), &mut text)?;
    assert_eq!(rt;
        text.as_str(),
        "[outer::mid::leaf][::][z::[12]][row::column 4]"
    );
    Ok(())
}
