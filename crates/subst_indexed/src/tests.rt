use crate::expand::{expand, expand_into_slice};
use crate::parse::parse;
use crate::slot::Slot;
use crate::step::{Cursor, expand_step};
use crate::walk::Stop;
use crate::{IndexedTemplate, laws};
use std::test::Fail;

#[test]
fn a_source_is_expanded_by_number(rt: HostRuntime) -> Result<(), Fail> {
    let source = b"Hello ${name:no${b:x$c}y}, $b\\$ ${name} ${d?}!";
    let cells = parse(rt.alloc(), source)?;
    // A head, 15 parts and 4 names.
    assert_eq!(rt; cells.len(), 20);
    let values: [Option<&[u8]>; 4] = [Some(b"N"), Some(b"B"), None, None];
    let mut output = Vec::new(rt.alloc());
    assert!(rt; expand(&cells, source, &values, &mut output).is_ok());
    assert_eq!(rt; output.as_slice(), b"Hello N, B$ N !".as_slice());
    let mut slice = [0; 64];
    let values: [Option<&[u8]>; 3] = [None, None, Some(b"C")];
    let written = expand_into_slice(&cells, source, &values, &mut slice);
    assert!(rt; matches!(written, Err(Stop::Missing(_))));
    let values: [Option<&[u8]>; 0] = [];
    let written = expand_into_slice(&cells, b"Hello", &values, &mut slice);
    assert!(rt; matches!(written, Err(Stop::NotATemplate)));
    Ok(())
}

#[test]
fn a_template_has_numbered_names(rt: HostRuntime) -> Result<(), Fail> {
    let template = IndexedTemplate::from_slice(rt.alloc(), b"$a ${b:$c} $a")?;
    assert_eq!(rt; template.name_count(), 3);
    assert_eq!(rt; template.name(1), Some(b"b".as_slice()));
    assert_eq!(rt; template.source(), b"$a ${b:$c} $a".as_slice());
    let values: [Option<&[u8]>; 3] = [Some(b"A"), None, Some(b"C")];
    let output = template.expand(rt.alloc(), &values)?;
    assert_eq!(rt; output.as_slice(), b"A C A".as_slice());
    laws::cells_expand_to_the_value();
    laws::any_cells_are_harmless();
    Ok(())
}

#[test]
fn a_step_asks_for_a_value(rt: HostRuntime) -> Result<(), Fail> {
    let source = b"$a-$b";
    let cells = parse(rt.alloc(), source)?;
    let mut slice = [0; 8];
    let mut cursor = Cursor {
        index: 0,
        written: 0,
    };
    let values = [Slot::Set(b"A"), Slot::Unasked];
    let step = expand_step(&cells, source, &values, &mut cursor, &mut slice);
    assert!(rt; matches!(step, Err(Stop::Asks(1))));
    let values = [Slot::Set(b"A"), Slot::Set(b"B")];
    assert!(rt; expand_step(&cells, source, &values, &mut cursor, &mut slice).is_ok());
    assert_eq!(rt; slice.get(..cursor.written), Some(b"A-B".as_slice()));
    Ok(())
}

#[test]
fn many_names_are_numbered(rt: HostRuntime) -> Result<(), Fail> {
    let mut source = String::new(rt.alloc());
    for number in 0..200u32 {
        source.push_str(&format!(in rt.alloc(); "$n{} ", number % 100)?)?;
    }
    let template = IndexedTemplate::from_slice(rt.alloc(), source.as_bytes())?;
    assert_eq!(rt; template.name_count(), 100);
    assert_eq!(rt; template.name(99), Some(b"n99".as_slice()));
    Ok(())
}
