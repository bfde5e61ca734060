//! What no clause says: that the calls on open notes succeed, and what they give for one small file.
use crate::OpenNotes;
use refusals::Refusal;
use std::test::Fail;
use texts::faults::{Fault, Layer, ReadError};

#[test]
fn open_notes(rt: HostRuntime) -> Result<(), Fail> {
    let text =
        b"Package: map\nDepends: font | font-lite\n\nPackage: font\nConflicts: font-lite\n".as_slice();
    let open = OpenNotes::read(rt.alloc(), text)?;
    assert!(rt; open.text() == text, "the text");
    let names = open.notes().names();
    assert_eq!(rt; names.len(), 2, "the names");
    assert!(rt;
        names[1].of(open.text()) == b"font".as_slice(),
        "the second name"
    );
    assert_eq!(rt; open.notes().needs().len(), 1, "the clauses");
    let notes = open.into_notes();
    assert_eq!(rt; notes.clashes().len(), 1, "the conflicts");
    assert_eq!(rt; notes.names().len(), 2, "the names without the text");
    Ok(())
}

#[test]
fn open_notes_of_a_faulty_file(rt: HostRuntime) -> Result<(), Fail> {
    let error = OpenNotes::read(rt.alloc(), b"Package: a\n")
        .err()
        .ok_or("a fault")?;
    let fault = Fault::new(Refusal::BadName, Layer::Name, 9);
    assert_eq!(rt; error, ReadError::Faulty(fault));
    Ok(())
}
