// Files that are taken apart, refused for their opening, or malformed.
use daybook::error::{FileError, Malformed, Missing};
use daybook::file::DayBook;
use pages::refusal::Refusal;
use std::test::*;

// What a file is told to be: its parts by their lengths, or the error.
fn lengths(bytes: &[u8]) -> Result<(u16, usize, usize, usize), FileError> {
    DayBook::read(bytes).map(|book| {
        (
            book.opening.parcels,
            book.opening.pages.len(),
            book.filings.len(),
            book.order.len(),
        )
    })
}

fn malformed(lacks: Missing, at: usize) -> FileError {
    FileError::Malformed(Malformed { lacks, at })
}

#[test]
fn good_files(rt: HostRuntime) -> Result<(), Fail> {
    assert_eq!(rt;
        lengths(&[1, 0, 5, 0, 0, 0, 9, 0, 0, 0, 0]),
        Ok((1, 8, 0, 0))
    );
    assert_eq!(rt;
        lengths(&[1, 0, 5, 0, 0, 0, 9, 0, 0, 0, 2, 7, 7, 0]),
        Ok((1, 8, 3, 0))
    );
    assert_eq!(rt;
        lengths(&[1, 0, 5, 0, 0, 0, 9, 0, 0, 0, 1, 7, 1, 8, 0, 1, 0, 0, 0]),
        Ok((1, 8, 4, 4))
    );
    Ok(())
}

#[test]
fn refused_openings(rt: HostRuntime) -> Result<(), Fail> {
    assert_eq!(rt; lengths(&[0, 0]), Err(FileError::Refused(Refusal::Parcels)));
    assert_eq!(rt; lengths(&[1, 4]), Err(FileError::Refused(Refusal::Parcels)));
    assert_eq!(rt;
        lengths(&[1, 0, 5, 0, 0]),
        Err(FileError::Refused(Refusal::Pages(3)))
    );
    assert_eq!(rt;
        lengths(&[1, 0]),
        Err(FileError::Refused(Refusal::Pages(0)))
    );
    assert_eq!(rt;
        lengths(&[1, 0, 5, 0, 0, 0, 0, 0, 0, 0, 9]),
        Err(FileError::Refused(Refusal::Area(0)))
    );
    Ok(())
}

#[test]
fn malformed_files(rt: HostRuntime) -> Result<(), Fail> {
    assert_eq!(rt; lengths(&[]), Err(malformed(Missing::Parcels, 0)));
    assert_eq!(rt; lengths(&[1]), Err(malformed(Missing::Parcels, 1)));
    assert_eq!(rt;
        lengths(&[1, 0, 5, 0, 0, 0, 9, 0, 0, 0]),
        Err(malformed(Missing::End, 10))
    );
    assert_eq!(rt;
        lengths(&[1, 0, 5, 0, 0, 0, 9, 0, 0, 0, 1, 7]),
        Err(malformed(Missing::End, 12))
    );
    assert_eq!(rt;
        lengths(&[1, 0, 5, 0, 0, 0, 9, 0, 0, 0, 2, 7]),
        Err(malformed(Missing::Filing, 10))
    );
    assert_eq!(rt;
        lengths(&[1, 0, 5, 0, 0, 0, 9, 0, 0, 0, 1, 7, 0, 3]),
        Err(malformed(Missing::Number, 13))
    );
    Ok(())
}
