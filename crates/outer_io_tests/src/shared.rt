//! What the tests of several modules share.
use outer_io::{Failed, IoFault, Place, Sink, Source};
use std::alloc::{AllocError, Global};
use texts::List;

/// A list of those bytes.
pub(crate) fn bytes(alloc: Global, items: &[u8]) -> Result<List<u8>, AllocError> {
    Ok(List::from_vec(items.to_vec(alloc)?))
}

/// A list of the number.
pub(crate) fn number(alloc: Global, item: u32) -> Result<List<u32>, AllocError> {
    Ok(List::from_vec([item].to_vec(alloc)?))
}

/// What the first read of the file of that name gives, over any place.
pub(crate) fn first_read<P: Place>(
    place: &mut P,
    name: &str,
) -> Result<Result<usize, Failed>, IoFault> {
    let mut part = place.open(name)?;
    let mut buf = [1u8; 4];
    let outcome = part.read(&mut buf);
    place.give_back_in(part);
    Ok(outcome)
}

/// Creates the file of that name over any place, puts three texts, and gives the sink back. Says which puts failed.
pub(crate) fn write_file<P: Place>(
    place: &mut P,
    name: &str,
    texts: [&[u8]; 3],
) -> Result<[bool; 3], IoFault> {
    let mut part = place.create(name)?;
    let failed = texts.map(|text| part.put(text).is_err());
    place.give_back_out(part)?;
    Ok(failed)
}
