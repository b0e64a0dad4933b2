//! Which errors are about regions and which need a note, what becomes of an error, and how an impl's polarity prints.
use relation_terms::terms::ImplPolarity;
use relation_tools::error::{NoSolution, OutOfMemory, RelateFault, TypeError};
use std::alloc::AllocError;
use std::test::Fail;

type NumberError = TypeError<u8, u8, u8>;

type NumberFault = RelateFault<u8, u8, u8>;

#[test]
fn tells_errors_apart(rt: HostRuntime) -> Result<(), Fail> {
    let about_regions: NumberError = TypeError::RegionsPlaceholderMismatch;
    let why: NumberError = TypeError::Mismatch;
    let mut fine = about_regions.involves_regions() & about_regions.must_include_note();
    fine &= !why.involves_regions() & !why.must_include_note();
    fine &= NumberFault::from(why) == RelateFault::Unrelated(why);
    fine &= NumberFault::from(OutOfMemory::from(AllocError)) == RelateFault::Memory;
    assert!(rt; fine & (NoSolution::from(why) == NoSolution));
    let polarity = ImplPolarity::Reservation;
    assert_eq!(rt;
        format!(in rt.alloc(); "{polarity}")?.as_str(),
        "reservation"
    );
    Ok(())
}
