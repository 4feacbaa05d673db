//! Elements of radio resource messages. What their octets say, `tests/commands` shows.
use super::{RefusingHeap, equals, equals_at};
use rr_elements::{
    CellDescription, ChanDescription, ElementFault, MeasHead, MeasResults, Ncell, Power, RrCause,
    Sub,
};
use std::alloc::AllocError;
use std::test::Fail;

/// A report of a serving cell at level 30 and of one neighbour.
const HEAD: MeasHead = MeasHead {
    ba: false,
    dtx: false,
    full: 30,
    ba3g: false,
    valid: true,
    sub: 30,
    si23: false,
    qfull: 0,
    qsub: 0,
    count: 1,
};

/// The neighbour, at level 40, with position 2 and code 21.
const NEIGHBOUR: Ncell = Ncell {
    level: 40,
    position: 2,
    bsic: 21,
};

/// One of each element.
type Each = (
    CellDescription,
    ChanDescription,
    Power,
    RrCause,
    MeasResults,
);

fn one_of_each() -> Result<Each, ElementFault> {
    Ok((
        CellDescription::new(871, 2, 5)?,
        ChanDescription::new(3, Sub::Full, 5, 875)?,
        Power::new(true, 31)?,
        RrCause::new(8)?,
        MeasResults::new(HEAD, &[NEIGHBOUR])?,
    ))
}

/// Their octets, one behind another.
const OCTETS: [u8; 23] = [
    0xD5, 0x67, 0x0B, 0xA3, 0x6B, 0x9F, 0x08, 0x1E, 0x1E, 0x00, 0x68, 0x12, 0xA0, 0, 0, 0, 0, 0, 0,
    0, 0, 0, 0,
];

fn read_each() -> Result<Each, ElementFault> {
    Ok((
        CellDescription::decode(&OCTETS[..2])?,
        ChanDescription::decode(&OCTETS[2..5])?,
        Power::decode(&OCTETS[5..6])?,
        RrCause::decode(&OCTETS[6..7])?,
        MeasResults::decode(&OCTETS[7..])?,
    ))
}

/// Writes elements one after the other.
fn written<'a>(
    heap: &'a RefusingHeap,
    each: &Each,
) -> Result<Vec<u8, &'a RefusingHeap>, AllocError> {
    let (cell, channel, power, cause, results) = each;
    let mut out = Vec::new(heap);
    cell.encode_into(&mut out)?;
    channel.encode_into(&mut out)?;
    power.encode_into(&mut out)?;
    cause.encode_into(&mut out)?;
    results.encode_into(&mut out)?;
    Ok(out)
}

#[test]
fn elements_are_read_and_written(rt: HostRuntime) -> Result<(), Fail> {
    let each = one_of_each()?;
    equals(&rt, read_each()?, each);
    for n in 1..100 {
        let heap = RefusingHeap::refusing_nth(rt.alloc(), n);
        let answer = written(&heap, &each);
        equals_at(&rt, answer.is_err(), heap.was_refused(), n);
        if let Ok(out) = answer {
            equals_at(&rt, (out.as_slice(), 2 < n), (OCTETS.as_slice(), true), n);
            return Ok(());
        }
    }
    Err(Fail::from("a hundred requests"))
}

#[test]
fn other_octets_are_no_element(rt: HostRuntime) {
    let short = MeasResults::decode(&[0; 15]).err();
    let long = MeasResults::decode(&[0; 17]).err();
    equals(
        &rt,
        (short, long),
        (Some(ElementFault::Length), Some(ElementFault::Length)),
    );
    let hops = ChanDescription::decode(&[0x0B, 0xB3, 0x6B]).err();
    let wide = CellDescription::new(1024, 0, 0).err();
    equals(
        &rt,
        (hops, wide),
        (Some(ElementFault::Hopping), Some(ElementFault::BadRange)),
    );
}
