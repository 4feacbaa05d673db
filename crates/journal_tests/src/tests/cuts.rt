//! Files with a damaged record, and where these can be cut.
use super::lines::{book_after, fresh_site, trace_of};
use super::served::SITE_SUM;
use cell_table::Site;
use journal_records::{FIRST_LINE, append_record};
use journal_resume::{Damage, ResumeFault, damage_at, head_body, resume};
use std::alloc::Global;
use std::process::Abort;
use std::sync::Arc;
use std::test::Fail;

/// The last record of the file.
const LAST: u64 = 9;

/// A file that begins behind line 5, and where each of its records behind the head begins, and the last one ends.
fn file(alloc: Global, site: &Arc<Site>) -> Result<(Vec<u8>, Vec<usize>), Fail> {
    let mut book = book_after(alloc, site, 5)?;
    let head = head_body(alloc, SITE_SUM, &book)?;
    let mut octets = Vec::new(alloc);
    let mut places = Vec::new(alloc);
    octets.extend_from_slice(FIRST_LINE)?;
    append_record(&mut octets, 5, head.as_bytes())?;
    places.push(octets.len())?;
    for line in 5..LAST {
        let trace = trace_of(alloc, &mut book, line)?;
        append_record(&mut octets, line.saturating_add(1), trace.as_bytes())?;
        places.push(octets.len())?;
    }
    Ok((octets, places))
}

/// The octets with zeros from one place up to another.
fn with_hole(alloc: Global, octets: &[u8], from: usize, to: usize) -> Result<Vec<u8>, Fail> {
    let mut holed = octets.to_vec(alloc)?;
    for (place, octet) in holed.iter_mut().enumerate() {
        if from <= place && place < to {
            *octet = 0;
        }
    }
    Ok(holed)
}

/// A file with a hole is refused; cut as is said it is a whole journal up to the record in front.
fn is_cut(
    rt: &impl Abort,
    alloc: Global,
    site: &Arc<Site>,
    octets: &[u8],
    wanted: Damage,
) -> Result<(), Fail> {
    let fault = resume(alloc, site.clone()?, SITE_SUM, 5, octets).err();
    assert_eq!(rt; fault, Some(ResumeFault::Damaged(wanted.first)));
    assert_eq!(rt; damage_at(octets, wanted.first), Some(wanted));
    let (whole, _rest) = octets.split_at(wanted.octets.min(octets.len()));
    match resume(alloc, site.clone()?, SITE_SUM, 5, whole) {
        Ok(found) => {
            assert_eq!(rt; found.last.saturating_add(1), wanted.first);
            assert!(rt; found.left.is_empty());
            assert!(rt; found.book == book_after(alloc, site, found.last)?);
        }
        Err(fault) => panic!(rt; "{fault}"),
    }
    Ok(())
}

/// Each record but the last is a hole in turn, its first octet stays, or its last one: those behind it are whole.
#[test]
fn a_hole_is_refused_and_can_be_cut(rt: HostRuntime) -> Result<(), Fail> {
    let alloc = rt.alloc();
    let site = fresh_site(alloc)?;
    let (octets, places) = file(alloc, &site)?;
    for number in 6..LAST {
        let at = number.saturating_sub(6) as usize;
        let from = places.get(at).copied().unwrap_or(0);
        let to = places.get(at.saturating_add(1)).copied().unwrap_or(0);
        let wanted = Damage {
            first: number,
            octets: from,
            last: Some(LAST),
        };
        for (before, behind) in [(0usize, 0usize), (1, 0), (0, 1)] {
            let (from, to) = (from.saturating_add(before), to.saturating_sub(behind));
            let holed = with_hole(alloc, &octets, from, to)?;
            is_cut(&rt, alloc, &site, &holed, wanted)?;
        }
    }
    Ok(())
}

/// Two holes, of which the second is cut by the end; and one that takes a part of the next record with it.
#[test]
fn the_last_whole_record_is_told(rt: HostRuntime) -> Result<(), Fail> {
    let alloc = rt.alloc();
    let site = fresh_site(alloc)?;
    let (octets, places) = file(alloc, &site)?;
    let place = |at: usize| places.get(at).copied().unwrap_or(0);
    let wanted = Damage {
        first: 6,
        octets: place(0),
        last: Some(8),
    };
    let holed = with_hole(alloc, &octets, place(0), place(1))?;
    let (shorter, _rest) = holed.split_at(holed.len().saturating_sub(3));
    is_cut(&rt, alloc, &site, shorter, wanted)?;
    let reaching = with_hole(alloc, &octets, place(2), place(3).saturating_add(9))?;
    let none = Damage {
        first: 8,
        octets: place(2),
        last: None,
    };
    is_cut(&rt, alloc, &site, &reaching, none)
}

/// What a person reads.
#[test]
fn a_cut_is_told(rt: HostRuntime) -> Result<(), Fail> {
    let alloc = rt.alloc();
    let damage = Damage {
        first: 3,
        octets: 500,
        last: Some(4),
    };
    let told = format!(in alloc; "{damage}")?;
    assert_eq!(rt;
        told.as_str(),
        "record 3 is damaged; truncate -s 500 cuts the file after octet 500, and leaves a whole journal without the records from 3 \
         on; of these the last whole one is 4"
    );
    let alone = Damage {
        first: 3,
        octets: 500,
        last: None,
    };
    let told = format!(in alloc; "{alone}")?;
    assert!(rt;
        told.as_str().ends_with("from 3 on; of these none is whole"),
        "{told}"
    );
    assert!(rt; damage_at(b"in clear 1\n", 1).is_none());
    Ok(())
}
