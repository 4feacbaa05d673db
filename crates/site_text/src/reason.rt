//! Where in a site file the first mistake is, and what is allowed there: one line for a person.
//!
//! No clause says what the line holds. What is refused, and by which check, is `Site::read`'s to say. Its fault names the
//! key and not the place, since every caller but a person needs no more, and a place would have to go through all the
//! checks; so the text is read once more here, for the line alone, after a refusal that ends the run anyway. The line
//! can't name another key than the fault: it starts from the fault of this second reading, of the same text, and looks
//! for the first table with a mistake at that key.
use crate::document::{Place, entries};
use cell_table::limits::{MOST_CELLS, MOST_NEIGHBOURS, MOST_OUTSIDE};
use cell_table::ranges::{arfcn_range, tch_range};
use cell_table::{Key, Site, SiteFault, What};
use screen_text::{Escaped, PrintFault};
use std::alloc::Global;
use std::fmt;
use std::io::Write;
use toml::Value;

/// The integers that a key may have, and what they are.
#[derive(Clone, Copy)]
struct Numbers {
    what: &'static str,
    least: i64,
    most: i64,
}

impl Numbers {
    fn hold(&self, value: &Value) -> bool {
        match value.as_integer() {
            Some(number) => self.least <= number && number <= self.most,
            None => false,
        }
    }
}

impl fmt::Display for Numbers {
    fn fmt<W: fmt::Write>(&self, f: &mut fmt::Formatter<W>) -> fmt::Result {
        let Numbers { what, least, most } = self;
        if least == most {
            write!(f, "the cell's BCCH carrier {least}")
        } else {
            write!(f, "{what} from {least} to {most}")
        }
    }
}

/// A value as it is said in a sentence: an integer by its digits, any other by its kind.
#[derive(Clone, Copy)]
struct Said<'a>(&'a Value);

impl<'a> fmt::Display for Said<'a> {
    fn fmt<W: fmt::Write>(&self, f: &mut fmt::Formatter<W>) -> fmt::Result {
        match self.0.as_integer() {
            Some(number) => write!(f, "{number}"),
            None => write!(f, "a value of the kind {}", self.0.type_str()),
        }
    }
}

/// What the integers at a key are.
fn words_of(key: Key) -> &'static str {
    match key {
        Key::Window => "a number of reports",
        Key::Margin | Key::Minimum => "a level",
        Key::Lac => "a location area code",
        Key::Ci => "a cell identity",
        Key::Bcch | Key::Ba | Key::Arfcn => "a carrier",
        Key::Ncc | Key::Bcc => "a colour code",
        Key::Power => "a power level",
        Key::Tch | Key::Half => "a timeslot",
        Key::Handover | Key::Cell | Key::Trx | Key::Outside => "a number of tables",
    }
}

/// The integers that a key, or an entry of it, may have: for the first TRX of a cell with the cell's BCCH carrier. They
/// are those that [`Site::read`] looks for.
fn numbers_of(key: Key, bcch: Option<u16>) -> Numbers {
    let allowed = match bcch {
        Some(bcch) if key == Key::Arfcn => arfcn_range(bcch, true),
        Some(_) if key == Key::Tch => tch_range(true),
        Some(_) | None => key.allowed(),
    };
    Numbers {
        what: words_of(key),
        least: i64::from(allowed.least),
        most: i64::from(allowed.most),
    }
}

/// What the value of a key may be; for the first TRX of a cell with the cell's BCCH carrier.
#[derive(Clone, Copy)]
struct Wanted {
    key: Key,
    bcch: Option<u16>,
}

impl fmt::Display for Wanted {
    fn fmt<W: fmt::Write>(&self, f: &mut fmt::Formatter<W>) -> fmt::Result {
        let numbers = numbers_of(self.key, self.bcch);
        let Numbers { least, most, .. } = numbers;
        match self.key {
            Key::Handover => write!(f, "a table"),
            Key::Cell | Key::Trx | Key::Outside => {
                write!(f, "an array of {least} to {most} tables")
            }
            Key::Ba => {
                write!(
                    f,
                    "an array of at most {MOST_NEIGHBOURS} carriers from {least} to {most}"
                )
            }
            Key::Tch => write!(f, "an array of timeslots from {least} to {most}"),
            Key::Half => write!(f, "an array of timeslots that are in tch too"),
            Key::Window
            | Key::Margin
            | Key::Minimum
            | Key::Lac
            | Key::Ci
            | Key::Bcch
            | Key::Ncc
            | Key::Bcc
            | Key::Power
            | Key::Arfcn => write!(f, "{numbers}"),
        }
    }
}

/// Whether the value of a key is an array, by the key.
fn is_list(key: Key) -> bool {
    matches!(key, Key::Ba | Key::Tch | Key::Half)
}

/// Whether the value of a key is an array of tables, by the key.
fn is_tables(key: Key) -> bool {
    matches!(key, Key::Cell | Key::Trx | Key::Outside)
}

/// Whether an array has as many tables as are allowed, and nothing else.
fn are_tables(value: &Value, count: &Numbers) -> bool {
    match value.as_array() {
        Some(found) => {
            let tables = found.as_slice();
            count.least <= tables.len() as i64
                && tables.len() as i64 <= count.most
                && tables.iter().all(|entry| entry.is_table())
        }
        None => false,
    }
}

/// Whether a value is what the key may have.
fn fits(key: Key, value: &Value, numbers: &Numbers) -> bool {
    if is_tables(key) {
        return are_tables(value, numbers);
    }
    if !is_list(key) {
        return numbers.hold(value);
    }
    match value.as_array() {
        Some(found) => {
            let few = !matches!(key, Key::Ba) || found.len() <= MOST_NEIGHBOURS;
            few && found.as_slice().iter().all(|entry| numbers.hold(entry))
        }
        None => false,
    }
}

/// A table where it stands, and of the first TRX of a cell the cell's BCCH carrier.
#[derive(Clone, Copy)]
struct Found<'a> {
    place: Place,
    table: &'a Value,
    bcch: Option<u16>,
}

/// Whether an integer is one of those in an array.
fn stands_in(entry: &Value, list: &[Value]) -> bool {
    list.iter()
        .any(|other| other.as_integer() == entry.as_integer())
}

/// Whether the timeslots of a TRX that also carry halves are traffic timeslots of it.
fn are_traffic(trx: &Value) -> bool {
    let slots = entries(trx, Key::Tch);
    entries(trx, Key::Half)
        .iter()
        .all(|entry| stands_in(entry, slots))
}

/// Whether a table lacks a key, or has another value there than it may have.
fn is_bad(table: &Value, key: Key, bcch: Option<u16>) -> bool {
    match table.get(key.name()) {
        Some(value) => {
            let apart = matches!(key, Key::Half) && !are_traffic(table);
            apart || !fits(key, value, &numbers_of(key, bcch))
        }
        None => !matches!(key, Key::Half),
    }
}

/// The integer at a key of a table.
fn integer_at(table: &Value, key: Key) -> Option<i64> {
    table.get(key.name())?.as_integer()
}

/// The BCCH carrier of a cell.
fn carrier_of(cell: &Value) -> Option<u16> {
    u16::try_from(integer_at(cell, Key::Bcch)?).ok()
}

/// The first TRX of a cell with a mistake at a key.
fn bad_trx(cell: &Value, number: usize, key: Key) -> Option<Found<'_>> {
    for (trx, table) in entries(cell, Key::Trx).iter().enumerate() {
        let bcch = if trx == 0 { carrier_of(cell) } else { None };
        if is_bad(table, key, bcch) {
            let place = Place::Trx(number, trx);
            return Some(Found { place, table, bcch });
        }
    }
    None
}

/// The first own cell, or TRX of one, with a mistake at a key.
fn bad_cell(document: &Value, key: Key) -> Option<Found<'_>> {
    for (number, table) in entries(document, Key::Cell).iter().enumerate() {
        if matches!(key, Key::Arfcn | Key::Tch | Key::Half) {
            if let Some(found) = bad_trx(table, number, key) {
                return Some(found);
            }
        } else if is_bad(table, key, None) {
            let place = Place::Cell(number);
            let bcch = None;
            return Some(Found { place, table, bcch });
        }
    }
    None
}

/// The first outside cell with a mistake at a key.
fn bad_outside(document: &Value, key: Key) -> Option<Found<'_>> {
    for (number, table) in entries(document, Key::Outside).iter().enumerate() {
        if is_bad(table, key, None) {
            let place = Place::Outside(number);
            let bcch = None;
            return Some(Found { place, table, bcch });
        }
    }
    None
}

/// The first table with a mistake at a key. The checks go table by table and stopped at this key, so a table before
/// the one that was refused has no mistake there.
fn first_bad(document: &Value, key: Key) -> Option<Found<'_>> {
    match key {
        Key::Handover | Key::Cell | Key::Outside => Some(Found {
            place: Place::Top,
            table: document,
            bcch: None,
        }),
        Key::Window | Key::Margin | Key::Minimum => Some(Found {
            place: Place::Handover,
            table: document.get(Key::Handover.name())?,
            bcch: None,
        }),
        Key::Power | Key::Ba | Key::Trx | Key::Arfcn | Key::Tch | Key::Half => {
            bad_cell(document, key)
        }
        Key::Lac | Key::Ci | Key::Bcch | Key::Ncc | Key::Bcc => match bad_cell(document, key) {
            Some(found) => Some(found),
            None => bad_outside(document, key),
        },
    }
}

/// Says which entry of an array isn't one of the numbers that are allowed.
fn say_list<W: Write>(list: &[Value], numbers: &Numbers, errors: &mut W) -> Result<(), PrintFault> {
    for entry in list {
        if !numbers.hold(entry) {
            writeln!(errors, "{} isn't {numbers}", Said(entry))?;
            return Ok(());
        }
    }
    Ok(())
}

/// Says which entry of an array isn't a table.
fn say_tables<W: Write>(list: &[Value], errors: &mut W) -> Result<(), PrintFault> {
    for (number, entry) in list.iter().enumerate() {
        if !entry.is_table() {
            writeln!(errors, "entry {number}: {} isn't a table", Said(entry))?;
            return Ok(());
        }
    }
    Ok(())
}

/// Whether an array at a key may have as many entries as this one.
fn are_few(key: Key, list: &[Value], numbers: &Numbers) -> bool {
    if is_tables(key) {
        return numbers.least <= list.len() as i64 && list.len() as i64 <= numbers.most;
    }
    !matches!(key, Key::Ba) || list.len() <= MOST_NEIGHBOURS
}

/// Says which entry of `half` is no timeslot, or none of those for traffic.
fn say_halves<W: Write>(trx: &Value, list: &[Value], errors: &mut W) -> Result<(), PrintFault> {
    let numbers = numbers_of(Key::Half, None);
    let slots = entries(trx, Key::Tch);
    for entry in list {
        if !numbers.hold(entry) {
            writeln!(errors, "{} isn't {numbers}", Said(entry))?;
            return Ok(());
        }
        if !stands_in(entry, slots) {
            writeln!(errors, "{} isn't one of the timeslots in tch", Said(entry))?;
            return Ok(());
        }
    }
    Ok(())
}

/// Says of an array at a key what doesn't fit: how many entries it has, or one of them.
fn say_array<W: Write>(list: &[Value], wanted: Wanted, errors: &mut W) -> Result<(), PrintFault> {
    let numbers = numbers_of(wanted.key, wanted.bcch);
    if !are_few(wanted.key, list, &numbers) {
        writeln!(
            errors,
            "it has {} entries, but has to be {wanted}",
            list.len()
        )?;
        return Ok(());
    }
    if is_tables(wanted.key) {
        return say_tables(list, errors);
    }
    say_list(list, &numbers, errors)
}

/// Says what the value of a key is, and what is allowed.
fn say_range<W: Write>(found: &Found<'_>, key: Key, errors: &mut W) -> Result<(), PrintFault> {
    let wanted = Wanted {
        key,
        bcch: found.bcch,
    };
    let Some(value) = found.table.get(key.name()) else {
        writeln!(errors, "it has to be {wanted}")?;
        return Ok(());
    };
    if is_tables(key) || is_list(key) {
        if let Some(list) = value.as_array() {
            if matches!(key, Key::Half) {
                return say_halves(found.table, list.as_slice(), errors);
            }
            return say_array(list.as_slice(), wanted, errors);
        }
    }
    writeln!(errors, "{} isn't {wanted}", Said(value))?;
    Ok(())
}

/// A cell by its place among all, the own and then those of others.
fn cell_at(document: &Value, place: usize) -> Option<Found<'_>> {
    let own = entries(document, Key::Cell);
    let (place, table) = match own.get(place) {
        Some(table) => (Place::Cell(place), table),
        None => {
            let number = place.checked_sub(own.len())?;
            (
                Place::Outside(number),
                entries(document, Key::Outside).get(number)?,
            )
        }
    };
    let bcch = None;
    Some(Found { place, table, bcch })
}

/// Whether two tables have the same integers at these keys.
fn are_alike(one: &Value, other: &Value, keys: &[Key]) -> bool {
    keys.iter()
        .all(|key| integer_at(one, *key) == integer_at(other, *key))
}

/// The first cell among so many that is like another.
fn first_like<'a>(
    document: &'a Value,
    other: &Value,
    before: usize,
    keys: &[Key],
) -> Option<Found<'a>> {
    for place in 0..before {
        if let Some(found) = cell_at(document, place) {
            if are_alike(found.table, other, keys) {
                return Some(found);
            }
        }
    }
    None
}

/// Says which cells have the same integers at these keys.
fn say_alike<W: Write>(
    document: &Value,
    keys: &[Key],
    names: &str,
    errors: &mut W,
) -> Result<(), PrintFault> {
    for place in 0..MOST_CELLS + MOST_OUTSIDE {
        let Some(cell) = cell_at(document, place) else {
            break;
        };
        if let Some(first) = first_like(document, cell.table, place, keys) {
            writeln!(
                errors,
                "{} and {} have the same {names}, but no two cells may",
                first.place, cell.place
            )?;
            return Ok(());
        }
    }
    Ok(())
}

/// The first integer that stands more than once.
fn repeated(list: &[Value]) -> Option<i64> {
    for entry in list {
        let same = list
            .iter()
            .filter(|other| other.as_integer() == entry.as_integer())
            .count();
        if same > 1 {
            return entry.as_integer();
        }
    }
    None
}

/// The first timeslot of a TRX that stands more than once at a key, and the key.
fn repeated_slot(trx: &Value) -> Option<(Key, i64)> {
    match repeated(entries(trx, Key::Tch)) {
        Some(slot) => Some((Key::Tch, slot)),
        None => Some((Key::Half, repeated(entries(trx, Key::Half))?)),
    }
}

/// Says in which TRX of a cell a timeslot stands twice; whether there is one.
fn say_slot<W: Write>(cell: &Value, number: usize, errors: &mut W) -> Result<bool, PrintFault> {
    for (trx, table) in entries(cell, Key::Trx).iter().enumerate() {
        if let Some((key, slot)) = repeated_slot(table) {
            writeln!(
                errors,
                "cell {number}, trx {trx}: {key}: {slot} is listed twice"
            )?;
            return Ok(true);
        }
    }
    Ok(false)
}

/// Says where a cell has a carrier or timeslot twice; whether it has.
fn say_repeated<W: Write>(
    cell: &Value,
    number: usize,
    what: What,
    errors: &mut W,
) -> Result<bool, PrintFault> {
    match what {
        What::Slot => return say_slot(cell, number, errors),
        What::Neighbour => {
            if let Some(carrier) = repeated(entries(cell, Key::Ba)) {
                writeln!(errors, "cell {number}: ba: {carrier} is listed twice")?;
                return Ok(true);
            }
        }
        What::Carrier => {
            if let Some(carrier) = repeated_carrier(entries(cell, Key::Trx)) {
                writeln!(
                    errors,
                    "cell {number}: two trx have arfcn {carrier}, but each needs its own"
                )?;
                return Ok(true);
            }
        }
        What::Identity | What::Colour => {}
    }
    Ok(false)
}

/// The first carrier that more than one TRX has.
fn repeated_carrier(trx: &[Value]) -> Option<i64> {
    for table in trx {
        let same = trx
            .iter()
            .filter(|other| integer_at(other, Key::Arfcn) == integer_at(table, Key::Arfcn))
            .count();
        if same > 1 {
            return integer_at(table, Key::Arfcn);
        }
    }
    None
}

/// Says what stands twice, and where.
fn say_twice<W: Write>(document: &Value, what: What, errors: &mut W) -> Result<(), PrintFault> {
    match what {
        What::Identity => return say_alike(document, &[Key::Lac, Key::Ci], "lac and ci", errors),
        What::Colour => return say_alike(
            document,
            &[Key::Bcch, Key::Ncc, Key::Bcc],
            "bcch, ncc and bcc",
            errors,
        ),
        What::Carrier | What::Slot | What::Neighbour => {}
    }
    for (number, cell) in entries(document, Key::Cell).iter().enumerate() {
        if say_repeated(cell, number, what, errors)? {
            return Ok(());
        }
    }
    Ok(())
}

/// Says what is wrong at a key, and in which table.
fn say_key<W: Write>(
    document: &Value,
    key: Key,
    missing: bool,
    errors: &mut W,
) -> Result<(), PrintFault> {
    let Some(found) = first_bad(document, key) else {
        return Ok(());
    };
    if !matches!(found.place, Place::Top) {
        write!(errors, "{}: ", found.place)?;
    }
    if missing {
        let bcch = found.bcch;
        writeln!(
            errors,
            "{key} is missing: it has to be {}",
            Wanted { key, bcch }
        )?;
        return Ok(());
    }
    write!(errors, "{key}: ")?;
    say_range(&found, key, errors)
}

/// The line and the column, both counted from 1, of what stands behind this front of a text. A column counts characters; a
/// byte order mark, which an editor doesn't show, is none.
fn place_behind(front: &str) -> (usize, usize) {
    let front = front.strip_prefix('\u{feff}').unwrap_or(front);
    let line = match front.rsplit_once('\n') {
        Some((_, line)) => line,
        None => front,
    };
    let feeds = front.bytes().filter(|octet| *octet == b'\n').count();
    (
        feeds.saturating_add(1),
        line.chars().count().saturating_add(1),
    )
}

/// Says why a text isn't TOML: line, column, and what was awaited there.
fn say_toml<W: Write>(
    path: &str,
    text: &str,
    fault: &toml::de::Error,
    errors: &mut W,
) -> Result<(), PrintFault> {
    let start = fault.span().map_or(0, |span| span.start);
    let (line, column) = place_behind(text.get(..start).unwrap_or(text));
    let message = fault.message();
    writeln!(errors, "{}:{line}:{column}: {message}", Escaped(path))?;
    Ok(())
}

/// Says in one line why a document that is TOML gives no site.
fn say_fault<W: Write>(
    path: &str,
    document: &Value,
    fault: SiteFault,
    errors: &mut W,
) -> Result<(), PrintFault> {
    write!(errors, "{}: ", Escaped(path))?;
    match fault {
        SiteFault::Missing(key) => say_key(document, key, true, errors),
        SiteFault::Range(key) => say_key(document, key, false, errors),
        SiteFault::Twice(what) => say_twice(document, what, errors),
        SiteFault::NoTraffic(cell) => {
            writeln!(
                errors,
                "cell {cell}: no trx has a timeslot in tch, but at least one is needed"
            )?;
            Ok(())
        }
        SiteFault::Toml | SiteFault::NoMemory => Ok(()),
    }
}

/// Says in one line why the text of a site file gives no site: the file, where in it, and what is allowed there. Nothing is
/// said of a text that gives one, nor if memory is refused, which is answered by `NoMemory`. The answer is whether something
/// was said.
pub fn say_reason<W: Write>(
    alloc: Global,
    path: &str,
    text: &str,
    errors: &mut W,
) -> Result<bool, PrintFault> {
    let fault = match Site::read(alloc, alloc, text) {
        Ok(_) => return Ok(false),
        Err(fault) => fault,
    };
    if matches!(fault, SiteFault::NoMemory) {
        return Err(PrintFault::NoMemory);
    }
    match toml::table_from_str(alloc, text) {
        Ok(document) => say_fault(path, &Value::Table(document), fault, errors)?,
        Err(fault) if fault.is_memory() => return Err(PrintFault::NoMemory),
        Err(fault) => say_toml(path, text, &fault, errors)?,
    }
    Ok(true)
}
