//! Both kinds of tables, of which a book has one: trees, and those in which all is found by its place.
use super::holds;
use cell_table::Site;
use radio_book::book::Usage;
use radio_book::event::{Event, Reply};
use radio_book::records::Records;
use radio_tables::DenseTables;
use radio_tables::maps::MapTables;
use radio_tables::tables::{CopyTables, Tables};
use std::alloc::{AllocError, Allocator};
use std::marker::Model;
use std::sync::Arc;

// What an event does is proved for sound tables of any kind. A book keeps its own sound; these are kept so here.
#[derive(Drop)]
pub(super) struct Sound<T: Tables> {
    records: Records<T>,
}

impl<T: Tables> Model for Sound<T> {
    ghost use Rattle.radio_tables.specs.State.{State, state_code};
    ghost use Rattle.radio_book.specs.Sound.{IsSound};

    ghost Value = { State };

    ghost coded = { state_code };

    ghost view = { λ sound. sound.records };

    ghost invariant = { λ sound. IsSound sound.records };
}

impl<T: Tables> Sound<T> {
    pub(super) fn step(&mut self, event: Event) -> Result<Reply, AllocError> {
        self.records.step(event)
    }

    pub(super) fn tables(&self) -> &T {
        self.records.tables()
    }

    pub(super) fn chosen(&self, call: u16) -> u8 {
        self.records.choose_number(call)
    }

    pub(super) fn usage(&self) -> Usage {
        let records = &self.records;
        holds(
            records.channels(),
            records.calls(),
            records.references(),
            records.timers(),
        )
    }
}

impl<T: CopyTables> Sound<T> {
    pub(super) fn copy(&self) -> Result<Sound<T>, AllocError> {
        let records = self.records.copy()?;
        Ok(Sound { records })
    }
}

pub(super) fn trees<A: Allocator + Copy>(alloc: A, site: Arc<Site<A>, A>) -> Sound<MapTables<A>> {
    let tables = MapTables::new(alloc, site);
    Sound {
        records: Records::over(tables),
    }
}

pub(super) fn dense<A: Allocator + Copy>(
    alloc: A,
    site: Arc<Site<A>, A>,
) -> Result<Sound<DenseTables<A>>, AllocError> {
    let tables = DenseTables::new(alloc, site)?;
    Ok(Sound {
        records: Records::over(tables),
    })
}
