//! The label table, and an entry that legs are gone along from.
ghost use Rattle.std.specs.Prelude.{◌<◌, ◌≤◌, ◌^◌, length};

use crate::row::Row;

/// A label table: rows that the caller lends, of which the first `entered` are entered, at least one.
#[derive(Drop)]
pub struct LabelTable<'t, L> {
    pub rows: &'t mut [Row<L>],
    pub entered: u16,
    ghost some: { 1 ≤ entered },
    ghost fits: { entered ≤ length rows.now },
    ghost short: { length rows.now < 2 ^ 16 },
}

/// An entry, with its node and its label.
#[derive(Clone, Copy, PartialEq, Eq, Debug)]
pub struct Departure<L> {
    pub entry: u16,
    pub node: u16,
    pub label: L,
}
