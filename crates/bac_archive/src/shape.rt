//! Whether a schema is an archive's.

ghost use Rattle.std.specs.Prelude.{◌≡◌, ◌↔◌, [], ◌∷◌, IsTrue, false, true, All, map, codes};
ghost use Rattle.bac_archive.specs.Schema.{no_schema, archive_schema, archive, devices, logs};
ghost use Rattle.bac_archive.specs.Schema.{items};
ghost use Rattle.bac_archive.specs.Schema.{HasArchive, HasTables, HasIndexes, HasView, HasViews};
ghost use Rattle.bac_archive.specs.Schema.{RefersNowhere, lets_in};
ghost use Rattle.bac_archive.specs.Schema.{beginnings, column as column_of, plain_table};
ghost use Rattle.bac_archive.specs.Schema.{plain_view, once_index};
ghost use Rattle.bac_archive.specs.Schema.{records_text, gaps_text, epochs_text, newest_text};
ghost use Rattle.bac_archive.specs.Archive.{IsEarlier};
ghost use Rattle.bac_archive.specs.Beside.{StandBeside};
ghost use Rattle.sqlite_value.specs.Keys.{plain};

use crate::creation::{EPOCHS, GAPS, NEWEST, RECORDS};
use sqlite_items::Items;
use sqlite_schema::code::Terms;
use sqlite_schema::schema::{Column, Index, Kind, Schema, Stamps, Table, View};
use sqlite_value::keys::{Collation, Order};
use sqlite_value::value::Value;

fn is_null(value: &Value) -> bool
    ensures { IsTrue result ↔ (value.now ≡ Value.Null) }
{
    matches!(value, Value::Null)
}

fn is_column(column: &Column, name: &[u8], kind: Kind, not_null: bool) -> bool
    ensures { IsTrue result ↔ (column.now ≡ column_of name.now kind not_null) }
{
    column.name.as_slice() == name
        && column.kind == kind
        && column.is_strict
        && column.not_null == not_null
        && is_null(&column.default)
        && column.collation == Collation::Binary
}

fn is_no_term(terms: &Terms) -> bool
    ensures { IsTrue result ↔ (terms.now ≡ []) }
{
    terms.roots.is_empty()
}

fn is_no_stamp(stamps: &Stamps) -> bool
    ensures { IsTrue result ↔ (stamps.now ≡ record { places = []; terms = []; formats = [] }) }
{
    stamps.places.is_empty() && is_no_term(&stamps.terms) && stamps.formats.is_empty()
}

fn is_first_place(places: &[usize]) -> bool
    ensures { IsTrue result ↔ (places.now ≡ 0 ∷ []) }
{
    matches!(places, [0])
}

// A table of this name and tree with a key in its first column, and no more rules than columns and
// UNIQUE keys.
fn is_plain(table: &Table, name: &[u8], tree: u32) -> bool
    ensures { IsTrue result ↔ (table.now
        ≡ plain_table name.now tree table.now.columns table.now.uniques table.now.orders) }
{
    table.name.as_slice() == name
        && table.tree == tree
        && table.key == Some(0)
        && is_first_place(table.primary.as_slice())
        && is_no_term(&table.checks)
        && table.references.is_empty()
        && table.computed.is_empty()
        && is_no_stamp(&table.stamps)
        && !table.is_counted
}

/// The columns of the table of the version, each with its name, its kind and whether it is NOT
/// NULL.
const VERSIONS: [(&str, Kind, bool); 2] = [
    ("version", Kind::Integer, false),
    ("made", Kind::Text, true),
];

/// Those of the table of devices.
const DEVICES: [(&str, Kind, bool); 11] = [
    ("id", Kind::Integer, false),
    ("address", Kind::Text, true),
    ("dnet", Kind::Integer, true),
    ("dadr", Kind::Text, true),
    ("instance", Kind::Integer, false),
    ("name", Kind::Text, false),
    ("revision", Kind::Integer, false),
    ("whole", Kind::Integer, true),
    ("stopped", Kind::Integer, true),
    ("answered", Kind::Text, false),
    ("offset", Kind::Integer, false),
];

/// Those of the table of logs.
const LOGS: [(&str, Kind, bool); 10] = [
    ("id", Kind::Integer, false),
    ("device", Kind::Integer, true),
    ("instance", Kind::Integer, true),
    ("name", Kind::Text, false),
    ("source", Kind::Text, false),
    ("units", Kind::Text, false),
    ("description", Kind::Text, false),
    ("restart", Kind::Text, false),
    ("revision", Kind::Integer, false),
    ("stopped", Kind::Integer, true),
];

/// Those of the table of items.
const ITEMS: [(&str, Kind, bool); 6] = [
    ("id", Kind::Integer, false),
    ("last", Kind::Integer, false),
    ("stamp", Kind::Text, false),
    ("value", Kind::Real, false),
    ("datum", Kind::Text, false),
    ("flags", Kind::Text, false),
];

/// Those of the table of beginnings.
const BEGINNINGS: [(&str, Kind, bool); 3] = [
    ("id", Kind::Integer, false),
    ("number", Kind::Integer, true),
    ("why", Kind::Text, false),
];

/// Whether these are the columns of a table.
fn are_columns(columns: &[Column], wanted: &[(&str, Kind, bool)]) -> bool
    ensures { IsTrue result
        ↔ (columns.now ≡ map (λ w. column_of w.0.now w.1 w.2) wanted.now) }
{
    if columns.len() != wanted.len() {
        return false;
    }
    for place in 0..columns.len() {
        let (name, kind, not_null) = wanted[place];
        if !is_column(&columns[place], name.as_bytes(), kind, not_null) {
            return false;
        }
    }
    true
}

fn are_places_of_device(places: &[usize]) -> bool
    ensures { IsTrue result ↔ (places.now ≡ 2 ∷ 3 ∷ 4 ∷ []) }
{
    matches!(places, [2, 3, 4])
}

fn are_places_of_log(places: &[usize]) -> bool
    ensures { IsTrue result ↔ (places.now ≡ 2 ∷ 3 ∷ []) }
{
    matches!(places, [2, 3])
}

fn is_plain_order(orders: &[Order]) -> bool
    ensures { IsTrue result ↔ (orders.now ≡ plain ∷ []) }
{
    let [only] = orders else {
        return false;
    };
    only.digits == 0
}

fn is_key_of_device(uniques: &[Items<usize>]) -> bool
    ensures { IsTrue result ↔ (uniques.now ≡ (2 ∷ 3 ∷ 4 ∷ []) ∷ []) }
{
    let [only] = uniques else {
        return false;
    };
    are_places_of_device(only.as_slice())
}

fn is_key_of_log(uniques: &[Items<usize>]) -> bool
    ensures { IsTrue result ↔ (uniques.now ≡ (2 ∷ 3 ∷ []) ∷ []) }
{
    let [only] = uniques else {
        return false;
    };
    are_places_of_log(only.as_slice())
}

fn is_archive_table(table: &Table) -> bool
    ensures { IsTrue result ↔ (table.now ≡ archive) }
{
    is_plain(table, b"archive", 0)
        && are_columns(table.columns.as_slice(), &VERSIONS)
        && table.uniques.is_empty()
        && table.orders.is_empty()
}

fn is_device_table(table: &Table) -> bool
    ensures { IsTrue result ↔ (table.now ≡ record devices { tree = 1 }) }
{
    is_plain(table, b"devices", 1)
        && are_columns(table.columns.as_slice(), &DEVICES)
        && is_key_of_device(table.uniques.as_slice())
        && is_plain_order(table.orders.as_slice())
}

fn is_log_table(table: &Table) -> bool
    ensures { IsTrue result ↔ (table.now ≡ record logs { tree = 3 }) }
{
    is_plain(table, b"logs", 3)
        && are_columns(table.columns.as_slice(), &LOGS)
        && is_key_of_log(table.uniques.as_slice())
        && is_plain_order(table.orders.as_slice())
}

fn is_item_table(table: &Table) -> bool
    ensures { IsTrue result ↔ (table.now ≡ record items { tree = 5 }) }
{
    is_plain(table, b"items", 5)
        && are_columns(table.columns.as_slice(), &ITEMS)
        && table.uniques.is_empty()
        && table.orders.is_empty()
}

fn is_beginning_table(table: &Table) -> bool
    ensures { IsTrue result ↔ (table.now ≡ record beginnings { tree = 6 }) }
{
    is_plain(table, b"beginnings", 6)
        && are_columns(table.columns.as_slice(), &BEGINNINGS)
        && table.uniques.is_empty()
        && table.orders.is_empty()
}

fn is_device_index(index: &Index) -> bool
    ensures { IsTrue result ↔ (index.now
        ≡ once_index (codes "sqlite_autoindex_devices_1") 1 (2 ∷ 3 ∷ 4 ∷ [])) }
{
    index.name.as_slice() == "sqlite_autoindex_devices_1".as_bytes()
        && index.tree == 2
        && index.table == 1
        && are_places_of_device(index.columns.as_slice())
        && index.order.digits == 0
        && index.is_unique
}

fn is_log_index(index: &Index) -> bool
    ensures { IsTrue result ↔ (index.now
        ≡ once_index (codes "sqlite_autoindex_logs_1") 3 (2 ∷ 3 ∷ [])) }
{
    index.name.as_slice() == "sqlite_autoindex_logs_1".as_bytes()
        && index.tree == 4
        && index.table == 3
        && are_places_of_log(index.columns.as_slice())
        && index.order.digits == 0
        && index.is_unique
}

fn is_view(view: &View, name: &[u8], sql: &[u8]) -> bool
    ensures { IsTrue result ↔ (view.now ≡ plain_view name.now view.now.tree sql.now) }
{
    view.name.as_slice() == name
        && view.sql.as_slice() == sql
        && view.foreign.is_none()
        && !view.binds
        && !view.is_bound
}

fn has_view(views: &[View], name: &[u8], sql: &[u8]) -> bool
    ensures { IsTrue result ↔ HasView name.now sql.now views.now }
{
    for view in views {
        if is_view(view, name, sql) {
            return true;
        }
    }
    false
}

fn has_records(views: &[View]) -> bool
    ensures { IsTrue result ↔ HasView (codes "records") records_text views.now }
{
    has_view(views, b"records", RECORDS.as_bytes())
}

fn has_gaps(views: &[View]) -> bool
    ensures { IsTrue result ↔ HasView (codes "gaps") gaps_text views.now }
{
    has_view(views, b"gaps", GAPS.as_bytes())
}

fn has_epochs(views: &[View]) -> bool
    ensures { IsTrue result ↔ HasView (codes "epochs") epochs_text views.now }
{
    has_view(views, b"epochs", EPOCHS.as_bytes())
}

fn has_newest(views: &[View]) -> bool
    ensures { IsTrue result ↔ HasView (codes "newest") newest_text views.now }
{
    has_view(views, b"newest", NEWEST.as_bytes())
}

// Whether none is a trigger, or an index whose text isn't understood.
fn have_no_trigger(views: &[View]) -> bool
    ensures { IsTrue result ↔ All (λ view. view.binds ≡ false) views.now }
{
    for view in views {
        if view.binds {
            return false;
        }
    }
    true
}

// Whether none has a foreign key.
fn refer_nowhere(tables: &[Table]) -> bool
    ensures { IsTrue result ↔ All RefersNowhere tables.now }
{
    for table in tables {
        if !table.references.is_empty() {
            return false;
        }
    }
    true
}

fn is_let_in(index: &Index) -> bool
    ensures { IsTrue result ↔ (lets_in index.now ≡ true) }
{
    let tree = index.table;
    !(index.is_unique && (tree == 0 || tree == 1 || tree == 3 || tree == 5 || tree == 6))
}

// Whether none is UNIQUE on a table of an archive.
fn are_let_in(indexes: &[Index]) -> bool
    ensures { IsTrue result ↔ All (λ i. lets_in i ≡ true) indexes.now }
{
    for index in indexes {
        if !is_let_in(index) {
            return false;
        }
    }
    true
}

// The tables of an archive, and others that refer nowhere.
fn are_tables(tables: &[Table]) -> bool
    ensures { IsTrue result ↔ HasTables tables.now }
{
    let [versions, met, known, kept, begun, others @ ..] = tables else {
        return false;
    };
    is_archive_table(versions)
        && is_device_table(met)
        && is_log_table(known)
        && is_item_table(kept)
        && is_beginning_table(begun)
        && refer_nowhere(others)
}

// The indexes of an archive, and others that let its rows in.
fn are_indexes(indexes: &[Index]) -> bool
    ensures { IsTrue result ↔ HasIndexes indexes.now }
{
    let [first, second, others @ ..] = indexes else {
        return false;
    };
    is_device_index(first) && is_log_index(second) && are_let_in(others)
}

// The views of an archive are among these, by name and text, and no trigger.
fn are_views(views: &[View]) -> bool
    ensures { IsTrue result ↔ HasViews views.now }
{
    has_records(views)
        && has_gaps(views)
        && has_epochs(views)
        && has_newest(views)
        && have_no_trigger(views)
}

/// Whether a schema is an archive's: its tables, its index and its views as they are. Behind them
/// may stand other tables, indexes and views, as whoever reads the archive makes them; but no
/// foreign key, no UNIQUE index on a table of the archive, and no trigger.
pub fn is_archive(schema: &Schema) -> bool
    ensures { IsTrue result ↔ HasArchive schema.now }
{
    are_tables(schema.tables.as_slice())
        && are_indexes(schema.indexes.as_slice())
        && are_views(schema.views.as_slice())
}

/// Whether a schema has nothing.
pub fn is_nothing(schema: &Schema) -> bool
    ensures { IsTrue result ↔ (schema.now ≡ no_schema) }
{
    schema.tables.is_empty() && schema.indexes.is_empty() && schema.views.is_empty()
}

/// A new archive has what an archive has to have, and so has one with a table more exactly if that
/// has no foreign key; with an index more exactly if it isn't UNIQUE on a table of the archive; and
/// with a view more exactly if it is no trigger.
pub fn others_may_stand()
    ensures beside { StandBeside }
    ensures made { HasArchive archive_schema }
{}

fn is_named(table: &Table, name: &[u8]) -> bool
    ensures { IsTrue result ↔ (table.now.name ≡ name.now) }
{
    table.name.as_slice() == name
}

/// Whether tables are named as those of formats 1 and 2.
pub(crate) fn is_earlier(tables: &[Table]) -> bool
    ensures { IsTrue result ↔ IsEarlier tables.now }
{
    let [first, second, third, ..] = tables else {
        return false;
    };
    is_named(first, b"archive") && is_named(second, b"logs") && is_named(third, b"items")
}
