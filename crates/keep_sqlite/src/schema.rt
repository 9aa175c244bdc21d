// Whether the tables of a database are those of this format. What is compared is what the database
// understands of them, and not their texts.
ghost use Rattle.std.specs.Prelude.{◌≡◌, ◌↔◌, ◌||◌, [], ◌∷◌, IsTrue, is_some, option_map, option_and_then, slice_get};
ghost use Rattle.sqlite_schema.specs.Names.{table_named, index_named, view_named};
ghost use Rattle.keep_sqlite.specs.Format.{plain_column, plain_table, about_columns, commits_columns, about_table, commits_table, our_schema, no_schema};

use sqlite_schema::schema::{Column, Kind, Schema, Table};
use sqlite_value::keys::Collation;
use sqlite_value::value::Value;

/// What a database has of the two tables.
#[derive(Clone, Copy, Debug, PartialEq, Eq)]
pub enum Form {
    /// Neither, and their names are free.
    Missing,
    /// Both, as this format has them, next to any others.
    Made,
    /// Something else has one of their names.
    Other,
}

const ABOUT: &[u8] = b"about";

const COMMITS: &[u8] = b"commits";

/// Returns whether the database has the two tables and nothing else, as `load` creates them.
pub fn is_ours(schema: &Schema) -> bool
    ensures { IsTrue result ↔ (schema.now ≡ our_schema) }
{
    schema.indexes.is_empty() && schema.views.is_empty() && are_ours(schema.tables.as_slice())
}

fn are_ours(tables: &[Table]) -> bool
    ensures { IsTrue result ↔ (tables.now ≡ about_table 0 ∷ commits_table 1 ∷ []) }
{
    match tables {
        [about, commits] => is_about(about)
            && about.tree == 0
            && is_commits(commits)
            && commits.tree == 1,
        _ => false,
    }
}

fn is_about(table: &Table) -> bool
    ensures { IsTrue result ↔ (table.now ≡ about_table table.now.tree) }
{
    table.name.as_slice() == ABOUT && is_plain(table) && are_about_columns(table.columns.as_slice())
}

fn is_commits(table: &Table) -> bool
    ensures { IsTrue result ↔ (table.now ≡ commits_table table.now.tree) }
{
    table.name.as_slice() == COMMITS
        && is_plain(table)
        && are_commits_columns(table.columns.as_slice())
}

fn are_about_columns(columns: &[Column]) -> bool
    ensures { IsTrue result ↔ (columns.now ≡ about_columns) }
{
    match columns {
        [item, value] => is_column(item, b"item", Kind::Integer, false)
            && is_column(value, b"value", Kind::Integer, true),
        _ => false,
    }
}

fn are_commits_columns(columns: &[Column]) -> bool
    ensures { IsTrue result ↔ (columns.now ≡ commits_columns) }
{
    match columns {
        [place, bytes] => is_column(place, b"place", Kind::Integer, false)
            && is_column(bytes, b"bytes", Kind::Any, true),
        _ => false,
    }
}

// Returns whether the column has this name and kind, takes no NULL if it is required, and has
// nothing else.
fn is_column(column: &Column, name: &[u8], kind: Kind, required: bool) -> bool
    ensures { IsTrue result ↔ (column.now ≡ plain_column name.now kind required) }
{
    column.name.as_slice() == name
        && column.kind == kind
        && !column.is_strict
        && column.not_null == required
        && matches!(column.default, Value::Null)
        && column.collation == Collation::Binary
}

// Returns whether the first column is the INTEGER PRIMARY KEY, and there is no other rule.
fn is_plain(table: &Table) -> bool
    ensures { IsTrue result
        ↔ (table.now ≡ plain_table table.now.name table.now.tree table.now.columns) }
{
    table.key == Some(0)
        && table.primary.as_slice() == [0usize].as_slice()
        && has_no_unique(table)
        && has_no_default(table)
        && table.checks.roots.is_empty()
        && table.references.is_empty()
        && !table.is_counted
}

fn has_no_unique(table: &Table) -> bool
    ensures { IsTrue result ↔ ((table.now.uniques ≡ []) × (table.now.orders ≡ [])) }
{
    table.uniques.is_empty() && table.orders.is_empty()
}

fn has_no_default(table: &Table) -> bool
    ensures { IsTrue result ↔ ((table.now.computed ≡ [])
        × (table.now.stamps ≡ record { places = []; terms = []; formats = [] })) }
{
    table.computed.is_empty()
        && table.stamps.places.is_empty()
        && table.stamps.terms.roots.is_empty()
        && table.stamps.formats.is_empty()
}

/// Returns what the database has of the two tables.
pub fn find_form(schema: &Schema) -> Form
    ensures made { schema.now ≡ our_schema → result ≡ Form.Made }
    ensures missing { schema.now ≡ no_schema → result ≡ Form.Missing }
{
    match (find_table(schema, ABOUT), find_table(schema, COMMITS)) {
        (Some(about), Some(commits)) if is_about(about) && is_commits(commits) => Form::Made,
        (None, None) if !is_named(schema, ABOUT) && !is_named(schema, COMMITS) => Form::Missing,
        _ => Form::Other,
    }
}

fn find_table<'a>(schema: &'a Schema, name: &[u8]) -> Option<&'a Table>
    ensures { option_map (λ t. t.now) result
        ≡ option_and_then (slice_get schema.now.tables) (table_named schema.now name.now) }
{
    match schema.table_named(name) {
        Some(at) => schema.tables.get(at),
        None => None,
    }
}

// Returns whether an index or a view has this name, or anything else but a table.
fn is_named(schema: &Schema, name: &[u8]) -> bool
    ensures { result
        ≡ (is_some (index_named schema.now name.now) || is_some (view_named schema.now name.now)) }
{
    schema.index_named(name).is_some() || schema.view_named(name).is_some()
}
