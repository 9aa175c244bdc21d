//! A keeper of commits in a SQLite database.
//!
//! The database has two tables. The table `about` has columns `item` and `value`, and its one row
//! (1, 1) names the format. The table `commits` has columns `place` and `bytes`; `place` numbers
//! the rows from 1 on. Other tables are left alone. Contracts know the content of a keeper, and
//! what a crash may leave of it, once it was loaded or replaced, if the database has the two tables
//! alone and while the disk has no fault.
#![tactic(auto)]

mod creation;
mod database;
mod keeper;
mod opening;
mod opens;
mod schema;
mod tables;

pub use keeper::SqliteKeeper;
pub use opens::{Adopted, AtPath, Opens};
