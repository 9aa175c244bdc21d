//! A column of texts, all of which are searched for a needle in one pass.
//!
//! A [`TextColumn`] keeps texts in the order in which they came, one after another in one vector
//! of bytes. A text may also be left out: the column then says so in its place. A search gives one
//! [`Mark`] a text: whether the needle is in it, or that the text is not kept. Contracts see the
//! list of the texts, `None` where a text is left out.
#![tactic(auto)]

mod column;
mod mark;
mod search;

pub use column::TextColumn;
pub use mark::Mark;
