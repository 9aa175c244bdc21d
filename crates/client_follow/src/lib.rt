//! What a client that follows the changes of an account holds: exactly what asking from scratch
//! would give (RFC 8620, sections 5.1, 5.2, 5.5 and 5.6).
//!
//! Laws of the round of [`client_cache`], over what a server replies: of the records of a kind that
//! are brought up to date by changes and gets, or loaded, and of result lists that are loaded page
//! by page, or changed in place. The definitions are in `specs/Views.antt`, `specs/Holdings.antt`
//! and `specs/Lists.antt`, and the laws of steps in `specs/Laws.antt`. Laws of whatever the call of
//! a step is answered are in `specs/Answers.antt`, and laws of the whole cache in
//! `specs/Agreement.antt`.
#![tactic(auto)]

mod laws;

pub use laws::{
    answers_bring_kinds_up_to_date, answers_keep_what_the_history_has, answers_load_kinds,
    answers_load_lists, caches_agree_as_histories_grow, changes_bring_records_up_to_date,
    changes_of_queries_arrive, gets_are_read_as_what_is_there, lists_are_brought_up_to_date,
    loads_are_read_as_all_records, loads_bring_all_records, pages_are_read_as_what_changed,
    pages_bring_whole_lists, records_are_those_of_states, results_are_read_as_part_of_a_list,
    rounds_begin_where_the_cache_is, rounds_bring_kinds_up_to_date, rounds_load_kinds,
    rounds_load_lists,
};
