// A query, as the arguments of a call say it (RFC 8620, section 5.5; RFC 8621, sections 2.3 and
// 4.4).
ghost use Rattle.std.specs.Prelude.{◌≡◌, ℕ, List, None, Option, Some, IfErr, IfOk};
ghost use Rattle.jm_json.specs.Tree.{null};
ghost use Rattle.jm_json.specs.Json.{tree_of};
ghost use Rattle.filter_terms.specs.Forms as Filters;
ghost use Rattle.sort_terms.specs.Forms as Orders;
ghost use Rattle.query_engine.specs.Queries;
ghost use Rattle.query_engine.specs.Responses.{ExplainsQuery, collapse_in, query, query_in, query_of, query_with, read_by, tree_in};
ghost use Rattle.query_engine.specs.Views.{QueryTree as TheQuery};
ghost use Rattle.query_engine.specs.Walks.{Serves};

use crate::faults::QueryFault;
use crate::walks::{Walk, find_walk};
use filter_terms::{self, Filter, TermFault, read_filter};
use jm_base::{Kind, Text};
use jm_json::{Json, Members};
use method_args::read_flag;
use sort_terms::{self, Order, read_order};
use std::alloc::Global;
use std::marker::Model;

/// A query of mailboxes or of emails. Contracts see the kind of record that it is of, the trees
/// that its filter and its sort were read from, and whether it collapses threads.
#[derive(Drop)]
pub struct Query {
    kind: Kind,
    filter: Filter,
    order: Order,
    collapse: bool,
    walk: Walk,
}

impl Model for Query {
    ghost use Rattle.query_engine.specs.Views.{QueryTree, query_code};

    ghost Value = { QueryTree };

    ghost coded = { query_code };

    ghost use Rattle.std.specs.Prelude.{◌≡◌};
    ghost use Rattle.query_engine.specs.Walks.{Serves};

    ghost view = { λ q. record {
      kind = q.kind;
      filter = q.filter.tree;
      order = q.order.tree;
      collapse = q.collapse;
    } };

    ghost invariant = { λ q. (q.filter.kind ≡ q.kind) × (q.order.kind ≡ q.kind)
        × Serves q.walk (record {
          kind = q.kind;
          filter = q.filter.tree;
          order = q.order.tree;
          collapse = q.collapse;
        }) };
}

impl Query {
    /// Returns the kind of record that the query is of.
    pub fn kind(&self) -> Kind
        ensures { result ≡ self.now.kind }
    {
        self.kind
    }

    /// Lends the filter.
    pub fn filter(&self) -> &Filter
        ensures { result.now ≡ record { kind = self.now.kind; tree = self.now.filter } }
    {
        &self.filter
    }

    /// Lends the sort.
    pub fn order(&self) -> &Order
        ensures { result.now ≡ record { kind = self.now.kind; tree = self.now.order } }
    {
        &self.order
    }

    /// Returns whether threads are collapsed.
    pub fn collapse(&self) -> bool
        ensures { result ≡ self.now.collapse }
    {
        self.collapse
    }

    // Returns which list serves the query.
    pub(crate) fn walk(&self) -> Walk
        ensures { Serves result self.now }
    {
        self.walk
    }

    /// Returns whether another email of its thread may decide whether an email is shown, or where.
    pub fn is_wide(&self) -> bool
        ensures { result ≡ Queries.is_wide self.now }
    {
        self.collapse || filter_terms::is_wide(&self.filter) || sort_terms::is_wide(&self.order)
    }
}

// Returns the value of an argument, null if it is absent.
fn find_tree_or<'a>(members: &'a Members, name: &str, absent: &'a Json) -> &'a Json
    requires { tree_of absent.now ≡ null }
    ensures { tree_of result.now ≡ tree_in name.now members.now }
{
    match members.get(name) {
        Some(tree) => tree,
        None => absent,
    }
}

fn read_collapse(kind: Kind, members: &Members) -> Option<bool>
    ensures { result ≡ collapse_in kind members.now }
{
    match kind {
        Kind::Email => read_flag(members, "collapseThreads"),
        Kind::Mailbox | Kind::Thread => Some(false),
    }
}

// Returns the fault of a query whose filter has an unknown condition: an invalid value of the sort
// comes first.
fn find_filter_fault(alloc: Global, kind: Kind, sort: &Json, name: Text) -> QueryFault
    ensures { (unknown : Option (List ℕ)) (q : TheQuery) → ExplainsQuery result
        (read_by None (Orders.invalid kind (tree_of sort.now)) (Some name) unknown q) }
{
    match read_order(alloc, kind, sort) {
        Err(TermFault::Invalid(member)) => QueryFault::Invalid(member),
        Err(TermFault::NoMemory) => QueryFault::NoMemory,
        Err(TermFault::Unsupported(_)) | Ok(_) => QueryFault::UnsupportedFilter(name),
    }
}

// Reads the query whose filter is read.
fn read_sorted(
    alloc: Global,
    filter: Filter,
    kind: Kind,
    tree: &Json,
    sort: &Json,
    collapse: bool,
) -> Result<Query, QueryFault>
    requires kind { filter.kind ≡ kind }
    requires tree { filter.tree ≡ tree_of tree.now }
    ensures ok { IfOk result (λ q. read_by None (Orders.invalid kind (tree_of sort.now)) None
        (Orders.unsupported kind (tree_of sort.now)) (record {
          kind = kind;
          filter = tree_of tree.now;
          order = tree_of sort.now;
          collapse = collapse;
        }) ≡ query q) }
    ensures err { IfErr result (λ e. ExplainsQuery e (read_by None
        (Orders.invalid kind (tree_of sort.now)) None
        (Orders.unsupported kind (tree_of sort.now)) (record {
          kind = kind;
          filter = tree_of tree.now;
          order = tree_of sort.now;
          collapse = collapse;
        }))) }
{
    match read_order(alloc, kind, sort) {
        Ok(order) => Ok(Query {
            kind,
            filter,
            order,
            collapse,
            walk: find_walk(kind, tree, sort),
        }),
        Err(TermFault::Invalid(name)) => Err(QueryFault::Invalid(name)),
        Err(TermFault::Unsupported(name)) => Err(QueryFault::UnsupportedSort(name)),
        Err(TermFault::NoMemory) => Err(QueryFault::NoMemory),
    }
}

// Reads the query of a filter, a sort and whether threads are collapsed.
fn read_filter_and_sort(
    alloc: Global,
    kind: Kind,
    tree: &Json,
    sort: &Json,
    collapse: bool,
) -> Result<Query, QueryFault>
    ensures ok { IfOk result (λ q. query_with kind (tree_of tree.now) (tree_of sort.now) collapse
        ≡ query q) }
    ensures err { IfErr result (λ e. ExplainsQuery e
        (query_with kind (tree_of tree.now) (tree_of sort.now) collapse)) }
{
    match read_filter(alloc, kind, tree) {
        Ok(filter) => read_sorted(alloc, filter, kind, tree, sort, collapse),
        Err(TermFault::Invalid(name)) => Err(QueryFault::Invalid(name)),
        Err(TermFault::Unsupported(name)) => Err(find_filter_fault(alloc, kind, sort, name)),
        Err(TermFault::NoMemory) => Err(QueryFault::NoMemory),
    }
}

/// Reads the query of a call from the members of its arguments: `filter`, `sort` and, of emails,
/// `collapseThreads`; each may be absent. Other members are ignored.
///
/// Fails with `Invalid` if a value is of a wrong kind, else with `UnsupportedFilter` if the filter
/// has an unknown condition, else with `UnsupportedSort` if the sort has an unknown property or
/// collation, or with `NoMemory` if an allocation fails.
pub fn read_query_in(alloc: Global, kind: Kind, members: &Members) -> Result<Query, QueryFault>
    ensures ok { IfOk result (λ q. query_in kind members.now ≡ query q) }
    ensures err { IfErr result (λ e. ExplainsQuery e (query_in kind members.now)) }
{
    let absent = Json::Null;
    match read_collapse(kind, members) {
        Some(collapse) => {
            let filter = find_tree_or(members, "filter", &absent);
            let sort = find_tree_or(members, "sort", &absent);
            read_filter_and_sort(alloc, kind, filter, sort, collapse)
        }
        None => Err(QueryFault::Invalid(Text::from_str(alloc, "collapseThreads")?)),
    }
}

/// Reads the query of a call from its arguments, as [`read_query_in`] does; they are at fault if
/// they are no object.
pub fn read_query(alloc: Global, kind: Kind, args: &Json) -> Result<Query, QueryFault>
    ensures ok { IfOk result (λ q. query_of kind (tree_of args.now) ≡ query q) }
    ensures err { IfErr result (λ e. ExplainsQuery e (query_of kind (tree_of args.now))) }
{
    match args.as_object() {
        Some(members) => read_query_in(alloc, kind, members),
        None => Err(QueryFault::Invalid(Text::from_str(alloc, "")?)),
    }
}
