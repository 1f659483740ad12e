//! What a search leaves, which its certificate and its journal borrow.
ghost use Rattle.std.specs.Prelude.{◌≡◌};

use pb_lease::LeaseGraph;
use pb_owners::Owners;

/// What a search leaves, by the engine that searched. A certificate has its rows and a journal its
/// events, and both borrow it until they are saved. A further engine is one variant more.
#[derive(Drop)]
pub enum SearchedStore {
    /// The graph of a search by leases.
    Leases(LeaseGraph),
    /// The owners of a hash-distributed search.
    Owners(Owners),
}

/// Keeps the graph of a search by leases, and lends it.
pub fn keep_leases<'a>(kept: &'a mut Option<SearchedStore>, graph: LeaseGraph) -> &'a LeaseGraph
    ensures { result.now ≡ graph }
{
    // `insert` lends what it was just given, so the other variant can't come.
    match kept.insert(SearchedStore::Leases(graph)) {
        SearchedStore::Leases(graph) => graph,
        SearchedStore::Owners(_) => unreachable!(),
    }
}

/// Keeps the owners of a hash-distributed search, and lends them.
pub fn keep_owners<'a>(kept: &'a mut Option<SearchedStore>, owners: Owners) -> &'a Owners
    ensures { result.now ≡ owners }
{
    // `insert` lends what it was just given, so the other variant can't come.
    match kept.insert(SearchedStore::Owners(owners)) {
        SearchedStore::Owners(owners) => owners,
        SearchedStore::Leases(_) => unreachable!(),
    }
}
