ghost use Rattle.std.specs.Prelude.{◌≡◌};
ghost use Rattle.model.specs.Stores.{entity_at};
ghost use Rattle.store.specs.Places.{compared, place_of as listed_place};

use crate::store::Store;
use model::node::Uid;
use std::cmp::Ordering;

// How the uid at a place of a store compares with another, if there is such a place.
fn compare<S: Store>(store: &S, place: usize, uid: Uid) -> Option<Ordering>
    ensures { result ≡ compared (entity_at (S.Store.entities store.now) place) uid }
{
    store.uid(place).ok().map(|found| found.cmp(&uid))
}

// The place of a uid in a store, by halves: its uids ascend. The library's searches go over slices, and a store is asked
// place by place.
pub fn place_of<S: Store>(store: &S, uid: Uid) -> Option<usize>
    ensures { result ≡ listed_place (S.Store.entities store.now) uid }
{
    let mut low = 0;
    let mut high = store.count();
    while low < high {
        let middle = low + (high - low) / 2;
        match compare(store, middle, uid)? {
            Ordering::Less => low = middle + 1,
            Ordering::Equal => return Some(middle),
            Ordering::Greater => high = middle,
        }
    }
    None
}
