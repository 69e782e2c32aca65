// A place of the table, and the search for one.
ghost use Rattle.std.specs.Prelude.{◌≡◌};
ghost use Rattle.tunnel_table.specs.Places.{passing, tunnel_in, left_in};
ghost use Rattle.tunnel_table.specs.Spots.{FindPromise};

use crate::spot::Spot;
use tunnel::Tunnel;

// An open channel, as its place holds it; a free place holds none.
#[derive(Clone, Copy)]
pub struct Held {
    pub id: u8,
    pub tunnel: Tunnel,
}

// The first place with this id, none for a free place: an id that stands twice means its first place. 01 names the form: a loop that yields the place by break.
// Lent and out of line: drawn in eight times, it takes the table apart into bytes, and what is copied next waits for them.
#[inline(never)]
pub(crate) fn find(places: &[Option<Held>; 8], id: Option<u8>) -> Option<Spot>
    ensures { FindPromise places.now id result }
{
    let mut i: usize = 0;
    let found = loop {
        if i == 8 {
            break None;
        }
        if passes(places[i], id) {
            break Some(Spot { at: i });
        }
        i += 1;
    };
    found
}

fn passes(place: Option<Held>, id: Option<u8>) -> bool
    ensures { result ≡ passing id place }
{
    place.map(|held| held.id) == id
}

// A free place counts as a fresh tunnel; no call looks there.
pub(crate) fn tunnel_in(place: Option<Held>) -> Tunnel
    ensures { result ≡ tunnel_in place }
{
    place.map_or(Tunnel::fresh(), |held| held.tunnel)
}

// What a place holds after a step of its channel.
pub(crate) fn left_in(id: u8, left: Option<Tunnel>) -> Option<Held>
    ensures { result ≡ left_in id left }
{
    left.map(|tunnel| Held { id, tunnel })
}
