// A place is five bytes: whether it is held, the channel, r, s and what it waits for.
ghost use Rattle.std.specs.Prelude.{◌≡◌, ◌≤◌};
ghost use Rattle.wire.specs.Layout.{copied};
ghost use Rattle.tunnel_image.specs.Image.{place_at, layout, UnpackPromise, PackPromise};

use tunnel::{Tunnel, Wait};
use tunnel_table::{Held, Table};
use wire::Refusal;

pub const SIZE: usize = 40;

// The table of an image, whatever its bytes are; bytes past the end count as 0.
pub fn unpack(image: &[u8]) -> Table
    ensures { UnpackPromise image.now result }
{
    let places = std::array::from_fn(|i| place_at(image, i * 5));
    Table { places }
}

// The image of a table's places.
pub fn pack(places: [Option<Held>; 8], image: &mut [u8]) -> Result<usize, Refusal>
    ensures { PackPromise places image.old result image.new }
{
    if image.len() < SIZE {
        return Err(Refusal::BufferTooSmall);
    }
    for (i, place) in places.iter().enumerate() {
        put_place(*place, image, i * 5);
    }
    Ok(SIZE)
}

// Its one caller owes the premise; a struct for that would be longer.
fn place_at(image: &[u8], at: usize) -> Option<Held>
    requires { at ≤ 35 }
    ensures { result ≡ place_at image.now at }
{
    if wire::byte_at(image, at) == 0 {
        return None;
    }
    let tunnel = Tunnel {
        r: wire::byte_at(image, at + 2),
        s: wire::byte_at(image, at + 3),
        w: Wait::from_u8(wire::byte_at(image, at + 4)),
    };
    Some(Held {
        id: wire::byte_at(image, at + 1),
        tunnel,
    })
}

fn put_place(place: Option<Held>, image: &mut [u8], at: usize)
    ensures { image.new ≡ copied (layout place) image.old at }
{
    let bytes = place_bytes(place);
    wire::copy_at(&bytes, image, at);
}

fn place_bytes(place: Option<Held>) -> [u8; 5]
    ensures { result ≡ layout place }
{
    match place {
        Some(held) => {
            let tunnel = held.tunnel;
            [1, held.id, tunnel.r, tunnel.s, tunnel.w.number()]
        }
        None => [0; 5],
    }
}
