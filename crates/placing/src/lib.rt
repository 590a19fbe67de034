// The bytes of places: where a row lies, and a row written to a place. Each place's bytes are lent on as a part of the buffer.
#![tactic(auto)]

ghost use Rattle.std.specs.Prelude.{◌≡◌, length};
ghost use Rattle.measures.specs.Measures.{begins_at, bytes_at};
ghost use Rattle.placing.specs.Placing.{put_at, Inside, Lies};

use measures::Place;

// The bytes of a place, where they lie.
pub fn part(places: &[u8], width: usize, place: Place) -> &[u8]
    requires { Inside places.now width place.0 }
    ensures { (result.now ≡ bytes_at width places.now place.0) × Lies places.entry.ref_ptr (begins_at width place.0) result.ref_ptr }
{
    let start = place.offset(width);
    &places[start..start + width]
}

// A row is written to a place; every other byte is as it was.
pub fn put(places: &mut [u8], width: usize, place: Place, bytes: &[u8])
    requires { Inside places.old width place.0 × (length bytes.now ≡ width) }
    ensures { places.new ≡ put_at width places.old place.0 bytes.now }
{
    let from = place.offset(width);
    places[from..from + width].copy_from_slice(bytes);
}
