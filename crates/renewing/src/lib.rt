// A row copied from one place to another, and a place whose row is saved in another before it is written.
#![tactic(auto)]

ghost use Rattle.std.specs.Prelude.{◌≡◌, length};
ghost use Rattle.measures.specs.Measures.{bytes_at};
ghost use Rattle.placing.specs.Placing.{put_at, Inside};

use measures::Place;

// The row in one place is written to another.
pub fn copy(places: &mut [u8], width: usize, from: Place, to: Place)
    requires { Inside places.old width from.0 × Inside places.old width to.0 }
    ensures { places.new ≡ put_at width places.old to.0 (bytes_at width places.old from.0) }
{
    let start = from.offset(width);
    let dest = to.offset(width);
    places.copy_within(start..start + width, dest);
}

// The row in a place is saved in another, and then new bytes are written to the first.
pub fn renew(places: &mut [u8], width: usize, own: Place, spare: Place, bytes: &[u8])
    requires { Inside places.old width own.0 × Inside places.old width spare.0 × (length bytes.now ≡ width) }
    ensures { places.new ≡ put_at width (put_at width places.old spare.0 (bytes_at width places.old own.0)) own.0 bytes.now }
{
    copy(places, width, own, spare);
    placing::put(places, width, own, bytes);
}
