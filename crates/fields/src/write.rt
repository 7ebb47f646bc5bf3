//! Writing a field into memory that the caller lends.
ghost use Rattle.std.specs.Prelude.{◌≡◌, ◌+◌, ◌/◌, ◌%◌, ◌<◌, ◌≤◌, [], ◌∷◌, ◌++◌, length};
ghost use Rattle.fields.specs.Fields.{framed, field_bytes};
ghost use Rattle.fields.specs.Written.{written};

/// The tag and the length of a field, the high byte first.
fn head(tag: u8, size: usize) -> [u8; 3]
    requires { size < 65536 }
    ensures { result ≡ tag ∷ (size / 256) ∷ (size % 256) ∷ [] }
{
    let [high, low] = (size as u16).to_be_bytes();
    [tag, high, low]
}

/// Writes bytes at a place, and answers the place after them.
pub fn put(out: &mut [u8], at: usize, bytes: &[u8]) -> usize
    requires { at + length bytes.now ≤ length out.old }
    ensures answers_the_place_after { result ≡ at + length bytes.now }
    ensures bytes_are_written { out.new ≡ written out.old at bytes.now }
{
    let next = at + bytes.len();
    out[at..next].copy_from_slice(bytes);
    next
}

/// Writes a field at a place, and answers the place after it. Its content is a name, `=` and what the name is given.
pub fn write_field(out: &mut [u8], at: usize, tag: u8, name: &[u8], given: &[u8]) -> usize
    requires room_is_left { at + (4 + length name.now + length given.now) ≤ length out.old }
    requires length_fits_two_bytes { 1 + length name.now + length given.now < 65536 }
    ensures answers_the_place_after { result ≡ at + (4 + length name.now + length given.now) }
    ensures field_is_written { out.new ≡ written out.old at (field_bytes (framed tag (name.now ++ 0x3D ∷ given.now))) }
{
    let size = name.len() + 1 + given.len();
    let named = put(out, at, &head(tag, size));
    let sign = put(out, named, name);
    let value = put(out, sign, b"=");
    put(out, value, given)
}
