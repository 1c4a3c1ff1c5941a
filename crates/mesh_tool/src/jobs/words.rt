//! Words by their places.
ghost use Rattle.std.specs.Prelude.{◌≡◌, slice_get, unwrap_or};
ghost use Rattle.mesh_tool.specs.Words.Words.{texts};

/// The word at that place, or the other octets where there is none.
pub fn word_or<'a>(words: &'a [String], place: usize, other: &'a [u8]) -> &'a [u8]
    ensures { result.now ≡ unwrap_or (slice_get (texts words.now) place) other.now }
{
    match words.get(place) {
        Some(word) => word.as_bytes(),
        None => other,
    }
}
