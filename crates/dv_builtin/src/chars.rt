// Arrays of chars.
ghost use Rattle.std.specs.Prelude.{◌≡◌, option_map};
ghost use Rattle.dv_words.specs.Heaps.{words_of_object};
ghost use Rattle.dv_words.specs.Words.{int_of};
ghost use Rattle.dv_builtin.specs.Natives.{IsChars};
ghost use Rattle.dv_builtin.specs.Parts.{chars_in};

use dv_heap::Heap;

/// The words of an array.
pub fn chars_of(heap: &Heap, array: u32) -> &[u32]
    ensures { IsChars heap.now array → result.now ≡ words_of_object heap.now array }
{
    if heap.exists(array) {
        heap.words(array)
    } else {
        &[]
    }
}

/// So many chars from a place on, by the words of two ints; none where they aren't all there.
pub fn some_chars(chars: &[u32], start: u32, count: u32) -> Option<&[u32]>
    ensures { option_map (λ s. s.now) result ≡ chars_in chars.now (int_of start) (int_of count) }
{
    let start = usize::try_from(start.cast_signed()).ok()?;
    let count = usize::try_from(count.cast_signed()).ok()?;
    chars.get(start..start + count)
}
