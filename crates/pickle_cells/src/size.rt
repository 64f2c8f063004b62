//! How many bytes a string takes in a pickle.
ghost use Rattle.std.specs.Prelude.{◌≡◌, ◌<◌, ◌^◌};
ghost use Rattle.pickle_cells.specs.Cell.{padding, string_size};

/// The bytes of a string's item whose characters have `text` bytes: its count, the text and the padding.
pub fn string_item_size(text: usize) -> usize
    requires { text < 2 ^ 33 }
    ensures { result ≡ string_size text }
{
    4 + text + padding_behind(text)
}

/// How many bytes stand between so many bytes and the next multiple of 4.
#[tactic(auto, unfolding(crate::specs::Cell::padding))]
pub(crate) fn padding_behind(size: usize) -> usize
    ensures value { result ≡ padding size }
    ensures small { result < 4 }
{
    (4 - size % 4) % 4
}
