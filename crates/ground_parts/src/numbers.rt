// Numbers within their ranges.
ghost use Rattle.std.specs.Prelude.{◌≡◌};
ghost use Rattle.ground_model.specs.Sound.{is_small as small_test, is_number as number_test, are_known as known_test};

use symbols::SymbolId;

// Whether a number lies strictly between -2^62 and 2^62.
pub(crate) fn is_small(number: i128) -> bool
    ensures { result ≡ small_test number }
{
    -4_611_686_018_427_387_904 < number && number < 4_611_686_018_427_387_904
}

// Whether a number is one of so many, counted from 1.
pub(crate) fn is_number(last: usize, number: u32) -> bool
    ensures { result ≡ number_test last number }
{
    0 < number && number as usize <= last
}

// Whether each id is one of so many symbols.
pub(crate) fn are_known(symbols: usize, ids: &[SymbolId]) -> bool
    ensures { result ≡ known_test symbols ids.now }
{
    ids.iter().all(|id| id.place() < symbols)
}
