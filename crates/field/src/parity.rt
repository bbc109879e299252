// The five weighted sums of a list of symbols, by Horner's rule; where 127 symbols of width 7 are given, by folds of numbers that hold eight
// symbols each. No entry point.
ghost use Rattle.std.specs.Prelude.{◌≡◌};
ghost use Rattle.field.specs.inner.Bytes.{sums_for};

use crate::folds::by_folds;
use crate::horner::one_by_one;

// For k from 0 to 4 the field sum over i of α^(k·i) times symbol i. Each byte counts by the symbol that it stands for.
pub fn parities(width: u8, symbols: &[u8]) -> [u8; 5]
    ensures { result ≡ sums_for width symbols.now }
{
    if width == 7 && symbols.len() == 127 {
        by_folds(symbols)
    } else {
        one_by_one(width, symbols)
    }
}
