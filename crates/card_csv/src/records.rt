// The record of a day sheet.
ghost use Rattle.std.specs.Prelude.{◌≡◌};
ghost use Rattle.card_csv.specs.Record.{record_made};

use card::records::{HEADER, RECORD, clear_header};
use sheet::{SHEET_WIDTH, write_sheet};

// The record of the sheet that has these symbols. Symbols of no sheet are refused and write nothing, which leaves a record of zeros.
pub fn record_of(symbols: &[u8]) -> [u8; RECORD]
    ensures { result ≡ record_made symbols.now }
{
    let mut bytes = [0u8; RECORD];
    let _ = write_sheet(SHEET_WIDTH, symbols, &mut bytes[HEADER..]);
    clear_header(&mut bytes, SHEET_WIDTH);
    bytes
}
