// The numbers that the programs' processes end with: each `main` gives its own to the system. The bodies are in the crate programs.
#![tactic(auto)]

ghost use Rattle.std.specs.Prelude.{◌≤◌};

use programs::status::status_number;

// Lists the records of a card.
pub fn cardlist_main(rt: &HostRuntime) -> u8
    ensures { result ≤ 2 }
{
    status_number(programs::cardlist::run(rt))
}

// Checks a card.
pub fn cardcheck_main(rt: &HostRuntime) -> u8
    ensures { result ≤ 2 }
{
    status_number(programs::cardcheck::run(rt))
}

// Restores a card.
pub fn cardrestore_main(rt: &HostRuntime) -> u8
    ensures { result ≤ 2 }
{
    status_number(programs::cardrestore::run(rt))
}

// Converts a card into the other edition.
pub fn cardconvert_main(rt: &HostRuntime) -> u8
    ensures { result ≤ 2 }
{
    status_number(programs::cardconvert::run(rt))
}

// Reports the starts of each pump over a card.
pub fn cardstarts_main(rt: &HostRuntime) -> u8
    ensures { result ≤ 2 }
{
    status_number(programs::cardstarts::run(rt))
}

// Prints a card's day sheets as CSV.
pub fn cardsheets_main(rt: &HostRuntime) -> u8
    ensures { result ≤ 2 }
{
    status_number(programs::cardsheets::run(rt))
}

// Makes a card of day sheets from CSV.
pub fn cardwrite_main(rt: &HostRuntime) -> u8
    ensures { result ≤ 2 }
{
    status_number(programs::cardwrite::run(rt))
}

// Shows a record of a card.
pub fn cardlook_main(rt: &HostRuntime) -> u8
    ensures { result ≤ 2 }
{
    status_number(programs::cardlook::run(rt))
}

// Compares two day sheets.
pub fn cardcompare_main(rt: &HostRuntime) -> u8
    ensures { result ≤ 2 }
{
    status_number(programs::cardcompare::run(rt))
}
