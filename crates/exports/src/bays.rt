// The dock's counts, lent as five numbers, and a bay's call on them.
ghost use Rattle.std.specs.Prelude.{◌≡◌, length};
ghost use Rattle.code.specs.Call.{repair};
ghost use Rattle.exports.specs.Counts.{counts_size, rewrites_of, lent_counts, bay_asked, bay_of, bay_counts, bay_written};

use dock::{Rewrites, bay_restore_at};
use field::Question;

// The counts of the dock: those of bays 0 to 3, and then the common ones.
pub const COUNTS: usize = 5;

fn read_counts(left: &[u16]) -> Rewrites
    requires { length left.now ≡ counts_size }
    ensures { result ≡ rewrites_of left.now }
{
    Rewrites {
        own: [left[0], left[1], left[2], left[3]],
        common: left[4],
    }
}

pub fn write_counts(left: &mut [u16], counts: Rewrites)
    requires { length left.old ≡ counts_size }
    ensures { left.new ≡ lent_counts counts }
{
    let [a, b, c, d] = counts.own;
    left[..COUNTS].copy_from_slice(&[a, b, c, d, counts.common]);
}

// Is the bay below 4, and are there five counts?
fn ask_bay(bay: u8, n: usize) -> Result<(), Question>
    ensures { result ≡ bay_asked bay n }
{
    if 3 < bay {
        return Err(Question::Bay);
    }
    if n != COUNTS {
        return Err(Question::Length);
    }
    Ok(())
}

// A bay's call on lent counts, at the reach that is named or at the longest: the number of changed places.
pub fn restore_in_bay(
    bay: u8,
    left: &mut [u16],
    bytes: &mut [u8],
    reach: Option<u8>,
) -> Result<u8, Question>
    ensures answer { repair result ≡ bay_of bay reach left.old bytes.old }
    ensures counts { left.new ≡ bay_counts bay reach left.old bytes.old }
    ensures written { bytes.new ≡ bay_written bay reach left.old bytes.old }
{
    ask_bay(bay, left.len())?;
    let served = bay_restore_at(bay, read_counts(left), bytes, reach)?;
    write_counts(left, served.left);
    Ok(served.changed)
}
