// Whether no set of a summary names a parameter its procedure lacks.
ghost use Rattle.std.specs.Prelude.{◌≡◌, ◌≤◌, ◌&&◌};
ghost use Rattle.std.specs.List.{list_all};
ghost use Rattle.meaning.specs.Limits.{most_parameters};
ghost use Rattle.meaning.specs.Sets.{inside, upto};
ghost use Rattle.flow.specs.Legality.{LegalPre, LegalPost};

use crate::copy::Places;
use crate::round::{STARTS, rows};
use book::bytes::number;
use book::entry::parameters;
use sets::{Bits, Set};

// The result set and the sets of the rows of each procedure name none but its parameters.
// (A `for` left early. Kept: no plainer, since the closure of an `all` over the numbers has to show some ten bounds.)
pub fn legal(book: &[u8], summary: &Places, starts: &[usize; STARTS]) -> bool
    requires { LegalPre book.now starts.now }
    ensures { LegalPost book.now summary.now result }
{
    let n = number(book[0]);
    for p in 0..n {
        if !owned(summary[p], rows(summary, starts, p), parameters(book, p)) {
            return false;
        }
    }
    true
}

// The result set and the sets of the rows name none but the first n parameters.
fn owned(own: Bits, rows: &[Bits], n: usize) -> bool
    requires { n ≤ most_parameters }
    ensures { result ≡ (inside own (upto n) && list_all (λ s. inside s (upto n)) rows.now) }
{
    Set::from(own).among(n) && rows.iter().all(|s| Set::from(*s).among(n))
}
