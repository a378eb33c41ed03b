// Summaries as the walk holds them: as long as any, the places behind a summary's own empty.
ghost use Rattle.std.specs.Prelude.{◌≤◌, length};
ghost use Rattle.flow.specs.Copies.{most_places, Holds, Stored, Same};

use book::limits::MOST_PLACES;
use sets::Bits;

// A summary as the walk holds it.
pub type Places = [Bits; MOST_PLACES];

// The summary in an array of its own.
pub fn copied(summary: &[u8]) -> Places
    requires { length summary.now ≤ most_places }
    ensures { Holds result summary.now }
{
    let mut copy = [0; MOST_PLACES];
    copy[..summary.len()].copy_from_slice(summary);
    copy
}

// The front of an array as a summary.
pub fn store(places: &Places, summary: &mut [u8])
    requires { length summary.old ≤ most_places }
    ensures { Stored places.now summary.old summary.new }
{
    let n = summary.len();
    summary.copy_from_slice(&places[..n]);
}

// The first n places agree.
pub fn same(a: &Places, b: &Places, n: usize) -> bool
    requires { n ≤ most_places }
    ensures { Same a.now b.now n result }
{
    a[..n] == b[..n]
}
