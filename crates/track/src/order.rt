// Entries by sector number, then by ID place.
ghost use Rattle.std.specs.Prelude.{◌≡◌};
ghost use Rattle.track.specs.machine.Insertion.{handed_before};

use crate::index::IndexEntry;

pub fn goes_before(a: IndexEntry, b: IndexEntry) -> bool
    ensures { result ≡ handed_before a b }
{
    if a.sector == b.sector {
        return a.id_place < b.id_place;
    }
    a.sector < b.sector
}
