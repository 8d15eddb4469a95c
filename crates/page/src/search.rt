// The lowest page that is lost, and the lowest whose fill is soiled, by the index of its set. Both count from 0.
ghost use Rattle.std.specs.Prelude.{◌<◌, ◌≤◌, ◌≡◌, false, length, unwrap_or, IfSome};
ghost use Rattle.lists.specs.Place.{anywhere, lowest};
ghost use Rattle.sets.specs.Set.{sectors_in};
ghost use Rattle.sets.specs.Held.{numbers};
ghost use Rattle.sets.specs.Alone.{is_twice_in};
ghost use Rattle.sets.specs.machine.Index.{shown, Within, Indexed};
ghost use Rattle.page.specs.Page.{page_numbers, is_dirt};
ghost use Rattle.page.specs.Reading.{is_lost, lost_at, soiled_at};

// An entry of the index is 0, or the place of the sector's length code; whether its sum holds stands behind it.
fn is_lost(set: &[u8], entry: u16) -> bool
    requires { Within set.now entry × (entry ≡ 65535 → ⊥) }
    ensures { result ≡ is_lost (shown set.now entry) }
{
    if entry == 0 {
        return true;
    }
    let code = entry as usize;
    if set[code] != 3 {
        return true;
    }
    set[code + 1] == 0
}

pub fn lowest_lost(set: &[u8], index: &[u16; 256], pages: usize) -> Option<usize>
    requires { Indexed set.now index.now
        × (anywhere (is_twice_in (sectors_in set.now)) numbers ≡ false)
        × (pages ≤ 16) }
    ensures lowest { unwrap_or result pages ≡ lowest (lost_at (sectors_in set.now)) (page_numbers pages) }
    ensures page { IfSome result (λ k. k < pages) }
{
    for k in 0..pages {
        if is_lost(set, index[k + 1]) {
            return Some(k);
        }
    }
    None
}

// Looks at every byte: a loop that could end early would go byte by byte.
fn is_soiled(fill: &[u8]) -> bool
    requires { length fill.now ≡ 24 }
    ensures { result ≡ anywhere is_dirt fill.now }
{
    let mut soiled = false;
    for byte in fill {
        soiled = soiled | (*byte != 0);
    }
    soiled
}

// None of the pages is lost, so that the index has the place of each.
pub fn lowest_soiled(set: &[u8], index: &[u16; 256], pages: usize) -> Option<usize>
    requires { Indexed set.now index.now
        × (anywhere (is_twice_in (sectors_in set.now)) numbers ≡ false)
        × (pages ≤ 16)
        × (anywhere (lost_at (sectors_in set.now)) (page_numbers pages) ≡ false) }
    ensures lowest { unwrap_or result pages ≡ lowest (soiled_at (sectors_in set.now)) (page_numbers pages) }
    ensures page { IfSome result (λ k. k < pages) }
{
    for k in 0..pages {
        let fill = index[k + 1] as usize + 1002;
        let end = fill + 24;
        if is_soiled(&set[fill..end]) {
            return Some(k);
        }
    }
    None
}
