// Lists of items: how many bytes they write, where the next check order stands, which number is no item, and whether
// they are accepted.
ghost use Rattle.std.specs.Prelude.{◌+◌, ◌≤◌, ◌<◌, ◌≡◌, length, drop};
ghost use Rattle.lists.specs.Place.{everywhere, lowest};
ghost use Rattle.refusal.specs.Answer.{verdict_answer};
ghost use Rattle.items.specs.Item.{is_check, is_item, is_foreign, written_bytes};
ghost use Rattle.items.specs.Rule.{list_rule};

use crate::lanes::clear_at;
use refusal::Refusal;

// The most items, and the most written bytes, that a list may have.
const MAX_BYTES: usize = 6400;

// How many numbers are counted together, at most 65,535.
const COUNTED: usize = 32768;

// The bits of four lanes of which any number from a check order on has one.
const FROM_512: u64 = 0xfe00fe00fe00fe00;

// How many check orders a list has, so few that 16 bits count them: added with no jump for any, eight at a time.
fn count_checks(items: &[u16]) -> u16
    requires { length items.now < 65536 }
    ensures { length items.now + result ≡ written_bytes items.now }
{
    let mut count: u16 = 0;
    for item in items {
        count += crate::is_check(*item) as u16;
    }
    count
}

// How many bytes a list writes.
pub fn written_bytes(items: &[u16]) -> usize
    ensures { result ≡ written_bytes items.now }
{
    let mut count: usize = 0;
    let mut k: usize = 0;
    while COUNTED <= items.len() - k {
        let end = k + COUNTED;
        count += COUNTED + count_checks(&items[k..end]) as usize;
        k = end;
    }
    let rest = &items[k..];
    count + rest.len() + count_checks(rest) as usize
}

// Passes over numbers below a check order, eight at a time.
fn pass_eights(items: &[u16]) -> usize
    ensures within { result ≤ length items.now }
    ensures lowest { result + lowest is_check (drop result items.now) ≡ lowest is_check items.now }
{
    let mut k: usize = 0;
    while 8 <= items.len() - k {
        if clear_at(items, k, FROM_512) {
            k += 8;
        } else {
            return k;
        }
    }
    k
}

// The place of the lowest check order; the length where there is none.
pub fn find_check(items: &[u16]) -> usize
    ensures { result ≡ lowest is_check items.now }
{
    let start = pass_eights(items);
    let rest = &items[start..];
    for (k, item) in rest.iter().enumerate() {
        if crate::is_check(*item) {
            return start + k;
        }
    }
    items.len()
}

// The place of the lowest number that is no item; the length where there is none.
pub fn find_foreign(items: &[u16]) -> usize
    ensures { result ≡ lowest is_foreign items.now }
{
    for (k, item) in items.iter().enumerate() {
        if !crate::is_item(*item) {
            return k;
        }
    }
    items.len()
}

// Whether all numbers are items, told with no jump for any.
fn all_items(items: &[u16]) -> bool
    ensures { result ≡ everywhere is_item items.now }
{
    let mut all = true;
    for item in items {
        all &= crate::is_item(*item);
    }
    all
}

// Whether the list may be written: 4, then 3.
pub fn check_list(items: &[u16]) -> Result<(), Refusal>
    ensures { verdict_answer result ≡ list_rule items.now }
{
    if MAX_BYTES < items.len() {
        return Err(Refusal::TooLong);
    }
    if MAX_BYTES < written_bytes(items) {
        return Err(Refusal::TooLong);
    }
    if all_items(items) {
        return Ok(());
    }
    Err(Refusal::NotAnItem(find_foreign(items) as u32))
}
