// How fast a drive runs, and intervals corrected by it.
#![tactic(auto)]

ghost use Rattle.std.specs.Prelude.{◌≤◌, ◌<◌, ◌≡◌, length};
ghost use Rattle.refusal.specs.Answer.{verdict_answer};
ghost use Rattle.pace.specs.Pace.{difference, off_speed, pace_rule};
ghost use Rattle.pace.specs.machine.Cut.{cut, cut_from, Small, Measured, Able};

use refusal::Refusal;
use timing::HalfClocks;

// As many intervals are measured.
pub const RUN: usize = 64;

// Wide under every profile: numbers are cut off here, where those of 16 bits end.
const WIDE: u32 = 65535;

// 32 × T1, and the sums of the even and of the odd ones of the intervals before a lock.
#[derive(Clone, Copy, PartialEq, Eq)]
pub struct Pace {
    pub nominal: u32,
    pub even: u32,
    pub odd: u32,
}

// 16 × the difference, sign dropped, exceeds 32 × T1.
fn off_speed(nominal: u32, sum: u32) -> bool
    requires { (nominal ≤ 32736) × (sum ≤ 4194240) }
    ensures { result ≡ off_speed nominal sum }
{
    nominal < 16 * sum.abs_diff(nominal)
}

// The signed difference of a sum to 32 × T1.
pub fn difference(nominal: u32, sum: u32) -> i32
    requires { (nominal ≤ 32736) × (sum ≤ 4194240) }
    ensures { result ≡ difference nominal sum }
{
    sum as i32 - nominal as i32
}

// An interval at the pace of a sum, cut off.
fn corrected(nominal: u32, sum: u32, interval: u16) -> u16
    requires { (nominal ≤ 32736) × (0 < sum) }
    ensures { result ≡ cut nominal sum interval }
{
    let number = interval as u32 * nominal / sum;
    number.min(WIDE) as u16
}

impl Pace {
    // Of 64 intervals.
    pub fn measured(t1: HalfClocks, run: &[u16]) -> Pace
        requires t1_bound { t1.0 ≤ 1023 }
        requires run_len { length run.now ≡ 64 }
        ensures { Measured t1.0 run.now result }
    {
        let mut even: u32 = 0;
        let mut odd: u32 = 0;
        for pair in 0..RUN / 2 {
            even += run[2 * pair] as u32;
            odd += run[2 * pair + 1] as u32;
        }
        Pace {
            nominal: 32 * t1.0 as u32,
            even,
            odd,
        }
    }

    // 18, off speed: the even ones, then the odd.
    pub fn check(self) -> Result<(), Refusal>
        requires { Small self }
        ensures { verdict_answer result ≡ pace_rule self.nominal self.even self.odd }
    {
        if off_speed(self.nominal, self.even) {
            return Err(Refusal::OffSpeed(0));
        }
        if off_speed(self.nominal, self.odd) {
            return Err(Refusal::OffSpeed(1));
        }
        Ok(())
    }

    // Intervals of which the first is even: the two sums take turns.
    pub fn correct(self, intervals: &[u16], out: &mut [u16])
        requires able { Able self }
        requires out_len { length out.old ≡ length intervals.now }
        ensures { out.new ≡ cut_from self.nominal self.even self.odd intervals.now }
    {
        let nominal = self.nominal;
        let mut own = self.even;
        let mut other = self.odd;
        for (k, &interval) in intervals.iter().enumerate() {
            out[k] = corrected(nominal, own, interval);
            let next = other;
            other = own;
            own = next;
        }
    }
}
