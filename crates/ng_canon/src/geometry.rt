//! The machine's geometry: the steps and the travel of its axes, the rate of traverses, the shortest time of a pulse.
ghost use Rattle.std.specs.Prelude.{◌≡◌, ◌≤◌, ◌≤ℤ◌, ◌↔◌, pos, negsuc, IsSome, IfSome};
ghost use Rattle.ng_canon.specs.Limits.{IsAxis, IsPacing};

use crate::pace::{Feed, Rate};
use ng_num::{Len, Point};

/// One axis: its step and its travel, in machine coordinates.
#[derive(Clone, Copy, Debug, PartialEq, Eq)]
pub struct Axis {
    /// Nanometres a step, 10 to 1,000,000.
    pub step_nm: u32,
    /// The least coordinate, -10,000,000,000 to 0 nm.
    pub low: Len,
    /// The greatest coordinate, 0 to 10,000,000,000 nm.
    pub high: Len,
    pub ghost step_in_limits: { (10 ≤ step_nm) × (step_nm ≤ 1_000_000) },
    pub ghost low_in_limits: { (negsuc 9_999_999_999 ≤ℤ low) × (low ≤ℤ pos 0) },
    pub ghost high_in_limits: { (pos 0 ≤ℤ high) × (high ≤ℤ pos 10_000_000_000) },
}

impl Axis {
    ghost use Rattle.ng_canon.specs.Geometry.{IsStandardAxis, is_on};

    /// An axis with a step and a travel. `None` if one of them is outside its limits.
    pub fn new(step_nm: u32, low: Len, high: Len) -> Option<Axis>
        ensures when { IsSome result ↔ IsAxis step_nm low high }
        ensures step { IfSome result (λ axis. axis.step_nm ≡ step_nm) }
        ensures low { IfSome result (λ axis. axis.low ≡ low) }
        ensures high { IfSome result (λ axis. axis.high ≡ high) }
    {
        let is_step = 10 <= step_nm && step_nm <= 1_000_000;
        let is_low = -10_000_000_000 <= low.nm() && low.nm() <= 0;
        let is_high = 0 <= high.nm() && high.nm() <= 10_000_000_000;
        if is_step && is_low && is_high {
            Some(Axis { step_nm, low, high })
        } else {
            None
        }
    }

    /// A step of 1,000 nm and a travel from -1,000,000,000 to 1,000,000,000 nm: the default setting.
    fn standard() -> Axis
        ensures { IsStandardAxis result }
    {
        Axis {
            step_nm: 1_000,
            low: Len::of_nm(-1_000_000_000).unwrap(),
            high: Len::of_nm(1_000_000_000).unwrap(),
        }
    }

    /// Whether a machine coordinate is within the travel, ends included.
    pub fn contains(&self, coordinate: Len) -> bool
        ensures { result ≡ is_on self.now coordinate }
    {
        self.low.nm() <= coordinate.nm() && coordinate.nm() <= self.high.nm()
    }
}

/// The machine's geometry, as its settings give it (own).
#[derive(Clone, Copy, Debug, PartialEq, Eq)]
pub struct Geometry {
    pub x: Axis,
    pub y: Axis,
    pub z: Axis,
    /// 1 to 100,000,000,000 nm a minute.
    pub traverse: Rate,
    /// The least period of a pulse, 1 to 1,000,000 us.
    pub least_period_us: u32,
    pub ghost traverse_in_limits: { traverse ≤ 100_000_000_000 },
    pub ghost period_in_limits: { (1 ≤ least_period_us) × (least_period_us ≤ 1_000_000) },
}

impl Geometry {
    ghost use Rattle.ng_canon.specs.Geometry.{IsStandard, is_inside};

    /// A machine with three axes. `None` if its traverse rate or its least period is outside its limits.
    pub fn new(x: Axis, y: Axis, z: Axis, traverse: Rate, least_period_us: u32) -> Option<Geometry>
        ensures when { IsSome result ↔ IsPacing traverse least_period_us }
        ensures axes { IfSome result (λ machine. (machine.x ≡ x) × (machine.y ≡ y) × (machine.z ≡ z)) }
        ensures traverse { IfSome result (λ machine. machine.traverse ≡ traverse) }
        ensures period { IfSome result (λ machine. machine.least_period_us ≡ least_period_us) }
    {
        let is_traverse = traverse.nm_per_min() <= 100_000_000_000;
        let is_period = 1 <= least_period_us && least_period_us <= 1_000_000;
        if is_traverse && is_period {
            Some(Geometry {
                x,
                y,
                z,
                traverse,
                least_period_us,
            })
        } else {
            None
        }
    }

    /// The default settings: each axis has a step of 1,000 nm and a travel of 1,000,000,000 nm to either side; the
    /// traverse rate is 6,000,000,000 nm a minute; the least period is 50 us.
    pub fn standard() -> Geometry
        ensures { IsStandard result }
    {
        let traverse = Feed::of(Len::of_nm(6_000_000_000).unwrap());
        Geometry {
            x: Axis::standard(),
            y: Axis::standard(),
            z: Axis::standard(),
            traverse: Rate::of(traverse).unwrap(),
            least_period_us: 50,
        }
    }

    /// Whether a machine point is within the travel of all three axes, ends included.
    pub fn contains(&self, point: Point) -> bool
        ensures { result ≡ is_inside self.now point }
    {
        self.x.contains(point.x) && self.y.contains(point.y) && self.z.contains(point.z)
    }
}
