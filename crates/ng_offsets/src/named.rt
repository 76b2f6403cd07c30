//! The axes that a line names.
ghost use Rattle.std.specs.Prelude.{◌≡◌};
ghost use Rattle.ng_offsets.specs.Named.{length_by, named_by, put};

use ng_num::{Fault, Len, Num, Point, Unit, nm_of};

/// The axes that a line names, each with the length of its word.
#[derive(Clone, Copy)]
pub struct Named {
    pub x: Option<Len>,
    pub y: Option<Len>,
    pub z: Option<Len>,
}

/// The length of a word, in a unit.
fn length_by(word: Option<Num>, unit: Unit) -> Result<Option<Len>, Fault>
    ensures { result ≡ length_by word unit }
{
    match word {
        None => Ok(None),
        Some(number) => Ok(Some(nm_of(number, unit)?)),
    }
}

impl Named {
    /// The axes that words name, in a unit. E3 if a length is out of range (NISTIR 6556, 3.5.7).
    pub fn of(x: Option<Num>, y: Option<Num>, z: Option<Num>, unit: Unit) -> Result<Named, Fault>
        ensures { result ≡ named_by x y z unit }
    {
        let x = length_by(x, unit)?;
        let y = length_by(y, unit)?;
        let z = length_by(z, unit)?;
        Ok(Named { x, y, z })
    }

    /// The point with the named lengths on the named axes. Its other coordinates stay.
    pub fn put(&self, point: Point) -> Point
        ensures { result ≡ put self.now point }
    {
        Point {
            x: self.x.unwrap_or(point.x),
            y: self.y.unwrap_or(point.y),
            z: self.z.unwrap_or(point.z),
        }
    }
}
