//! Laws of stops, for proofs in other crates to cite. Each function does nothing; its contract is the law.
ghost use Rattle.std.specs.Prelude.{◌≡◌, ◌≤◌, ◌↔◌, ℕ, List};
ghost use Rattle.ng_canon.specs.declared.item.Item.{Item};
ghost use Rattle.ng_rig.specs.Trace.{Image, Trace, Synced, reads, items, moment, IsStop, StopSince};
ghost use Rattle.ng_rig.specs.Moments.{StopsBetween};

/// What a stop may leave.
pub fn stops()
    // the image that a device reads as is one of its stops
    ensures reads { (trace : Trace) → IsStop trace (reads trace) (items trace) }

    // and after a good sync it is the only one
    ensures synced { (trace : Trace) (image : Image) (handed : List Item) →
        IsStop (Synced trace) image handed → image ≡ reads trace }

    // a stop since a moment is a stop at some moment from then on
    ensures since { (trace : Trace) (t : ℕ) (image : Image) (handed : List Item) →
        t ≤ moment trace → (StopSince trace t image handed ↔ StopsBetween trace t image handed) }
{}
