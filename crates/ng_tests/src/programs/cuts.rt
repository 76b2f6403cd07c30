//! A program that is broken off at every place, and what it writes.

/// What the program end writes.
pub(super) const PROGRAM_END: &str =
    "SET_ORIGIN_OFFSETS(0.000000, 0.000000, 0.000000)\nSELECT_PLANE(XY)\nSTOP_SPINDLE_TURNING()\nMIST_OFF()\nFLOOD_OFF()\nPROGRAM_END()\n";

/// A program whose reads and writes are broken off at every place.
pub(super) const CUTS: &str = "G21 G90 F600\nG0 X1 Y2\r\nG1 Z-1.5\nX3\n\nG91 X1\nM2\njunk";

/// What `CUTS` writes.
pub(super) const CUTS_TEXT: &str =
    "SET_FEED_RATE(600.000000)\nUSE_LENGTH_UNITS(MM)\nSTRAIGHT_TRAVERSE(1.000000, 2.000000, 0.000000)\nSTRAIGHT_FEED(1.000000, 2.000000, -1.500000)\nSTRAIGHT_FEED(3.000000, 2.000000, -1.500000)\nSTRAIGHT_FEED(4.000000, 2.000000, -1.500000)\nSET_ORIGIN_OFFSETS(0.000000, 0.000000, 0.000000)\nSELECT_PLANE(XY)\nSTOP_SPINDLE_TURNING()\nMIST_OFF()\nFLOOD_OFF()\nPROGRAM_END()\n";
