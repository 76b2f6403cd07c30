//! Laws of what is written, for proofs in the crates above to cite. A call does nothing; its contract is the law.
ghost use Rattle.ng_layout.specs.Pinned.{PinsField, PinsHeader, PinsPart, PinsToolPart, PinsText, PinsRecordPart};

/// What is said of a field or a sector that is written leaves no byte of it open: if two hold the same, they are the
/// same, byte for byte (own). For proofs that compare the bytes of devices, and for readers who ask whether a contract
/// above forgets a byte.
pub fn pinned()
    ensures field { PinsField }
    ensures header { PinsHeader }
    ensures part { PinsPart }
    ensures tools { PinsToolPart }
    ensures text { PinsText }
    ensures record_part { PinsRecordPart }
{}
