//! Laws of assignments, for proofs in the crates above to cite. A call does nothing; its contract is the law.
ghost use Rattle.ng_params.specs.Assignments.{TheLastCounts, TheOthersStay};

/// If a parameter is set several times, the last assignment counts. A parameter that isn't set keeps its value (NISTIR
/// 6556, 3.3.3).
pub fn assignments()
    ensures last { TheLastCounts }
    ensures others { TheOthersStay }
{}
