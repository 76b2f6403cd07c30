//! A parameter with its new value.
use crate::index::Index;
use ng_num::Num;

/// A parameter's new value. The default gives parameter 1 the value 0.
#[derive(Clone, Copy, Debug, Default, PartialEq, Eq)]
pub struct Change {
    pub index: Index,
    pub value: Num,
}
