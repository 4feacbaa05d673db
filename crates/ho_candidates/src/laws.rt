//! A law of lists of candidates.
ghost use Rattle.ho_candidates.specs.Order.{OneListInOrder};

/// Two ordered lists of the same candidates are equal. So there is only one list that [`candidates`](crate::candidates) can
/// answer.
pub fn one_list_in_order()
    ensures law { OneListInOrder }
{}
