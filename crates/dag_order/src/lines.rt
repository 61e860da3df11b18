use containers::BoundedList;

/// The numbers that a program printed, in order.
pub type Lines = BoundedList<i64>;
