/// What an allocation does to a period.
#[derive(Clone, Copy, PartialEq, Eq, Debug)]
pub enum Charge {
    /// It fits what is left of the quota.
    Fits,
    /// It fits a whole quota, and not what is left: the period ends first.
    Ends,
    /// It is above the quota: its dummies are run first.
    Large,
}
