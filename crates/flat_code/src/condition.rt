use crate::test::Test;
use flat_expressions::Act;

/// A condition: the acts before its test, and the test.
#[derive(Drop)]
pub(crate) struct Condition {
    pub(crate) acts: Vec<Act>,
    pub(crate) test: Test,
}
