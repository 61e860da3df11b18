/// A name: a letter or `_`, then letters, digits and `_`, as its bytes.
#[derive(Drop)]
pub struct Name {
    pub bytes: Vec<u8>,
}
