/// A node of the table, with the hash that was given for it.
#[derive(Clone, Copy)]
pub struct Hashed<N> {
    pub hash: u32,
    pub node: N,
}
