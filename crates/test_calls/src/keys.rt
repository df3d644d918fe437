//! Keys of two numbers, of which only one is compared.

/// Two numbers. Only the group is compared and hashed.
#[derive(Clone, Copy, Debug)]
#[derive_where(PartialEq, Eq, Hash)]
pub(crate) struct Numbered {
    pub(crate) group: u32,
    #[derive_where(skip(EqHashOrd))]
    pub(crate) number: u32,
}

/// A key of this group. A map keeps the first of several equal keys.
pub(crate) fn key(group: u32, number: u32) -> Numbered {
    Numbered { group, number }
}
