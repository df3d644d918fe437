/// What a group stores for a slot.
#[derive(Clone, Copy)]
pub struct Mark {
    // The tag of the hash of the slot's node, if there is one.
    pub tag: u8,
    // Whether the slot has a node of its group, and if not, whether it has a guest.
    pub own: bool,
    pub guest: bool,
}
