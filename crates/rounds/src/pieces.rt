// What a request asks, as pieces of a store.

// Of the globals, and of the value.
#[derive(Clone, Copy)]
pub struct AskedPieces {
    pub globals: u32,
    pub value: u32,
}
