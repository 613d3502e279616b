// What a module file is read into.

// The caller lends it: the module's tables, a row for each of its types, and the room of the reading. `Roomy` says how long they are.
// Stays: no ghost fields say that: a struct of `&mut` that has some is not covered by value, nor two slices lent on through a `&mut` of it.
#[derive(Drop)]
pub struct FileRoom<'a> {
    pub t: &'a mut [u32],
    pub rows: &'a mut [u32],
    pub seen: &'a mut [u32],
    pub held: &'a mut [u32],
}
