// A window store: numbered places over a lent slice, where number j lies at place j mod the length.
#[derive(Drop)]
pub struct WindowStore<'a, T> {
    pub(crate) places: &'a mut [T],
}
