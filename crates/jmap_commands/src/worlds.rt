// The outside of the program.

/// The outside of the program: the world of `serve`, and the one of `sync` and `show`.
#[derive(Drop)]
pub struct Worlds<W, C> {
    pub server: W,
    pub client: C,
}
