// Why a grid does not take a byte.

// The window would then leave the cells; nothing has changed. (`buffer::Full` is of bytes, and says nothing of a window.)
#[derive(Clone, Copy)]
pub(crate) struct Full;
